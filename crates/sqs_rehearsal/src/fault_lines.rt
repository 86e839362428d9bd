//! The line of a fault.
ghost use Rattle.std.specs.Prelude.{◌≡◌, IfOk};
ghost use Rattle.sqs_formats.specs.Output.{at_place, fault_line as the_fault_line};
ghost use Rattle.sqs_rehearsal.specs.FaultLines.{refusal_line};

use crate::rehearsal::Fault;
use sqs_formats::ScenarioFault;
use std::alloc::{AllocError, Global};

// A fault's place as it follows the fault's name, if it has one.
fn at_place(alloc: Global, place: &[u8]) -> Result<Vec<u8>, AllocError>
    ensures { IfOk result (λ v. v.items ≡ at_place place.now) }
{
    let mut text = Vec::new(alloc);
    if !place.is_empty() {
        text.extend_from_slice(b" at ")?;
        text.extend_from_slice(place)?;
    }
    Ok(text)
}

/// The line of a scenario's fault, for example `refused 14 OutOfRange at queue[0].delay_s`. It
/// fails if memory runs out.
pub fn scenario_line(alloc: Global, fault: &ScenarioFault) -> Result<Vec<u8>, AllocError>
    ensures { IfOk result (λ v. v.items ≡ the_fault_line fault.now) }
{
    let code = fault.refusal.code();
    let name = fault.refusal.name();
    let front = format!(in alloc; "refused {code} {name}")?;
    let mut text = front.into_bytes();
    let place = at_place(alloc, fault.place.as_bytes())?;
    text.extend_from_slice(place.as_slice())?;
    text.extend_from_slice(b"\n")?;
    Ok(text)
}

/// The line of a fault, for example `refused 33 CountLimit`. It fails if memory runs out.
pub fn fault_line(alloc: Global, fault: &Fault) -> Result<Vec<u8>, AllocError>
    ensures { IfOk result (λ v. v.items ≡ refusal_line fault.now) }
{
    match fault {
        Fault::Scenario(fault) => scenario_line(alloc, fault),
        Fault::Refused(refusal) => {
            let code = refusal.code();
            let line = format!(in alloc; "refused {code} {refusal}\n")?;
            Ok(line.into_bytes())
        }
    }
}
