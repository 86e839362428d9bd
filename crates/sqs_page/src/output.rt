//! The output of a rehearsal, in one text.
ghost use Rattle.std.specs.Prelude.{◌≡◌, ◌++◌, IfErr, IfOk, List, ℕ};
ghost use Rattle.sim_clock.specs.declared.refusal.Refusal.TheVariants.{Memory};
ghost use Rattle.sqs_formats.specs.Actors.{Files};
ghost use Rattle.sqs_page.specs.Pages.{IsOutputOf, IsRefusedFor, requested};
ghost use Rattle.sqs_page.specs.declared.asked.Asked.{Asked as TheAsked};
ghost use Rattle.sqs_rehearsal.specs.Rehearsals.{IsRefused};
ghost use Rattle.sqs_rehearsal.specs.Writers.{Writer};
ghost use Rattle.sqs_rehearsal.specs.declared.rehearsal.Fault.TheVariants.{Refused};

use crate::asked::Asked;
use sim_clock::Refusal;
use sim_records::ToWriter;
use sim_scenario::{Draft, Scripts};
use sqs_rehearsal::{Fault, rehearse_alone};
use std::alloc::Global;

// Why a rehearsal is refused whose writers write to memory: such a writer fails only if memory is
// refused.
#[tactic(auto, using(crate::proofs::Both::refused_for))]
fn in_memory(fault: Fault) -> Fault
    ensures { (asked : TheAsked) (text : List ℕ) (files : Files) (log report : Writer)
        → IsRefused (requested asked text files) log report fault
        → IsRefusedFor asked text files result }
{
    match fault {
        Fault::Refused(Refusal::Write) => Fault::Refused(Refusal::Memory),
        other => other,
    }
}

// A text with another one behind it; it fails only if memory is refused.
fn joined(mut text: Vec<u8>, more: &[u8]) -> Result<Vec<u8>, Fault>
    ensures joined { IfOk result (λ all. all.items ≡ text.items ++ more.now) }
    ensures memory_only { IfErr result (λ fault. fault ≡ Refused Memory) }
{
    match text.extend_from_slice(more) {
        Ok(()) => Ok(text),
        Err(_) => Err(Fault::Refused(Refusal::Memory)),
    }
}

/// The log of a scenario of a version up to the newest one, what is left at the end, the report, and
/// the figures that are wanted, or why it is refused.
pub fn output(alloc: Global, asked: Asked, text: &[u8], scripts: &Scripts) -> Result<Vec<u8>, Fault>
    ensures written { IfOk result (λ output.
        IsOutputOf asked text.now scripts.now output.items) }
    ensures refused { IfErr result (IsRefusedFor asked text.now scripts.now) }
{
    let mut log = ToWriter::new(Vec::new(alloc));
    let mut ending = ToWriter::new(Vec::new(alloc));
    let Ok(draft) = Draft::parse_upto(alloc, asked.newest, text) else {
        return Err(Fault::Refused(Refusal::Memory));
    };
    match rehearse_alone(alloc, draft, scripts, asked.figures, &mut log, &mut ending) {
        Ok(()) => joined(log.into_inner(), ending.get_ref().as_slice()),
        Err(fault) => Err(in_memory(fault)),
    }
}
