//! A comparison of two rehearsals.
use crate::faults::{Stop, tell, write_refusal};
use crate::files::{Inputs, buffered, read_inputs};
use sim_scenario::Scenario;
use sqs_command_line::CompareLine;
use sqs_rehearsal::{Outcome, reach_text};
use std::io::Write;
use std::process::ExitCode;

// The scenario of a file, with its scripts in a folder.
fn scenario<'a>(
    rt: &HostRuntime,
    path: Option<&'a str>,
    folder: Option<&str>,
    version_3: bool,
) -> Result<Scenario, Stop<'a>> {
    let Inputs { draft, scripts } = read_inputs(rt, path, folder, version_3)?;
    Ok(draft.read(rt.alloc(), &scripts)?)
}

// Runs both scenarios and prints the comparison, and behind it what is said of reach, if it is
// asked for.
fn compared<'a>(rt: &HostRuntime, asked: CompareLine<'a>) -> Result<(), Stop<'a>> {
    let alloc = rt.alloc();
    let first = scenario(rt, asked.first, asked.scripts, asked.version_3)?;
    let second = scenario(rt, asked.second, asked.scripts, asked.version_3)?;
    let reach = if asked.reach {
        reach_text(alloc, &first, &second)?
    } else {
        Vec::new(alloc)
    };
    let first = Outcome::of(alloc, first)?;
    let second = Outcome::of(alloc, second)?;
    let mut out = buffered(rt, rt.stdout())?;
    sqs_rehearsal::compare(alloc, &mut out, &first, &second)?;
    match rt.stdout().write_all(reach.as_slice()) {
        Ok(()) => Ok(()),
        Err(error) => Err(Stop::from(write_refusal(&error))),
    }
}

/// Rehearses two scenarios, each on one thread, and prints the comparison of their reports.
pub fn compare(rt: &HostRuntime, asked: CompareLine<'_>) -> ExitCode {
    match compared(rt, asked) {
        Ok(()) => ExitCode::SUCCESS,
        Err(stop) => tell(rt, stop),
    }
}
