//! The command that gives the figures of a log.
ghost use Rattle.std.specs.Prelude.{◌≡◌};
ghost use Rattle.sqs_shell.specs.Statuses.{log_stop};

use crate::faults::{Stop, tell, write_refusal};
use crate::files::{Inputs, file_named, read_inputs};
use crate::splits::wanted_by;
use sim_clock::Refusal;
use sim_logs::LogFault;
use sim_report::Wanted;
use sim_scenario::Scenario;
use sqs_command_line::FiguresLine;
use sqs_rehearsal::figures_of_log;
use std::fs::File;
use std::io::{BufReader, Read, Write};
use std::process::ExitCode;

// Why the program stops if the log with this path is refused.
fn log_stop<'a>(fault: LogFault, path: &'a str) -> Stop<'a>
    ensures { result ≡ log_stop fault path.entry }
{
    match fault {
        LogFault::Memory => Stop::from(Refusal::Memory),
        LogFault::Unreadable => Stop::CannotRead(path),
        _ => Stop::NoLog(path, fault),
    }
}

// The figures of the log that a reader has, as text; the log's path is for what stops the program.
fn figures_of<'a, R: Read + Drop>(
    rt: &HostRuntime,
    scenario: &Scenario,
    wanted: Wanted,
    reader: R,
    path: &'a str,
) -> Result<Vec<u8>, Stop<'a>> {
    let mut log = match BufReader::new(rt.alloc(), reader) {
        Ok(log) => log,
        Err(error) => return Err(Stop::from(write_refusal(&error))),
    };
    match figures_of_log(rt.alloc(), scenario, wanted, &mut log) {
        Ok(text) => Ok(text),
        Err(fault) => Err(log_stop(fault, path)),
    }
}

// Reads a scenario and a log, and prints the figures of the log.
fn printed<'a>(rt: &HostRuntime, asked: FiguresLine<'a>) -> Result<(), Stop<'a>> {
    let Inputs { draft, scripts } = read_inputs(
        rt,
        asked.scenario,
        asked.scripts,
        asked.version_3,
    )?;
    let scenario = draft.read(rt.alloc(), &scripts)?;
    let wanted = wanted_by(asked.wanted);
    let text = match file_named(asked.log) {
        None => figures_of(rt, &scenario, wanted, rt.stdin(), "-")?,
        Some(path) => match File::open(rt, path) {
            Ok(file) => figures_of(rt, &scenario, wanted, file, path)?,
            Err(_) => return Err(Stop::CannotRead(path)),
        },
    };
    match rt.stdout().write_all(text.as_slice()) {
        Ok(()) => Ok(()),
        Err(error) => Err(Stop::from(write_refusal(&error))),
    }
}

/// Prints the figures of a log, from a file, or else or for `-` from standard input. The log is of a scenario,
/// which names its queues and actors.
pub fn figures(rt: &HostRuntime, asked: FiguresLine<'_>) -> ExitCode {
    match printed(rt, asked) {
        Ok(()) => ExitCode::SUCCESS,
        Err(stop) => tell(rt, stop),
    }
}
