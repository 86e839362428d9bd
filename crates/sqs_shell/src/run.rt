//! The command that rehearses.
ghost use Rattle.std.specs.Prelude.{◌≡◌, false};

use crate::faults::{Stop, tell, write_refusal};
use crate::files::{Inputs, buffered, file_named, read_inputs};
use crate::progress::Progress;
use crate::splits::split;
use sim_records::Out;
use sqs_command_line::RunLine;
use sqs_rehearsal::{Open, Options, rehearse_watched};
use std::fs::File;
use std::io::Write;
use std::process::ExitCode;
use std::sync::Wait;
use std::thread::Threads;

// Rehearses with this writer for the log; the rest goes to standard output.
fn write<'a, L: Out, W: Threads + Wait + Sync>(
    rt: &HostRuntime,
    threads: &W,
    inputs: Inputs,
    split: &Options,
    log: &mut L,
    mut progress: Progress<'_>,
) -> Result<(), Stop<'a>>
    requires { (L.state log.old).failed ≡ false }
{
    let Inputs { draft, scripts } = inputs;
    let mut report = buffered(rt, rt.stdout())?;
    let answer = rehearse_watched(
        threads,
        rt.alloc(),
        draft,
        &scripts,
        split,
        &Open,
        log,
        &mut report,
        &mut progress,
    );
    progress.end();
    Ok(answer?)
}

// Returns `Write` if standard output is closed: a file that is opened then would take its place,
// and would get what is meant for it.
fn look_for_output<'a>(rt: &HostRuntime) -> Result<(), Stop<'a>> {
    match rt.stdout().write(&[]) {
        Ok(_) => Ok(()),
        Err(error) => Err(Stop::from(write_refusal(&error))),
    }
}

// Rehearses what a line asks for.
fn rehearsed<'a, W: Threads + Wait + Sync>(
    rt: &HostRuntime,
    threads: &W,
    asked: RunLine<'a>,
) -> Result<(), Stop<'a>> {
    let inputs = read_inputs(rt, asked.scenario, asked.scripts, asked.version_3)?;
    let split = split(rt.alloc(), asked)?;
    let log = file_named(asked.log);
    let progress = Progress::new(rt, asked.quiet, log.is_some());
    match log {
        None => {
            let mut log = buffered(rt, rt.stdout())?;
            write(rt, threads, inputs, &split, &mut log, progress)
        }
        Some(path) => {
            look_for_output(rt)?;
            let file = match File::create(rt, path) {
                Ok(file) => file,
                Err(error) => return Err(Stop::from(write_refusal(&error))),
            };
            let mut log = buffered(rt, file)?;
            write(rt, threads, inputs, &split, &mut log, progress)
        }
    }
}

/// Rehearses a scenario, with its workers on these threads. Its log goes to a file, or
/// else or for `-` to standard output. The state at the end and the report go to standard output.
pub fn run<W: Threads + Wait + Sync>(
    rt: &HostRuntime,
    threads: &W,
    asked: RunLine<'_>,
) -> ExitCode {
    match rehearsed(rt, threads, asked) {
        Ok(()) => ExitCode::SUCCESS,
        Err(stop) => tell(rt, stop),
    }
}
