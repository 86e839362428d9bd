//! The words of the command line, and the commands that they give.
ghost use Rattle.std.specs.Prelude.{◌≡◌, ◌⊎◌};
ghost use Rattle.std.specs.IoError.{error_kind};
ghost use Rattle.std.specs.Process.{exit_status};
ghost use Rattle.clap.specs.Words.{kind_of};
ghost use Rattle.sqs_shell.specs.Inputs.{words_stop};
ghost use Rattle.sqs_shell.specs.Statuses.{usage_status};

use crate::faults::{self, Stop};
use crate::{check, compare, figures, run};
use clap::Error;
use clap::error::ErrorKind;
use sim_clock::Refusal;
use sqs_command_line::{Line, LineFault, line};
use std::alloc::{AllocFailed, Global};
use std::process::ExitCode;
use std::sync::Wait;
use std::thread::Threads;
use std::{env, io};

// Why the words can't be read: memory was refused, or one is not UTF-8.
fn words_stop(error: &io::Error) -> Stop<'static>
    ensures { result ≡ words_stop (error_kind error.now) }
{
    match error.kind() {
        io::ErrorKind::OutOfMemory => Stop::from(Refusal::Memory),
        _ => Stop::NotUtf8,
    }
}

// The words with which the program was called.
fn words(rt: &HostRuntime) -> Result<Vec<String>, Stop<'static>> {
    let given = match env::args(rt) {
        Ok(given) => given,
        Err(error) => return Err(words_stop(&error)),
    };
    let mut words = Vec::new(rt.alloc());
    for word in given {
        words.push(word)?;
    }
    Ok(words)
}

// Prints the help that was asked for.
fn help(rt: &HostRuntime, error: &Error) -> ExitCode
    ensures { (exit_status result ≡ 0) ⊎ (exit_status result ≡ 4) }
{
    match error.print(rt) {
        Ok(()) => ExitCode::SUCCESS,
        Err(_) => faults::tell(rt, Stop::from(Refusal::Write)),
    }
}

// Prints a usage fault, the help that was asked for, or that memory ran out. The status is 4 if
// help can't be written.
fn tell(rt: &HostRuntime, error: &Error) -> ExitCode
    ensures { (exit_status result ≡ usage_status (kind_of error.now))
        ⊎ ((usage_status (kind_of error.now) ≡ 0) × (exit_status result ≡ 4)) }
{
    match error.kind() {
        ErrorKind::OutOfMemory => faults::tell(rt, Stop::from(Refusal::Memory)),
        ErrorKind::DisplayHelp | ErrorKind::DisplayVersion => help(rt, error),
        _ => {
            let _ = error.print(rt);
            ExitCode::from(2)
        }
    }
}

// Does what a line asks for.
fn obey<W: Threads + Wait + Sync>(rt: &HostRuntime, threads: &W, asked: Line<'_>) -> ExitCode {
    match asked {
        Line::Check(asked) => check::check(rt, asked),
        Line::Run(asked) => run::run(rt, threads, asked),
        Line::Compare(asked) => compare::compare(rt, asked),
        Line::Figures(asked) => figures::figures(rt, asked),
    }
}

// Does what the words ask for.
fn obey_words<W: Threads + Wait + Sync>(rt: &HostRuntime, threads: &W, words: &[&str]) -> ExitCode {
    match line(rt.alloc(), words) {
        Ok(asked) => obey(rt, threads, asked),
        Err(LineFault::Words(error)) => tell(rt, &error),
    }
}

// The words as `clap` takes them.
fn borrowed(alloc: Global, words: &[String]) -> Result<Vec<&str>, AllocFailed<&str>> {
    let mut borrowed = Vec::new(alloc);
    for word in words {
        borrowed.push(word.as_str())?;
    }
    Ok(borrowed)
}

/// Does what the words of the command line ask for, with workers on these threads. Returns the
/// status with which the program ends.
pub fn answer<W: Threads + Wait + Sync>(rt: &HostRuntime, threads: &W) -> ExitCode {
    let words = match words(rt) {
        Ok(words) => words,
        Err(stop) => return faults::tell(rt, stop),
    };
    match borrowed(rt.alloc(), words.as_slice()) {
        Ok(given) => obey_words(rt, threads, given.as_slice()),
        Err(_) => faults::tell(rt, Stop::from(Refusal::Memory)),
    }
}
