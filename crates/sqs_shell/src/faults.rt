//! What stops the program: a line on standard error, and the status that it ends with.
ghost use Rattle.std.specs.Prelude.{◌≡◌};
ghost use Rattle.std.specs.IoError.{error_kind};
ghost use Rattle.std.specs.Process.{exit_status};
ghost use Rattle.sqs_shell.specs.Statuses.{fault_status, status_of, stop_status, write_refusal};

use sim_clock::Refusal;
use sim_logs::LogFault;
use sim_scenario::ReadError;
use sqs_rehearsal::{Fault, scenario_line};
use std::alloc::{AllocError, AllocFailed, Global};
use std::io::{self, ErrorKind, Write};
use std::process::ExitCode;

/// Why the program stops.
#[derive(Drop)]
pub enum Stop<'a> {
    /// The input with this path can't be read; `-` is standard input.
    CannotRead(&'a str),
    /// The input with this path is no log of the scenario.
    NoLog(&'a str, LogFault),
    /// A word of the command line is not UTF-8.
    NotUtf8,
    /// The scenario or the rehearsal is refused.
    Refused(Fault),
}

impl<'a> From<AllocError> for Stop<'a> {
    ghost use Rattle.std.specs.Prelude.{◌≡◌};
    ghost use Rattle.sqs_shell.specs.declared.faults.Stop.TheVariants as stops;
    ghost use Rattle.sqs_rehearsal.specs.declared.rehearsal.Fault.TheVariants as faults;
    ghost use Rattle.sim_clock.specs.declared.refusal.Refusal.TheVariants.{Memory};

    ghost from_gives = { λ _ stop. stop ≡ stops.Refused (faults.Refused Memory) };

    fn from(_refused: AllocError) -> Stop<'a> {
        Stop::Refused(Fault::Refused(Refusal::Memory))
    }
}

impl<'a, T: Drop> From<AllocFailed<T>> for Stop<'a> {
    ghost use Rattle.std.specs.Prelude.{◌≡◌};
    ghost use Rattle.sqs_shell.specs.declared.faults.Stop.TheVariants as stops;
    ghost use Rattle.sqs_rehearsal.specs.declared.rehearsal.Fault.TheVariants as faults;
    ghost use Rattle.sim_clock.specs.declared.refusal.Refusal.TheVariants.{Memory};

    ghost from_gives = { λ _ stop. stop ≡ stops.Refused (faults.Refused Memory) };

    fn from(_refused: AllocFailed<T>) -> Stop<'a> {
        Stop::Refused(Fault::Refused(Refusal::Memory))
    }
}

impl<'a> From<Refusal> for Stop<'a> {
    ghost use Rattle.std.specs.Prelude.{◌≡◌};
    ghost use Rattle.sqs_shell.specs.declared.faults.Stop.TheVariants as stops;
    ghost use Rattle.sqs_rehearsal.specs.declared.rehearsal.Fault.TheVariants as faults;

    ghost from_gives = { λ refusal stop. stop ≡ stops.Refused (faults.Refused refusal) };

    fn from(refusal: Refusal) -> Stop<'a> {
        Stop::Refused(Fault::Refused(refusal))
    }
}

impl<'a> From<Fault> for Stop<'a> {
    ghost use Rattle.std.specs.Prelude.{◌≡◌};
    ghost use Rattle.sqs_shell.specs.declared.faults.Stop.TheVariants as stops;

    ghost from_gives = { λ fault stop. stop ≡ stops.Refused fault };

    fn from(fault: Fault) -> Stop<'a> {
        Stop::Refused(fault)
    }
}

impl<'a> From<ReadError> for Stop<'a> {
    ghost use Rattle.std.specs.Prelude.{◌≡◌};
    ghost use Rattle.sqs_shell.specs.declared.faults.Stop.TheVariants as stops;
    ghost use Rattle.sqs_rehearsal.specs.Rehearsals.{fault_of_reading};

    ghost from_gives = { λ error stop. stop ≡ stops.Refused (fault_of_reading error) };

    fn from(error: ReadError) -> Stop<'a> {
        Stop::Refused(Fault::from(error))
    }
}

// The status of an error: 1 for a scenario, 4 for a writer that failed, 3 for a run.
fn status(refusal: Refusal) -> u8
    ensures { result ≡ status_of refusal }
{
    match refusal {
        Refusal::WindowTooLong { .. }
        | Refusal::BadMap
        | Refusal::BadWorkers
        | Refusal::CountLimit
        | Refusal::Memory
        | Refusal::NoWorker => 3,
        Refusal::Write => 4,
        _ => 1,
    }
}

/// The error of the program for a writer's error: out of memory, or `Write`.
pub fn write_refusal(error: &io::Error) -> Refusal
    ensures { result ≡ write_refusal (error_kind error.now) }
{
    match error.kind() {
        ErrorKind::OutOfMemory => Refusal::Memory,
        _ => Refusal::Write,
    }
}

// Prints a fault in a line, and returns the status.
fn tell_fault(rt: &HostRuntime, fault: Fault) -> ExitCode
    ensures { exit_status result ≡ fault_status fault }
{
    match fault {
        Fault::Scenario(fault) => {
            if let Ok(line) = scenario_line(rt.alloc(), &fault) {
                let _ = rt.stderr().write_all(line.as_slice());
            }
            ExitCode::from(1)
        }
        Fault::Refused(refusal) => {
            let code = refusal.code();
            let _ = eprintln!(rt; "refused {code} {refusal}");
            ExitCode::from(status(refusal))
        }
    }
}

// Prints in a line where and why the input with this path is no log.
fn tell_log_fault(rt: &HostRuntime, path: &str, fault: LogFault) {
    let _ = match fault {
        LogFault::NoHeader => eprintln!(rt; "{path}:1: not the header of a log"),
        LogFault::NoRow { line } => eprintln!(rt; "{path}:{line}: no row of this scenario's log"),
        LogFault::Earlier { line } => {
            eprintln!(rt; "{path}:{line}: a row of an earlier time than the row above it")
        }
        LogFault::Unreadable | LogFault::Memory => Ok(()),
    };
}

/// Prints what stopped the program in a line on standard error. Returns the status with which it
/// ends.
pub fn tell(rt: &HostRuntime, stop: Stop<'_>) -> ExitCode
    ensures { exit_status result ≡ stop_status stop.entry }
{
    match stop {
        Stop::CannotRead(path) => {
            let _ = eprintln!(rt; "cannot read {path}");
            ExitCode::from(1)
        }
        Stop::NoLog(path, fault) => {
            tell_log_fault(rt, path, fault);
            ExitCode::from(1)
        }
        Stop::NotUtf8 => {
            let _ = eprintln!(rt; "error: a word of the command line is not UTF-8");
            ExitCode::from(2)
        }
        Stop::Refused(fault) => tell_fault(rt, fault),
    }
}
