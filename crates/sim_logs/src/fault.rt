//! Why a log is refused.
ghost use Rattle.std.specs.Prelude.{◌≡◌};
ghost use Rattle.std.specs.IoError.{error_kind};
ghost use Rattle.sim_logs.specs.Faults.{fault_of};
ghost use Rattle.sim_logs.specs.declared.fault.LogFault.TheVariants.{Memory};

use std::alloc::{AllocError, AllocFailed};
use std::io::{Error, ErrorKind};

/// Why a log is refused. The header is line 1. A row is one line, also if its fields have line ends
/// between quotes.
#[derive(Clone, Copy, Debug, PartialEq, Eq)]
pub enum LogFault {
    /// The first line is not the header of a log.
    NoHeader,
    /// This line is no row that the program writes of these names.
    NoRow { line: u64 },
    /// The row in this line is of an earlier moment than the row above it.
    Earlier { line: u64 },
    /// A read failed.
    Unreadable,
    /// A growth was refused, or a count of the figures is at its greatest value.
    Memory,
}

impl From<AllocError> for LogFault {
    ghost from_gives = { λ _ fault. fault ≡ Memory };

    fn from(_refused: AllocError) -> LogFault {
        LogFault::Memory
    }
}

impl<T: Drop> From<AllocFailed<T>> for LogFault {
    ghost from_gives = { λ _ fault. fault ≡ Memory };

    fn from(_refused: AllocFailed<T>) -> LogFault {
        LogFault::Memory
    }
}

impl From<Error> for LogFault {
    ghost from_gives = { λ error fault. fault ≡ fault_of (error_kind error) };

    fn from(error: Error) -> LogFault {
        match error.kind() {
            ErrorKind::OutOfMemory => LogFault::Memory,
            _ => LogFault::Unreadable,
        }
    }
}
