//! The numbered errors.
ghost use Rattle.std.specs.Prelude.{◌≡◌};
ghost use Rattle.sim_clock.specs.Refusals.{refusal_code, refusal_name};
ghost use Rattle.sim_clock.specs.declared.refusal.Refusal.TheVariants.{Memory};

use std::alloc::{AllocError, AllocFailed};
use std::error::Error;
use std::fmt;

/// Why a call is refused. 1 to 9 are answers of queues and tasks, which appear in the log; 10 to 20
/// are faults of a scenario; 30 to 36 end a run. It is displayed as its name and its values.
#[derive(Clone, Copy, Debug, PartialEq, Eq)]
pub enum Refusal {
    /// A short poll of a standard queue found the in-flight limit reached (SQS: `OverLimit`).
    OverLimit,
    /// A change of visibility of a message that is not in flight (SQS: `MessageNotInflight`).
    MessageNotInflight,
    /// A delete or change with a receipt that names no message here (SQS:
    /// `ReceiptHandleIsInvalid`).
    ReceiptHandleIsInvalid,
    /// A visibility timeout over 43,200 seconds, or a change past 12 hours from the receive.
    BadTimeout,
    /// A send to a FIFO queue without a message group (SQS: `MissingParameter`).
    MissingGroup,
    /// A send to a FIFO queue without a deduplication id, if the queue does not compare bodies.
    MissingDeduplication,
    /// A delay over 900 seconds, or any delay of its own for a message of a FIFO queue.
    BadDelay,
    /// A move task of this queue is running already.
    TaskRunning,
    /// The move task to be cancelled is not running.
    NoTask,
    /// The scenario is not a TOML document.
    NotToml,
    /// A key that its table does not have.
    UnknownKey,
    /// A required key is absent.
    MissingKey,
    /// A value is not of its key's type.
    WrongType,
    /// A number, a text or a length outside its range.
    OutOfRange,
    /// A name that is not well-formed.
    BadName,
    /// A name that an earlier queue, actor or task has.
    NameTwice,
    /// A queue that does not exist, or may not be named here.
    UnknownQueue,
    /// A queue of the other kind than the one that names it.
    KindMismatch,
    /// A list, script or text over its limit.
    TooMany,
    /// A script that is missing or has a bad call.
    BadScript,
    /// The window is longer than the least latency; both are in milliseconds.
    WindowTooLong { window: u64, least: u64 },
    /// The map does not give every queue one of 1 to 256 partitions.
    BadMap,
    /// The number of workers is not 1 to 64.
    BadWorkers,
    /// A count would pass 2^62 - 1.
    CountLimit,
    /// A growth was refused.
    Memory,
    /// The start of a thread was refused.
    NoWorker,
    /// A writer failed.
    Write,
}

impl Refusal {
    /// The number of the error, by which users and scripts know it.
    pub fn code(&self) -> u8
        ensures { result ≡ refusal_code self.now }
    {
        match self {
            Refusal::OverLimit => 1,
            Refusal::MessageNotInflight => 2,
            Refusal::ReceiptHandleIsInvalid => 3,
            Refusal::BadTimeout => 4,
            Refusal::MissingGroup => 5,
            Refusal::MissingDeduplication => 6,
            Refusal::BadDelay => 7,
            Refusal::TaskRunning => 8,
            Refusal::NoTask => 9,
            Refusal::NotToml => 10,
            Refusal::UnknownKey => 11,
            Refusal::MissingKey => 12,
            Refusal::WrongType => 13,
            Refusal::OutOfRange => 14,
            Refusal::BadName => 15,
            Refusal::NameTwice => 16,
            Refusal::UnknownQueue => 17,
            Refusal::KindMismatch => 18,
            Refusal::TooMany => 19,
            Refusal::BadScript => 20,
            Refusal::WindowTooLong { .. } => 30,
            Refusal::BadMap => 31,
            Refusal::BadWorkers => 32,
            Refusal::CountLimit => 33,
            Refusal::Memory => 34,
            Refusal::NoWorker => 35,
            Refusal::Write => 36,
        }
    }

    /// The name of the error in the log and on standard error.
    pub fn name(&self) -> &'static str
        ensures { result.now ≡ refusal_name self.now }
    {
        match self {
            Refusal::OverLimit => "OverLimit",
            Refusal::MessageNotInflight => "MessageNotInflight",
            Refusal::ReceiptHandleIsInvalid => "ReceiptHandleIsInvalid",
            Refusal::BadTimeout => "BadTimeout",
            Refusal::MissingGroup => "MissingGroup",
            Refusal::MissingDeduplication => "MissingDeduplication",
            Refusal::BadDelay => "BadDelay",
            Refusal::TaskRunning => "TaskRunning",
            Refusal::NoTask => "NoTask",
            Refusal::NotToml => "NotToml",
            Refusal::UnknownKey => "UnknownKey",
            Refusal::MissingKey => "MissingKey",
            Refusal::WrongType => "WrongType",
            Refusal::OutOfRange => "OutOfRange",
            Refusal::BadName => "BadName",
            Refusal::NameTwice => "NameTwice",
            Refusal::UnknownQueue => "UnknownQueue",
            Refusal::KindMismatch => "KindMismatch",
            Refusal::TooMany => "TooMany",
            Refusal::BadScript => "BadScript",
            Refusal::WindowTooLong { .. } => "WindowTooLong",
            Refusal::BadMap => "BadMap",
            Refusal::BadWorkers => "BadWorkers",
            Refusal::CountLimit => "CountLimit",
            Refusal::Memory => "Memory",
            Refusal::NoWorker => "NoWorker",
            Refusal::Write => "Write",
        }
    }
}

impl fmt::Display for Refusal {
    ghost use Rattle.std.specs.Prelude.{Some};
    ghost use Rattle.sim_clock.specs.Refusals.{displayed};

    ghost output = { λ r. Some (displayed r) };

    fn fmt<W: fmt::Write>(&self, f: &mut fmt::Formatter<W>) -> fmt::Result {
        f.write_str(self.name())?;
        if let Refusal::WindowTooLong { window, least } = self {
            write!(f, " {window} {least}")?;
        }
        Ok(())
    }
}

impl Error for Refusal {}

impl From<AllocError> for Refusal {
    ghost from_gives = { λ _ r. r ≡ Memory };

    fn from(_refused: AllocError) -> Self {
        Refusal::Memory
    }
}

impl<T: Drop> From<AllocFailed<T>> for Refusal {
    ghost from_gives = { λ _ r. r ≡ Memory };

    fn from(_refused: AllocFailed<T>) -> Self {
        Refusal::Memory
    }
}
