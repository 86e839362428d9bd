//! The answers of a writer of std, and what follows from them.
ghost use Rattle.std.specs.Prelude.{◌≡◌, false, Bool, IfOk, Ok, is_err, is_ok};
ghost use Rattle.sim_records.specs.Answers.{write_fails};

use crate::sink::Failed;
use std::io;

/// The state of a writer of std by its answers: whether it has failed, and whether all that it took
/// was flushed. Only an answer changes it.
#[derive(Drop)]
pub struct Answers {
    has_failed: bool,
    is_flushed: bool,
}

impl Answers {
    ghost use Rattle.sim_records.specs.Answers.{failed_by, flushed_by};

    /// The state of a writer that was not called yet.
    pub fn none() -> Answers
        ensures failed { failed_by result ≡ false }
        ensures flushed { flushed_by result ≡ false }
    {
        Answers {
            has_failed: false,
            is_flushed: false,
        }
    }

    /// Records the answer to a write of `bytes` bytes. Returns how many were taken.
    ///
    /// # Errors
    ///
    /// `Failed` if the answer is an error (an interruption is one, too), or if none of some bytes
    /// was taken.
    pub fn wrote(&mut self, answer: io::Result<usize>, bytes: usize) -> Result<usize, Failed>
        ensures fails { is_err result ≡ write_fails answer bytes }
        ensures count { IfOk result (λ n. answer ≡ Ok n) }
        ensures failed { failed_by self.new ≡ is_err result }
        ensures flushed { flushed_by self.new ≡ false }
    {
        self.is_flushed = false;
        match answer {
            Ok(taken) if taken > 0 || bytes == 0 => {
                self.has_failed = false;
                Ok(taken)
            }
            _ => {
                self.has_failed = true;
                Err(Failed)
            }
        }
    }

    /// Records the answer to a flush.
    ///
    /// # Errors
    ///
    /// `Failed` if the answer is an error.
    pub fn flushed(&mut self, answer: io::Result<()>) -> Result<(), Failed>
        ensures fails { is_err result ≡ is_err answer }
        ensures failed { failed_by self.new ≡ is_err result }
        ensures flushed { flushed_by self.new ≡ is_ok result }
    {
        self.has_failed = answer.is_err();
        self.is_flushed = !self.has_failed;
        if self.has_failed { Err(Failed) } else { Ok(()) }
    }
}
