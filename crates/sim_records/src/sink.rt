//! Writers that take bytes, and the loop that gives them all bytes.
ghost use Rattle.std.specs.Prelude.{◌≡◌, ◌≤◌, ◌<◌, false, true, length, IfOk, OnOk, OnErr, is_err};
ghost use Rattle.std.specs.Io.KnownBytes.{Appends, Keeps, WriteAppends};
ghost use Rattle.sim_clock.specs.declared.refusal.Refusal.TheVariants.{Write as WriteRefusal};
ghost use Rattle.sim_records.specs.Writes.{AppendsPrefix, WriterState};

use sim_clock::Refusal;
use thiserror::Error;

/// A writer has failed.
#[derive(Clone, Copy, Debug, PartialEq, Eq, Error)]
#[error("a writer failed")]
pub struct Failed;

impl From<Failed> for Refusal {
    ghost from_gives = { λ _ r. r ≡ WriteRefusal };

    fn from(_failed: Failed) -> Self {
        Refusal::Write
    }
}

/// Takes bytes until it fails.
pub trait Out {
    // What it has taken, whether it has failed, and whether it has been flushed.
    ghost state: { Self → WriterState };

    /// Takes a prefix of the bytes and returns its length, which is at least 1 if there are any
    /// bytes. After a `Failed` it has taken none of them, and is not called again.
    fn write(&mut self, bytes: &[u8]) -> Result<usize, Failed>
        requires { (state self.old).failed ≡ false }
        ensures count { IfOk result (λ n. n ≤ length bytes.now) }
        ensures some { IfOk result (λ n. 0 < length bytes.now → 0 < n) }
        ensures bytes { WriteAppends (state self.old).held (state self.new).held result bytes.now }
        ensures fails { (state self.new).failed ≡ is_err result };

    /// Passes on what it has taken. After a `Failed` it is not called again.
    fn flush(&mut self) -> Result<(), Failed>
        requires { (state self.old).failed ≡ false }
        ensures bytes { Keeps (state self.old).held (state self.new).held }
        ensures flushed { OnOk result ((state self.new).flushed ≡ true) }
        ensures fails { (state self.new).failed ≡ is_err result };
}

/// Writes all bytes, or a prefix of them if the writer fails.
///
/// # Errors
///
/// `Failed` if the writer fails.
pub fn write_all<W: Out>(out: &mut W, bytes: &[u8]) -> Result<(), Failed>
    requires { (W.state out.old).failed ≡ false }
    ensures all { OnOk result (Appends (W.state out.old).held (W.state out.new).held bytes.now) }
    ensures prefix { OnErr result (AppendsPrefix (W.state out.old).held (W.state out.new).held bytes.now) }
    ensures fails { (W.state out.new).failed ≡ is_err result }
{
    let mut done = 0;
    while done < bytes.len() {
        done += out.write(&bytes[done..])?;
    }
    Ok(())
}
