//! Writers of std.
ghost use Rattle.std.specs.Prelude.{◌≡◌, false};

use crate::answers::Answers;
use crate::sink::{Failed, Out};
use std::io::Write;

/// Any writer of std. It fails if that writer returns an error (an interruption is one, too), or
/// takes nothing of some bytes.
#[derive(Drop)]
pub struct ToWriter<W: Write> {
    inner: W,
    answers: Answers,
}

impl<W: Write> ToWriter<W> {
    ghost use Rattle.sim_records.specs.Writers.{inner_of, has_failed};

    /// Wraps this writer.
    pub fn new(inner: W) -> ToWriter<W>
        ensures inner { inner_of result ≡ inner }
        ensures whole { has_failed result ≡ false }
    {
        ToWriter {
            inner,
            answers: Answers::none(),
        }
    }

    /// The writer of std.
    pub fn get_ref(&self) -> &W
        ensures { result.now ≡ inner_of self.now }
    {
        &self.inner
    }

    /// The writer of std, moved out.
    pub fn into_inner(self) -> W
        ensures { result ≡ inner_of self }
    {
        self.inner
    }
}

impl<W: Write> Out for ToWriter<W> {
    ghost use Rattle.sim_records.specs.Writers.{inner_of, has_failed, is_flushed};

    ghost state = { λ w. record { held = W.contents (inner_of w); failed = has_failed w; flushed = is_flushed w } };

    fn write(&mut self, bytes: &[u8]) -> Result<usize, Failed> {
        let answer = self.inner.write(bytes);
        self.answers.wrote(answer, bytes.len())
    }

    fn flush(&mut self) -> Result<(), Failed> {
        let answer = self.inner.flush();
        self.answers.flushed(answer)
    }
}
