//! The lines of a log.
ghost use Rattle.std.specs.Prelude.{◌≡◌, IfErr, IfOk, OnOk, false};
ghost use Rattle.std.specs.Io.{StartsWith, appended_bytes};
ghost use Rattle.std.specs.Io.KnownBytes.{Consumes, IsAtEnd};
ghost use Rattle.sim_logs.specs.Faults.{IsReadFault};

use crate::fault::LogFault;
use std::io::BufRead;

// Adds what a log has up to its next line end to a text. Returns whether there was anything.
fn read_on<R: BufRead>(log: &mut R, text: &mut Vec<u8>) -> Result<bool, LogFault>
    ensures appends { StartsWith text.new.items text.old.items }
    ensures read { Consumes (R.remaining log.old) (R.remaining log.new)
        (appended_bytes text.old.items text.new.items) }
    ensures end { IfOk result (λ some. some ≡ false → IsAtEnd (R.remaining log.old)) }
    ensures fault { IfErr result IsReadFault }
{
    let count = log.read_until(b'\n', text)?;
    Ok(count > 0)
}

/// Whether a text has a quote. All its bytes are looked at, which is faster than to stop at the first.
pub(crate) fn has_quote(text: &[u8]) -> bool {
    let mut found = false;
    for byte in text {
        found |= *byte == b'"';
    }
    found
}

// Whether quotes stand open at the end of a text.
fn is_open(text: &[u8]) -> bool {
    if !has_quote(text) {
        return false;
    }
    let quotes = text.iter().filter(|byte| **byte == b'"').count();
    quotes % 2 == 1
}

// Adds lines of a log to a text whose quotes may stand open, until they are closed.
fn close_quotes<R: BufRead>(log: &mut R, text: &mut Vec<u8>) -> Result<(), LogFault>
    ensures appends { StartsWith text.new.items text.old.items }
    ensures read { Consumes (R.remaining log.old) (R.remaining log.new)
        (appended_bytes text.old.items text.new.items) }
    ensures fault { IfErr result IsReadFault }
{
    for _ in 0..u64::MAX {
        if !is_open(text.as_slice()) {
            return Ok(());
        }
        if !read_on(log, text)? {
            return Ok(());
        }
    }
    Err(LogFault::Memory)
}

/// Reads the next line of a log in place of a text. Line ends between quotes do not end it. Returns
/// whether there was anything.
pub(crate) fn next_line<R: BufRead>(log: &mut R, text: &mut Vec<u8>) -> Result<bool, LogFault>
    ensures read { OnOk result
        (Consumes (R.remaining log.old) (R.remaining log.new) text.new.items) }
    ensures end { IfOk result (λ some. some ≡ false → IsAtEnd (R.remaining log.old)) }
    ensures fault { IfErr result IsReadFault }
{
    text.clear();
    let some = read_on(log, text)?;
    close_quotes(log, text)?;
    Ok(some)
}
