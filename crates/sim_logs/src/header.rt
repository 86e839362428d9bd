//! The headers of the log and of what stands behind it.
ghost use Rattle.std.specs.Prelude.{◌≡◌, IfErr, IfOk, OnOk};
ghost use Rattle.std.specs.Io.KnownBytes.{Consumes};
ghost use Rattle.sqs_formats.specs.Finals.{message_header};
ghost use Rattle.sqs_formats.specs.Rows.{line, log_header};
ghost use Rattle.sim_logs.specs.Faults.{IsHeaderFault};

use crate::fault::LogFault;
use sim_records::{ToWriter, write_header, write_message_header};
use std::alloc::{AllocError, Global};
use std::io::BufRead;

// The header of a log.
fn log_header(alloc: Global) -> Result<Vec<u8>, AllocError>
    ensures { IfOk result (λ v. v.items ≡ line log_header) }
{
    let mut out = ToWriter::new(Vec::new(alloc));
    match write_header(alloc, &mut out) {
        Ok(()) => Ok(out.into_inner()),
        Err(_) => Err(AllocError),
    }
}

/// The header of the final queues, which may stand behind a log.
pub(crate) fn final_header(alloc: Global) -> Result<Vec<u8>, AllocError>
    ensures { IfOk result (λ v. v.items ≡ line message_header) }
{
    let mut out = ToWriter::new(Vec::new(alloc));
    match write_message_header(alloc, &mut out) {
        Ok(()) => Ok(out.into_inner()),
        Err(_) => Err(AllocError),
    }
}

/// Reads the header of a log.
pub(crate) fn read_header<R: BufRead>(alloc: Global, log: &mut R) -> Result<(), LogFault>
    ensures read { OnOk result
        (Consumes (R.remaining log.old) (R.remaining log.new) (line log_header)) }
    ensures fault { IfErr result (IsHeaderFault (R.remaining log.old)) }
{
    let header = log_header(alloc)?;
    let mut text = Vec::new(alloc);
    log.read_until(b'\n', &mut text)?;
    if text.as_slice() != header.as_slice() {
        return Err(LogFault::NoHeader);
    }
    Ok(())
}
