//! A whole log.
ghost use Rattle.std.specs.Prelude.{IfErr, IfOk};
ghost use Rattle.sim_logs.specs.Logs.{IsFault, IsRead};

use crate::fault::LogFault;
use crate::header::{final_header, read_header};
use crate::lines::next_line;
use crate::reading::Reading;
use sim_records::Names;
use sim_report::Figures;
use std::alloc::Global;
use std::io::BufRead;

/// Reads a log of the agents with these names, and takes its rows into figures. The log ends at the
/// end of what is read, or before the header of the final queues, which is then read too.
///
/// # Errors
///
/// The first fault of the log; a read that failed; `Memory` if a growth is refused, or if a count of
/// the figures is at its greatest value.
pub fn read_log<R: BufRead>(
    alloc: Global,
    names: Names,
    figures: Figures,
    log: &mut R,
) -> Result<Figures, LogFault>
    ensures read { IfOk result
        (IsRead names figures (R.remaining log.old) (R.remaining log.new)) }
    ensures fault { IfErr result
        (IsFault names (R.remaining log.old) (R.remaining log.new)) }
{
    read_header(alloc, log)?;
    let mut reading = Reading::new(alloc, names, figures)?;
    let last = final_header(alloc)?;
    let mut text = Vec::new(alloc);
    for line in 2..u64::MAX {
        if !next_line(log, &mut text)? || text.as_slice() == last.as_slice() {
            return Ok(reading.into_figures());
        }
        reading.take(text.as_slice(), line)?;
    }
    Err(LogFault::Memory)
}
