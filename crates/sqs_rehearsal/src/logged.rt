//! The figures of a log.
ghost use Rattle.std.specs.Prelude.{◌≡◌, IfOk};
ghost use Rattle.sqs_rehearsal.specs.Logged.{AreFigures};

use crate::outcome::{copies, fresh_figures};
use sim_logs::{LogFault, read_log};
use sim_records::Names;
use sim_report::Wanted;
use sim_scenario::Scenario;
use std::alloc::Global;
use std::io::BufRead;

/// The figures of the rows of a log, over the part of a stretch that lies in its scenario's run, as
/// text. The log is read to its end, or to the final queues behind it.
///
/// # Errors
///
/// Those of `read_log`: the text is no log of these queues and actors, or it can't be read, or
/// memory runs out.
pub fn figures_of_log<R: BufRead>(
    alloc: Global,
    scenario: &Scenario,
    wanted: Wanted,
    log: &mut R,
) -> Result<Vec<u8>, LogFault>
    ensures { IfOk result (λ v. AreFigures scenario.now wanted
        (R.remaining log.old) (R.remaining log.new) v.items) }
{
    let fresh = fresh_figures(alloc, scenario, wanted)?;
    let names = Names::new(copies(alloc, scenario.names())?);
    let figures = read_log(alloc, names, fresh, log)?;
    Ok(figures.text(alloc)?)
}
