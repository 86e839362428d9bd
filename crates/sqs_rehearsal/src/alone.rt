//! A rehearsal on this thread alone, which starts no thread and waits for none. It is proved to
//! return.
ghost use Rattle.std.specs.Prelude.{◌≡◌, false, OnOk};
ghost use Rattle.sim_scenario.specs.Drafts.{OfDraft};
ghost use Rattle.sqs_rehearsal.specs.Options.{unsplit};
ghost use Rattle.sqs_rehearsal.specs.Rehearsals.{Rehearses, Request, request_upto};
ghost use Rattle.sqs_rehearsal.specs.Steps.{Asks, LogsOn};
ghost use Rattle.sqs_rehearsal.specs.Writers.{seen};

use crate::options::Options;
use crate::rehearsal::Fault;
use crate::running::run_gathered;
use crate::steps::{Begun, Ended, begin, recording};
use crate::watch::{Unwatched, Watch};
use sim_clock::Refusal;
use sim_records::Out;
use sim_report::Wanted;
use sim_scenario::{Draft, Scenario, Scripts};
use std::alloc::Global;

// The number of rows that are handed on at once: few enough that they, and the text of their lines,
// stay in the cache.
const ROWS_AT_ONCE: usize = 64;

// Runs a scenario whose rehearsal has begun. Its rows are written to the log and counted.
fn run_here<L: Out, P: Watch>(
    scenario: Scenario,
    begun: Begun,
    log: &mut L,
    watch: &mut P,
) -> Result<Ended, Refusal>
    requires { (L.state log.old).failed ≡ false }
    ensures works { OnOk result ((L.state log.new).failed ≡ false) }
    ensures logs { LogsOn scenario begun (L.state log.old) (L.state log.new) result }
{
    let Begun {
        alloc,
        horizon,
        names,
        mut counts,
        ..
    } = begun;
    let mut recorder = recording(alloc, &names, log, &mut counts, watch, horizon);
    let sites = run_gathered(alloc, scenario, ROWS_AT_ONCE, &mut recorder)?;
    Ok(Ended {
        alloc,
        names,
        counts,
        sites,
    })
}

/// Rehearses a scenario that was read, with one worker, and informs a watch of the progress of the
/// run whenever rows are written.
///
/// # Errors
///
/// Those of `rehearse` that come after the reading, but `NoWorker`.
pub fn rehearse_here<L: Out, R: Out, P: Watch>(
    alloc: Global,
    scenario: Scenario,
    options: &Options,
    log: &mut L,
    report: &mut R,
    watch: &mut P,
) -> Result<(), Fault>
    requires log { (L.state log.old).failed ≡ false }
    requires report { (R.state report.old).failed ≡ false }
    ensures { (q : Request) → Asks q scenario options.now
        → Rehearses q result (seen L.state log.old log.new) (seen R.state report.old report.new) }
{
    let begun = begin(alloc, &scenario, options, log)?;
    let ended = run_here(scenario, begun, log, watch)?;
    ended.end(log, report)
}

/// Rehearses a scenario as `rehearse_watched` does with one worker, from the draft of its text, on
/// this thread alone. Behind the report are figures, if they are wanted.
///
/// # Errors
///
/// Those of `rehearse` but `NoWorker`.
pub fn rehearse_alone<L: Out, R: Out>(
    alloc: Global,
    draft: Draft,
    scripts: &Scripts,
    figures: Option<Wanted>,
    log: &mut L,
    report: &mut R,
) -> Result<(), Fault>
    requires log { (L.state log.old).failed ≡ false }
    requires report { (R.state report.old).failed ≡ false }
    ensures { OfDraft draft (λ newest text.
        Rehearses (request_upto newest text scripts.now (unsplit figures)) result
        (seen L.state log.old log.new) (seen R.state report.old report.new)) }
{
    let options = Options {
        window: None,
        parts: None,
        map: None,
        workers: 1,
        figures,
    };
    let scenario = draft.read(alloc, scripts)?;
    rehearse_here(alloc, scenario, &options, log, report, &mut Unwatched)
}
