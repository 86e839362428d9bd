//! A rehearsal, from bytes to bytes.
ghost use Rattle.std.specs.Prelude.{◌≡◌, false};
ghost use Rattle.sim_scenario.specs.Drafts.{OfDraft, newest_of};
ghost use Rattle.sqs_rehearsal.specs.Rehearsals.{Rehearses, request, request_upto};
ghost use Rattle.sqs_rehearsal.specs.Writers.{seen};

use crate::alone::rehearse_here;
use crate::options::Options;
use crate::printing::run_several;
use crate::running::Running;
use crate::steps::begin;
use crate::watch::{Unwatched, Watch};
use sim_clock::Refusal;
use sim_records::Out;
use sim_scenario::{Draft, Newest, ReadError, Scripts};
use sim_workers::Gate;
use sqs_formats::ScenarioFault;
use std::alloc::Global;
use std::sync::Wait;
use std::thread::Threads;

/// Why a rehearsal is refused.
#[derive(Drop)]
pub enum Fault {
    /// The scenario has a fault, from 10 to 20.
    Scenario(ScenarioFault),
    /// An error that ends a run, from 30 on. The split is not possible, a count is at its limit,
    /// memory ran out, a thread could not be started, or a writer failed.
    Refused(Refusal),
}

impl From<ReadError> for Fault {
    ghost use Rattle.std.specs.Prelude.{◌≡◌};
    ghost use Rattle.sqs_rehearsal.specs.Rehearsals.{fault_of_reading};

    ghost from_gives = { λ error fault. fault ≡ fault_of_reading error };

    fn from(error: ReadError) -> Fault {
        match error {
            ReadError::Memory => Fault::Refused(Refusal::Memory),
            ReadError::Fault(fault) => Fault::Scenario(fault),
        }
    }
}

impl From<Refusal> for Fault {
    ghost use Rattle.std.specs.Prelude.{◌≡◌};
    ghost use Rattle.sqs_rehearsal.specs.declared.rehearsal.Fault.TheVariants.{Refused};

    ghost from_gives = { λ refusal fault. fault ≡ Refused refusal };

    fn from(refusal: Refusal) -> Fault {
        Fault::Refused(refusal)
    }
}

/// Rehearses a scenario as `rehearse` does, from the draft of its text. Whenever rows are written,
/// it informs a watch of the progress of the run.
///
/// # Errors
///
/// Those of `rehearse`.
pub fn rehearse_watched<
    G: Gate<Running> + Sync,
    L: Out,
    R: Out,
    P: Watch,
    W: Threads + Wait + Sync,
>(
    rt: &W,
    alloc: Global,
    draft: Draft,
    scripts: &Scripts,
    options: &Options,
    gate: &G,
    log: &mut L,
    report: &mut R,
    watch: &mut P,
) -> Result<(), Fault>
    requires log { (L.state log.old).failed ≡ false }
    requires report { (R.state report.old).failed ≡ false }
    ensures { OfDraft draft (λ newest text.
        Rehearses (request_upto newest text scripts.now options.now) result
        (seen L.state log.old log.new) (seen R.state report.old report.new)) }
{
    let scenario = draft.read(alloc, scripts)?;
    if options.workers <= 1 {
        return rehearse_here(alloc, scenario, options, log, report, watch);
    }
    let begun = begin(alloc, &scenario, options, log)?;
    let ended = run_several(rt, scenario, begun, gate, log, watch)?;
    ended.end(log, report)
}

/// Rehearses a scenario. It reads the scenario's text, with its scripts by their names, and runs it
/// with its queues in partitions and the given number of workers. It writes the log to one writer
/// as the run goes on, and then the state at the end and the report to the other; both are flushed.
/// How the run is split does not change what is written. With several workers each piece of a
/// partition's run goes through the gate; `Open` only runs it.
///
/// # Errors
///
/// - A fault of the scenario, 10 to 20: nothing is written.
/// - `BadMap`, `WindowTooLong` or `BadWorkers`, the first that holds, if the split is not possible:
///   nothing is written.
/// - `NoWorker` if a thread could not be started: the log writer has the header, the other nothing.
/// - `CountLimit`, only if the one-list run takes a count past 2^62 - 1: the log writer has a
///   prefix of the log, the other nothing.
/// - `Write` if a writer failed, and `Memory`: the log writer has a prefix of the log. The other
///   has a prefix of the rest, and nothing if the log was not written whole.
pub fn rehearse<G: Gate<Running> + Sync, L: Out, R: Out, W: Threads + Wait + Sync>(
    rt: &W,
    alloc: Global,
    text: &[u8],
    scripts: &Scripts,
    options: &Options,
    gate: &G,
    log: &mut L,
    report: &mut R,
) -> Result<(), Fault>
    requires log { (L.state log.old).failed ≡ false }
    requires report { (R.state report.old).failed ≡ false }
    ensures { Rehearses (request text.now scripts.now options.now) result
        (seen L.state log.old log.new) (seen R.state report.old report.new) }
{
    rehearse_upto(
        rt,
        alloc,
        Newest::Second,
        text,
        scripts,
        options,
        gate,
        log,
        report,
    )
}

/// Rehearses a scenario as `rehearse` does, of a version up to the newest one.
///
/// # Errors
///
/// Those of `rehearse`.
pub fn rehearse_upto<G: Gate<Running> + Sync, L: Out, R: Out, W: Threads + Wait + Sync>(
    rt: &W,
    alloc: Global,
    newest: Newest,
    text: &[u8],
    scripts: &Scripts,
    options: &Options,
    gate: &G,
    log: &mut L,
    report: &mut R,
) -> Result<(), Fault>
    requires log { (L.state log.old).failed ≡ false }
    requires report { (R.state report.old).failed ≡ false }
    ensures { Rehearses (request_upto (newest_of newest) text.now scripts.now options.now) result
        (seen L.state log.old log.new) (seen R.state report.old report.new) }
{
    let Ok(draft) = Draft::parse_upto(alloc, newest, text) else {
        return Err(Fault::Refused(Refusal::Memory));
    };
    let mut watch = Unwatched;
    rehearse_watched(
        rt, alloc, draft, scripts, options, gate, log, report, &mut watch,
    )
}
