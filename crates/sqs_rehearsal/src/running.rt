//! Runs of scenarios.
ghost use Rattle.std.specs.Prelude.{◌≡◌, ◌<◌, ◌≤◌, [], Err, IfErr, IfOk, IsOk, OnOk, false};
ghost use Rattle.sim_windows.specs.Machines.{IsMachineOf};
ghost use Rattle.sqs_model.specs.Conditions.{sqs_conditions};
ghost use Rattle.sqs_model.specs.Limits.{IsOver};
ghost use Rattle.sqs_model.specs.Accounts.{EachHasOnePlace, NoOtherHasPlace};
ghost use Rattle.sqs_model.specs.Run.{IsRunOf, Run, setting_of};
ghost use Rattle.sqs_model.specs.Scenario.{HasItsQueues, least_latency as the_least_latency};
ghost use Rattle.sqs_model.specs.Sqs.{sqs};
ghost use Rattle.sqs_rehearsal.specs.Options.{is_within};
ghost use Rattle.sqs_rehearsal.specs.Splits.{IfAllowed, IfFits, IsBarred};
ghost use Rattle.sqs_rehearsal.specs.Runs.{RefusesLonger, RunStops, RunStopsAnyhow, TookRun};

use crate::limited::{Limited, counted};
use crate::opening::open_world;
use crate::options::{Split, check_workers};
use crate::printed::PrintedSite;
use sim_clock::Refusal;
use sim_exchange::PartMap;
use sim_scenario::{Scenario, least_latency};
use sim_site::Site;
use sim_windows::{Machine, RowSink};
use sim_workers::Gate;
use sqs_message::Row;
use std::alloc::Global;
use std::sync::Wait;
use std::thread::Threads;

/// Queues of a partition, whose rows are printed as they are made, and the bound to which they are
/// to run.
pub type Piece = sim_workers::Piece<PrintedSite>;

/// The result of a piece.
pub type Done = sim_workers::Done<PrintedSite>;

/// The running of such queues in partitions, as a work that is handed over. It is used in types
/// alone.
pub type Running = sim_workers::Running<PrintedSite>;

/// Runs a scenario to its horizon on this thread. Each step handles the earliest event of all
/// queues. The rows go to a sink once at least `enough` of them wait, and at the end. Returns the
/// sites of the last world, by number.
///
/// # Errors
///
/// Those of `run_alone`.
pub fn run_gathered<K: RowSink<Row>>(
    alloc: Global,
    scenario: Scenario,
    enough: usize,
    sink: &mut K,
) -> Result<Vec<Site>, Refusal>
    requires ready { K.ready sink.old }
    ensures ready { OnOk result (K.ready sink.new) }
    ensures whole { IfOk result (λ sites. TookRun K.took scenario sink.old sink.new sites.items) }
    ensures has_queues { IfOk result (λ _. HasItsQueues scenario) }
    ensures counted { OnOk result (¬ IsOver scenario) }
    ensures stops { IfErr result (RunStops K.took K.broke scenario sink.old sink.new) }
{
    let world = open_world(alloc, scenario)?;
    let mut limited = Limited { sink };
    counted(sim_windows::run_gathered(alloc, world, enough, &mut limited))
}

/// Runs a scenario to its horizon on this thread. Each step handles the earliest event of all
/// queues and hands its rows to a sink at once. Returns the sites of the last world, by number.
///
/// # Errors
///
/// `Memory` if a growth is refused, and `CountLimit` only if the run takes a count past 2^62 - 1.
/// Else the sink's error. In each case the sink took a prefix of the run's rows.
pub fn run_alone<K: RowSink<Row>>(
    alloc: Global,
    scenario: Scenario,
    sink: &mut K,
) -> Result<Vec<Site>, Refusal>
    requires ready { K.ready sink.old }
    ensures ready { OnOk result (K.ready sink.new) }
    ensures whole { IfOk result (λ sites. TookRun K.took scenario sink.old sink.new sites.items) }
    ensures has_queues { IfOk result (λ _. HasItsQueues scenario) }
    ensures places { OnOk result ((r : Run) → IsRunOf scenario r
        → EachHasOnePlace r.sites r.rows × NoOtherHasPlace r.sites r.rows) }
    ensures counted { OnOk result (¬ IsOver scenario) }
    ensures stops { IfErr result (RunStops K.took K.broke scenario sink.old sink.new) }
{
    run_gathered(alloc, scenario, 1, sink)
}

// Checks that a window, in milliseconds, is no longer than the least latency of a scenario's
// transfers.
fn check_window(scenario: &Scenario, window: u64) -> Result<(), Refusal>
    ensures short { window ≤ the_least_latency scenario.now → IsOk result }
    ensures long { RefusesLonger scenario.now window result }
{
    let least = least_latency(scenario);
    if window > least {
        return Err(Refusal::WindowTooLong { window, least });
    }
    Ok(())
}

/// Runs a scenario to its horizon, split so. One worker runs on the caller's thread, the others each on a thread of its own, started
/// once. A single worker runs all queues on one list, and its rows go to the sink 64 or more at a
/// time.
///
/// With several workers each partition runs to a bound of its own, set anew at each barrier, or to
/// where a round is cut if that is sooner. The rows before which nothing can come any more go to
/// the sink. Those of several partitions are merged and go 256 at a time; those of a single
/// partition go as they are. The rows that are left at the end follow together. Returns the sites
/// of the last world, by number. All threads are joined by then. The window, in milliseconds, is
/// only checked.
///
/// # Errors
///
/// `WindowTooLong` if the window is longer than the least latency of the scenario's transfers, else
/// `BadWorkers` if there are not 1 to 64 workers. `NoWorker` if the start of a thread is refused; a
/// single worker needs no thread. After these three the sink took nothing. `Memory` if a growth is
/// refused, and `CountLimit` only if the run takes a count past 2^62 - 1. Else the sink's error.
/// After any error the sink took a prefix of the run's rows.
pub fn run_workers<
    G: Gate<sim_workers::Running<Site>> + Sync,
    K: RowSink<Row>,
    W: Threads + Wait + Sync,
>(
    rt: &W,
    alloc: Global,
    scenario: Scenario,
    split: Split,
    gate: &G,
    sink: &mut K,
) -> Result<Vec<Site>, Refusal>
    requires ready { K.ready sink.old }
    ensures ready { OnOk result (K.ready sink.new) }
    ensures whole { IfOk result (λ sites. TookRun K.took scenario sink.old sink.new sites.items) }
    ensures counted { OnOk result (¬ IsOver scenario) }
    ensures window { RefusesLonger scenario split.window result }
    ensures workers { IfFits split scenario
        (is_within 1 64 split.workers ≡ false → result ≡ Err Refusal.BadWorkers) }
    ensures stops { IfAllowed split scenario (IfErr result
        (RunStopsAnyhow K.ready K.took K.broke scenario sink.old sink.new)) }
    ensures alone { IfFits split scenario (split.workers ≡ 1
        → IfErr result (RunStops K.took K.broke scenario sink.old sink.new)) }
    ensures untaken { IsBarred split scenario → sink.new ≡ sink.old }
{
    let Split {
        layout,
        window,
        workers,
    } = split;
    check_window(&scenario, window)?;
    check_workers(workers)?;
    let world = open_world(alloc, scenario)?;
    let mut limited = Limited { sink };
    let ran = sim_workers::run_workers(rt, alloc, world, layout, workers, gate, &mut limited);
    counted(ran)
}

/// The machine of a scenario before any pick; `layout` gives the partition of each queue. The
/// window, in milliseconds, is only checked: each partition has a bound of its own.
///
/// # Errors
///
/// `WindowTooLong` if the window is longer than the least latency of the scenario's transfers; else
/// `Memory` if a growth is refused.
pub fn open_machine(
    alloc: Global,
    scenario: Scenario,
    layout: PartMap,
    window: u64,
) -> Result<Machine<Site>, Refusal>
    ensures opened { IfOk result (IsMachineOf sqs sqs_conditions layout (setting_of scenario) []) }
    ensures window { RefusesLonger scenario window result }
    ensures memory { window ≤ the_least_latency scenario
        → IfErr result (λ refusal. refusal ≡ Refusal.Memory) }
{
    check_window(&scenario, window)?;
    let world = open_world(alloc, scenario)?;
    let machine = Machine::new(alloc, world, layout)?;
    Ok(machine)
}
