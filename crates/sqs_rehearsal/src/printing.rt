//! Runs whose rows are printed by the workers that made them.
ghost use Rattle.std.specs.Arc.{arc_value};
ghost use Rattle.std.specs.Prelude.{◌≡◌, ◌<◌, ◌≤◌, All, false, IfErr, IfOk, OnOk, map};
ghost use Rattle.sim_engine.specs.Mapping.{mapped_conditions, mapped_setting, with_mapper};
ghost use Rattle.sim_engine.specs.Simulated.{IsSimulated};
ghost use Rattle.sqs_model.specs.Answers.{most_count};
ghost use Rattle.sqs_model.specs.Conditions.{sqs_conditions};
ghost use Rattle.sqs_model.specs.Limits.{IsOver};
ghost use Rattle.sqs_model.specs.Run.{setting_of};
ghost use Rattle.sqs_rehearsal.specs.Printed.{printed_sqs};
ghost use Rattle.sqs_rehearsal.specs.Sinks.{Recorded, StoppedAt, Works};
ghost use Rattle.sqs_rehearsal.specs.Steps.{LogsOfSeveral};
ghost use Rattle.sqs_rehearsal.specs.Runs.{RunStopsAnyhow, TookRun};

use crate::limited::counted;
use crate::opening::open_world;
use crate::options::Split;
use crate::printed::{PrintedSite, RowPrinter};
use crate::recorder::Recorder;
use crate::running::Running;
use crate::steps::{Begun, Ended, recording};
use crate::watch::Watch;
use sim_clock::Refusal;
use sim_engine::Mapped;
use sim_records::{Names, Out};
use sim_scenario::Scenario;
use sim_site::Site;
use sim_windows::World;
use sim_workers::Gate;
use std::alloc::{AllocError, Global};
use std::sync::{Arc, Wait};
use std::thread::Threads;

// Sites with printers that have these names.
fn with_printers(
    alloc: Global,
    sites: Vec<Site>,
    names: &Arc<Names, Global>,
) -> Result<Vec<PrintedSite>, AllocError>
    ensures { IfOk result
        (λ made. made.items ≡ map (with_mapper (arc_value names.now)) sites.items) }
{
    let mut made = Vec::with_capacity(alloc, sites.len())?;
    for site in sites {
        let printer = RowPrinter::new(alloc, Arc::try_clone(names)?);
        made.push(Mapped::new(alloc, site, printer))?;
    }
    Ok(made)
}

// The sites without their printers.
fn without_printers(alloc: Global, sites: Vec<PrintedSite>) -> Result<Vec<Site>, AllocError>
    ensures { IfOk result (λ plain. plain.items ≡ map (λ s. s.site) sites.items) }
{
    let mut plain = Vec::with_capacity(alloc, sites.len())?;
    for site in sites {
        plain.push(site.into_site())?;
    }
    Ok(plain)
}

// The world with which a scenario opens, with printers that have these names. It fails if memory
// runs out.
fn open_printed(
    alloc: Global,
    scenario: Scenario,
    names: &Arc<Names, Global>,
) -> Result<World<PrintedSite>, AllocError>
    ensures setting { IfOk result
        (λ world. world ≡ mapped_setting (arc_value names.now) (setting_of scenario)) }
    ensures simulated { IfOk result
        (λ world. IsSimulated printed_sqs (mapped_conditions sqs_conditions) world) }
    ensures horizon { IfOk result (λ world. world.horizon ≤ most_count) }
    ensures ways { IfOk result
        (λ world. All (λ e. (1 ≤ e.least) × (e.least ≤ 900000)) world.edges) }
{
    let horizon = scenario.horizon();
    let world = open_world(alloc, scenario)?;
    let World { sites, edges, .. } = world;
    let sites = with_printers(alloc, sites, names)?;
    Ok(World {
        horizon,
        sites,
        edges,
    })
}

// Runs a scenario to its horizon with several workers, which print the rows that they make. It does
// what `run_workers` does with a recorder, but for looking at the window and the workers.
fn run_printed<G: Gate<Running> + Sync, L: Out, P: Watch, W: Threads + Wait + Sync>(
    rt: &W,
    scenario: Scenario,
    split: Split,
    names: &Arc<Names, Global>,
    gate: &G,
    sink: &mut Recorder<'_, L, P>,
) -> Result<Vec<Site>, Refusal>
    requires ready { (L.state sink.old.out.now).failed ≡ false }
    requires names { arc_value names.now ≡ sink.old.names.now }
    ensures whole { IfOk result (λ sites. TookRun
        (Recorded L.state) scenario sink.old sink.new sites.items) }
    ensures counted { OnOk result (¬ IsOver scenario) }
    ensures stops { IfErr result (RunStopsAnyhow (Works L.state) (Recorded L.state)
        (StoppedAt L.state) scenario sink.old sink.new) }
{
    let alloc = sink.alloc;
    let Split {
        layout,
        workers,
        ..
    } = split;
    let world = open_printed(alloc, scenario, names)?;
    let made = sim_workers::run_workers(rt, alloc, world, layout, workers, gate, sink)?;
    let sites = without_printers(alloc, made)?;
    counted(Ok(sites))
}

/// Runs a scenario whose rehearsal has begun, with several workers. Its rows are written to the log
/// and counted, and a watch is informed of the progress.
///
/// # Errors
///
/// `Memory` if a growth is refused. `CountLimit` only if the one-list run takes a count past 2^62 -
/// 1. `Write` if the writer fails. After these a prefix of the log is written. `NoWorker` if the
/// start of a thread is refused: the header is written.
pub fn run_several<G: Gate<Running> + Sync, L: Out, P: Watch, W: Threads + Wait + Sync>(
    rt: &W,
    scenario: Scenario,
    begun: Begun,
    gate: &G,
    log: &mut L,
    watch: &mut P,
) -> Result<Ended, Refusal>
    requires { (L.state log.old).failed ≡ false }
    ensures works { OnOk result ((L.state log.new).failed ≡ false) }
    ensures logs { LogsOfSeveral scenario begun (L.state log.old) (L.state log.new) result }
{
    let Begun {
        alloc,
        horizon,
        split,
        names,
        mut counts,
    } = begun;
    let mut recorder = recording(alloc, &names, log, &mut counts, watch, horizon);
    let sites = run_printed(rt, scenario, split, &names, gate, &mut recorder)?;
    Ok(Ended {
        alloc,
        names,
        counts,
        sites,
    })
}
