//! A run that begins on one list and goes on in partitions.
ghost use Rattle.std.specs.Prelude.{◌≡◌, ◌≤◌, All, IfErr, IfOk, IsNone, OnOk, true};
ghost use Rattle.sim_engine.specs.Limits.{most_count};
ghost use Rattle.sim_engine.specs.Simulated.{IsSimulated};
ghost use Rattle.sim_engine.specs.World.{next_due};
ghost use Rattle.sim_windows.specs.Sinks.{HasBegun, HasStopped, HasTaken};
ghost use Rattle.sim_workers.specs.Teams.{HasPlaces};

use crate::gate::Gate;
use crate::piece::PartWork;
use crate::rounds::run_stage;
use crate::together::Together;
use sim_clock::Refusal;
use sim_engine::Site;
use sim_exchange::PartMap;
use sim_handoff::Work;
use sim_windows::{Begun, RowSink, Stage, World, begin_gathered};
use std::alloc::Global;
use std::sync::Wait;

/// What a run of several workers starts from: a world, and the partition of each of its sites.
#[derive(Drop)]
pub struct Start<S: Site> {
    pub alloc: Global,
    pub world: World<S>,
    pub layout: PartMap,
}

// Begins a run: on one list, or by nothing if the gate wants partitions at once.
fn begin<S: Site, W: Work, G: Gate<W>, K: RowSink<S::Row>>(
    alloc: Global,
    gate: &G,
    world: World<S>,
    sink: &mut K,
) -> Result<Begun<S>, Refusal>
    requires simulated { IsSimulated S.engine S.conditions world }
    requires horizon { world.horizon ≤ most_count }
    requires ready { K.ready sink.old }
    ensures ready { OnOk result (K.ready sink.new) }
    ensures begun { IfOk result
        (λ begun. HasBegun S.engine K.took world sink.old begun.world sink.new) }
    ensures simulated { IfOk result
        (λ begun. IsSimulated S.engine S.conditions begun.world) }
    ensures over { IfOk result (λ begun. begun.over ≡ true
        → IsNone (next_due S.engine world.horizon begun.world.opening)) }
    ensures stops { IfErr result
        (λ refusal. HasStopped S.engine K.took K.broke world sink.old refusal sink.new) }
{
    if gate.begins_parted() {
        return Ok(Begun { world, over: false });
    }
    begin_gathered(alloc, world, sink)
}

/// Runs a world to its horizon by several workers, and hands all rows on to the sink. The run
/// begins on one list, on this thread, unless the gate wants partitions at once. Once rounds would
/// pay, the world that it has come to is put into partitions. Returns the sites of the last world, by number. It ends if each round does.
///
/// # Errors
///
/// `Memory` if a growth is refused, and `CountLimit` only if the run takes a count past 2^62 - 1.
/// Else the sink's error. In each case the sink took a prefix of the run's rows.
pub fn run_start<S: Site, W: PartWork<S>, G: Gate<W>, K: RowSink<S::Row>, R: Wait>(
    team: &mut Together<'_, W, G, R>,
    start: Start<S>,
    sink: &mut K,
) -> Result<Vec<S>, Refusal>
    requires places { HasPlaces start.layout.parts team.old }
    requires simulated { IsSimulated S.engine S.conditions start.world }
    requires horizon { start.world.horizon ≤ most_count }
    requires ways { All (λ e. (1 ≤ e.least) × (e.least ≤ 900000)) start.world.edges }
    requires ready { K.ready sink.old }
    ensures ready { OnOk result (K.ready sink.new) }
    ensures whole { IfOk result
        (λ sites. HasTaken S.engine K.took start.world sink.old sink.new sites.items) }
    ensures stops { IfErr result
        (λ refusal. HasStopped S.engine K.took K.broke start.world sink.old refusal sink.new) }
{
    let Start {
        alloc,
        world,
        layout,
    } = start;
    let begun = begin(alloc, team.gate, world, sink)?;
    if begun.over {
        return Ok(begun.world.sites);
    }
    let stage = Stage::open(alloc, begun.world, layout)?;
    run_stage(team, stage, sink)
}
