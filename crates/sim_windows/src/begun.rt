//! The beginning of a run of several workers, on one list.
ghost use Rattle.std.specs.Prelude.{◌≡◌, ◌≤◌, [], IsNone, IsOk, IfErr, IfOk, OnOk, true};
ghost use Rattle.sim_engine.specs.Limits.{most_count};
ghost use Rattle.sim_engine.specs.Simulated.{IsSimulated};
ghost use Rattle.sim_engine.specs.World.{next_due, world_due};
ghost use Rattle.sim_partition.specs.Sites.{IsFrom, IsLater};
ghost use Rattle.sim_windows.specs.Gathered.{GathersFrom, GathersTo, HaltsFrom, HaltsTo};
ghost use Rattle.sim_windows.specs.Sinks.{HasBegun, HasStopped};
ghost use Rattle.sim_windows.specs.Worlds.{sites_in};

use crate::alone::{hand_many, hand_rest, run_moment};
use crate::density::Density;
use crate::sink::RowSink;
use crate::world::World;
use sim_clock::Refusal;
use sim_engine::{Edge, Effects, Site};
use sim_partition::Roster;
use std::alloc::Global;

// The number of rows that are handed on at once: few enough that they, and the text of their lines,
// stay in the cache.
const ROWS_AT_ONCE: usize = 64;

/// The world to which a run has come on one list, and whether nothing is left by its horizon.
#[derive(Drop)]
pub struct Begun<S: Site> {
    pub world: World<S>,
    pub over: bool,
}

// The least latency of some ways, and at most this many milliseconds.
fn least_latency(ways: &[Edge], most: u64) -> u64 {
    ways.iter().fold(most, |least, way| least.min(way.least))
}

// Handles all that is due at the least moment, counts the rows, and hands them on if enough wait.
fn run_counted<S: Site, K: RowSink<S::Row>>(
    alloc: Global,
    roster: &mut Roster<S>,
    moment: u64,
    effects: &mut Effects<S::Row, S::Transfer>,
    density: &mut Density,
    sink: &mut K,
) -> Result<(), Refusal>
    requires lives { IsOk roster.old }
    requires from { IsFrom moment (world_due S.engine (sites_in roster.old)) }
    requires moment { moment ≤ most_count }
    requires none { effects.old.sent.items ≡ [] }
    requires ready { K.ready sink.old }
    ensures ready { OnOk result (K.ready sink.new) }
    ensures none { OnOk result (effects.new.sent.items ≡ []) }
    ensures lives { OnOk result (IsOk roster.new) }
    ensures ran { OnOk result (GathersFrom S.engine K.took moment roster.old sink.old effects.old
        roster.new sink.new effects.new) }
    ensures done { OnOk result (IsLater moment (world_due S.engine (sites_in roster.new))) }
    ensures stops { IfErr result (λ refusal.
        HaltsFrom S.engine K.took K.broke moment
        roster.old sink.old effects.old refusal sink.new) }
{
    let before = effects.rows.len();
    run_moment(alloc, roster, moment, usize::MAX, effects, sink)?;
    density.count(effects.rows.len().saturating_sub(before));
    hand_many(ROWS_AT_ONCE, &mut effects.rows, sink)
}

// Handles what is due by the horizon, as long as rounds of partitions would not pay. Returns
// whether nothing is left.
fn run_sparse<S: Site, K: RowSink<S::Row>>(
    alloc: Global,
    roster: &mut Roster<S>,
    horizon: u64,
    effects: &mut Effects<S::Row, S::Transfer>,
    density: &mut Density,
    sink: &mut K,
) -> Result<bool, Refusal>
    requires lives { IsOk roster.old }
    requires horizon { horizon ≤ most_count }
    requires none { effects.old.sent.items ≡ [] }
    requires ready { K.ready sink.old }
    ensures ready { OnOk result (K.ready sink.new) }
    ensures lives { OnOk result (IsOk roster.new) }
    ensures ran { OnOk result (GathersTo S.engine K.took horizon roster.old sink.old effects.old
        roster.new sink.new effects.new) }
    ensures over { IfOk result (λ over. over ≡ true
        → IsNone (next_due S.engine horizon (sites_in roster.new))) }
    ensures stops { IfErr result (λ refusal.
        HaltsTo S.engine K.took K.broke horizon
        roster.old sink.old effects.old refusal sink.new) }
{
    while let Some(key) = roster.least_due() {
        if key.at > horizon {
            return Ok(true);
        }
        if density.come_to(key.at) {
            return Ok(false);
        }
        run_counted(alloc, roster, key.at, effects, density, sink)?;
    }
    Ok(true)
}

/// Begins the run of a world on this thread. Each step handles the least entry of the whole world.
/// It goes on to the horizon, or until rounds of partitions would pay: eight stretches of time one
/// after another, each as long as the least latency of all ways, have made 1,024 rows each. The
/// rows go to the sink once at least 64 of them wait, and before this returns. Returns the world to
/// which the run has come, from which it may go on.
///
/// # Errors
///
/// Those of `run_alone`.
pub fn begin_gathered<S: Site, K: RowSink<S::Row>>(
    alloc: Global,
    world: World<S>,
    sink: &mut K,
) -> Result<Begun<S>, Refusal>
    requires simulated { IsSimulated S.engine S.conditions world }
    requires horizon { world.horizon ≤ most_count }
    requires ready { K.ready sink.old }
    ensures ready { OnOk result (K.ready sink.new) }
    ensures begun { IfOk result
        (λ begun. HasBegun S.engine K.took world sink.old begun.world sink.new) }
    ensures simulated { IfOk result
        (λ begun. IsSimulated S.engine S.conditions begun.world) }
    ensures over { IfOk result (λ begun. begun.over ≡ true
        → IsNone (next_due S.engine world.horizon begun.world.opening)) }
    ensures stops { IfErr result
        (λ refusal. HasStopped S.engine K.took K.broke world sink.old refusal sink.new) }
{
    let World {
        horizon,
        sites,
        edges,
    } = world;
    let mut density = Density::new(least_latency(&edges, horizon));
    let mut roster = Roster::new(alloc, sites)?;
    let mut effects = Effects::new(alloc);
    let over = run_sparse(
        alloc,
        &mut roster,
        horizon,
        &mut effects,
        &mut density,
        sink,
    )?;
    hand_rest(&effects.rows, sink)?;
    let sites = roster.into_sites();
    Ok(Begun {
        world: World {
            horizon,
            sites,
            edges,
        },
        over,
    })
}
