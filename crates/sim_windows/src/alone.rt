//! The run of a world on one thread.
ghost use Rattle.std.specs.Prelude.{◌≡◌, ◌≤◌, [], All, IsNone, IsOk, Ok, Some, IfErr, IfOk, OnOk, ℕ};
ghost use Rattle.sim_clock.specs.declared.refusal.Refusal.TheVariants.{Memory};
ghost use Rattle.sim_engine.specs.Limits.{most_count};
ghost use Rattle.sim_engine.specs.Simulated.{IsSimulated};
ghost use Rattle.sim_engine.specs.World.{arrival, delivered, next_due, world_due};
ghost use Rattle.sim_partition.specs.Sites.{IsFrom, IsLater};
ghost use Rattle.sim_windows.specs.Gathered.{GathersFrom, GathersTo, HaltsFrom, HaltsTo, HandsFirst};
ghost use Rattle.sim_windows.specs.Sinks.{HasStopped, HasTaken};
ghost use Rattle.sim_windows.specs.Worlds.{sites_after, sites_in};

use crate::sink::RowSink;
use crate::world::World;
use sim_clock::{Key, Refusal};
use sim_engine::{Effects, Site};
use sim_partition::Roster;
use std::alloc::Global;
use std::mem;

// Delivers what a handling sent, if it sent something.
#[inline(always)]
fn deliver_sent<S: Site>(
    alloc: Global,
    roster: &mut Roster<S>,
    sent: &mut Vec<S::Transfer>,
) -> Result<(), Refusal>
    requires past { IfOk roster.old
        (λ w. All (λ o. All (S.conditions.Past (arrival S.engine o)) w) sent.old.items) }
    requires timely { All S.conditions.Timely sent.old.items }
    ensures delivered { IfOk roster.old
        (λ w. OnOk result (roster.new ≡ Ok (delivered S.engine sent.old.items w))) }
    ensures none { OnOk result (sent.new.items ≡ []) }
    ensures memory { IfOk roster.old (λ w. IfErr result (λ refusal. refusal ≡ Memory)) }
{
    if sent.is_empty() {
        return Ok(());
    }
    let transfers = mem::replace(sent, Vec::new(alloc));
    roster.deliver(transfers)
}

/// Hands rows on if there are enough of them.
pub fn hand_many<R: Drop, K: RowSink<R>>(
    enough: usize,
    rows: &mut Vec<R>,
    sink: &mut K,
) -> Result<(), Refusal>
    requires ready { K.ready sink.old }
    ensures ready { OnOk result (K.ready sink.new) }
    ensures took { OnOk result
        (HandsFirst K.took sink.old rows.old.items sink.new rows.new.items) }
    ensures broke { IfErr result (λ refusal. K.broke sink.old rows.old.items refusal sink.new) }
{
    if rows.len() >= enough {
        sink.take(rows)?;
        rows.clear();
    }
    Ok(())
}

/// Hands on the rows that are left, if there are any.
pub fn hand_rest<R: Drop, K: RowSink<R>>(rows: &[R], sink: &mut K) -> Result<(), Refusal>
    requires ready { K.ready sink.old }
    ensures ready { OnOk result (K.ready sink.new) }
    ensures took { OnOk result (K.took sink.old rows.now sink.new) }
    ensures broke { IfErr result (λ refusal. K.broke sink.old rows.now refusal sink.new) }
{
    if rows.is_empty() {
        return Ok(());
    }
    sink.take(rows)
}

// Handles the next entry due and delivers what it sends. Its rows join those that wait, which are
// handed on once there are enough.
fn handle<S: Site, K: RowSink<S::Row>>(
    alloc: Global,
    roster: &mut Roster<S>,
    key: Key,
    enough: usize,
    effects: &mut Effects<S::Row, S::Transfer>,
    sink: &mut K,
) -> Result<(), Refusal>
    requires due { world_due S.engine (sites_in roster.old) ≡ Some key }
    requires moment { key.at ≤ most_count }
    requires sound { All S.conditions.Sound (sites_in roster.old) }
    requires past { All (S.conditions.Past key.at) (sites_in roster.old) }
    requires none { effects.old.sent.items ≡ [] }
    requires ready { K.ready sink.old }
    ensures ready { OnOk result (K.ready sink.new) }
    ensures none { OnOk result (effects.new.sent.items ≡ []) }
    ensures lives { OnOk result (IsOk roster.new) }
    ensures done { OnOk result
        (sites_in roster.new ≡ sites_after S.engine key (sites_in roster.old)) }
    ensures ran { OnOk result (GathersFrom S.engine K.took key.at roster.old sink.old effects.old
        roster.new sink.new effects.new) }
    ensures stops { IfErr result (λ refusal.
        HaltsFrom S.engine K.took K.broke key.at
        roster.old sink.old effects.old refusal sink.new) }
{
    roster.step_into(effects)?;
    deliver_sent(alloc, roster, &mut effects.sent)?;
    hand_many(enough, &mut effects.rows, sink)
}

/// Handles all that is due at the least moment.
pub fn run_moment<S: Site, K: RowSink<S::Row>>(
    alloc: Global,
    roster: &mut Roster<S>,
    moment: u64,
    enough: usize,
    effects: &mut Effects<S::Row, S::Transfer>,
    sink: &mut K,
) -> Result<(), Refusal>
    requires lives { IsOk roster.old }
    requires from { IsFrom moment (world_due S.engine (sites_in roster.old)) }
    requires moment { moment ≤ most_count }
    requires none { effects.old.sent.items ≡ [] }
    requires ready { K.ready sink.old }
    ensures ready { OnOk result (K.ready sink.new) }
    ensures none { OnOk result (effects.new.sent.items ≡ []) }
    ensures lives { OnOk result (IsOk roster.new) }
    ensures ran { OnOk result (GathersFrom S.engine K.took moment roster.old sink.old effects.old
        roster.new sink.new effects.new) }
    ensures done { OnOk result (IsLater moment (world_due S.engine (sites_in roster.new))) }
    ensures stops { IfErr result (λ refusal.
        HaltsFrom S.engine K.took K.broke moment
        roster.old sink.old effects.old refusal sink.new) }
{
    while let Some(key) = roster.least_due() {
        if key.at > moment {
            return Ok(());
        }
        handle(alloc, roster, key, enough, effects, sink)?;
    }
    Ok(())
}

// Handles all that is due by the horizon.
fn run_by<S: Site, K: RowSink<S::Row>>(
    alloc: Global,
    roster: &mut Roster<S>,
    horizon: u64,
    enough: usize,
    effects: &mut Effects<S::Row, S::Transfer>,
    sink: &mut K,
) -> Result<(), Refusal>
    requires lives { IsOk roster.old }
    requires horizon { horizon ≤ most_count }
    requires none { effects.old.sent.items ≡ [] }
    requires ready { K.ready sink.old }
    ensures ready { OnOk result (K.ready sink.new) }
    ensures lives { OnOk result (IsOk roster.new) }
    ensures ran { OnOk result (GathersTo S.engine K.took horizon roster.old sink.old effects.old
        roster.new sink.new effects.new) }
    ensures ended { OnOk result (IsNone (next_due S.engine horizon (sites_in roster.new))) }
    ensures stops { IfErr result (λ refusal.
        HaltsTo S.engine K.took K.broke horizon
        roster.old sink.old effects.old refusal sink.new) }
{
    while let Some(key) = roster.least_due() {
        if key.at > horizon {
            return Ok(());
        }
        run_moment(alloc, roster, key.at, enough, effects, sink)?;
    }
    Ok(())
}

/// Runs a world to its horizon on this thread. Each step handles the least entry of the whole
/// world. The rows that it makes go to the sink once at least `enough` of them wait, and at the end.
/// Returns the sites of the last world, by number.
///
/// # Errors
///
/// Those of `run_alone`.
pub fn run_gathered<S: Site, K: RowSink<S::Row>>(
    alloc: Global,
    world: World<S>,
    enough: usize,
    sink: &mut K,
) -> Result<Vec<S>, Refusal>
    requires simulated { IsSimulated S.engine S.conditions world }
    requires horizon { world.horizon ≤ most_count }
    requires ready { K.ready sink.old }
    ensures ready { OnOk result (K.ready sink.new) }
    ensures whole { IfOk result
        (λ sites. HasTaken S.engine K.took world sink.old sink.new sites.items) }
    ensures stops { IfErr result
        (λ refusal. HasStopped S.engine K.took K.broke world sink.old refusal sink.new) }
{
    let World { horizon, sites, .. } = world;
    let mut roster = Roster::new(alloc, sites)?;
    let mut effects = Effects::new(alloc);
    run_by(alloc, &mut roster, horizon, enough, &mut effects, sink)?;
    hand_rest(&effects.rows, sink)?;
    Ok(roster.into_sites())
}

/// Runs a world to its horizon on this thread. Each step handles the least entry of the whole world
/// and hands its rows to a sink at once. Returns the sites of the last world, by number.
///
/// # Errors
///
/// `Memory` if a growth is refused, and `CountLimit` only if the run takes a count past 2^62 - 1.
/// Else the sink's error. In each case the sink took a prefix of the run's rows.
pub fn run_alone<S: Site, K: RowSink<S::Row>>(
    alloc: Global,
    world: World<S>,
    sink: &mut K,
) -> Result<Vec<S>, Refusal>
    requires simulated { IsSimulated S.engine S.conditions world }
    requires horizon { world.horizon ≤ most_count }
    requires ready { K.ready sink.old }
    ensures ready { OnOk result (K.ready sink.new) }
    ensures whole { IfOk result
        (λ sites. HasTaken S.engine K.took world sink.old sink.new sites.items) }
    ensures stops { IfErr result
        (λ refusal. HasStopped S.engine K.took K.broke world sink.old refusal sink.new) }
{
    run_gathered(alloc, world, 1, sink)
}
