//! The handling of what is due at the sites of a partition.
ghost use Rattle.std.specs.Prelude.{◌≡◌, ◌+◌, ◌<◌, ◌≤◌, All, None, Ok, Some, IfErr, OnOk, ℕ};
ghost use Rattle.sim_clock.specs.declared.key.Key.{Key as TheKey};
ghost use Rattle.sim_clock.specs.Order.{due_before};
ghost use Rattle.sim_engine.specs.Limits.{most_count};
ghost use Rattle.sim_clock.specs.Places.{Stands};
ghost use Rattle.sim_engine.specs.World.{handled_among, world_due};
ghost use Rattle.sim_partition.specs.Sites.{HasDue, IsFrom, IsKept, IsLater, is_due_there};
ghost use Rattle.sim_partition.specs.Steps.{Adds, OfNext, RunsOn, StaysOfPast, StaysTimely, StopsFrom, StopsStep, part_made};

use crate::marking::mark_of;
use sim_clock::{Key, Refusal};
use sim_engine::{Effects, Site};
use sim_index::MarkedList;

// The site at a place, the first at which a key is due next, handles it. The effects are appended
// to those made before.
fn handle_at<S: Site>(
    sites: &mut MarkedList<S>,
    place: usize,
    key: Key,
    effects: &mut Effects<S::Row, S::Transfer>,
) -> Result<(), Refusal>
    requires kept { IsKept S.engine S.conditions sites.old }
    requires due { world_due S.engine sites.old.values ≡ Some key }
    requires there { Stands (is_due_there S.engine key) sites.old.values place }
    requires moment { key.at ≤ most_count }
    ensures handled { OnOk result (Adds S.engine (handled_among S.engine key sites.old.values)
        sites.old.values effects.old sites.new.values effects.new) }
    ensures kept { OnOk result (IsKept S.engine S.conditions sites.new) }
    ensures timely { StaysTimely S.conditions result effects.old effects.new }
    ensures stops { IfErr result
        (StopsStep S.engine (handled_among S.engine key sites.old.values)) }
{
    sites.value_mut(place).handle_into(key, effects)?;
    let mark = mark_of(&sites.values()[place]);
    sites.set_mark(place, &mark);
    Ok(())
}

/// The first site at which the least entry is due handles it. The effects are appended to those
/// made before.
pub fn handle_least<S: Site>(
    sites: &mut MarkedList<S>,
    effects: &mut Effects<S::Row, S::Transfer>,
) -> Result<(), Refusal>
    requires kept { IsKept S.engine S.conditions sites.old }
    requires due { HasDue S.engine sites.old.values }
    ensures handled { OfNext S.engine (Ok sites.old.values) (λ t. OnOk result
        (Adds S.engine t sites.old.values effects.old sites.new.values effects.new)) }
    ensures kept { OnOk result (IsKept S.engine S.conditions sites.new) }
    ensures timely { StaysTimely S.conditions result effects.old effects.new }
    ensures stops { OfNext S.engine (Ok sites.old.values)
        (λ t. IfErr result (StopsStep S.engine t)) }
{
    let Some(place) = sites.place_of_least() else {
        unreachable!();
    };
    let Some(key) = sites.least() else {
        unreachable!();
    };
    handle_at(sites, place, key, effects)
}

// Handles all that is due at the least moment.
fn run_moment<S: Site>(
    sites: &mut MarkedList<S>,
    moment: u64,
    effects: &mut Effects<S::Row, S::Transfer>,
) -> Result<(), Refusal>
    requires kept { IsKept S.engine S.conditions sites.old }
    requires from { IsFrom moment (world_due S.engine sites.old.values) }
    requires moment { moment ≤ most_count }
    ensures goes_on { OnOk result (
        (bound : ℕ) → moment < bound →
        RunsOn S.engine bound sites.old.values effects.old sites.new.values effects.new) }
    ensures done { OnOk result (IsLater moment (world_due S.engine sites.new.values)) }
    ensures kept { OnOk result (IsKept S.engine S.conditions sites.new) }
    ensures past { OnOk result (StaysOfPast S.conditions moment sites.old.values sites.new.values) }
    ensures timely { StaysTimely S.conditions result effects.old effects.new }
    ensures stops { IfErr result (λ refusal.
        (bound : ℕ) → moment < bound →
        StopsFrom S.engine bound (part_made S.engine sites.old.values effects.old) refusal) }
{
    while let Some(key) = sites.least() {
        if key.at > moment {
            return Ok(());
        }
        handle_least(sites, effects)?;
    }
    Ok(())
}

/// Handles all that is due before a moment in milliseconds, and appends the effects to those made
/// before.
pub fn run_before<S: Site>(
    sites: &mut MarkedList<S>,
    end: u64,
    effects: &mut Effects<S::Row, S::Transfer>,
) -> Result<(), Refusal>
    requires kept { IsKept S.engine S.conditions sites.old }
    requires end { end ≤ most_count + 1 }
    ensures goes_on { OnOk result (
        RunsOn S.engine end sites.old.values effects.old sites.new.values effects.new) }
    ensures done { OnOk result (due_before end (world_due S.engine sites.new.values) ≡ None) }
    ensures kept { OnOk result (IsKept S.engine S.conditions sites.new) }
    ensures past { OnOk result (StaysOfPast S.conditions end sites.old.values sites.new.values) }
    ensures timely { StaysTimely S.conditions result effects.old effects.new }
    ensures stops { IfErr result
        (StopsFrom S.engine end (part_made S.engine sites.old.values effects.old)) }
{
    while let Some(key) = sites.least() {
        if key.at >= end {
            return Ok(());
        }
        run_moment(sites, key.at, effects)?;
    }
    Ok(())
}
