//! What is done at a barrier: what each partition gets, and how far each may run.
ghost use Rattle.std.specs.List.{range_with_len};
ghost use Rattle.std.specs.Prelude.{◌≡◌, ◌≤◌, ◌<◌, ◌+◌, ◌^◌, All, IfErr, IfOk, List, None, Ok, OnOk, [], get_or, length, map};
ghost use Rattle.sim_exchange.specs.Table.{distance_in};
ghost use Rattle.sim_engine.specs.Bounds.{bound_by, moment_of};
ghost use Rattle.sim_partition.specs.Sites.{due_in};
ghost use Rattle.sim_windows.specs.Meeting.{AreReached, OfLiving, bounds_from, delivered_each, due_moments};

use sim_clock::{Key, Refusal};
use sim_engine::Site;
use sim_exchange::Distances;
use sim_partition::Partition;
use std::alloc::{AllocError, Global};

// The moment of the next entry due.
fn moment_of(due: Option<Key>) -> Option<u64>
    ensures { result ≡ moment_of due }
{
    match due {
        None => None,
        Some(key) => Some(key.at),
    }
}

/// The moment of the next entry due in each partition, in milliseconds.
pub fn dues_of<S: Site>(
    alloc: Global,
    parts: &[Partition<S>],
) -> Result<Vec<Option<u64>>, AllocError>
    ensures { IfOk result (λ dues. dues.items ≡ due_moments S.engine parts.now) }
{
    let mut dues = Vec::with_capacity(alloc, parts.len())?;
    for part in parts {
        dues.push(moment_of(part.least_due()))?;
    }
    Ok(dues)
}

/// The bound of each partition, in milliseconds, by the moments of the next entries due.
pub fn bounds_of(
    alloc: Global,
    distances: &Distances,
    dues: &[Option<u64>],
    horizon: u64,
) -> Result<Vec<u64>, AllocError>
    requires dues { length dues.now ≡ distances.now.parts }
    requires parts { distances.now.parts < 2 ^ 32 }
    requires horizon { horizon + 1 < 2 ^ 64 }
    ensures { IfOk result (λ bounds.
        bounds.items ≡ bounds_from distances.now horizon dues.now) }
{
    let mut bounds = Vec::with_capacity(alloc, dues.len())?;
    for part in 0..dues.len() {
        bounds.push(distances.bound(dues, part as u32, horizon))?;
    }
    Ok(bounds)
}

/// Delivers to each partition what was sent to it. Its sites accept that when it runs next, on the
/// thread that runs it.
pub fn deliver_each<S: Site>(
    parts: &mut Vec<Partition<S>>,
    lists: Vec<Vec<S::Transfer>>,
) -> Result<(), Refusal>
    requires past { AreReached S.engine S.conditions parts.old.items
        (map (λ l. l.items) lists.items) }
    ensures delivered { OfLiving parts.old.items (λ ws. OnOk result
        (parts.new.items ≡ map Ok (delivered_each S.engine (map (λ l. l.items) lists.items) ws))) }
    ensures memory { OfLiving parts.old.items (λ _. IfErr result (λ refusal. refusal
        ≡ Refusal.Memory)) }
{
    let mut place = 0;
    for transfers in lists {
        parts[place].deliver_later(transfers)?;
        place += 1;
    }
    Ok(())
}
