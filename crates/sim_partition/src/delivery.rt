//! Delivers transfers to the sites of a partition.
ghost use Rattle.std.specs.Prelude.{◌≡◌, All, IfErr, OnOk, map};
ghost use Rattle.sim_engine.specs.Members.{Ascends};
ghost use Rattle.sim_engine.specs.World.{arrival, delivered, delivered_one};
ghost use Rattle.sim_index.specs.Marked.{AreMarked};
ghost use Rattle.sim_partition.specs.Sites.{IsKept, mark_of};

use sim_clock::{Refusal, lesser};
use sim_engine::Site;
use sim_index::{Mark, MarkedList};

// Delivers a transfer to the site that receives it, if that is one of these sites, which have these
// numbers. What is due there next is then the lesser of the transfer's key and of the key before,
// so nothing else of the site is read.
fn deliver_one<S: Site>(
    sites: &mut MarkedList<S>,
    numbers: &[u32],
    transfer: S::Transfer,
) -> Result<(), Refusal>
    requires ascends { Ascends S.engine.number 0 sites.old.values }
    requires numbers { numbers.now ≡ map S.engine.number sites.old.values }
    requires marked { AreMarked (mark_of S.engine) sites.old }
    ensures delivered { OnOk result
        (sites.new.values ≡ map (delivered_one S.engine transfer) sites.old.values) }
    ensures marked { OnOk result (AreMarked (mark_of S.engine) sites.new) }
    ensures memory { IfErr result (λ refusal. refusal ≡ Refusal.Memory) }
{
    if let Ok(place) = numbers.binary_search(&S::to(&transfer)) {
        let key = S::transfer_key(&transfer);
        let due = lesser(Some(key), sites.mark_at(place).due);
        sites.value_mut(place).accept(transfer)?;
        sites.set_mark(place, &Mark { due, flags: 0 });
    }
    Ok(())
}

// Delivers transfers to the sites that receive them, one after another.
fn deliver_each<S: Site>(
    sites: &mut MarkedList<S>,
    numbers: &[u32],
    transfers: Vec<S::Transfer>,
) -> Result<(), Refusal>
    requires ascends { Ascends S.engine.number 0 sites.old.values }
    requires numbers { numbers.now ≡ map S.engine.number sites.old.values }
    requires marked { AreMarked (mark_of S.engine) sites.old }
    ensures delivered { OnOk result
        (sites.new.values ≡ delivered S.engine transfers.items sites.old.values) }
    ensures marked { OnOk result (AreMarked (mark_of S.engine) sites.new) }
    ensures memory { IfErr result (λ refusal. refusal ≡ Refusal.Memory) }
{
    for transfer in transfers {
        deliver_one(sites, numbers, transfer)?;
    }
    Ok(())
}

/// Delivers transfers one after another to the sites that receive them; `numbers` are the numbers
/// of these sites. A transfer to a site that is not here changes nothing. The only error is
/// `Memory`.
pub fn deliver_all<S: Site>(
    sites: &mut MarkedList<S>,
    numbers: &[u32],
    transfers: Vec<S::Transfer>,
) -> Result<(), Refusal>
    requires kept { IsKept S.engine S.conditions sites.old }
    requires numbers { numbers.now ≡ map S.engine.number sites.old.values }
    requires past { All (λ o. All (S.conditions.Past (arrival S.engine o)) sites.old.values)
        transfers.items }
    requires timely { All S.conditions.Timely transfers.items }
    ensures delivered { OnOk result
        (sites.new.values ≡ delivered S.engine transfers.items sites.old.values) }
    ensures kept { OnOk result (IsKept S.engine S.conditions sites.new) }
    ensures memory { IfErr result (λ refusal. refusal ≡ Refusal.Memory) }
{
    deliver_each(sites, numbers, transfers)
}
