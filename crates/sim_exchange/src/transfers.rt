//! The transfers that each partition gets.
ghost use Rattle.std.specs.Prelude.{◌≡◌, ◌<◌, ◌++◌, ◌∷◌, [], IfOk, List, OnOk, flat_map, get_or, length, map, ℕ};
ghost use Rattle.std.specs.List.{slice_set};
ghost use Rattle.sim_clock.specs.declared.key.Key.{Key as TheKey};
ghost use Rattle.sim_clock.specs.Order.{key_cmp};
ghost use Rattle.sim_exchange.specs.Dealt.{dealt};
ghost use Rattle.sim_exchange.specs.Layout.{owner_of};
ghost use Rattle.sim_engine.specs.Exchange.{exchanged, sorted};

use crate::layout::PartMap;
use sim_clock::Key;
use sim_engine::Site;
use std::alloc::{AllocError, Global};

/// Puts each transfer into the list of the partition that receives it, as often as it was sent.
/// Each list is in the order of keys; transfers of one key keep their order.
///
/// # Errors
///
/// `AllocError` if memory runs out.
pub fn exchange<S: Site>(
    alloc: Global,
    sent: Vec<Vec<S::Transfer>>,
    layout: &PartMap,
) -> Result<Vec<Vec<S::Transfer>>, AllocError>
    ensures { IfOk result (λ lists.
        map (λ l. l.items) lists.items
        ≡ exchanged S.engine (owner_of layout.now) layout.now.parts
        (flat_map (λ l. l.items) sent.items)) }
{
    let mut lists = no_lists::<S>(alloc, layout.parts())?;
    for list in sent {
        deal::<S>(list, layout, &mut lists)?;
    }
    sort_each::<S>(&mut lists)?;
    Ok(lists)
}

// As many empty lists as there are partitions.
fn no_lists<S: Site>(alloc: Global, parts: u32) -> Result<Vec<Vec<S::Transfer>>, AllocError>
    ensures { IfOk result (λ lists.
        (owner : ℕ → ℕ) → map (λ l. l.items) lists.items ≡ dealt S.engine owner parts []) }
{
    let mut lists = Vec::with_capacity(alloc, parts as usize)?;
    for _part in 0..parts {
        lists.push(Vec::new(alloc))?;
    }
    Ok(lists)
}

// Appends each transfer of a list to the list of its partition.
fn deal<S: Site>(
    sent: Vec<S::Transfer>,
    layout: &PartMap,
    lists: &mut Vec<Vec<S::Transfer>>,
) -> Result<(), AllocError>
    requires { length lists.old.items ≡ layout.now.parts }
    ensures lists { OnOk result (length lists.new.items ≡ layout.now.parts) }
    ensures dealt { OnOk result (
        (os : List S.Transfer) →
        map (λ l. l.items) lists.old.items
        ≡ dealt S.engine (owner_of layout.now) layout.now.parts os →
        map (λ l. l.items) lists.new.items
        ≡ dealt S.engine (owner_of layout.now) layout.now.parts (os ++ sent.items)) }
{
    for transfer in sent {
        let part = layout.part_of(S::to(&transfer));
        put::<S>(transfer, part as usize, lists)?;
    }
    Ok(())
}

// Appends a transfer to one of some lists.
fn put<S: Site>(
    transfer: S::Transfer,
    place: usize,
    lists: &mut Vec<Vec<S::Transfer>>,
) -> Result<(), AllocError>
    requires { place < length lists.old.items }
    ensures lists { length lists.new.items ≡ length lists.old.items }
    ensures put { OnOk result (
        map (λ l. l.items) lists.new.items
        ≡ slice_set (map (λ l. l.items) lists.old.items) place
        (get_or (map (λ l. l.items) lists.old.items) place [] ++ transfer ∷ [])) }
{
    let list = &mut lists[place];
    list.push(transfer)?;
    Ok(())
}

// Sorts each list by keys.
fn sort_each<S: Site>(lists: &mut Vec<Vec<S::Transfer>>) -> Result<(), AllocError>
    ensures { OnOk result (map (λ l. l.items) lists.new.items
        ≡ map (sorted S.engine) (map (λ l. l.items) lists.old.items)) }
{
    for list in lists.iter_mut() {
        sort::<S>(list)?;
    }
    Ok(())
}

// The order of keys is that of the definitions.
fn key_order_is()
    ensures { (a b : TheKey) → ⟦<Key as Ord>⟧.cmp a b ≡ key_cmp a b }
{}

// Sorts transfers by their keys; those of one key keep their order.
fn sort<S: Site>(transfers: &mut Vec<S::Transfer>) -> Result<(), AllocError>
    ensures { OnOk result (transfers.new.items ≡ sorted S.engine transfers.old.items) }
{
    key_order_is();
    transfers.sort_by_key(
        |transfer: &S::Transfer| -> Key
            ensures { result ≡ S.engine.transfer_key transfer.now }
        { S::transfer_key(transfer) },
    )?;
    Ok(())
}
