//! The transfers on their way to a site, in the order of their keys.
ghost use Rattle.std.specs.Prelude.{◌≡◌, ◌≤◌, ◌++◌, ◌∷◌, [], true, IfSome, MatchOption, Some, map, OnOk, OnErr};
ghost use Rattle.std.specs.List.{insert};
ghost use Rattle.std.specs.Iterator.{YieldsFirstRef, item_count};
ghost use Rattle.std.specs.Ordering.{on};
ghost use Rattle.std.specs.VecDeque.{deque_len};
ghost use Rattle.sim_clock.specs.Order.{IsInOrder, inserted_by, key_cmp, least};
ghost use Rattle.sim_site.specs.Arrivals.{ComesFirst, ReportsFirst, with_transfer, IsPlaceFor};
ghost use Rattle.sqs_redrive.specs.Transfers.{transfer_key};
ghost use Rattle.sim_site.specs.Kept.{AddsOrKeeps};

use crate::later::Later;
use sim_clock::Key;
use sqs_redrive::Outbound;
use std::alloc::{AllocError, Global};
use std::collections::btree_map::Values;
use std::collections::{VecDeque, vec_deque};
use std::marker::Model;

// The number of transfers that stand in a ring at most, before those in a tree.
const SOON: usize = 128;

/// The transfers on their way to a site, in the order of their keys; of two with one key the
/// earlier comes first. Most come behind all others or nearly so, and soon arrive. So the first of
/// them stand in a ring, and only those behind a full ring in a tree. Contracts see them as a list.
#[derive(Drop)]
pub struct Arrivals {
    soon: VecDeque<Outbound>,
    later: Later,
}

impl Model for Arrivals {
    ghost use Rattle.std.specs.Ordering.{on};
    ghost use Rattle.std.specs.Prelude.{◌++◌, List};
    ghost use Rattle.sim_clock.specs.Order.{IsInOrder, key_cmp};
    ghost use Rattle.sqs_redrive.specs.declared.transfers.Outbound.{Outbound};
    ghost use Rattle.sqs_redrive.specs.Transfers.{transfer_key};

    ghost Value = { List Outbound };

    ghost view = { λ a. a.soon.items ++ a.later };

    ghost invariant = { λ a. IsInOrder (on transfer_key key_cmp) (a.soon.items ++ a.later) };
}

/// The transfers on their way to a site, one after another. Contracts see the list of those still
/// to come.
#[derive(Drop)]
pub struct Transfers<'a> {
    soon: vec_deque::Iter<'a, Outbound>,
    later: Values<'a, (Key, u64), Outbound>,
}

impl<'a> Model for Transfers<'a> {
    ghost use Rattle.std.specs.Prelude.{◌++◌, List};
    ghost use Rattle.std.specs.VecDeque.Iter.{deque_iter_rest};
    ghost use Rattle.sqs_redrive.specs.declared.transfers.Outbound.{Outbound};

    ghost Value = { List Outbound };

    ghost view = { λ a. deque_iter_rest a.soon ++ a.later };
}

impl<'a> Iterator for Transfers<'a> {
    type Item = &'a Outbound;

    ghost next_gives = { YieldsFirstRef (λ rest. rest) };

    ghost remaining = { item_count (λ rest. rest) };

    fn next(&mut self) -> Option<&'a Outbound> {
        match self.soon.next() {
            Some(transfer) => Some(transfer),
            None => self.later.next(),
        }
    }
}

// The place at which a transfer with a key comes in among those of a ring: behind all that do not
// come after it. It is looked for from the end, since most come in there.
#[inline(always)]
fn place_of(soon: &VecDeque<Outbound>, key: Key) -> usize
    requires { IsInOrder (on transfer_key key_cmp) soon.now.items }
    ensures within { result ≤ deque_len soon.now }
    ensures place { IsPlaceFor key soon.now.items result }
{
    let mut place = soon.len();
    while place > 0 && key.is_before(&soon[place - 1].key()) {
        place -= 1;
    }
    place
}

// Adds a transfer to those of a ring.
#[inline(always)]
fn insert_soon(soon: &mut VecDeque<Outbound>, transfer: Outbound) -> Result<(), AllocError>
    requires { IsInOrder (on transfer_key key_cmp) soon.old.items }
    ensures { AddsOrKeeps result
        (with_transfer transfer soon.old.items) soon.old.items soon.new.items }
{
    let place = place_of(soon, transfer.key());
    soon.insert(place, transfer)?;
    Ok(())
}

// Adds a transfer that comes before those in a tree, where the ring before it is full: the last of
// the ring moves to the tree, unless the transfer itself comes behind it.
#[cold]
#[inline(never)]
fn insert_into_full(
    soon: &mut VecDeque<Outbound>,
    later: &mut Later,
    transfer: Outbound,
) -> Result<(), AllocError>
    requires order { IsInOrder (on transfer_key key_cmp) (soon.old.items ++ later.old) }
    requires first { ComesFirst (transfer_key transfer) later.old }
    ensures added { OnOk result (soon.new.items ++ later.new ≡ with_transfer transfer
        (soon.old.items ++ later.old)) }
    ensures same { OnErr result (soon.new.items ++ later.new ≡ soon.old.items ++ later.old) }
{
    soon.reserve(1)?;
    let Some(last) = soon.pop_back() else {
        return insert_soon(soon, transfer);
    };
    if transfer.key().is_before(&last.key()) {
        match later.put_first(last) {
            Ok(()) => insert_soon(soon, transfer),
            Err(refused) => {
                soon.push_back_reserved(refused.value);
                Err(AllocError)
            }
        }
    } else {
        soon.push_back_reserved(last);
        later.insert(transfer)
    }
}

// Whether a transfer with a key comes before all of a tree.
#[inline(always)]
fn comes_first(later: &Later, key: Key) -> bool
    requires { IsInOrder (on transfer_key key_cmp) later.now }
    ensures { ReportsFirst key later.now result }
{
    match later.least() {
        Some(least) => key.is_before(&least),
        None => true,
    }
}

impl Arrivals {
    /// No transfers.
    pub fn new(alloc: Global) -> Arrivals
        ensures { result ≡ [] }
    {
        Arrivals {
            soon: VecDeque::new(alloc),
            later: Later::new(alloc),
        }
    }

    /// The key of the least arrival.
    pub fn least(&self) -> Option<Key>
        ensures { result ≡ least (map transfer_key self.now) }
    {
        match self.soon.front() {
            Some(first) => Some(first.key()),
            None => self.later.least(),
        }
    }

    /// Takes out the first transfer, if there is one.
    pub fn take_first(&mut self) -> Option<Outbound>
        ensures taken { MatchOption result ((self.old ≡ []) × (self.new ≡ []))
            (λ first. self.old ≡ first ∷ self.new) }
        ensures least { IfSome result
            (λ first. least (map transfer_key self.old) ≡ Some (transfer_key first)) }
    {
        match self.soon.pop_front() {
            Some(first) => Some(first),
            None => self.later.take_first(),
        }
    }

    /// Adds a transfer in the order of keys. It fails if memory runs out, and then they are as they
    /// were. An insertion after 2^63 - 1 others, which no run reaches, is the same error.
    pub fn insert(&mut self, transfer: Outbound) -> Result<(), AllocError>
        ensures { AddsOrKeeps result (inserted_by (on transfer_key key_cmp) transfer self.old)
            self.old self.new }
    {
        if !comes_first(&self.later, transfer.key()) {
            self.later.insert(transfer)
        } else if self.soon.len() < SOON {
            insert_soon(&mut self.soon, transfer)
        } else {
            insert_into_full(&mut self.soon, &mut self.later, transfer)
        }
    }

    /// The transfers, in their order.
    pub fn iter(&self) -> Transfers<'_>
        ensures { result ≡ self.now }
    {
        Transfers {
            soon: self.soon.iter(),
            later: self.later.iter(),
        }
    }
}
