//! Transfers in the order of their keys, in a tree.
ghost use Rattle.std.specs.Prelude.{◌≡◌, ◌∷◌, [], IfErr, MatchOption, OnErr, OnOk, map};
ghost use Rattle.std.specs.Ordering.{on};
ghost use Rattle.sim_clock.specs.Order.{IsBefore, inserted_by, key_cmp, least};
ghost use Rattle.sqs_redrive.specs.Transfers.{transfer_key};
ghost use Rattle.sim_site.specs.Kept.{AddsOrKeeps};

use sim_clock::Key;
use sqs_redrive::Outbound;
use std::alloc::{AllocError, AllocFailed, Global};
use std::collections::BTreeMap;
use std::collections::btree_map::Values;
use std::marker::Model;

// The number of the first insertion. As many numbers are before it as behind it.
const MIDDLE: u64 = 1 << 63;

/// Transfers in the order of their keys, in a tree. Each also has a number, so that of two with one
/// key the earlier comes first. To find or take the first, or to add one, takes time logarithmic in
/// their number. Contracts see them as a list.
#[derive(Drop)]
pub struct Later {
    map: BTreeMap<(Key, u64), Outbound>,
    // The least number that was given, and the next one behind all.
    first: u64,
    next: u64,
}

impl Model for Later {
    ghost use Rattle.std.specs.Prelude.{List};
    ghost use Rattle.std.specs.BTreeMap.{values};
    ghost use Rattle.sim_site.specs.Arrivals.{AreArriving};
    ghost use Rattle.sqs_redrive.specs.declared.transfers.Outbound.{Outbound};

    ghost Value = { List Outbound };

    ghost view = { λ l. values l.map };

    ghost invariant = { λ l. AreArriving l.first l.next l.map.entries };
}

impl Later {
    /// No transfers.
    pub fn new(alloc: Global) -> Later
        ensures { result ≡ [] }
    {
        Later {
            map: BTreeMap::new(alloc),
            first: MIDDLE,
            next: MIDDLE,
        }
    }

    /// The key of the least transfer.
    pub fn least(&self) -> Option<Key>
        ensures { result ≡ least (map transfer_key self.now) }
    {
        let (_, first) = self.map.first_key_value()?;
        Some(first.key())
    }

    /// Takes out the first transfer, if there is one.
    pub fn take_first(&mut self) -> Option<Outbound>
        ensures { MatchOption result ((self.old ≡ []) × (self.new ≡ []))
            (λ first. self.old ≡ first ∷ self.new) }
    {
        let (_, first) = self.map.pop_first()?;
        Some(first)
    }

    /// Adds a transfer in the order of keys. It fails if memory runs out, and then they are as they
    /// were. An insertion after 2^63 - 1 others, which no run reaches, is the same error.
    pub fn insert(&mut self, transfer: Outbound) -> Result<(), AllocError>
        ensures { AddsOrKeeps result (inserted_by (on transfer_key key_cmp) transfer self.old)
            self.old self.new }
    {
        let Some(next) = self.next.checked_add(1) else {
            return Err(AllocError);
        };
        self.map.insert((transfer.key(), self.next), transfer)?;
        self.next = next;
        Ok(())
    }

    /// Puts a transfer before the others, none of which comes before it. It fails as `insert` does,
    /// and then returns the transfer.
    pub fn put_first(&mut self, transfer: Outbound) -> Result<(), AllocFailed<Outbound>>
        requires { IsBefore (on transfer_key key_cmp) transfer self.old }
        ensures added { OnOk result (self.new ≡ transfer ∷ self.old) }
        ensures same { OnErr result (self.new ≡ self.old) }
        ensures returned { IfErr result (λ refused. refused.value ≡ transfer) }
    {
        let Some(first) = self.first.checked_sub(1) else {
            return Err(AllocFailed { value: transfer });
        };
        match self.map.insert((transfer.key(), first), transfer) {
            Ok(_) => {
                self.first = first;
                Ok(())
            }
            Err(refused) => {
                let (_, transfer) = refused.value;
                Err(AllocFailed { value: transfer })
            }
        }
    }

    /// The transfers, in their order.
    pub fn iter(&self) -> Values<'_, (Key, u64), Outbound>
        ensures { result ≡ self.now }
    {
        self.map.values()
    }
}
