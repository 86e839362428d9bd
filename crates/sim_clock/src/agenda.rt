//! The agenda: the keys of the entries that are due, least first.
ghost use Rattle.std.specs.Prelude.{◌≡◌, ◌∷◌, [], OnOk, OnErr, IsOkUnless, MatchOption};
ghost use Rattle.sim_clock.specs.Order.{inserted, least};

use crate::key::Key;
use crate::refusal::Refusal;
use std::alloc::Global;
use std::cmp::Reverse;
use std::collections::BinaryHeap;
use std::marker::Model;

/// The keys of the entries that are due. Contracts see it as the list of its keys in their order; a
/// key may be in it more than once.
#[derive(Drop)]
pub struct Agenda {
    heap: BinaryHeap<Reverse<Key>>,
}

impl Model for Agenda {
    ghost use Rattle.std.specs.Prelude.{List, map};
    ghost use Rattle.std.specs.BinaryHeap.{IsHeap, heap_items};
    ghost use Rattle.sim_clock.specs.declared.key.Key.{Key};
    ghost use Rattle.sim_clock.specs.Order.{key_cmp, sorted};

    ghost Value = { List Key };

    ghost view = { λ a. sorted (map (λ entry. entry.0) (heap_items a.heap)) };

    ghost invariant = { λ a. IsHeap (λ x y. key_cmp y.0 x.0) (heap_items a.heap) };
}

impl Agenda {
    /// An empty agenda.
    #[tactic(auto, using(crate::proofs::HeapOrder::is_heap))]
    pub fn new(alloc: Global) -> Agenda
        ensures { result ≡ [] }
    {
        Agenda {
            heap: BinaryHeap::new(alloc),
        }
    }

    /// Adds a key.
    ///
    /// # Errors
    ///
    /// Only `Memory`, if memory runs out; the agenda is then as it was.
    pub fn push(&mut self, key: Key) -> Result<(), Refusal>
        ensures added { OnOk result (self.new ≡ inserted key self.old) }
        ensures unchanged { OnErr result (self.new ≡ self.old) }
        ensures memory_only { IsOkUnless result Refusal.Memory }
    {
        self.heap.push(Reverse(key))?;
        Ok(())
    }

    /// The least key, which stays.
    pub fn peek(&self) -> Option<Key>
        ensures { result ≡ least self.now }
    {
        let Reverse(key) = self.heap.peek()?;
        Some(*key)
    }

    /// Removes the least key and returns it.
    pub fn pop_least(&mut self) -> Option<Key>
        ensures least { result ≡ least self.old }
        ensures rest { MatchOption result ((self.old ≡ []) × (self.new ≡ []))
            (λ k. self.old ≡ k ∷ self.new) }
    {
        let Reverse(key) = self.heap.pop()?;
        Some(key)
    }
}
