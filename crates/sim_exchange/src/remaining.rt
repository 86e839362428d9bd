//! What is left of a list from whose front elements are taken.
ghost use Rattle.std.specs.Prelude.{◌≡◌, ◌++◌, ◌∷◌, ℕ, List, [], MatchOption, flat_map};

use crate::lists::Lists;
use std::alloc::Global;
use std::collections::VecDeque;
use std::marker::Model;

/// What is left of a list from whose front elements are taken. Contracts see the elements that are
/// left.
#[derive(Drop)]
pub(crate) struct Remaining<T: Drop> {
    alloc: Global,
    // The elements that come first. Only if there are none, none are left.
    first: VecDeque<T>,
    others: VecDeque<Vec<T>>,
}

// Takes away lists up to the first that has elements. Returns that one; if none has elements, one
// without. It is rare beside what takes elements.
#[cold]
#[inline(never)]
fn next_filled<T: Drop>(alloc: Global, lists: &mut VecDeque<Vec<T>>) -> VecDeque<T>
    ensures items { flat_map (λ v. v.items) lists.old.items
        ≡ result.items ++ flat_map (λ v. v.items) lists.new.items }
    ensures filled { result.items ≡ [] → flat_map (λ v. v.items) lists.new.items ≡ [] }
{
    while let Some(list) = lists.pop_front() {
        if !list.is_empty() {
            return VecDeque::from(list);
        }
    }
    VecDeque::new(alloc)
}

impl<T: Drop> Model for Remaining<T> {
    ghost use Rattle.std.specs.Prelude.{List, [], flat_map, ◌≡◌, ◌++◌};

    ghost Value = { List T };

    ghost view = { λ r. r.first.items ++ flat_map (λ v. v.items) r.others.items };

    ghost invariant = { λ r. r.first.items ≡ [] → flat_map (λ v. v.items) r.others.items ≡ [] };
}

impl<T: Drop> Remaining<T> {
    // All of a list.
    pub(crate) fn of(alloc: Global, list: Lists<T>) -> Remaining<T>
        ensures { result ≡ list }
    {
        let mut others = VecDeque::from(list.into_lists());
        let first = next_filled(alloc, &mut others);
        Remaining {
            alloc,
            first,
            others,
        }
    }

    // The first element that is left.
    #[inline(always)]
    pub(crate) fn front(&self) -> Option<&T>
        ensures { MatchOption result (self.now ≡ [])
            (λ x. (rest : List T) × (self.now ≡ x.now ∷ rest)) }
    {
        self.first.front()
    }

    // Takes the first element that is left.
    #[inline(always)]
    pub(crate) fn pop_front(&mut self) -> Option<T>
        ensures { MatchOption result ((self.old ≡ []) × (self.new ≡ []))
            (λ x. self.old ≡ x ∷ self.new) }
    {
        let taken = self.first.pop_front()?;
        if self.first.is_empty() {
            self.first = next_filled(self.alloc, &mut self.others);
        }
        Some(taken)
    }
}
