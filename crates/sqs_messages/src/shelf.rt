//! The shelf.
ghost use Rattle.std.specs.Prelude.{◌≡◌, ◌+◌, ◌<◌, ◌≤◌, ◌^◌, ◌++◌, ◌∷◌, [], ◌&&◌, All, IsOk, OnOk, OnErr, IfSome, count_by, false, find, length, map, nat_le, true};
ghost use Rattle.std.specs.List.{list_any};
ghost use Rattle.std.specs.Option.{option_copied, option_map};
ghost use Rattle.sim_clock.specs.Firsts.{changed, without};
ghost use Rattle.sim_index.specs.Marks.{least_of, meets};
ghost use Rattle.sqs_model.specs.Progress.{Ascends};
ghost use Rattle.sqs_model.specs.Queue.{is_delayed, is_in_flight, is_visible};
ghost use Rattle.sqs_messages.specs.Heads.{told};
ghost use Rattle.sqs_messages.specs.Slots.{is_numbered, message_and_group, number_and_group, number_of, place_and_group, restated, with_hosts, item_of, remarked};
ghost use Rattle.sqs_messages.specs.Marked.{wanted};

use crate::counts::{Counts, NO_COUNTS, count_in, count_out};
use crate::messages::{Messages, messages_in};
use crate::slot::{Slot, State, first_from, place_of, write};
use sim_clock::Key;
use sim_index::{Mark, MarkedList, NO_MARK};
use sqs_message::{Message, Place};
use std::alloc::{AllocError, Global};
use std::marker::Model;

/// Messages in the order of their numbers, each with a mark and the index of its group, and the
/// next number. A call on one of n messages takes time logarithmic in n. Contracts see the messages
/// with their marks and the indices of their groups, the next number, and whether there is room for
/// one more message.
#[derive(Drop)]
pub struct Shelf {
    slots: MarkedList<Slot>,
    counts: Counts,
    next: u64,
}

impl Model for Shelf {
    ghost use Rattle.sqs_messages.specs.Slots.{Holding};

    ghost Value = { Holding };

    ghost use Rattle.sqs_messages.specs.Shelves.{IsShelf, holding_of};

    ghost view = { holding_of };

    ghost invariant = { IsShelf };
}

impl Shelf {
    /// An empty shelf, whose first message gets this number. It allocates nothing.
    pub fn opened_at(alloc: Global, next: u64) -> Shelf
        ensures { result ≡ record { items = []; next = next; ready = false } }
    {
        Shelf {
            slots: MarkedList::new(alloc),
            counts: NO_COUNTS,
            next,
        }
    }

    /// The next number. Numbers ascend, and all are below it.
    pub fn number(&self) -> u64
        ensures value { result ≡ self.now.next }
        ensures ordered { Ascends number_of 0 self.now.items }
        ensures below { All (λ s. number_of s < self.now.next) self.now.items }
    {
        self.next
    }

    /// The number of messages in each state, without a scan.
    pub fn counts(&self) -> Counts
        ensures visible { result.visible ≡ count_by is_visible (told self.now.items) }
        ensures in_flight { result.in_flight ≡ count_by is_in_flight (told self.now.items) }
        ensures delayed { result.delayed ≡ count_by is_delayed (told self.now.items) }
    {
        self.counts
    }

    /// Its messages in the order of their numbers.
    pub fn iter(&self) -> Messages<'_>
        ensures { result ≡ told self.now.items }
    {
        messages_in(self.slots.values())
    }

    /// The message with a number.
    pub fn get(&self, number: u64) -> Option<&Message>
        ensures { option_copied result
            ≡ option_map (λ s. s.message) (find (is_numbered number) self.now.items) }
    {
        let slots = self.slots.values();
        slots[place_of(slots, number)?].message.as_ref()
    }

    /// Sets the state and the mark of the message with a number, if it is there. Returns the state
    /// that the message was in, and the index of its group.
    #[inline(always)]
    pub fn put(&mut self, number: u64, state: State, mark: Mark) -> Option<(Place, usize)>
        ensures found { result
            ≡ option_map place_and_group (find (is_numbered number) self.old.items) }
        ensures items { self.new.items
            ≡ changed (is_numbered number) (remarked state mark) self.old.items }
        ensures next { self.new.next ≡ self.old.next }
    {
        let place = place_of(self.slots.values(), number)?;
        let slot = self.slots.value_mut(place);
        let group = slot.group;
        let Some(was) = write(slot, state) else {
            unreachable!();
        };
        self.slots.set_mark(place, &mark);
        count_out(&mut self.counts, was);
        count_in(&mut self.counts, state.place);
        Some((was, group))
    }

    /// Sets the flags in the mark of the message with a number, if it is there.
    pub fn mark(&mut self, number: u64, hosts: u32)
        ensures items { self.new.items
            ≡ changed (is_numbered number) (with_hosts hosts) self.old.items }
        ensures next { self.new.next ≡ self.old.next }
    {
        let Some(place) = place_of(self.slots.values(), number) else {
            return;
        };
        let mark = self.slots.mark_at(place);
        if mark.flags == hosts {
            return;
        }
        self.slots.set_mark(
            place,
            &Mark {
                flags: hosts,
                ..mark
            },
        );
    }

    // If no message is left, drops all slots.
    fn forget_empty(&mut self)
        ensures items { self.new.items ≡ self.old.items }
        ensures next { self.new.next ≡ self.old.next }
    {
        if self.counts == NO_COUNTS {
            self.slots.clear();
        }
    }

    /// Removes the message with a number, if it is there. Returns it with the index of its group.
    #[inline(always)]
    pub fn remove(&mut self, number: u64) -> Option<(Message, usize)>
        ensures found { result
            ≡ option_map message_and_group (find (is_numbered number) self.old.items) }
        ensures items { self.new.items ≡ without (is_numbered number) self.old.items }
        ensures next { self.new.next ≡ self.old.next }
    {
        let place = place_of(self.slots.values(), number)?;
        let slot = self.slots.value_mut(place);
        let group = slot.group;
        let Some(message) = slot.message.take() else {
            unreachable!();
        };
        self.slots.set_mark(place, &NO_MARK);
        count_out(&mut self.counts, message.place);
        self.forget_empty();
        Some((message, group))
    }

    /// The key of the least entry due.
    pub fn least(&self) -> &Option<Key>
        ensures { result.now ≡ least_of (map (λ s. s.mark) self.now.items) }
    {
        self.slots.least_due()
    }

    /// Whether the mark of any message has one of these flags.
    pub fn has_on(&self, hosts: u32) -> bool
        ensures told { result ≡ list_any (λ s. meets hosts s.mark) self.now.items }
        ensures ordered { Ascends number_of 0 self.now.items }
    {
        self.slots.has_on(hosts)
    }

    /// The first message at or after a number whose mark has one of these flags. Returns its number
    /// and the index of its group.
    #[inline(always)]
    pub fn next(&self, from: u64, hosts: u32) -> Option<(u64, usize)>
        ensures found { result
            ≡ option_map number_and_group (find (wanted from hosts) self.now.items) }
        ensures bound { IfSome result (λ first. first.0 < self.now.next) }
        ensures range { self.now.next < 2 ^ 64 }
        ensures ordered { Ascends number_of 0 self.now.items }
    {
        let slots = self.slots.values();
        let place = self.slots.next(first_from(slots, from), hosts)?;
        let slot = &slots[place];
        Some((slot.number, slot.group))
    }

    // Drops the slots whose messages have left, and makes room for one more message.
    #[cold]
    #[inline(never)]
    fn drop_gone(&mut self) -> Result<(), AllocError>
        ensures ready { OnOk result (self.new.ready ≡ true) }
        ensures items { self.new.items ≡ self.old.items }
        ensures next { self.new.next ≡ self.old.next }
        ensures unchanged { OnErr result (self.new ≡ self.old) }
    {
        self.slots.retain(|slot| slot.message.is_some())
    }

    /// Makes room for one more message, so that its push succeeds. If there is none, it drops the
    /// slots whose messages have left.
    pub fn reserve(&mut self) -> Result<(), AllocError>
        ensures ready { OnOk result (self.new.ready ≡ true) }
        ensures items { self.new.items ≡ self.old.items }
        ensures next { self.new.next ≡ self.old.next }
        ensures unchanged { OnErr result (self.new ≡ self.old) }
        ensures succeeds { self.old.ready ≡ true → IsOk result }
    {
        if self.slots.is_ready() {
            return Ok(());
        }
        self.drop_gone()
    }

    /// Adds a message with the next number and the index of its group. It succeeds if there is
    /// room.
    #[inline(always)]
    pub fn push(&mut self, message: Message, group: usize, mark: Mark) -> Result<(), AllocError>
        requires number { message.number ≡ self.old.next }
        requires range { self.old.next + 1 < 2 ^ 64 }
        ensures pushed { OnOk result (self.new.items ≡ self.old.items
            ++ item_of mark group message ∷ []) }
        ensures next { OnOk result (self.new.next ≡ self.old.next + 1) }
        ensures unchanged { OnErr result (self.new ≡ self.old) }
        ensures succeeds { self.old.ready ≡ true → IsOk result }
    {
        let place = message.place;
        let slot = Slot {
            number: self.next,
            group,
            message: Some(message),
        };
        self.slots.push(slot, &mark)?;
        count_in(&mut self.counts, place);
        self.next += 1;
        Ok(())
    }

    /// Uses up the next number without a message.
    pub fn skip(&mut self)
        requires { self.old.next + 1 < 2 ^ 64 }
        ensures items { self.new.items ≡ self.old.items }
        ensures next { self.new.next ≡ self.old.next + 1 }
    {
        let next = &mut self.next;
        *next += 1;
    }
}
