//! The table of a queue's messages.
ghost use Rattle.std.specs.Prelude.{◌≡◌, ◌+◌, ◌++◌, ◌∷◌, ◌*◌, ◌<◌, ◌≤◌, [], All, IfOk, IfSome, None, OnErr, OnOk, count_by, length, map, not, take, true};
ghost use Rattle.std.specs.Option.{option_copied};
ghost use Rattle.sim_clock.specs.Firsts.{is_empty};
ghost use Rattle.sim_clock.specs.Order.{least};
ghost use Rattle.sqs_dedup.specs.Window.{living_among, with_entry_of};
ghost use Rattle.sqs_model.specs.Answers.{most_count};
ghost use Rattle.sqs_model.specs.Available.{available};
ghost use Rattle.sqs_model.specs.Calls.{living_entries, with_message};
ghost use Rattle.sqs_model.specs.Dues.{queue_dues};
ghost use Rattle.sqs_model.specs.Longest.{deduplication_interval};
ghost use Rattle.sqs_model.specs.Progress.{Ascends};
ghost use Rattle.sqs_model.specs.Queue.{is_delayed, is_in_flight, is_visible, numbered, taken_out, with_change};
ghost use Rattle.sqs_model.specs.Valid.{IsQueueSettings};
ghost use Rattle.sqs_messages.specs.Heads.{told};
ghost use Rattle.sqs_messages.specs.Orders.{IsRoomed};
ghost use Rattle.sqs_messages.specs.Slots.{restated};
ghost use Rattle.sqs_messages.specs.Stored.{IsCounted, IsStored};
ghost use Rattle.sqs_messages.specs.Tables.{AreKept};
ghost use Rattle.sqs_messages.specs.Choices.{ChoosesFirst, chosen};

use crate::choose::Choice;
use crate::counts::Counts;
use crate::due::due_of;
use crate::messages::Messages;
use crate::order::Order;
use crate::shelf::Shelf;
use crate::slot::State;
use crate::{groups, hosts};
use sim_clock::Key;
use sqs_dedup::{Dedup, ScopedId};
use sqs_message::Message;
use sqs_redrive::QueueSettings;
use std::alloc::{AllocError, Global};
use std::marker::Model;

/// A queue's number and settings, its messages in the order of their arrival, and how many ever
/// came. Contracts see it as the definitions' `Queue` without deduplication entries. Times are
/// milliseconds.
///
/// A call on one message takes time logarithmic in the number of messages.
#[derive(Drop)]
pub struct MessageTable {
    site: u32,
    settings: QueueSettings,
    shelf: Shelf,
    order: Order,
    alloc: Global,
}

impl Model for MessageTable {
    ghost use Rattle.sqs_model.specs.Queue.{Queue};

    ghost Value = { Queue };

    ghost use Rattle.sqs_messages.specs.Tables.{IsTable, queue_of};

    ghost view = { queue_of };

    ghost invariant = { IsTable };
}

impl MessageTable {
    /// An empty table of the queue with this number, to which `arrivals` messages came before. It
    /// allocates nothing.
    pub fn opened_at(
        alloc: Global,
        site: u32,
        settings: QueueSettings,
        arrivals: u64,
    ) -> MessageTable
        requires settings { IsQueueSettings settings }
        requires arrivals { arrivals ≤ most_count }
        ensures { result
            ≡ record {
              site = site;
              settings = settings;
              records = [];
              entries = [];
              arrivals = arrivals;
            } }
    {
        MessageTable {
            site,
            settings,
            shelf: Shelf::opened_at(alloc, arrivals),
            order: Order::opened(alloc, &settings),
            alloc,
        }
    }

    /// The queue's number.
    pub fn site(&self) -> u32
        ensures { result ≡ self.now.site }
    {
        self.site
    }

    /// The queue's settings.
    pub fn settings(&self) -> &QueueSettings
        ensures value { result.now ≡ self.now.settings }
        ensures in_range { IsQueueSettings self.now.settings }
    {
        &self.settings
    }

    /// How many messages ever came, which is the number of the next one.
    pub fn arrivals(&self) -> u64
        ensures arrivals { result ≡ self.now.arrivals }
        ensures bound { result ≤ most_count }
        ensures stored { IsStored self.now.records self.now.arrivals }
    {
        self.shelf.number()
    }

    /// The message with a number, if it is there.
    pub fn find(&self, number: u64) -> Option<&Message>
        ensures found { option_copied result ≡ numbered number self.now.records }
        ensures counted { IfSome result (λ m. IsCounted m.now) }
    {
        self.shelf.get(number)
    }

    /// The messages, in the order of their arrival.
    pub fn iter(&self) -> Messages<'_>
        ensures messages { result ≡ self.now.records }
        ensures stored { IsStored self.now.records self.now.arrivals }
    {
        let _next = self.shelf.number();
        self.shelf.iter()
    }

    /// Adds a message with the next number.
    ///
    /// # Errors
    ///
    /// `AllocError` if memory runs out; nothing changes then.
    #[inline(always)]
    pub fn push(&mut self, message: Message) -> Result<(), AllocError>
        requires numbered { message.number ≡ self.old.arrivals }
        requires counted { IsCounted message }
        requires below { self.old.arrivals < most_count }
        ensures added { OnOk result (self.new ≡ with_message self.old message) }
        ensures unchanged { OnErr result (self.new ≡ self.old) }
    {
        let group = &message.group;
        let place = self.order.room_for(self.alloc, &mut self.shelf, group)?;
        let retention = self.settings.retention;
        let due = due_of(self.site, retention, &message, message.release);
        self.order.add(&mut self.shelf, place, message, due);
        Ok(())
    }

    /// Adds a message with the next number, and its deduplication entry, which lives for 5 minutes
    /// (Developer Guide: exactly-once processing).
    ///
    /// # Errors
    ///
    /// `AllocError` if memory runs out; nothing changes then.
    pub fn push_once(
        &mut self,
        message: Message,
        entries: &mut Dedup,
        now: u64,
        key: ScopedId,
    ) -> Result<(), AllocError>
        requires numbered { message.number ≡ self.old.arrivals }
        requires counted { IsCounted message }
        requires below { self.old.arrivals < most_count }
        requires moment { now ≤ most_count }
        requires no_earlier { All (λ e. e.end ≤ now + deduplication_interval) entries.old }
        requires none_living { living_among now key.scope key.id entries.old ≡ None }
        ensures added { OnOk result (self.new ≡ with_message self.old message) }
        ensures entered { OnOk result (entries.new
            ≡ with_entry_of now key self.old.arrivals entries.old) }
        ensures unchanged { OnErr result (self.new ≡ self.old) }
        ensures same_entries { OnErr result (entries.new ≡ entries.old) }
    {
        let group = &message.group;
        let place = self.order.room_for(self.alloc, &mut self.shelf, group)?;
        entries.enter(now, key, message.number)?;
        let retention = self.settings.retention;
        let due = due_of(self.site, retention, &message, message.release);
        self.order.add(&mut self.shelf, place, message, due);
        Ok(())
    }

    /// Gives the next number to a message that does not stay.
    pub fn skip(&mut self)
        requires { self.old.arrivals < most_count }
        ensures { self.new ≡ record self.old { arrivals = self.old.arrivals + 1 } }
    {
        self.shelf.skip();
    }

    /// Sets the state of the message with a number, if it is there. It allocates nothing.
    #[inline(always)]
    pub fn put(&mut self, number: u64, state: State)
        requires receives { state.receives ≤ most_count }
        requires received { state.received ≤ most_count }
        ensures { self.new ≡ with_change self.old number (restated state) }
    {
        let Some(message) = self.shelf.get(number) else {
            return;
        };
        let due = due_of(self.site, self.settings.retention, message, state.release);
        self.order.put(&mut self.shelf, number, state, due);
    }

    /// Removes the message with a number, if it is there. It allocates nothing.
    #[inline(always)]
    pub fn remove(&mut self, number: u64) -> Option<Message>
        ensures found { result ≡ numbered number self.old.records }
        ensures rest { self.new ≡ taken_out self.old number }
    {
        self.order.remove(&mut self.shelf, number)
    }

    /// The key of the next entry due: the least expiry or end of a delay or visibility timeout. It
    /// does not scan the messages.
    pub fn least_due(&self) -> &Option<Key>
        ensures { result.now ≡ least (queue_dues self.now) }
    {
        self.shelf.least()
    }

    /// The number of messages in each state. It does not scan the messages.
    pub fn counts(&self) -> Counts
        ensures visible { result.visible ≡ count_by is_visible self.now.records }
        ensures in_flight { result.in_flight ≡ count_by is_in_flight self.now.records }
        ensures delayed { result.delayed ≡ count_by is_delayed self.now.records }
    {
        self.shelf.counts()
    }

    /// The numbers of the first messages, at most `most`, that a receive may give if it sees these
    /// hosts, in the order in which the queue gives them. Also how many messages were read to
    /// choose them.
    ///
    /// # Errors
    ///
    /// `AllocError` if memory runs out.
    pub fn first_numbers(&self, hosts: u32, most: u64) -> Result<Choice, AllocError>
        ensures numbers { IfOk result (ChoosesFirst most (available self.now hosts)) }
        ensures looked { IfOk result (λ choice. choice.looked ≤ 2 * most) }
        ensures read { IfOk result (λ choice. chosen choice ≤ choice.looked) }
        ensures ordered { Ascends (λ m. m.number) 0 self.now.records }
    {
        let _next = self.shelf.number();
        // No more are given than are visible, so the search ends with the last of these.
        let most = most.min(self.shelf.counts().visible);
        match &self.order {
            Order::Hosts(_) => hosts::choose(self.alloc, &self.shelf, hosts, most),
            Order::Groups(groups) => groups::choose::choose(self.alloc, &self.shelf, groups, most),
        }
    }

    /// Whether a receive that sees these hosts may give a message. It allocates nothing, and reads
    /// no message.
    pub fn has_available(&self, hosts: u32) -> bool
        ensures { result ≡ not (is_empty (available self.now hosts)) }
    {
        self.shelf.has_on(self.order.hosts(hosts))
    }
}
