//! The queue, what it reports of itself, and how its messages change with time.
ghost use Rattle.std.specs.Prelude.{◌≡◌, ◌+◌, ◌<◌, ◌≤◌, ◌^◌, [], count_by, not};
ghost use Rattle.sim_clock.specs.Firsts.{is_empty};
ghost use Rattle.sim_clock.specs.Order.{least};
ghost use Rattle.sqs_message.specs.declared.message.Message.{Message};
ghost use Rattle.sqs_model.specs.Answers.{most_count};
ghost use Rattle.sqs_model.specs.Arrive.{expired};
ghost use Rattle.sqs_model.specs.Available.{all_available, all_hosts};
ghost use Rattle.sqs_model.specs.Calls.{may_be_given, new_message};
ghost use Rattle.sqs_model.specs.Dues.{queue_dues};
ghost use Rattle.sqs_model.specs.Polls.{can_give};
ghost use Rattle.sqs_model.specs.Queue.{IsFramed, is_delayed, is_in_flight, is_visible, room};
ghost use Rattle.sqs_model.specs.Return.{leaves, released};
ghost use Rattle.sqs_model.specs.Valid.{IsQueueSettings};
ghost use Rattle.sqs_queue.specs.Picked.{redrive_load};

use crate::places::visible_again;
use sim_clock::{Key, Refusal};
use sqs_dedup::Dedup;
use sqs_message::{Body, Message, MessageId, Origin, Place, Receipt, Text};
use sqs_messages::{Counts, MessageTable, Messages};
use sqs_redrive::{Kind, Load, QueueSettings, Returned, on_return};
use std::alloc::Global;
use std::marker::Model;

mod arrive;
mod calls;
mod fifo;
mod give;
mod standard;
mod take;

// Whether a message has been received as often as the redrive policy allows.
fn is_spent(settings: &QueueSettings, message: &Message) -> bool
    ensures { result ≡ leaves settings.now.policy message.now }
{
    match settings.policy {
        None => false,
        Some(policy) => on_return(&policy, message) == Returned::Leaves,
    }
}

// The load by which a message of this queue goes to the dead-letter queue.
fn redrive(site: u32, message: Message) -> Load
    ensures { result ≡ redrive_load site message }
{
    Load::Redrive {
        id: MessageId {
            site,
            number: message.number,
        },
        origin: message.origin,
        body: message.body,
        group: message.group,
        enqueued: message.enqueued,
    }
}

/// A queue of either kind: its number and settings, its messages in the order of their arrival, and
/// how many ever came. It also has its deduplication entries, of which a standard queue has none.
/// Contracts see it as the definitions' `Queue`. Times are milliseconds.
#[derive(Drop)]
pub struct Queue {
    messages: MessageTable,
    entries: Dedup,
    alloc: Global,
}

impl Model for Queue {
    ghost use Rattle.sqs_model.specs.Queue.{Queue};

    ghost Value = { Queue };

    ghost view = { λ q. record q.messages { entries = q.entries } };
}

impl Queue {
    /// An empty queue with this number, of the kind that its settings say.
    pub fn new(alloc: Global, site: u32, settings: QueueSettings) -> Queue
        requires { IsQueueSettings settings }
        ensures { result
            ≡ record {
              site = site;
              settings = settings;
              records = [];
              entries = [];
              arrivals = 0;
            } }
    {
        Queue::opened_at(alloc, site, settings, 0)
    }

    /// An empty queue with this number, to which `arrivals` messages came before: the next message
    /// gets that count as its number.
    pub fn opened_at(alloc: Global, site: u32, settings: QueueSettings, arrivals: u64) -> Queue
        requires settings { IsQueueSettings settings }
        requires arrivals { arrivals ≤ most_count }
        ensures { result
            ≡ record {
              site = site;
              settings = settings;
              records = [];
              entries = [];
              arrivals = arrivals;
            } }
    {
        Queue {
            messages: MessageTable::opened_at(alloc, site, settings, arrivals),
            entries: Dedup::new(alloc),
            alloc,
        }
    }

    /// The number of the queue.
    pub fn site(&self) -> u32
        ensures { result ≡ self.now.site }
    {
        self.messages.site()
    }

    /// How many messages ever came, which is the number of the next one.
    pub fn arrivals(&self) -> u64
        ensures count { result ≡ self.now.arrivals }
        ensures limit { result ≤ most_count }
    {
        self.messages.arrivals()
    }

    /// The settings of the queue.
    pub fn settings(&self) -> &QueueSettings
        ensures { result.now ≡ self.now.settings }
    {
        self.messages.settings()
    }

    /// The messages, in the order of their arrival.
    pub fn view(&self) -> Messages<'_>
        ensures { result ≡ self.now.records }
    {
        self.messages.iter()
    }

    /// The key of the next entry due: the least expiry or end of a delay or visibility timeout.
    pub fn least_due(&self) -> &Option<Key>
        ensures { result.now ≡ least (queue_dues self.now) }
    {
        self.messages.least_due()
    }

    /// The number of messages in each state.
    pub fn counts(&self) -> Counts
        ensures visible { result.visible ≡ count_by is_visible self.now.records }
        ensures in_flight { result.in_flight ≡ count_by is_in_flight self.now.records }
        ensures delayed { result.delayed ≡ count_by is_delayed self.now.records }
    {
        self.messages.counts()
    }

    /// Whether the queue has a message to give and the in-flight limit leaves room for it. It does
    /// not scan the messages.
    pub fn can_give(&self) -> bool
        ensures { result ≡ can_give self.now }
    {
        self.has_available() && self.room() > 0
    }

    /// Whether a receive that sees all hosts would find a message to give. It does not scan the
    /// messages.
    pub fn has_available(&self) -> bool
        ensures { result ≡ not (is_empty (all_available self.now)) }
    {
        self.messages.has_available(self.all_hosts())
    }

    // The set of all hosts, by their bits; a FIFO queue has one.
    fn all_hosts(&self) -> u32
        ensures { result ≡ all_hosts self.now.settings.kind }
    {
        match self.messages.settings().kind {
            Kind::Standard { hosts, .. } => (1u32 << hosts) - 1,
            Kind::Fifo { .. } => 1,
        }
    }

    // How many more messages may be in flight.
    fn room(&self) -> u64
        ensures { result ≡ room self.now }
    {
        let limit = self.messages.settings().in_flight_limit;
        limit.saturating_sub(self.messages.counts().in_flight)
    }

    // Whether this queue may have given a receipt.
    fn may_be_given(&self, receipt: &Receipt) -> bool
        ensures { result ≡ may_be_given self.now receipt.now }
    {
        receipt.site == self.messages.site() && receipt.count > 0
    }

    // The message that would come next, with a delay in milliseconds.
    fn next_message(&self, now: u64, body: Body, group: Option<Text>, delay: u64) -> Message
        requires { now + delay < 2 ^ 64 }
        ensures { result ≡ new_message self.now now body group delay }
    {
        let number = self.messages.arrivals();
        Message {
            number,
            origin: Origin {
                site: self.messages.site(),
                number,
            },
            body,
            group,
            enqueued: now,
            place: if delay == 0 {
                Place::Visible
            } else {
                Place::Delayed
            },
            release: if delay == 0 { None } else { Some(now + delay) },
            receives: 0,
            received: 0,
            source: None,
        }
    }

    /// Ends the delay or visibility timeout of a message. It is visible again, or leaves for the
    /// dead-letter queue; then its load is returned.
    pub fn release(&mut self, number: u64) -> Option<Load>
        ensures answer { released self.old number ≡ (self.new, result) }
        ensures kept { self.new.entries ≡ self.old.entries }
        ensures framed { IsFramed self.old self.new }
    {
        let message = self.messages.find(number)?;
        if !is_spent(self.messages.settings(), message) {
            let state = visible_again(message);
            self.messages.put(number, state);
            return None;
        }
        let site = self.messages.site();
        let message = self.messages.remove(number)?;
        Some(redrive(site, message))
    }

    /// Ends the retention period of a message, which leaves. Returns its age in milliseconds, 0 if
    /// it is not there.
    pub fn expire(&mut self, now: u64, number: u64) -> u64
        ensures answer { expired self.old now number ≡ (result, self.new) }
        ensures kept { self.new.entries ≡ self.old.entries }
        ensures framed { IsFramed self.old self.new }
    {
        let Some(message) = self.messages.remove(number) else {
            return 0;
        };
        now.saturating_sub(message.enqueued)
    }
}
