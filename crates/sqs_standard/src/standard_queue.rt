//! A standard queue on its own: messages that are on hosts, and the calls of Amazon SQS on them.
ghost use Rattle.std.specs.Prelude.{◌≡◌, ◌*◌, ◌<◌, ◌≤◌, All, IfOk, IsOkUnless, OnErr, OnOk, count_by, length, not};
ghost use Rattle.sqs_queue.specs.Words.{IsFramed, IsStandardSettings, MeetsArrival, MeetsOneMore, MeetsReceive, WasEnqueuedBy, all_available, change, delete_standard, expired, is_delayed, is_empty, is_in_flight, is_visible, least, most_count, queue_dues, receive, released, returned, send_standard, take_movable, to_give, without_messages, TakesMovable};

use sim_clock::{Key, Refusal};
use sqs_message::{Body, Receipt};
use sqs_queue::{Counts, Messages, Queue};
use sqs_redrive::{Deleted, Got, Load, QueueSettings, Rest, Sent};
use std::alloc::Global;
use std::marker::Model;

/// A standard queue. Contracts see it as the definitions' `Queue`, which has no deduplication
/// entries, with the number of messages that its newest receive read. Times are milliseconds unless
/// said otherwise.
#[derive(Drop)]
pub struct StandardQueue {
    queue: Queue,
    looked: u64,
}

impl Model for StandardQueue {
    ghost use Rattle.sqs_queue.specs.Kinds.{IsStandardSettings};
    ghost use Rattle.sqs_queue.specs.Looking.{Looking};

    ghost Value = { Looking };

    ghost view = { λ q. record { queue = q.queue; looked = q.looked } };

    ghost invariant = { λ q. IsStandardSettings q.queue.settings };
}

impl StandardQueue {
    /// An empty queue with this number.
    pub fn new(alloc: Global, site: u32, settings: QueueSettings) -> StandardQueue
        requires { IsStandardSettings settings }
        ensures { result ≡ without_messages site settings 0 }
    {
        StandardQueue::opened_at(alloc, site, settings, 0)
    }

    /// An empty queue with this number, to which `arrivals` messages came before: the next message
    /// gets that count as its number.
    pub fn opened_at(
        alloc: Global,
        site: u32,
        settings: QueueSettings,
        arrivals: u64,
    ) -> StandardQueue
        requires settings { IsStandardSettings settings }
        requires arrivals { arrivals ≤ most_count }
        ensures { result ≡ without_messages site settings arrivals }
    {
        StandardQueue {
            queue: Queue::opened_at(alloc, site, settings, arrivals),
            looked: 0,
        }
    }

    /// The number of the queue.
    pub fn site(&self) -> u32
        ensures { result ≡ self.now.queue.site }
    {
        self.queue.site()
    }

    /// The settings of the queue.
    pub fn settings(&self) -> &QueueSettings
        ensures { result.now ≡ self.now.queue.settings }
    {
        self.queue.settings()
    }

    /// The messages, in the order of their arrival.
    pub fn view(&self) -> Messages<'_>
        ensures { result ≡ self.now.queue.records }
    {
        self.queue.view()
    }

    /// `SendMessage`: sends a message with this body, delayed by `delay` seconds or else by the
    /// queue's delay.
    ///
    /// # Errors
    ///
    /// `BadDelay` over 900 seconds. `CountLimit` if the queue's numbers are used up. `Memory`.
    pub fn send(&mut self, now: u64, body: Body, delay: Option<u64>) -> Result<Sent, Refusal>
        requires { now ≤ most_count }
        ensures answer { MeetsOneMore self.old.queue result self.new.queue
            (send_standard self.old.queue now body delay) }
        ensures counted { OnOk result (self.old.queue.arrivals < most_count) }
        ensures unchanged { OnErr result (self.new ≡ self.old) }
        ensures looked { self.new.looked ≡ self.old.looked }
        ensures framed { IsFramed self.old.queue self.new.queue }
    {
        self.queue.send_standard(now, body, delay)
    }

    /// `DeleteMessage`: a message leaves by its newest receipt; returns its age in milliseconds.
    /// With an older receipt it is kept.
    ///
    /// # Errors
    ///
    /// `ReceiptHandleIsInvalid` if the receipt is not this queue's.
    pub fn delete(&mut self, now: u64, receipt: &Receipt) -> Result<Deleted, Refusal>
        ensures answer { delete_standard self.old.queue now receipt.now ≡ (result, self.new.queue) }
        ensures looked { self.new.looked ≡ self.old.looked }
        ensures framed { IsFramed self.old.queue self.new.queue }
    {
        self.queue.delete_standard(now, receipt)
    }

    /// Ends the delay or visibility timeout of a message. It is visible again, or leaves for the
    /// dead-letter queue; then its load is returned. The moment has no effect. The call returns no
    /// error.
    pub fn release(&mut self, _now: u64, number: u64) -> Result<Option<Load>, Refusal>
        ensures answer { returned (released self.old.queue number) ≡ (result, self.new.queue) }
        ensures looked { self.new.looked ≡ self.old.looked }
        ensures framed { IsFramed self.old.queue self.new.queue }
    {
        Ok(self.queue.release(number))
    }

    /// Ends the retention period of a message, which leaves. Returns its age in milliseconds, 0 if
    /// it is not there.
    pub fn expire(&mut self, now: u64, number: u64) -> u64
        ensures answer { expired self.old.queue now number ≡ (result, self.new.queue) }
        ensures looked { self.new.looked ≡ self.old.looked }
        ensures framed { IsFramed self.old.queue self.new.queue }
    {
        self.queue.expire(now, number)
    }

    /// `ChangeMessageVisibility`: a message in flight stays so until `timeout` seconds after `now`.
    /// With 0 seconds it is visible again, or leaves for the dead-letter queue; then its load is
    /// returned.
    ///
    /// # Errors
    ///
    /// `BadTimeout` over 43,200 seconds, or past 12 hours from the receive.
    /// `ReceiptHandleIsInvalid` if the receipt is not this queue's. `MessageNotInflight` if the
    /// message is not in flight by this receipt.
    pub fn change(
        &mut self,
        now: u64,
        receipt: &Receipt,
        timeout: u64,
    ) -> Result<Option<Load>, Refusal>
        requires { now ≤ most_count }
        ensures answer { change self.old.queue now receipt.now timeout ≡ (result, self.new.queue) }
        ensures looked { self.new.looked ≡ self.old.looked }
        ensures framed { IsFramed self.old.queue self.new.queue }
    {
        self.queue.change(now, receipt, timeout)
    }

    /// The key of the next entry due: the least expiry or end of a delay or visibility timeout.
    pub fn least_due(&self) -> Option<Key>
        ensures { result ≡ least (queue_dues self.now.queue) }
    {
        *self.queue.least_due()
    }

    /// The number of messages in each state.
    pub fn counts(&self) -> Counts
        ensures visible { result.visible ≡ count_by is_visible self.now.queue.records }
        ensures in_flight { result.in_flight ≡ count_by is_in_flight self.now.queue.records }
        ensures delayed { result.delayed ≡ count_by is_delayed self.now.queue.records }
    {
        self.queue.counts()
    }

    /// Whether a receive that sees all hosts would find a message to give. It does not scan the
    /// messages.
    pub fn has_available(&self) -> bool
        ensures { result ≡ not (is_empty (all_available self.now.queue)) }
    {
        self.queue.has_available()
    }

    /// A transfer arrives. A message of a move task or of another queue's redrive is visible at
    /// once; the latter keeps its enqueue time (`StartMessageMoveTask`, a redrive policy). A
    /// message older than the retention period expires on arrival; then the second part of the
    /// result is true. A forward is a `SendMessage` with the queue's delay.
    ///
    /// # Errors
    ///
    /// `CountLimit` if the queue's numbers are used up; `Memory`.
    pub fn arrive(&mut self, now: u64, load: Load) -> Result<(Sent, bool), Refusal>
        requires moment { now ≤ most_count }
        requires enqueued { WasEnqueuedBy now load }
        ensures answer { MeetsArrival self.old.queue result self.new.queue now load }
        ensures counted { OnOk result (self.old.queue.arrivals < most_count) }
        ensures unchanged { OnErr result (self.new ≡ self.old) }
        ensures looked { self.new.looked ≡ self.old.looked }
        ensures framed { IsFramed self.old.queue self.new.queue }
    {
        self.queue.arrive_standard(now, load)
    }

    /// `ReceiveMessage`: gives at most `max` of the messages visible on the hosts seen, which
    /// `hosts` has as bits, and no more than the in-flight limit leaves room for. Each is in flight
    /// for `timeout` seconds or else for the queue's visibility timeout; with 0 seconds it comes
    /// back at once.
    ///
    /// `looked` then returns how many messages it read to choose these: at least as many as it
    /// gives, and at most twice `max`, whatever the length of the queue. After an error `looked`
    /// stays as it was.
    ///
    /// # Errors
    ///
    /// `BadTimeout` over 43,200 seconds. `OverLimit` if a short poll finds the in-flight limit
    /// reached. `CountLimit` if the receive count of one of them is at its limit. `Memory`.
    pub fn receive(
        &mut self,
        now: u64,
        max: u64,
        timeout: Option<u64>,
        hosts: u16,
        short: bool,
    ) -> Result<Vec<Got>, Refusal>
        requires { now ≤ most_count }
        ensures answer { MeetsReceive
            (λ b. b.items) self.old.queue result self.new.queue now max timeout hosts short }
        ensures looked { OnOk result (self.new.looked ≤ 2 * max) }
        ensures read { IfOk result (λ batch. length batch.items ≤ self.new.looked) }
        ensures counted { OnOk result
            (All (λ m. m.receives < most_count) (to_give self.old.queue max hosts)) }
        ensures unchanged { OnErr result (self.new ≡ self.old) }
        ensures framed { IsFramed self.old.queue self.new.queue }
    {
        let received = self.queue.receive(now, max, timeout, hosts, short)?;
        self.looked = received.looked;
        Ok(received.messages)
    }

    /// The number of messages that the newest receive without an error read to choose what it gave,
    /// counted as each is read; 0 before the first. It allocates nothing.
    pub fn looked(&self) -> u64
        ensures { result ≡ self.now.looked }
    {
        self.looked
    }

    /// A step of a move task (`StartMessageMoveTask`). It takes out at most `max` of the visible
    /// messages, up to the first without a destination. Each goes to the task's queue, or else to
    /// the queue from which it came as a dead letter. Returns each destination and load, and what
    /// is left.
    ///
    /// # Errors
    ///
    /// Only `Memory`, if memory runs out; the queue is then as it was.
    pub fn take_movable(
        &mut self,
        max: u64,
        to: Option<u32>,
    ) -> Result<(Vec<(u32, Load)>, Rest), Refusal>
        ensures taken { IfOk result
            (λ answer. TakesMovable self.old.queue self.new.queue max to answer.0.items answer.1) }
        ensures unchanged { OnErr result (self.new ≡ self.old) }
        ensures memory_only { IsOkUnless result Refusal.Memory }
        ensures looked { self.new.looked ≡ self.old.looked }
        ensures framed { IsFramed self.old.queue self.new.queue }
    {
        self.queue.take_movable(max, to)
    }
}
