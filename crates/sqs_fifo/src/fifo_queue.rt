//! A FIFO queue on its own: its messages in order, their groups and deduplication, and the calls of
//! Amazon SQS on it.
ghost use Rattle.std.specs.Prelude.{◌≡◌, ◌⊎◌, ◌*◌, ◌<◌, ◌≤◌, All, Err, IfOk, IsOkUnless, OnErr, OnOk, count_by, false, length, not};
ghost use Rattle.sqs_queue.specs.Words.{IsFifoSettings, IsFramed, IsRecent, MeetsArrival, MeetsReceive, MeetsSend, PassesSend, all_available, arrived, change, delete_fifo, expired, is_delayed, is_empty, is_in_flight, is_visible, least, most_count, queue_dues, receive, released, returned, take_movable, to_give, without_messages, TakesMovable};

use sim_clock::{Key, Refusal};
use sqs_message::{Body, Receipt, Text};
use sqs_queue::{Counts, Messages, Queue};
use sqs_redrive::{Deleted, Got, Load, QueueSettings, Rest, Sent};
use std::alloc::Global;
use std::marker::Model;

/// A FIFO queue. Contracts see it as the definitions' `Queue`, with the number of messages that its
/// newest receive read. Times are milliseconds unless said otherwise.
#[derive(Drop)]
pub struct FifoQueue {
    queue: Queue,
    looked: u64,
}

impl Model for FifoQueue {
    ghost use Rattle.sqs_queue.specs.Kinds.{IsFifoSettings};
    ghost use Rattle.sqs_queue.specs.Looking.{Looking};

    ghost Value = { Looking };

    ghost view = { λ q. record { queue = q.queue; looked = q.looked } };

    ghost invariant = { λ q. IsFifoSettings q.queue.settings };
}

impl FifoQueue {
    /// An empty queue with this number.
    pub fn new(alloc: Global, site: u32, settings: QueueSettings) -> FifoQueue
        requires { IsFifoSettings settings }
        ensures { result ≡ without_messages site settings 0 }
    {
        FifoQueue::opened_at(alloc, site, settings, 0)
    }

    /// An empty queue with this number, to which `arrivals` messages came before: the next message
    /// gets that count as its number.
    pub fn opened_at(alloc: Global, site: u32, settings: QueueSettings, arrivals: u64) -> FifoQueue
        requires settings { IsFifoSettings settings }
        requires arrivals { arrivals ≤ most_count }
        ensures { result ≡ without_messages site settings arrivals }
    {
        FifoQueue {
            queue: Queue::opened_at(alloc, site, settings, arrivals),
            looked: 0,
        }
    }

    /// The number of the queue.
    pub fn site(&self) -> u32
        ensures { result ≡ self.now.queue.site }
    {
        self.queue.site()
    }

    /// The settings of the queue.
    pub fn settings(&self) -> &QueueSettings
        ensures { result.now ≡ self.now.queue.settings }
    {
        self.queue.settings()
    }

    /// The messages, in the order of their arrival.
    pub fn view(&self) -> Messages<'_>
        ensures { result ≡ self.now.queue.records }
    {
        self.queue.view()
    }

    /// `DeleteMessage`: a message in flight leaves by its newest receipt; returns its age in
    /// milliseconds.
    ///
    /// # Errors
    ///
    /// `ReceiptHandleIsInvalid` for any other receipt, and if the message is not in flight.
    pub fn delete(&mut self, now: u64, receipt: &Receipt) -> Result<Deleted, Refusal>
        ensures answer { delete_fifo self.old.queue now receipt.now ≡ (result, self.new.queue) }
        ensures kept { self.new.queue.entries ≡ self.old.queue.entries }
        ensures looked { self.new.looked ≡ self.old.looked }
        ensures framed { IsFramed self.old.queue self.new.queue }
    {
        self.queue.delete_fifo(now, receipt)
    }

    /// Ends the delay or visibility timeout of a message. It is visible again, or leaves for the
    /// dead-letter queue; then its load is returned. The moment has no effect. The call returns no
    /// error.
    pub fn release(&mut self, _now: u64, number: u64) -> Result<Option<Load>, Refusal>
        ensures answer { returned (released self.old.queue number) ≡ (result, self.new.queue) }
        ensures kept { self.new.queue.entries ≡ self.old.queue.entries }
        ensures looked { self.new.looked ≡ self.old.looked }
        ensures framed { IsFramed self.old.queue self.new.queue }
    {
        Ok(self.queue.release(number))
    }

    /// Ends the retention period of a message, which leaves. Returns its age in milliseconds, 0 if
    /// it is not there.
    pub fn expire(&mut self, now: u64, number: u64) -> u64
        ensures answer { expired self.old.queue now number ≡ (result, self.new.queue) }
        ensures kept { self.new.queue.entries ≡ self.old.queue.entries }
        ensures looked { self.new.looked ≡ self.old.looked }
        ensures framed { IsFramed self.old.queue self.new.queue }
    {
        self.queue.expire(now, number)
    }

    /// `ChangeMessageVisibility`: a message in flight stays so until `timeout` seconds after `now`.
    /// With 0 seconds it is visible again, or leaves for the dead-letter queue; then its load is
    /// returned.
    ///
    /// # Errors
    ///
    /// `BadTimeout` over 43,200 seconds, or past 12 hours from the receive.
    /// `ReceiptHandleIsInvalid` if the receipt is not this queue's. `MessageNotInflight` if the
    /// message is not in flight by this receipt.
    pub fn change(
        &mut self,
        now: u64,
        receipt: &Receipt,
        timeout: u64,
    ) -> Result<Option<Load>, Refusal>
        requires { now ≤ most_count }
        ensures answer { change self.old.queue now receipt.now timeout ≡ (result, self.new.queue) }
        ensures kept { self.new.queue.entries ≡ self.old.queue.entries }
        ensures looked { self.new.looked ≡ self.old.looked }
        ensures framed { IsFramed self.old.queue self.new.queue }
    {
        self.queue.change(now, receipt, timeout)
    }

    /// The key of the next entry due: the least expiry or end of a delay or visibility timeout.
    pub fn least_due(&self) -> Option<Key>
        ensures { result ≡ least (queue_dues self.now.queue) }
    {
        *self.queue.least_due()
    }

    /// The number of messages in each state.
    pub fn counts(&self) -> Counts
        ensures visible { result.visible ≡ count_by is_visible self.now.queue.records }
        ensures in_flight { result.in_flight ≡ count_by is_in_flight self.now.queue.records }
        ensures delayed { result.delayed ≡ count_by is_delayed self.now.queue.records }
    {
        self.queue.counts()
    }

    /// Whether the queue may give a message. It does not scan the messages.
    pub fn has_available(&self) -> bool
        ensures { result ≡ not (is_empty (all_available self.now.queue)) }
    {
        self.queue.has_available()
    }

    /// `SendMessage`: sends a message with this body in a message group (`MessageGroupId`), with
    /// the queue's delay, and adds its deduplication entry. If its deduplication id was accepted in
    /// the last 5 minutes, in the queue or in the group, the send is a repeat of that message and
    /// adds nothing. If no id is given and the queue compares bodies, the body's SHA-256 is the id
    /// (`MessageDeduplicationId`, `ContentBasedDeduplication`, `DeduplicationScope`).
    ///
    /// # Errors
    ///
    /// `BadDelay` if it has a delay of its own over 0 seconds. `MissingGroup`.
    /// `MissingDeduplication`. `CountLimit` if a new message is to come and the queue's numbers are
    /// used up. `Memory`.
    pub fn send(
        &mut self,
        now: u64,
        body: Body,
        group: Option<Text>,
        id: Option<Text>,
        delay: Option<u64>,
    ) -> Result<Sent, Refusal>
        requires moment { now ≤ most_count }
        requires recent { IsRecent now self.old.queue }
        ensures answer { MeetsSend self.old.queue result self.new.queue now body delay group id }
        ensures at_limit { result ≡ Err Refusal.CountLimit
            → PassesSend self.old.queue now body delay group id }
        ensures counted { OnOk result
            ((self.old.queue.arrivals < most_count) ⊎ (self.new.queue ≡ self.old.queue)) }
        ensures unchanged { OnErr result (self.new ≡ self.old) }
        ensures recent { IsRecent now self.new.queue }
        ensures looked { self.new.looked ≡ self.old.looked }
        ensures framed { IsFramed self.old.queue self.new.queue }
    {
        self.queue.send_fifo(now, body, group, id, delay)
    }

    /// A transfer arrives. A message of a move task or of another queue's redrive is visible at
    /// once, enqueued now (`StartMessageMoveTask`, a redrive policy). The second part of the result
    /// says whether it expires on arrival. A forward is a `SendMessage` in the group of the message
    /// that was served, with that message's id text as deduplication id, and may be a repeat.
    ///
    /// # Errors
    ///
    /// `CountLimit` if a new message is to come and the queue's numbers are used up; `Memory`.
    pub fn arrive(&mut self, now: u64, load: Load) -> Result<(Sent, bool), Refusal>
        requires moment { now ≤ most_count }
        requires recent { IsRecent now self.old.queue }
        ensures answer { MeetsArrival self.old.queue result self.new.queue now load }
        ensures at_limit { result ≡ Err Refusal.CountLimit
            → most_count < (arrived self.old.queue now load).1.arrivals }
        ensures counted { OnOk result
            ((self.old.queue.arrivals < most_count) ⊎ (self.new.queue ≡ self.old.queue)) }
        ensures unchanged { OnErr result (self.new ≡ self.old) }
        ensures recent { IsRecent now self.new.queue }
        ensures looked { self.new.looked ≡ self.old.looked }
        ensures framed { IsFramed self.old.queue self.new.queue }
    {
        self.queue.arrive_fifo(now, load)
    }

    /// `ReceiveMessage`: gives at most `max` of the messages that the queue may give, and no more
    /// than the in-flight limit leaves room for. It gives group by group, and in order within each
    /// group. A group with a message in flight gives none. Each message is in flight for `timeout`
    /// seconds or else for the queue's visibility timeout; with 0 seconds it comes back at once.
    ///
    /// `looked` then returns how many messages it read to choose these: at least as many as it
    /// gives, and at most twice `max`, whatever the length of the queue. After an error `looked`
    /// stays as it was.
    ///
    /// # Errors
    ///
    /// `BadTimeout` over 43,200 seconds. `CountLimit` if the receive count of one of them is at its
    /// limit. `Memory`.
    pub fn receive(&mut self, now: u64, max: u64, timeout: Option<u64>) -> Result<Vec<Got>, Refusal>
        requires { now ≤ most_count }
        ensures answer { MeetsReceive
            (λ b. b.items) self.old.queue result self.new.queue now max timeout 1 false }
        ensures looked { OnOk result (self.new.looked ≤ 2 * max) }
        ensures read { IfOk result (λ batch. length batch.items ≤ self.new.looked) }
        ensures counted { OnOk result
            (All (λ m. m.receives < most_count) (to_give self.old.queue max 1)) }
        ensures unchanged { OnErr result (self.new ≡ self.old) }
        ensures kept { self.new.queue.entries ≡ self.old.queue.entries }
        ensures framed { IsFramed self.old.queue self.new.queue }
    {
        let received = self.queue.receive(now, max, timeout, 1, false)?;
        self.looked = received.looked;
        Ok(received.messages)
    }

    /// The number of messages that the newest receive without an error read to choose what it gave,
    /// counted as each is read; 0 before the first. It allocates nothing.
    pub fn looked(&self) -> u64
        ensures { result ≡ self.now.looked }
    {
        self.looked
    }

    /// A step of a move task (`StartMessageMoveTask`). It takes out at most `max` of the messages
    /// that the queue may give, in the order in which it gives them, up to the first without a
    /// destination. Each goes to the task's queue, or else to the queue from which it came as a
    /// dead letter. Returns each destination and load, and what is left.
    ///
    /// # Errors
    ///
    /// Only `Memory`, if memory runs out; the queue is then as it was.
    pub fn take_movable(
        &mut self,
        max: u64,
        to: Option<u32>,
    ) -> Result<(Vec<(u32, Load)>, Rest), Refusal>
        ensures taken { IfOk result
            (λ answer. TakesMovable self.old.queue self.new.queue max to answer.0.items answer.1) }
        ensures unchanged { OnErr result (self.new ≡ self.old) }
        ensures memory_only { IsOkUnless result Refusal.Memory }
        ensures kept { self.new.queue.entries ≡ self.old.queue.entries }
        ensures looked { self.new.looked ≡ self.old.looked }
        ensures framed { IsFramed self.old.queue self.new.queue }
    {
        self.queue.take_movable(max, to)
    }
}
