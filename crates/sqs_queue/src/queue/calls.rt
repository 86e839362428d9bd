//! The calls that depend on the kind of the queue, and the change of visibility, which is the same
//! for both kinds.
ghost use Rattle.std.specs.Prelude.{◌≡◌, ◌⊎◌, ◌<◌, ◌≤◌, Err, OnErr, OnOk};
ghost use Rattle.sqs_model.specs.Answers.{most_count};
ghost use Rattle.sqs_model.specs.Calls.{change, delete, delete_gone};
ghost use Rattle.sqs_model.specs.Progress.{IsRecent};
ghost use Rattle.sqs_model.specs.Queue.{IsFramed};
ghost use Rattle.sqs_queue.specs.Calls.{MeetsSend, PassesSend};

use super::Queue;
use crate::places::{is_out, out_until};
use sim_clock::Refusal;
use sqs_message::{Body, Receipt, Text};
use sqs_model::{LONGEST_FLIGHT, LONGEST_TIMEOUT};
use sqs_redrive::{Deleted, Kind, Load, Sent};

impl Queue {
    /// `SendMessage`: sends a message with this body, delayed by `delay` seconds or else by the
    /// queue's delay. At a FIFO queue it is in this message group, with this deduplication id or
    /// else one made of its body. A standard queue ignores group and id.
    ///
    /// # Errors
    ///
    /// `BadDelay` over 900 seconds, and at a FIFO queue over 0. `MissingGroup` and
    /// `MissingDeduplication` at a FIFO queue. `CountLimit` if a new message is to come and the
    /// queue's numbers are used up. `Memory`.
    pub fn send(
        &mut self,
        now: u64,
        body: Body,
        delay: Option<u64>,
        group: Option<Text>,
        id: Option<Text>,
    ) -> Result<Sent, Refusal>
        requires moment { now ≤ most_count }
        requires recent { IsRecent now self.old }
        ensures answer { MeetsSend self.old result self.new now body delay group id }
        ensures counted { OnOk result ((self.old.arrivals < most_count) ⊎ (self.new ≡ self.old)) }
        ensures at_limit { result ≡ Err Refusal.CountLimit
            → PassesSend self.old now body delay group id }
        ensures unchanged { OnErr result (self.new ≡ self.old) }
        ensures framed { IsFramed self.old self.new }
        ensures recent { IsRecent now self.new }
    {
        match self.messages.settings().kind {
            Kind::Standard { .. } => {
                drop((group, id));
                self.send_standard(now, body, delay)
            }
            Kind::Fifo { .. } => self.send_fifo(now, body, group, id, delay),
        }
    }

    /// `DeleteMessage`: a message leaves by its newest receipt; returns its age in milliseconds.
    /// With an older receipt a standard queue keeps it.
    ///
    /// # Errors
    ///
    /// `ReceiptHandleIsInvalid` if the receipt is not this queue's. A FIFO queue also returns it
    /// for an older receipt, and for any receipt of a message that is not in flight.
    pub fn delete(&mut self, now: u64, receipt: &Receipt) -> Result<Deleted, Refusal>
        ensures answer { delete self.old now receipt.now ≡ (result, self.new) }
        ensures kept { self.new.entries ≡ self.old.entries }
        ensures framed { IsFramed self.old self.new }
    {
        match self.messages.settings().kind {
            Kind::Standard { .. } => self.delete_standard(now, receipt),
            Kind::Fifo { .. } => self.delete_fifo(now, receipt),
        }
    }

    // The result of deleting a message that is not there: it has left, or was never there.
    pub(super) fn delete_gone(&self, receipt: &Receipt) -> Result<Deleted, Refusal>
        ensures { delete_gone self.now receipt.now ≡ (result, self.now) }
    {
        if receipt.number < self.messages.arrivals() {
            Ok(Deleted::Gone)
        } else {
            Err(Refusal::ReceiptHandleIsInvalid)
        }
    }

    /// `ChangeMessageVisibility`: a message in flight stays so until `timeout` seconds after `now`.
    /// With 0 seconds it is visible again, or leaves for the dead-letter queue; then its load is
    /// returned.
    ///
    /// # Errors
    ///
    /// `BadTimeout` over 43,200 seconds, or past 12 hours from the receive.
    /// `ReceiptHandleIsInvalid` if the receipt is not this queue's. `MessageNotInflight` if the
    /// message is not in flight by this receipt.
    pub fn change(
        &mut self,
        now: u64,
        receipt: &Receipt,
        timeout: u64,
    ) -> Result<Option<Load>, Refusal>
        requires { now ≤ most_count }
        ensures answer { change self.old now receipt.now timeout ≡ (result, self.new) }
        ensures kept { self.new.entries ≡ self.old.entries }
        ensures framed { IsFramed self.old self.new }
    {
        if timeout > LONGEST_TIMEOUT {
            return Err(Refusal::BadTimeout);
        }
        if !self.may_be_given(receipt) {
            return Err(Refusal::ReceiptHandleIsInvalid);
        }
        let Some(message) = self.messages.find(receipt.number) else {
            return if receipt.number < self.messages.arrivals() {
                Err(Refusal::MessageNotInflight)
            } else {
                Err(Refusal::ReceiptHandleIsInvalid)
            };
        };
        if message.receives < receipt.count {
            return Err(Refusal::ReceiptHandleIsInvalid);
        }
        if !is_out(message) || receipt.count < message.receives {
            return Err(Refusal::MessageNotInflight);
        }
        let until = now + 1000 * timeout;
        if message.received + LONGEST_FLIGHT < until {
            return Err(Refusal::BadTimeout);
        }
        if timeout == 0 {
            return Ok(self.release(receipt.number));
        }
        let state = out_until(message, until);
        self.messages.put(receipt.number, state);
        Ok(None)
    }
}
