//! The calls of a standard queue that depend on its kind: its sends and deletes, and the arrival of
//! transfers.
ghost use Rattle.std.specs.Prelude.{◌≡◌, ◌<◌, ◌≤◌, OnErr, OnOk};
ghost use Rattle.sqs_model.specs.Answers.{most_count};
ghost use Rattle.sqs_model.specs.Calls.{delete_standard, send_standard};
ghost use Rattle.sqs_model.specs.Progress.{WasEnqueuedBy};
ghost use Rattle.sqs_model.specs.Queue.{IsFramed};
ghost use Rattle.sqs_model.specs.Valid.{IsStandard};
ghost use Rattle.sqs_queue.specs.Calls.{MeetsArrival, MeetsOneMore};

use super::Queue;
use sim_clock::Refusal;
use sqs_message::{Body, MessageId, Receipt};
use sqs_model::{LONGEST_DELAY, MOST_COUNT};
use sqs_redrive::{Deleted, Load, Sent};

impl Queue {
    /// A send to a standard queue: adds a message with this body, delayed by `delay` seconds or
    /// else by the queue's delay. The errors are those of `send`.
    pub fn send_standard(
        &mut self,
        now: u64,
        body: Body,
        delay: Option<u64>,
    ) -> Result<Sent, Refusal>
        requires { now ≤ most_count }
        ensures answer { MeetsOneMore self.old result self.new
            (send_standard self.old now body delay) }
        ensures counted { OnOk result (self.old.arrivals < most_count) }
        ensures unchanged { OnErr result (self.new ≡ self.old) }
        ensures kept { self.new.entries ≡ self.old.entries }
        ensures framed { IsFramed self.old self.new }
    {
        let wait = match delay {
            None => self.messages.settings().delay,
            Some(seconds) => {
                if seconds > LONGEST_DELAY {
                    return Err(Refusal::BadDelay);
                }
                1000 * seconds
            }
        };
        let number = self.messages.arrivals();
        if number == MOST_COUNT {
            return Err(Refusal::CountLimit);
        }
        let message = self.next_message(now, body, None, wait);
        self.messages.push(message)?;
        Ok(Sent::New(MessageId {
            site: self.messages.site(),
            number,
        }))
    }

    /// A delete at a standard queue: the message leaves by its newest receipt; with an older one it
    /// is kept. The errors are those of `delete`.
    pub fn delete_standard(&mut self, now: u64, receipt: &Receipt) -> Result<Deleted, Refusal>
        ensures answer { delete_standard self.old now receipt.now ≡ (result, self.new) }
        ensures kept { self.new.entries ≡ self.old.entries }
        ensures framed { IsFramed self.old self.new }
    {
        if !self.may_be_given(receipt) {
            return Err(Refusal::ReceiptHandleIsInvalid);
        }
        let Some(message) = self.messages.find(receipt.number) else {
            return self.delete_gone(receipt);
        };
        if message.receives < receipt.count {
            return Err(Refusal::ReceiptHandleIsInvalid);
        }
        if receipt.count < message.receives {
            return Ok(Deleted::Kept);
        }
        Ok(Deleted::Removed(self.expire(now, receipt.number)))
    }

    /// A transfer arrives at a standard queue. A dead letter keeps its enqueue time; a message of a
    /// move task is enqueued now; a forward is a send with the queue's delay. The errors are those
    /// of `arrive`.
    pub fn arrive_standard(&mut self, now: u64, load: Load) -> Result<(Sent, bool), Refusal>
        requires kind { IsStandard self.old.settings.kind }
        requires moment { now ≤ most_count }
        requires enqueued { WasEnqueuedBy now load }
        ensures answer { MeetsArrival self.old result self.new now load }
        ensures counted { OnOk result (self.old.arrivals < most_count) }
        ensures unchanged { OnErr result (self.new ≡ self.old) }
        ensures kept { self.new.entries ≡ self.old.entries }
        ensures framed { IsFramed self.old self.new }
    {
        match load {
            Load::Redrive {
                id,
                origin,
                body,
                group,
                enqueued,
            } => self.bring(now, origin, body, group, enqueued, Some(id.site)),
            Load::Move {
                id: _,
                origin,
                body,
                group,
            } => self.bring(now, origin, body, group, now, None),
            Load::Forward {
                id: _,
                body,
                group: _,
            } => {
                let sent = self.send_standard(now, body, None)?;
                Ok((sent, false))
            }
        }
    }
}
