//! The arrival of transfers.
ghost use Rattle.std.specs.Prelude.{◌≡◌, ◌⊎◌, ◌<◌, ◌≤◌, Err, OnErr, OnOk};
ghost use Rattle.sqs_message.specs.declared.message.Message.{Message};
ghost use Rattle.sqs_model.specs.Answers.{most_count};
ghost use Rattle.sqs_model.specs.Arrive.{arrived, brought};
ghost use Rattle.sqs_model.specs.Progress.{IsRecent, WasEnqueuedBy};
ghost use Rattle.sqs_model.specs.Queue.{IsFramed};
ghost use Rattle.sqs_model.specs.Valid.{IsStandard};
ghost use Rattle.sqs_queue.specs.Calls.{MeetsArrival, MeetsComing};

use super::Queue;
use sim_clock::Refusal;
use sqs_message::{Body, Message, MessageId, Origin, Text};
use sqs_model::MOST_COUNT;
use sqs_redrive::{Kind, Load, Sent};
use std::alloc::AllocError;

impl Queue {
    /// A transfer arrives. A message of a move task or of another queue's redrive is visible at
    /// once. The latter keeps its enqueue time, which is no later than now, at a standard queue,
    /// and gets a new one at a FIFO queue. A message older than the retention period expires on
    /// arrival; then the second part of the result is true. A forward is a `SendMessage` with the
    /// queue's delay. At a FIFO queue it is in the group of the message that was served, with that
    /// message's id text as deduplication id, and so may be a repeat.
    ///
    /// # Errors
    ///
    /// `CountLimit` if a new message is to come and the queue's numbers are used up; `Memory`.
    pub fn arrive(&mut self, now: u64, load: Load) -> Result<(Sent, bool), Refusal>
        requires moment { now ≤ most_count }
        requires enqueued { IsStandard self.old.settings.kind → WasEnqueuedBy now load }
        requires recent { IsRecent now self.old }
        ensures answer { MeetsArrival self.old result self.new now load }
        ensures counted { OnOk result ((self.old.arrivals < most_count) ⊎ (self.new ≡ self.old)) }
        ensures at_limit { result ≡ Err Refusal.CountLimit
            → most_count < (arrived self.old now load).1.arrivals }
        ensures unchanged { OnErr result (self.new ≡ self.old) }
        ensures framed { IsFramed self.old self.new }
        ensures recent { IsRecent now self.new }
    {
        match self.messages.settings().kind {
            Kind::Standard { .. } => self.arrive_standard(now, load),
            Kind::Fifo { .. } => self.arrive_fifo(now, load),
        }
    }

    // A message comes in with the origin that it had and is visible at once, enqueued at a moment
    // that is no later than now. If it is older than the retention period, it expires at once; then
    // the second part of the result is true.
    pub(super) fn bring(
        &mut self,
        now: u64,
        origin: Origin,
        body: Body,
        group: Option<Text>,
        enqueued: u64,
        source: Option<u32>,
    ) -> Result<(Sent, bool), Refusal>
        requires moment { now ≤ most_count }
        requires enqueued { enqueued ≤ now }
        ensures answer { MeetsComing self.old result self.new now
            (brought self.old now origin body group enqueued source) }
        ensures counted { OnOk result (self.old.arrivals < most_count) }
        ensures unchanged { OnErr result (self.new ≡ self.old) }
        ensures kept { self.new.entries ≡ self.old.entries }
        ensures framed { IsFramed self.old self.new }
    {
        if self.messages.arrivals() == MOST_COUNT {
            return Err(Refusal::CountLimit);
        }
        let message = Message {
            origin,
            enqueued,
            source,
            ..self.next_message(now, body, group, 0)
        };
        let sent = Sent::New(MessageId {
            site: self.messages.site(),
            number: message.number,
        });
        if self.messages.settings().retention <= now.saturating_sub(enqueued) {
            self.messages.skip();
            return Ok((sent, true));
        }
        self.messages.push(message)?;
        Ok((sent, false))
    }
}
