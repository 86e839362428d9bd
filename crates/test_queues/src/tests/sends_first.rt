//! A queue of either kind and its calls.
ghost use Rattle.std.specs.Prelude.{◌≡◌};

use crate::tests::calls::{Asked, Calls, Given};
use sim_clock::{Key, Refusal};
use sqs_message::Receipt;
use sqs_queue::{Counts, Messages, Queue};
use sqs_redrive::{Deleted, Got, Load, Rest, Sent};
use std::marker::Model;

// A queue of either kind whose sends and arrivals come first, in the order of their times: the
// other calls promise nothing of the deduplication entries that a send finds.
#[derive(Drop)]
pub struct SendsFirst {
    queue: Queue,
    latest: u32,
    is_first: bool,
}

impl Model for SendsFirst {
    ghost use Rattle.std.specs.Prelude.{◌≡◌, true};
    ghost use Rattle.sqs_model.specs.Progress.{IsRecent};
    ghost use Rattle.sqs_model.specs.Queue.{Queue};

    ghost Value = { Queue };

    ghost view = { λ q. q.queue };

    ghost invariant = { λ q. q.is_first ≡ true → IsRecent q.latest q.queue };
}

impl SendsFirst {
    ghost use Rattle.std.specs.Prelude.{[]};

    pub fn new(queue: Queue) -> SendsFirst
        requires { queue.entries ≡ [] }
    {
        SendsFirst {
            queue,
            latest: 0,
            is_first: true,
        }
    }
}

impl Calls for SendsFirst {
    fn send(&mut self, now: u32, given: Given) -> Result<Sent, Refusal> {
        if !self.is_first || now < self.latest {
            return Err(Refusal::BadScript);
        }
        self.latest = now;
        self.queue.send(
            u64::from(now),
            given.body,
            given.delay,
            given.group,
            given.id,
        )
    }

    fn receive(&mut self, now: u32, asked: Asked) -> Result<Vec<Got>, Refusal> {
        if asked.short {
            return Err(Refusal::BadScript);
        }
        self.is_first = false;
        let received = self.queue.receive(
            u64::from(now),
            asked.max,
            asked.timeout,
            asked.hosts.unwrap_or(3),
            false,
        )?;
        Ok(received.messages)
    }

    fn looked(&self) -> Result<u64, Refusal> {
        Err(Refusal::BadScript)
    }

    fn delete(&mut self, now: u32, by: &Receipt) -> Result<Deleted, Refusal> {
        self.is_first = false;
        self.queue.delete(u64::from(now), by)
    }

    fn change(&mut self, now: u32, by: &Receipt, seconds: u64) -> Result<Option<Load>, Refusal> {
        self.is_first = false;
        self.queue.change(u64::from(now), by, seconds)
    }

    fn release(&mut self, number: u64) -> Result<Option<Load>, Refusal> {
        self.is_first = false;
        Ok(self.queue.release(number))
    }

    fn expire(&mut self, now: u32, number: u64) -> u64 {
        self.is_first = false;
        self.queue.expire(u64::from(now), number)
    }

    fn arrive(&mut self, now: u32, load: Load) -> Result<(Sent, bool), Refusal> {
        if !self.is_first || now < self.latest {
            return Err(Refusal::BadScript);
        }
        if let Load::Redrive { enqueued, .. } = &load
            && *enqueued > u64::from(now)
        {
            return Err(Refusal::BadScript);
        }
        self.latest = now;
        self.queue.arrive(u64::from(now), load)
    }

    fn take_movable(
        &mut self,
        max: u64,
        to: Option<u32>,
    ) -> Result<(Vec<(u32, Load)>, Rest), Refusal> {
        self.is_first = false;
        self.queue.take_movable(max, to)
    }

    fn site(&self) -> u32 {
        self.queue.site()
    }

    fn retention(&self) -> u64 {
        self.queue.settings().retention
    }

    fn view(&self) -> Messages<'_> {
        self.queue.view()
    }

    fn least_due(&self) -> Option<Key> {
        *self.queue.least_due()
    }

    fn counts(&self) -> Counts {
        self.queue.counts()
    }

    // Whether it has a message to give, and the in-flight limit leaves room for it.
    fn has_available(&self) -> bool {
        self.queue.can_give()
    }
}
