//! A FIFO queue and its calls.
ghost use Rattle.std.specs.Prelude.{◌≡◌};

use crate::tests::calls::{Asked, Calls, Given};
use sim_clock::{Key, Refusal};
use sqs_fifo::FifoQueue;
use sqs_message::Receipt;
use sqs_queue::{Counts, Messages};
use sqs_redrive::{Deleted, Got, Load, Rest, Sent};
use std::marker::Model;

// A FIFO queue whose sends and arrivals come in the order of their times.
#[derive(Drop)]
pub struct InOrder {
    queue: FifoQueue,
    latest: u32,
}

impl Model for InOrder {
    ghost use Rattle.sqs_model.specs.Progress.{IsRecent};
    ghost use Rattle.sqs_model.specs.Queue.{Queue};

    ghost Value = { Queue };

    ghost view = { λ q. q.queue.queue };

    ghost invariant = { λ q. IsRecent q.latest q.queue.queue };
}

impl InOrder {
    ghost use Rattle.std.specs.Prelude.{[]};

    pub fn new(queue: FifoQueue) -> InOrder
        requires { queue.queue.entries ≡ [] }
    {
        InOrder { queue, latest: 0 }
    }
}

impl Calls for InOrder {
    fn send(&mut self, now: u32, given: Given) -> Result<Sent, Refusal> {
        if now < self.latest {
            return Err(Refusal::BadScript);
        }
        self.latest = now;
        self.queue.send(
            u64::from(now),
            given.body,
            given.group,
            given.id,
            given.delay,
        )
    }

    fn receive(&mut self, now: u32, asked: Asked) -> Result<Vec<Got>, Refusal> {
        if asked.hosts.is_some() || asked.short {
            return Err(Refusal::BadScript);
        }
        self.queue.receive(u64::from(now), asked.max, asked.timeout)
    }

    fn looked(&self) -> Result<u64, Refusal> {
        Ok(self.queue.looked())
    }

    fn delete(&mut self, now: u32, by: &Receipt) -> Result<Deleted, Refusal> {
        self.queue.delete(u64::from(now), by)
    }

    fn change(&mut self, now: u32, by: &Receipt, seconds: u64) -> Result<Option<Load>, Refusal> {
        self.queue.change(u64::from(now), by, seconds)
    }

    fn release(&mut self, number: u64) -> Result<Option<Load>, Refusal> {
        self.queue.release(0, number)
    }

    fn expire(&mut self, now: u32, number: u64) -> u64 {
        self.queue.expire(u64::from(now), number)
    }

    fn arrive(&mut self, now: u32, load: Load) -> Result<(Sent, bool), Refusal> {
        if now < self.latest {
            return Err(Refusal::BadScript);
        }
        self.latest = now;
        self.queue.arrive(u64::from(now), load)
    }

    fn take_movable(
        &mut self,
        max: u64,
        to: Option<u32>,
    ) -> Result<(Vec<(u32, Load)>, Rest), Refusal> {
        self.queue.take_movable(max, to)
    }

    fn site(&self) -> u32 {
        self.queue.site()
    }

    fn retention(&self) -> u64 {
        self.queue.settings().retention
    }

    fn view(&self) -> Messages<'_> {
        self.queue.view()
    }

    fn least_due(&self) -> Option<Key> {
        self.queue.least_due()
    }

    fn counts(&self) -> Counts {
        self.queue.counts()
    }

    fn has_available(&self) -> bool {
        self.queue.has_available()
    }
}
