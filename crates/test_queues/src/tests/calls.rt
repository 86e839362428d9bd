//! The calls of a queue, without their contracts, on which the tests do not rely.
use sim_clock::{Key, Refusal};
use sqs_message::{Body, Receipt, Text};
use sqs_queue::{Counts, Messages};
use sqs_redrive::{Deleted, Got, Load, Rest, Sent};
use sqs_standard::StandardQueue;

// What is given with a send.
#[derive(Drop)]
pub struct Given {
    pub body: Body,
    pub group: Option<Text>,
    pub id: Option<Text>,
    pub delay: Option<u64>,
}

// What a receive asks for: the hosts that it sees, or else all of two.
#[derive(Clone, Copy)]
pub struct Asked {
    pub max: u64,
    pub timeout: Option<u64>,
    pub hosts: Option<u16>,
    pub short: bool,
}

// A queue of a kind. A call or an argument that it does not have returns `BadScript`, which no
// queue returns and no table expects.
pub trait Calls {
    fn send(&mut self, now: u32, given: Given) -> Result<Sent, Refusal>;

    fn receive(&mut self, now: u32, asked: Asked) -> Result<Vec<Got>, Refusal>;

    fn looked(&self) -> Result<u64, Refusal>;

    fn delete(&mut self, now: u32, by: &Receipt) -> Result<Deleted, Refusal>;

    fn change(&mut self, now: u32, by: &Receipt, seconds: u64) -> Result<Option<Load>, Refusal>;

    fn release(&mut self, number: u64) -> Result<Option<Load>, Refusal>;

    fn expire(&mut self, now: u32, number: u64) -> u64;

    fn arrive(&mut self, now: u32, load: Load) -> Result<(Sent, bool), Refusal>;

    fn take_movable(
        &mut self,
        max: u64,
        to: Option<u32>,
    ) -> Result<(Vec<(u32, Load)>, Rest), Refusal>;

    fn site(&self) -> u32;

    fn retention(&self) -> u64;

    fn view(&self) -> Messages<'_>;

    fn least_due(&self) -> Option<Key>;

    fn counts(&self) -> Counts;

    fn has_available(&self) -> bool;
}

impl Calls for StandardQueue {
    fn send(&mut self, now: u32, given: Given) -> Result<Sent, Refusal> {
        match (given.group, given.id) {
            (None, None) => StandardQueue::send(self, u64::from(now), given.body, given.delay),
            _ => Err(Refusal::BadScript),
        }
    }

    fn receive(&mut self, now: u32, asked: Asked) -> Result<Vec<Got>, Refusal> {
        StandardQueue::receive(
            self,
            u64::from(now),
            asked.max,
            asked.timeout,
            asked.hosts.unwrap_or(3),
            asked.short,
        )
    }

    fn looked(&self) -> Result<u64, Refusal> {
        Ok(StandardQueue::looked(self))
    }

    fn delete(&mut self, now: u32, by: &Receipt) -> Result<Deleted, Refusal> {
        StandardQueue::delete(self, u64::from(now), by)
    }

    fn change(&mut self, now: u32, by: &Receipt, seconds: u64) -> Result<Option<Load>, Refusal> {
        StandardQueue::change(self, u64::from(now), by, seconds)
    }

    fn release(&mut self, number: u64) -> Result<Option<Load>, Refusal> {
        StandardQueue::release(self, 0, number)
    }

    fn expire(&mut self, now: u32, number: u64) -> u64 {
        StandardQueue::expire(self, u64::from(now), number)
    }

    fn arrive(&mut self, now: u32, load: Load) -> Result<(Sent, bool), Refusal> {
        if let Load::Redrive { enqueued, .. } = &load
            && *enqueued > u64::from(now)
        {
            return Err(Refusal::BadScript);
        }
        StandardQueue::arrive(self, u64::from(now), load)
    }

    fn take_movable(
        &mut self,
        max: u64,
        to: Option<u32>,
    ) -> Result<(Vec<(u32, Load)>, Rest), Refusal> {
        StandardQueue::take_movable(self, max, to)
    }

    fn site(&self) -> u32 {
        StandardQueue::site(self)
    }

    fn retention(&self) -> u64 {
        StandardQueue::settings(self).retention
    }

    fn view(&self) -> Messages<'_> {
        StandardQueue::view(self)
    }

    fn least_due(&self) -> Option<Key> {
        StandardQueue::least_due(self)
    }

    fn counts(&self) -> Counts {
        StandardQueue::counts(self)
    }

    fn has_available(&self) -> bool {
        StandardQueue::has_available(self)
    }
}
