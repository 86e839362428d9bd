//! The receiving of messages.
ghost use Rattle.std.specs.Prelude.{◌≡◌, ◌*◌, false, true, ◌<◌, ◌≤◌, ◌⊎◌, All, Err, IfErr, IfOk, IfSome, OnErr, OnOk, length, take};
ghost use Rattle.sqs_model.specs.Answers.{most_count};
ghost use Rattle.sqs_model.specs.Available.{available};
ghost use Rattle.sqs_model.specs.Longest.{longest_flight};
ghost use Rattle.sqs_model.specs.Queue.{IsFramed, numbered};
ghost use Rattle.sqs_model.specs.Receive.{give, is_bad_timeout, receive, timeout_of, to_give};
ghost use Rattle.sqs_queue.specs.Giving.{CanBeGiven, gives, gives_all, told_first};
ghost use Rattle.sqs_queue.specs.Calls.{HasAllReceives, MeetsReceive};

use super::Queue;
use crate::batch::{Received, batch_of};
use crate::places::received;
use sim_clock::Refusal;
use sqs_model::LONGEST_TIMEOUT;
use sqs_redrive::{Got, LeftLoad, Load, LoadSlot};
use std::alloc::{AllocError, Global};

// The memory for what may leave at once: for each message of a receive with a timeout of 0.
fn slots_for(alloc: Global, timeout: u64, messages: usize) -> Result<Vec<LoadSlot>, AllocError>
    ensures { IfOk result (λ slots. timeout ≡ 0 → length slots.items ≡ messages) }
{
    let mut slots = Vec::new(alloc);
    if timeout == 0 {
        for _ in 0..messages {
            slots.push(LoadSlot::new(alloc)?)?;
        }
    }
    Ok(slots)
}

impl Queue {
    /// `ReceiveMessage`: gives at most `max` of the messages that the queue may give, and no more
    /// than the in-flight limit leaves room for. A standard queue gives those visible on the hosts
    /// seen, which `hosts` has as bits. A FIFO queue gives group by group, whatever the hosts. Each
    /// message is in flight for `timeout` seconds or else for the queue's visibility timeout; with
    /// 0 seconds it comes back at once. Also returns how many messages it read to choose those that
    /// it gives.
    ///
    /// # Errors
    ///
    /// `BadTimeout` over 43,200 seconds. `OverLimit` if a short poll, which only standard queues
    /// have, finds the in-flight limit reached. `CountLimit` if the receive count of one of them is
    /// at its limit. `Memory`.
    pub fn receive(
        &mut self,
        now: u64,
        max: u64,
        timeout: Option<u64>,
        hosts: u16,
        short: bool,
    ) -> Result<Received, Refusal>
        requires { now ≤ most_count }
        ensures answer { MeetsReceive
            (λ r. r.messages.items) self.old result self.new now max timeout hosts short }
        ensures looked { IfOk result (λ received. received.looked ≤ 2 * max) }
        ensures read { IfOk result (λ received. length received.messages.items ≤ received.looked) }
        ensures counted { OnOk result
            (All (λ m. m.receives < most_count) (to_give self.old max hosts)) }
        ensures unchanged { OnErr result (self.new ≡ self.old) }
        ensures kept { self.new.entries ≡ self.old.entries }
        ensures framed { IsFramed self.old self.new }
    {
        let wait = self.wait_of(timeout)?;
        let room = self.room();
        if short && room == 0 {
            return Err(Refusal::OverLimit);
        }
        let most = max.min(room);
        let mut batch = self.batch(u32::from(hosts), most)?;
        let slots = slots_for(self.alloc, wait, batch.messages.len())?;
        self.give_all(now, wait, &mut batch.messages, slots);
        Ok(batch)
    }

    // A receive's visibility timeout in milliseconds: its own, given in seconds, or else the
    // queue's. `BadTimeout` over 43,200 seconds.
    fn wait_of(&self, timeout: Option<u64>) -> Result<u64, Refusal>
        ensures allowed { OnOk result (is_bad_timeout timeout ≡ false) }
        ensures wait { IfOk result (λ wait. timeout_of self.now timeout ≡ wait) }
        ensures short { IfOk result (λ wait. wait ≤ longest_flight) }
        ensures bad { IfErr result
            (λ refusal. (is_bad_timeout timeout ≡ true) × (refusal ≡ Refusal.BadTimeout)) }
    {
        match timeout {
            None => Ok(self.messages.settings().visibility),
            Some(seconds) => {
                if seconds > LONGEST_TIMEOUT {
                    Err(Refusal::BadTimeout)
                } else {
                    Ok(1000 * seconds)
                }
            }
        }
    }

    // What a receive returns for the first messages, before it gives them.
    fn batch(&self, hosts: u32, most: u64) -> Result<Received, Refusal>
        ensures told { IfOk result (λ batch. batch.messages.items
            ≡ told_first self.now hosts most) }
        ensures given { IfOk result (λ batch. CanBeGiven self.now batch.messages.items) }
        ensures looked { IfOk result (λ batch. batch.looked ≤ 2 * most) }
        ensures read { IfOk result (λ batch. length batch.messages.items ≤ batch.looked) }
        ensures below { OnOk result
            (All (λ m. m.receives < most_count) (take most (available self.now hosts))) }
        ensures at_limit { result ≡ Err Refusal.CountLimit
            → HasAllReceives (take most (available self.now hosts)) }
        ensures refused { IfErr result
            (λ refusal. (refusal ≡ Refusal.CountLimit) ⊎ (refusal ≡ Refusal.Memory)) }
    {
        if !self.messages.has_available(hosts) {
            return Ok(Received {
                messages: Vec::new(self.alloc),
                looked: 0,
            });
        }
        let choice = self.messages.first_numbers(hosts, most)?;
        let messages = batch_of(self.alloc, &self.messages, &choice.numbers)?;
        Ok(Received {
            messages,
            looked: choice.looked,
        })
    }

    // Gives the messages of a batch, one after another.
    fn give_all(&mut self, now: u64, timeout: u64, batch: &mut Vec<Got>, mut slots: Vec<LoadSlot>)
        requires moment { now ≤ most_count }
        requires timeout { timeout ≤ longest_flight }
        requires given { CanBeGiven self.old batch.old.items }
        requires slots { timeout ≡ 0 → length slots.items ≡ length batch.old.items }
        ensures given { gives_all now timeout batch.old.items self.old
            ≡ (self.new, batch.new.items) }
        ensures same_length { length batch.new.items ≡ length batch.old.items }
        ensures kept { self.new.entries ≡ self.old.entries }
        ensures framed { IsFramed self.old self.new }
    {
        for i in 0..batch.len() {
            let left = self.give(now, timeout, batch[i].id.number);
            batch[i].left = LeftLoad::new(left, slots.pop());
        }
    }

    // Gives one message.
    fn give(&mut self, now: u64, timeout: u64, number: u64) -> Option<Load>
        requires moment { now ≤ most_count }
        requires timeout { timeout ≤ longest_flight }
        requires counted { IfSome (numbered number self.old.records)
            (λ m. m.receives < most_count) }
        ensures given { gives self.old now timeout number ≡ (self.new, result) }
        ensures kept { self.new.entries ≡ self.old.entries }
        ensures framed { IsFramed self.old self.new }
    {
        let message = self.messages.find(number)?;
        let state = received(message, now, timeout);
        self.messages.put(number, state);
        if timeout == 0 {
            self.release(number)
        } else {
            None
        }
    }
}
