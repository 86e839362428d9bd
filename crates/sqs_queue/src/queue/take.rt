//! The messages that a step of a move task takes out.
ghost use Rattle.std.specs.Prelude.{◌≡◌, IfOk, IsOkUnless, OnErr};
ghost use Rattle.sqs_model.specs.Queue.{IsFramed};
ghost use Rattle.sqs_model.specs.Task.{take_each, take_movable};
ghost use Rattle.sqs_queue.specs.Picked.{take_first, taken};
ghost use Rattle.sqs_queue.specs.Calls.{TakesMovable};

use super::Queue;
use crate::loads::take_each;
use sim_clock::Refusal;
use sqs_redrive::{Load, Rest};
use std::alloc::AllocError;

impl Queue {
    // Takes out the first messages that a receive may give, at most `most`, up to the first without
    // a destination. Returns each destination and load, and whether there was a message without
    // one.
    fn take_first(
        &mut self,
        most: u64,
        to: Option<u32>,
    ) -> Result<(Vec<(u32, Load)>, bool), AllocError>
        ensures taken { IfOk result (λ answer. take_first self.old most to
            ≡ taken self.new answer.0.items answer.1) }
        ensures unchanged { OnErr result (self.new ≡ self.old) }
        ensures kept { self.new.entries ≡ self.old.entries }
        ensures framed { IsFramed self.old self.new }
    {
        let choice = self.messages.first_numbers(self.all_hosts(), most)?;
        let mut loads = Vec::with_capacity(self.alloc, choice.numbers.len())?;
        let stuck = take_each(&mut self.messages, &choice.numbers, to, &mut loads);
        Ok((loads, stuck))
    }

    /// A step of a move task (`StartMessageMoveTask`). It takes at most `max` of the messages that
    /// the queue may give, in the order in which it gives them, up to the first without a
    /// destination. Each goes to the task's queue, or else to the queue from which it came as a
    /// dead letter. Returns each destination and load, and what is left.
    ///
    /// # Errors
    ///
    /// Only `Memory`, if memory runs out; the queue is then as it was.
    pub fn take_movable(
        &mut self,
        max: u64,
        to: Option<u32>,
    ) -> Result<(Vec<(u32, Load)>, Rest), Refusal>
        ensures taken { IfOk result
            (λ answer. TakesMovable self.old self.new max to answer.0.items answer.1) }
        ensures unchanged { OnErr result (self.new ≡ self.old) }
        ensures memory_only { IsOkUnless result Refusal.Memory }
        ensures kept { self.new.entries ≡ self.old.entries }
        ensures framed { IsFramed self.old self.new }
    {
        let (loads, stuck) = self.take_first(max, to)?;
        let rest = if stuck {
            Rest::NoSource
        } else if self.has_available() {
            Rest::More
        } else {
            Rest::Empty
        };
        Ok((loads, rest))
    }
}
