//! The messages that are left in each queue.
ghost use Rattle.std.specs.Prelude.{◌≡◌, [], List, IfOk, IfSome, OnOk};
ghost use Rattle.sim_report.specs.Left.{lefts};
ghost use Rattle.sim_report.specs.Running.{CountsOn, message_added, messages_added};

use crate::queue::QueueCounts;
use sqs_message::Place;
use sqs_model::FinalMessage;
use std::alloc::{AllocError, Global};
use std::marker::Model;

/// The number of messages of a queue in each state at the end.
#[derive(Clone, Copy)]
pub(crate) struct Left {
    pub(crate) visible: u64,
    pub(crate) in_flight: u64,
    pub(crate) delayed: u64,
}

/// No messages.
pub(crate) const NONE: Left = Left {
    visible: 0,
    in_flight: 0,
    delayed: 0,
};

impl Left {
    ghost use Rattle.sim_report.specs.Left.{left_with};

    // These, and one more message in a state; none if that is more than a number holds.
    fn with(self, place: Place) -> Option<Left>
        ensures { IfSome result (λ left. left ≡ left_with place self) }
    {
        let mut left = self;
        match place {
            Place::Delayed => left.delayed = left.delayed.checked_add(1)?,
            Place::Visible => left.visible = left.visible.checked_add(1)?,
            Place::InFlight => left.in_flight = left.in_flight.checked_add(1)?,
        }
        Some(left)
    }
}

// Counts a message that is left, if its queue is one of these.
fn count_message(left: &mut [Left], message: &FinalMessage) -> Result<(), AllocError>
    ensures { OnOk result (left.new ≡ message_added left.old message.now) }
{
    let site = message.id.site as usize;
    if site < left.len() {
        left[site] = left[site].with(message.place).ok_or(AllocError)?;
    }
    Ok(())
}

// Counts messages that are left, one after another.
fn count_messages(left: &mut [Left], messages: &[FinalMessage]) -> Result<(), AllocError>
    ensures { OnOk result (left.new ≡ messages_added left.old messages.now) }
{
    for message in messages {
        count_message(left, message)?;
    }
    Ok(())
}

/// How many messages of each queue are left in each state at the end of a run, among those that
/// were added so far. The messages themselves are not kept.
#[derive(Drop)]
pub struct MessagesLeft {
    queues: Vec<Left>,
}

impl Model for MessagesLeft {
    ghost use Rattle.std.specs.Prelude.{List};
    ghost use Rattle.sim_report.specs.declared.left.Left.{Left};

    ghost Value = { List Left };

    ghost view = { λ left. left.queues.items };
}

impl MessagesLeft {
    // No messages of these queues.
    pub(crate) fn none(alloc: Global, queues: &[QueueCounts]) -> Result<MessagesLeft, AllocError>
        ensures { IfOk result (λ left. left ≡ lefts queues.now []) }
    {
        Ok(MessagesLeft {
            queues: Vec::from_elem(alloc, NONE, queues.len())?,
        })
    }

    // How many are left of each queue.
    pub(crate) fn of_queues(&self) -> &[Left]
        ensures { result.now ≡ self.now }
    {
        self.queues.as_slice()
    }

    /// Adds messages to those before. One of a queue whose number is past the last is not counted.
    ///
    /// # Errors
    ///
    /// `AllocError` if a queue has 2^64 messages in one state, which is more than memory holds. The
    /// counts may then have some of the messages, and must not be used again.
    pub fn add(&mut self, messages: &[FinalMessage]) -> Result<(), AllocError>
        ensures { CountsOn result self.old messages.now self.new }
    {
        count_messages(self.queues.as_mut_slice(), messages)
    }
}
