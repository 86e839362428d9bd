//! The answers of a queue.
ghost use Rattle.sqs_redrive.specs.Received.{most_received};

use crate::left::LeftLoad;
use sqs_message::{Body, MessageId, Origin, Receipt, Text};
use std::marker::Model;

/// The result of a send.
#[derive(Clone, Copy, Debug, PartialEq, Eq)]
pub enum Sent {
    /// A new message.
    New(MessageId),
    /// No message: the send is a duplicate of this one.
    Repeat(MessageId),
}

/// The result of a delete.
#[derive(Clone, Copy, Debug, PartialEq, Eq)]
pub enum Deleted {
    /// The message left, at this age in milliseconds.
    Removed(u64),
    /// The receipt is an older one: the message stays.
    Kept,
    /// The message had left the queue before.
    Gone,
}

/// What happens to a message that would be visible again.
#[derive(Clone, Copy, Debug, PartialEq, Eq)]
pub enum Returned {
    /// It stays, visible.
    Stays,
    /// It leaves for the dead-letter queue.
    Leaves,
}

/// What a task's step leaves in its queue.
#[derive(Clone, Copy, Debug, PartialEq, Eq)]
pub enum Rest {
    /// No message is available.
    Empty,
    /// Some messages are available.
    More,
    /// One of the messages that the step reached has no destination.
    NoSource,
}

/// A message that was received.
#[derive(Drop)]
pub struct Got {
    pub id: MessageId,
    pub receipt: Receipt,
    pub origin: Origin,
    pub group: Option<Text>,
    pub body: Body,
    /// The load of a message that left for the dead-letter queue at once, which is possible with a
    /// timeout of 0.
    pub left: LeftLoad,
}

/// The messages of one receive, in order. They are all in flight, so there are at most 120,000.
/// Contracts see the list of them.
#[derive(Drop)]
pub struct Batch {
    messages: Vec<Got>,
}

impl Model for Batch {
    ghost use Rattle.std.specs.Prelude.{◌≤◌, List, length};
    ghost use Rattle.sqs_redrive.specs.declared.answers.Got.{Got};
    ghost use Rattle.sqs_redrive.specs.Received.{most_received};

    ghost Value = { List Got };

    ghost view = { λ b. b.messages.items };

    ghost invariant = { λ b. length b.messages.items ≤ most_received };
}

impl Batch {
    ghost use Rattle.std.specs.Prelude.{◌≡◌, ◌≤◌, length};

    /// These messages.
    pub fn new(messages: Vec<Got>) -> Batch
        requires { length messages.items ≤ most_received }
        ensures { result ≡ messages.items }
    {
        Batch { messages }
    }

    /// All messages, as the `Vec` that holds them.
    pub fn into_vec(self) -> Vec<Got>
        ensures messages { result.items ≡ self }
        ensures few { length result.items ≤ most_received }
    {
        self.messages
    }
}
