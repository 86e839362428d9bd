//! Rows of the log.
use crate::handle::ReceiptHandle;
use crate::ids::{MessageId, Origin, Receipt};
use sim_clock::{Key, Refusal};

/// What a row reports: a call of an actor, or an event of a queue or task.
#[derive(Clone, Copy, Debug, PartialEq, Eq)]
pub enum RowKind {
    Send,
    Receive,
    Delete,
    Change,
    /// A consumer failed to serve a message.
    Fail,
    /// A consumer forwarded a message that it had served.
    Forward,
    Start,
    Cancel,
    /// The end of a delay or visibility timeout.
    Release,
    /// A message left for the dead-letter queue.
    Redrive,
    /// A move task took a message out.
    Move,
    /// A transfer arrived.
    Arrive,
    Expire,
    /// A move task ended.
    Task,
    /// A scaler changed how many copies of a consumer ask for messages.
    Scale,
    Sample,
}

/// The outcome that a row reports.
#[derive(Clone, Copy, Debug, PartialEq, Eq)]
pub enum RowAnswer {
    /// A message was accepted.
    New,
    /// A duplicate of a message accepted before.
    Repeat,
    Ok,
    /// A long poll began to wait.
    Wait,
    /// Nothing was received.
    Empty,
    Deleted,
    /// An older receipt: the message stays.
    Kept,
    /// The message had left the queue before.
    Gone,
    /// The message is on its way to another queue.
    Out,
    Visible,
    Expired,
    Completed,
    Failed,
    /// One of the errors 1 to 9.
    Refused(Refusal),
}

/// The receipt column of a row.
#[derive(Drop)]
pub enum RowReceipt {
    Absent,
    /// The receipt that a receive made.
    Made(Receipt),
    /// The handle that a call gave.
    Given(ReceiptHandle),
}

/// The detail column of a row.
#[derive(Clone, Copy, Debug, PartialEq, Eq)]
pub enum Detail {
    Absent,
    /// The MD5 of the body sent.
    Digest([u8; 16]),
    /// The origin of the message.
    From(Origin),
    /// The age of a message that left for good, in milliseconds.
    Age(u64),
    /// The visibility timeout given, in seconds.
    Timeout(u64),
    /// The destination queue's number.
    Queue(u32),
    /// The task's agent number.
    Task(u32),
    /// The number of messages that a task moved.
    Moved(u64),
    /// How many copies of a consumer asked for messages, and how many do from now on.
    Copies {
        from: u32,
        to: u32,
    },
    /// The number of a queue's messages in each state.
    Counts {
        visible: u64,
        in_flight: u64,
        delayed: u64,
    },
}

/// A row of the log.
#[derive(Drop)]
pub struct Row {
    /// The key of the entry whose handling made the row. The log has its moment.
    pub key: Key,
    /// The number of the queue of the row.
    pub queue: u32,
    /// The number of the agent that acted.
    pub agent: u32,
    pub kind: RowKind,
    pub answer: RowAnswer,
    pub message: Option<MessageId>,
    pub receipt: RowReceipt,
    pub detail: Detail,
}
