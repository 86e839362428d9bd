//! The state at the end of a run. Times are milliseconds from its start.
use sqs_message::{Listed, MessageId, Origin, Place, Text};
use sqs_redrive::TaskStatus;

/// A message in a queue; its id names the queue.
#[derive(Drop)]
pub struct FinalMessage {
    pub id: MessageId,
    pub origin: Origin,
    pub place: Place,
    /// When its delay or visibility timeout ends; none if it is visible.
    pub due: Option<u64>,
    pub enqueued: u64,
    pub receives: u64,
    pub group: Option<Text>,
    pub md5: [u8; 16],
}

/// Why a transfer was sent.
#[derive(Clone, Copy, Debug, PartialEq, Eq)]
pub enum TransferKind {
    Redrive,
    Move,
    Forward,
}

/// A transfer that has not arrived.
#[derive(Clone, Copy, Debug, PartialEq, Eq)]
pub struct FinalTransfer {
    /// The numbers of the two queues.
    pub from: u32,
    pub to: u32,
    pub kind: TransferKind,
    pub due: u64,
    /// How many transfers its sender had sent before.
    pub number: u64,
    /// The message's id in the queue that it left; for a forward the id of the message that was
    /// served.
    pub message: MessageId,
    /// None for a forward, which is not accepted yet.
    pub origin: Option<Origin>,
    pub md5: [u8; 16],
}

/// A move task.
#[derive(Clone, Copy, Debug, PartialEq, Eq)]
pub struct FinalTask {
    /// Its agent number.
    pub task: u32,
    pub status: TaskStatus,
    /// The number of messages that it moved since its last start.
    pub moved: u64,
}

/// All messages, queue by queue in order of arrival.
pub type FinalMessages = Listed<FinalMessage>;

/// All transfers under way, in the order of their keys.
pub type FinalTransfers = Listed<FinalTransfer>;

/// All move tasks, by number.
pub type FinalTasks = Listed<FinalTask>;

/// Messages, transfers and tasks at the end of a run.
#[derive(Drop)]
pub struct Finals {
    pub messages: FinalMessages,
    pub transfers: FinalTransfers,
    pub tasks: FinalTasks,
}
