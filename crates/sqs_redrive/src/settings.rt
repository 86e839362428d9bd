//! Settings of queues and move tasks.

/// The scope within which two sends with one deduplication id are duplicates
/// (`DeduplicationScope`).
#[derive(Clone, Copy, Debug, PartialEq, Eq)]
pub enum Scope {
    /// In the whole queue.
    Queue,
    /// In one message group.
    Group,
}

/// The two kinds of queue, each with the settings that only it has.
#[derive(Clone, Copy, Debug, PartialEq, Eq)]
pub enum Kind {
    /// A standard queue: the number of servers on which its messages are, and how many a short poll
    /// samples.
    Standard { hosts: u64, sampled: u64 },
    /// A FIFO queue: whether the body replaces an absent deduplication id
    /// (`ContentBasedDeduplication`), and the scope of ids.
    Fifo { content_dedup: bool, scope: Scope },
}

/// How long a transfer takes, in milliseconds: from the least to the greatest, both included.
#[derive(Clone, Copy, Debug, PartialEq, Eq)]
pub struct Latency {
    pub least: u64,
    pub greatest: u64,
}

/// When and how a message leaves for the dead-letter queue (`RedrivePolicy`).
#[derive(Clone, Copy, Debug, PartialEq, Eq)]
pub struct Policy {
    /// The number of the dead-letter queue.
    pub dead_letter: u32,
    /// A message that comes back after this many receives leaves (`maxReceiveCount`).
    pub max_receives: u64,
    pub latency: Latency,
}

/// Settings of a queue. Times are milliseconds.
#[derive(Clone, Copy, Debug, PartialEq, Eq)]
pub struct QueueSettings {
    pub kind: Kind,
    /// How long a received message stays invisible (`VisibilityTimeout`).
    pub visibility: u64,
    /// How long a sent message is delayed (`DelaySeconds`).
    pub delay: u64,
    /// How long a message is kept (`MessageRetentionPeriod`).
    pub retention: u64,
    /// The greatest number of messages in flight.
    pub in_flight_limit: u64,
    pub policy: Option<Policy>,
}

/// Settings of a move task (`StartMessageMoveTask`).
#[derive(Clone, Copy, Debug, PartialEq, Eq)]
pub struct TaskSettings {
    /// The number of the queue from which it moves messages.
    pub home: u32,
    /// The queue to which it moves them; without one each message goes back to the queue that it
    /// came from.
    pub to: Option<u32>,
    /// The greatest number of messages that it moves a second (`MaxNumberOfMessagesPerSecond`).
    pub per_second: u64,
    pub latency: Latency,
}

/// The states of a move task.
#[derive(Clone, Copy, Debug, PartialEq, Eq)]
pub enum TaskStatus {
    Idle,
    Running,
    Completed,
    Cancelled,
    Failed,
}
