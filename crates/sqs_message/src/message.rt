//! Messages in a queue.
use crate::body::Body;
use crate::ids::Origin;
use crate::text::Text;

/// The state of a message in its queue.
#[derive(Clone, Copy, Debug, PartialEq, Eq)]
pub enum Place {
    /// Not yet visible for the first time (Developer Guide: delay queues, message timers).
    Delayed,
    /// May be received.
    Visible,
    /// Received and not yet deleted, until its visibility timeout ends.
    InFlight,
}

/// A message in a queue. Times are milliseconds from the start of the run.
#[derive(Drop)]
pub struct Message {
    /// How many messages came to the queue before it.
    pub number: u64,
    /// Where it was first accepted.
    pub origin: Origin,
    /// The body that was sent.
    pub body: Body,
    /// Its message group, on a FIFO queue.
    pub group: Option<Text>,
    /// Its enqueue time, from which its retention counts.
    pub enqueued: u64,
    /// Whether it is delayed, visible or in flight.
    pub place: Place,
    /// When its delay or visibility timeout ends; none while it is visible.
    pub release: Option<u64>,
    /// How often it was received in this queue.
    pub receives: u64,
    /// When it was last received; 0 before the first receive.
    pub received: u64,
    /// The queue that it came from as a dead letter, to which a move task may take it back.
    pub source: Option<u32>,
}
