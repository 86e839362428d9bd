//! What the reader of a script needs to know of the queue that the script calls.
use sqs_message::{Listed, Text};

/// A move task that a script may start or cancel.
#[derive(Drop)]
pub struct HomeTask {
    pub name: Text,
    /// Its agent number.
    pub number: u32,
}

/// The move tasks of one queue.
pub type HomeTasks = Listed<HomeTask>;

/// The queue of a script's actor.
#[derive(Drop)]
pub struct Home {
    /// Whether the queue is FIFO.
    pub is_fifo: bool,
    pub tasks: HomeTasks,
}
