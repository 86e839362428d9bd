//! A FIFO queue: its messages in order, their groups and deduplication, and the calls of Amazon SQS
//! on it.
#![tactic(auto)]

mod fifo_queue;

pub use fifo_queue::FifoQueue;
pub use sqs_queue::Counts;
