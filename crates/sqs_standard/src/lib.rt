//! A standard queue: messages that are on hosts, and the calls of Amazon SQS on them.
#![tactic(auto)]

mod standard_queue;

pub use sqs_queue::Counts;
pub use standard_queue::StandardQueue;
