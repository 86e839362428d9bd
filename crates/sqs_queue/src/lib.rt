//! A queue of either kind, standard or FIFO: its messages, its deduplication entries, and the calls
//! of Amazon SQS on it.
#![tactic(auto)]

mod batch;
mod loads;
mod places;
mod queue;

pub use batch::Received;
pub use places::{is_out, may_be_received};
pub use queue::Queue;
pub use sqs_messages::{Counts, Messages};
