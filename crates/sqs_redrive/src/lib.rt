//! Settings of queues and tasks, the answers of a queue, and the transfers from one queue to
//! another.
#![tactic(auto)]

mod answers;
mod left;
mod redrive;
mod settings;
mod transfers;

pub use answers::{Batch, Deleted, Got, Rest, Returned, Sent};
pub use left::{LeftLoad, LoadSlot};
pub use redrive::{MoveTask, on_return};
pub use settings::{Kind, Latency, Policy, QueueSettings, Scope, TaskSettings, TaskStatus};
pub use transfers::{Load, Outbound, Transfer};
