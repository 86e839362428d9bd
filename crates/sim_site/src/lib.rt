//! A site: a queue with its actors and tasks and the transfers on their way to it, and the handling
//! of what is due there.
#![tactic(auto)]

mod actors;
mod agents;
mod arrivals;
mod dues;
mod effects;
mod handling;
mod later;
mod loads;
mod opening;
mod places;
mod polls;
mod rows;
mod site;
mod state;

pub use agents::Task;
pub use arrivals::Transfers;
pub use site::Site;
