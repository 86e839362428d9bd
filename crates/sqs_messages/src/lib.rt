//! The messages of a queue of either kind. They are found by number, by what is due and by what a
//! receive may give, without a scan, and counted by state.
#![tactic(auto)]

mod choose;
mod counts;
mod due;
mod groups;
mod hosts;
mod messages;
mod order;
mod shelf;
mod slot;
mod table;

pub use choose::Choice;
pub use counts::Counts;
pub use messages::Messages;
pub use slot::State;
pub use table::MessageTable;
