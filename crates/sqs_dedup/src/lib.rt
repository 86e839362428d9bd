//! The deduplication window of a FIFO queue: which deduplication ids were accepted within the last
//! five minutes, and which messages they made.
#![tactic(auto)]

mod dedup;
mod held;
mod key;

pub use dedup::Dedup;
pub use key::ScopedId;
