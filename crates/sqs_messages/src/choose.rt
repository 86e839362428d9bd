//! The messages that a receive may give.

use smallvec::SmallVec;

/// The numbers of the first messages that a queue may give, in order.
#[derive(Debug, Drop)]
pub struct Choice {
    /// The numbers.
    pub numbers: SmallVec<u64, 10>,
    /// The number of messages that were read: those that are chosen, and of each group at most one
    /// delayed message after them. Skipping the number of a message that has left reads none.
    pub looked: u64,
}
