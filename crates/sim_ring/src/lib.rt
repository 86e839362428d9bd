//! A ring of counters that send tokens round: a small kind of sites, as an example for those who
//! bring sites of their own. The world of such a ring may be run on one thread or in partitions.
#![tactic(auto)]

mod counter;
mod opening;

pub use counter::{Counter, Token, Told};
pub use opening::open_ring;
