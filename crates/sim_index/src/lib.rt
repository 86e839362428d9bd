//! An index of a list, so that the list need not be scanned: a tree of marks. It gives the least
//! entry due, its place in the list, and the next place with one of some flags.
#![tactic(auto)]

mod mark;
mod marked;
mod marks;
mod picking;

pub use mark::{Mark, NO_MARK};
pub use marked::MarkedList;
pub use marks::Marks;
