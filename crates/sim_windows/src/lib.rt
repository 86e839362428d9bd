//! The run of a world, on one thread entry by entry or in partitions. A partition handles what it
//! has due before its bound. At a barrier it gets what was sent to it, in the order of keys, and
//! the bounds are set anew. Rows before which no other row can come are settled. Whatever is
//! picked, a run in partitions gives the result of the run on one list.
#![tactic(auto)]

mod alone;
mod begun;
mod density;
mod joining;
mod kept;
mod lent;
mod limit;
mod machine;
mod meeting;
mod parting;
mod settling;
mod sink;
mod stage;
mod world;

pub use alone::{run_alone, run_gathered};
pub use begun::{Begun, begin_gathered};
pub use lent::{Came, Lent};
pub use limit::Limit;
pub use machine::Machine;
pub use sink::RowSink;
pub use stage::{Ended, Loan, Stage};
pub use world::World;
