//! The reader of a log: it takes the rows of a log into figures, and refuses what is no log.
#![tactic(auto)]

mod answers;
mod columns;
mod fault;
mod fields;
mod header;
mod lines;
mod log;
mod parts;
mod reading;

pub use fault::LogFault;
pub use log::read_log;
