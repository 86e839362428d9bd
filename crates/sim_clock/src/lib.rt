//! Simulated time: the keys that order due entries, the agenda that holds them, and the numbered
//! errors that all other crates return.
#![tactic(auto)]

mod agenda;
mod key;
mod refusal;

pub use agenda::Agenda;
pub use key::{Class, Key, lesser};
pub use refusal::Refusal;
