//! A run of a world on several threads, round by round. In a round each partition runs to its
//! bound, or to the moment at which the round is cut, on whatever thread takes it. If no partition
//! may go on, there is a barrier. The rows before which nothing can come any more go to a sink.
#![tactic(auto)]

mod gate;
mod handing_on;
mod outcomes;
mod pace;
mod piece;
mod rounds;
mod run;
mod scope;
mod start;
mod together;
mod worker;

pub use gate::{Gate, Open, Pause};
pub use piece::{Done, Packs, PartWork, Piece, Running};
pub use run::run_workers;
pub use scope::{join_all, start_all};
pub use worker::collect_at;
