//! Owned values handed from an owner to many hands, and the hands' answers handed back, without a
//! lock.
#![tactic(auto)]

mod bell;
mod brought;
mod ends;
mod handoff;
mod records;
mod rule;
mod steps;

pub use bell::{Answers, Bell, Missed, Offers, Rung, Seen};
pub use ends::{Left, close};
pub use handoff::{Claimed, Hand, Handoff, Owner};
pub use rule::Work;
