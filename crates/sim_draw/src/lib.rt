//! Numbered random words. Word n of agent a under seed s is word n of ChaCha20 (RFC 8439) with the
//! seed as key and the agent's number as stream. It does not depend on what else was drawn before.
#![tactic(auto)]

mod draws;
mod groups;
mod quantiles;

pub use draws::Draws;
