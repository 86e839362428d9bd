//! The decisions of an actor, which is a script, a producer or a consumer. A decision is a pure
//! function of the actor and of the answer that it gets: that its wake has come, or the result of
//! its last act.
#![tactic(auto)]

mod actor;
mod holding;
mod life;
mod replies;

pub use actor::Actor;
pub use replies::{FollowUp, Reply};
pub use sqs_model::Act;
