//! Laws of the log: what holds of the rows of every run, in their own words. Rows come in the order
//! in which the log has them.
#![tactic(auto)]

mod laws;

pub use laws::{
    changes_stay_in_reach, log_keeps_the_rules, log_says_what_is_left, log_tells_journeys,
};
