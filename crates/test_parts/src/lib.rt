//! Tests of the crates that use no queue: each public call once with ample memory, and what no
//! clause says. There is only code of tests here, so that a crate that changes is proved once.
#![tactic(auto)]

#[cfg(test)]
mod tests;
