//! Tests of the queues and of the crates below them: tables of calls and their answers, which
//! `play` plays. There is only code of tests here.
#![tactic(auto)]

#[cfg(test)]
mod tests;
