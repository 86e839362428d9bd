//! Tests of actors, partitions, machines, workers and of what writes a run: each public call once
//! with ample memory, and what no clause says. There is only code of tests here.
#![tactic(auto)]

#[cfg(test)]
mod tests;
