//! Tests of whole rehearsals and of what they use: reading, sites, partitions, machines, workers
//! and writers, on worked scenarios to the byte. There is only code of tests here.
#![tactic(auto)]

#[cfg(test)]
mod tests;
