//! The tests, a file for each crate or part that they test, and what they share.
mod handlings;
mod machines;
mod reach;
mod rehearsals;
mod scenarios;
mod sites;
mod worked;
mod workers;
