//! The tests, a file for each crate or part that they test, and what they share.
mod clock;
mod command_line;
mod dedup;
mod draw;
mod exchange;
mod formats;
mod handoff;
mod index;
mod message;
mod model;
mod redrive;
mod same;
mod sink;
