//! The tests, a file for each crate or part that they test, and what they share.
mod calls;
mod fifo;
mod forms;
mod in_order;
mod many;
mod play;
mod queue;
mod sends_first;
mod show;
mod standard;
mod words;
