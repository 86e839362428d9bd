//! The tests, a file for each crate or part that they test, and what they share.
mod actor;
mod doors;
mod figures;
mod logs;
mod partition;
mod picks;
mod recorder;
mod records;
mod report;
mod ring;
mod row;
mod same;
mod workers;
