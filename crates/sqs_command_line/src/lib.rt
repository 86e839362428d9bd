//! The words of the program's command line, read by `clap`.
#![tactic(auto)]

mod asked;
mod commands;
mod reading;

pub use asked::{CheckLine, CompareLine, FiguresLine, Line, LineFault, RunLine, WantedLine};
pub use reading::line;
