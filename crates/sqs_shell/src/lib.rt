//! The commands of the program: it reads files and standard input, rehearses, and reports what
//! stopped it.
#![tactic(auto)]

mod check;
mod compare;
mod faults;
mod figures;
mod files;
mod progress;
mod run;
mod splits;
mod words;

pub use words::answer;
