//! A whole rehearsal: from the bytes of a scenario and its scripts to the bytes of the log, the
//! final queues and the report. Also the world of sites with which a scenario opens, and its runs.
#![tactic(auto)]

mod alike;
mod alone;
mod counter;
mod ending;
mod fault_lines;
mod finals;
mod limited;
mod logged;
mod opening;
mod options;
mod outcome;
mod printed;
mod printing;
mod reach;
mod recorder;
mod rehearsal;
mod running;
mod said;
mod steps;
mod watch;

pub use alone::rehearse_alone;
pub use counter::Counter;
pub use ending::write_ending;
pub use fault_lines::{fault_line, scenario_line};
pub use finals::finals_of;
pub use logged::figures_of_log;
pub use opening::open_world;
pub use options::{Options, Split};
pub use outcome::{Outcome, compare};
pub use printed::{PrintedRow, PrintedSite, RowPrinter};
pub use reach::queues_out_of_reach;
pub use recorder::Recorder;
pub use rehearsal::{Fault, rehearse, rehearse_upto, rehearse_watched};
pub use running::{Done, Piece, Running, open_machine, run_alone, run_workers};
pub use said::reach_text;
pub use sim_workers::{Gate, Open};
pub use watch::{Unwatched, Watch};
