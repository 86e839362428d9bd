//! The records of a run, as bytes to any writer: the lines of the log and of the finals. The crate
//! re-exports the reader of scripts, which are records too.
#![tactic(auto)]

mod answers;
mod before;
mod columns;
mod fields;
mod finals;
mod line;
mod lines;
mod names;
mod printer;
mod quotes;
mod record;
mod row_line;
mod rows;
mod sink;
mod to_writer;
mod word;

pub use finals::{write_finals, write_message_header, write_messages, write_transfers_and_tasks};
pub use lines::Lines;
pub use names::Names;
pub use printer::{LineText, Printer};
pub use rows::{write_header, write_row, write_rows};
pub use sim_script::{ScriptError, read_script};
pub use sink::{Failed, Out, write_all};
pub use sqs_model::Finals;
pub use to_writer::ToWriter;
