//! The reader of scripts: from a text in CSV it makes the calls of its records, or returns the
//! first fault.
#![tactic(auto)]

mod records;
mod script;

pub use records::is_token;
pub use script::{ScriptError, read_script};
pub use sqs_formats::ScriptFault;
