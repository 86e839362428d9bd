//! The reader of scenarios: from a text in TOML and its script files it makes a sound scenario, or
//! returns the first fault.
#![tactic(auto)]

mod actors;
mod consumers;
mod copies;
mod distributions;
mod draft;
mod fault;
mod groups;
mod items;
mod key_type;
mod lists;
mod named;
mod names;
mod outages;
mod outline;
mod place;
mod producers;
mod queues;
mod reader;
mod roster;
mod scalers;
mod scenario;
mod script_files;
mod scripted;
mod section;
mod targets;
mod tasks;
mod top;
mod ways;

pub use draft::{Draft, Newest, read};
pub use fault::ReadError;
pub use scenario::{Scenario, ScenarioParts};
pub use scripted::Scripts;
pub use sim_script::{ScriptError, read_script};
pub use sqs_formats::{ScenarioFault, ScriptFault};
pub use ways::{edges, least_latency};
