//! The definitions of the texts. Scenario and scripts are read; log, finals, report and comparison
//! are written. The definitions are in `specs/`. The code has the types of the faults of a text,
//! and two laws.
#![tactic(auto)]

mod actor_kind;
mod failing;
mod faults;
mod home;
mod laws;
mod scaler_text;

pub use actor_kind::ActorKind;
pub use failing::Failing;
pub use faults::{ScenarioFault, ScriptFault};
pub use home::{Home, HomeTask, HomeTasks};
pub use laws::{lines_join, versions_stay};
pub use scaler_text::ScalerText;
