//! The faults of a scenario or a script.
use sim_clock::Refusal;
use sqs_message::Text;

/// An error from 10 to 20, and the place in the scenario that it is about, as in
/// `queue[2].delay_s`. The place is empty if the error is about the whole text.
#[derive(Drop)]
pub struct ScenarioFault {
    pub refusal: Refusal,
    pub place: Text,
}

/// An error of a script, and the number of the CSV record that it is about; the header is record 1.
/// There is no number if the error is about the whole script.
#[derive(Clone, Copy, Debug, PartialEq, Eq)]
pub struct ScriptFault {
    pub refusal: Refusal,
    pub number: Option<u32>,
}
