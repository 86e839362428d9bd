//! What the reader of a consumer needs to know of scalers.
use sqs_message::Text;

/// A scaler as the text of a scenario has it, whatever else may be wrong with it.
#[derive(Drop)]
pub struct ScalerText {
    /// Its agent number.
    pub number: u32,
    pub name: Text,
    /// The name of its queue.
    pub home: Text,
}
