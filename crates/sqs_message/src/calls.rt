//! The calls that an actor makes.
use crate::listed::Listed;
use crate::text::Text;

/// A call of an actor at its queue. Times are seconds.
#[derive(PartialEq, Eq, Drop)]
pub enum Call {
    /// `SendMessage`. Group and id are for a FIFO queue; the delay is a message timer.
    Send {
        body: Text,
        delay: Option<u64>,
        group: Option<Text>,
        id: Option<Text>,
    },
    /// `ReceiveMessage`. A wait of 0 is a short poll. Without a timeout, the queue's is used.
    Receive {
        max: u64,
        wait: u64,
        timeout: Option<u64>,
    },
    /// `DeleteMessage`.
    Delete {
        receipt: Text,
    },
    /// `ChangeMessageVisibility`.
    Change {
        receipt: Text,
        timeout: u64,
    },
    /// `StartMessageMoveTask`; the task is given by its agent number.
    Start {
        task: u32,
    },
    /// `CancelMessageMoveTask`; the task is given by its agent number.
    Cancel {
        task: u32,
    },
}

/// A call of a script, and when it is made, in milliseconds.
#[derive(PartialEq, Eq, Drop)]
pub struct ScriptCall {
    pub at: u64,
    pub call: Call,
}

/// The calls of a script, in their order.
pub type Script = Listed<ScriptCall>;
