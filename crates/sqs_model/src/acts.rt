//! The answers that an actor gets, and its acts.
use sqs_message::{Body, Call, Listed, MessageId, Receipt, ReceiptHandle, Text};
use sqs_redrive::{Batch, Outbound};
use std::alloc::{AllocError, Global};

/// What an actor that scales or is scaled goes by when it wakes. Others go by nothing.
#[derive(Clone, Copy, Debug, PartialEq, Eq)]
pub struct Standing {
    /// To a scaler, how many messages of its queue are visible. To a copy, how many copies are to ask.
    pub number: u64,
    /// To a copy, when its scaler wakes next, in milliseconds.
    pub next: Option<u64>,
}

impl Standing {
    ghost use Rattle.std.specs.Prelude.{◌≡◌};
    ghost use Rattle.sqs_model.specs.Step.{no_standing};

    /// Nothing to go by.
    pub fn none() -> Standing
        ensures { result ≡ no_standing }
    {
        Standing {
            number: 0,
            next: None,
        }
    }
}

/// An answer that an actor gets.
#[derive(Drop)]
pub enum Answer {
    /// Its wake has come.
    Wake(Standing),
    /// The messages that its receive gave; none at the end of a long poll that found nothing.
    Got(Batch),
    /// Its receive waits.
    Waiting,
    /// Any other answer, and every error.
    Other,
}

/// What an actor does: a call with its values, the end of a service, or nothing. Times are seconds.
#[derive(Drop)]
pub enum Act {
    Send {
        body: Body,
        delay: Option<u64>,
        group: Option<Text>,
        id: Option<Text>,
    },
    Receive {
        max: u64,
        wait: u64,
        timeout: Option<u64>,
    },
    Delete {
        receipt: ReceiptHandle,
    },
    Change {
        receipt: ReceiptHandle,
        timeout: u64,
    },
    /// A change whose timeout is that of the queue if none is given.
    Prolong {
        receipt: ReceiptHandle,
        timeout: Option<u64>,
    },
    Start {
        task: u32,
    },
    Cancel {
        task: u32,
    },
    /// The service of a message ended. It has the message, the receipt that the actor got with it,
    /// whether the service failed, and, if it did not, what is forwarded to other queues.
    Serve {
        id: MessageId,
        receipt: Receipt,
        failed: bool,
        forwards: Listed<Outbound>,
    },
    /// A scaler changes how many copies of a consumer ask for messages.
    Scale {
        from: u32,
        to: u32,
    },
    Nothing,
}

impl Act {
    ghost use Rattle.std.specs.Prelude.{◌≡◌, IfOk};
    ghost use Rattle.sqs_model.specs.Actor.{act_of};

    /// The act that makes a call.
    ///
    /// # Errors
    ///
    /// `AllocError` if memory runs out.
    pub fn of(alloc: Global, call: Call) -> Result<Act, AllocError>
        ensures { IfOk result (λ act. act ≡ act_of call) }
    {
        Ok(match call {
            Call::Send {
                body,
                delay,
                group,
                id,
            } => Act::Send {
                body: Body::new(alloc, body)?,
                delay,
                group,
                id,
            },
            Call::Receive { max, wait, timeout } => Act::Receive { max, wait, timeout },
            Call::Delete { receipt } => Act::Delete {
                receipt: ReceiptHandle::from(receipt),
            },
            Call::Change { receipt, timeout } => Act::Change {
                receipt: ReceiptHandle::from(receipt),
                timeout,
            },
            Call::Start { task } => Act::Start { task },
            Call::Cancel { task } => Act::Cancel { task },
        })
    }
}
