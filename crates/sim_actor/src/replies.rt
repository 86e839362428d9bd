//! The replies that an actor gets, and what it does on one.
use sqs_message::Receipt;
use sqs_redrive::Batch;

/// An answer to the last act of an actor, or to a poll of its that waited.
#[derive(Drop)]
pub enum Reply {
    /// The messages that its receive gave; none at the end of a long poll that found nothing.
    Got(Batch),
    /// Its receive waits.
    Waiting,
    /// Any other answer, and every error.
    Other,
}

/// What an actor does on a reply. Times are seconds.
#[derive(Clone, Copy)]
pub enum FollowUp {
    /// It does nothing.
    Nothing,
    /// It deletes the message that it got with this receipt.
    Delete(Receipt),
    /// It changes the visibility timeout of the message that it got with this receipt.
    Change { receipt: Receipt, timeout: u64 },
}
