//! Rows of the log.
use sim_clock::{Class, Key};
use sqs_message::{Detail, Row, RowAnswer, RowKind, RowReceipt};

/// A row of the actor `s`, which has no message and no receipt.
pub fn row(at: u64, queue: u32, kind: RowKind, answer: RowAnswer, detail: Detail) -> Row {
    Row {
        key: Key {
            at,
            agent: 2,
            class: Class::Wake,
            number: 0,
        },
        queue,
        agent: 2,
        kind,
        answer,
        message: None,
        receipt: RowReceipt::Absent,
        detail,
    }
}
