//! The kinds and the answers of rows, by their names.
use sim_clock::Refusal;
use sqs_message::{RowAnswer, RowKind};

/// The kind of a row with this name.
pub(crate) fn kind_named(name: &str) -> Option<RowKind> {
    let kind = match name {
        "send" => RowKind::Send,
        "receive" => RowKind::Receive,
        "delete" => RowKind::Delete,
        "change" => RowKind::Change,
        "fail" => RowKind::Fail,
        "forward" => RowKind::Forward,
        "start" => RowKind::Start,
        "cancel" => RowKind::Cancel,
        "release" => RowKind::Release,
        "redrive" => RowKind::Redrive,
        "move" => RowKind::Move,
        "arrive" => RowKind::Arrive,
        "expire" => RowKind::Expire,
        "task" => RowKind::Task,
        "scale" => RowKind::Scale,
        "sample" => RowKind::Sample,
        _ => return None,
    };
    Some(kind)
}

// The refusal of a call with this name.
fn refusal_named(name: &str) -> Option<Refusal> {
    let refusal = match name {
        "OverLimit" => Refusal::OverLimit,
        "MessageNotInflight" => Refusal::MessageNotInflight,
        "ReceiptHandleIsInvalid" => Refusal::ReceiptHandleIsInvalid,
        "BadTimeout" => Refusal::BadTimeout,
        "MissingGroup" => Refusal::MissingGroup,
        "MissingDeduplication" => Refusal::MissingDeduplication,
        "BadDelay" => Refusal::BadDelay,
        "TaskRunning" => Refusal::TaskRunning,
        "NoTask" => Refusal::NoTask,
        _ => return None,
    };
    Some(refusal)
}

/// The answer of a row with this name.
pub(crate) fn answer_named(name: &str) -> Option<RowAnswer> {
    let answer = match name {
        "new" => RowAnswer::New,
        "repeat" => RowAnswer::Repeat,
        "ok" => RowAnswer::Ok,
        "wait" => RowAnswer::Wait,
        "empty" => RowAnswer::Empty,
        "deleted" => RowAnswer::Deleted,
        "kept" => RowAnswer::Kept,
        "gone" => RowAnswer::Gone,
        "out" => RowAnswer::Out,
        "visible" => RowAnswer::Visible,
        "expired" => RowAnswer::Expired,
        "Completed" => RowAnswer::Completed,
        "Failed" => RowAnswer::Failed,
        _ => RowAnswer::Refused(refusal_named(name)?),
    };
    Some(answer)
}
