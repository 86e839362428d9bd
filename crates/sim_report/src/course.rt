//! The courses of messages through queues.
ghost use Rattle.std.specs.Prelude.{◌≡◌};
ghost use Rattle.sim_report.specs.Facts.{course_of};

use sqs_message::{Detail, Origin, RowAnswer, RowKind};

/// What a row says of the course of its message.
#[derive(Clone, Copy, Debug, PartialEq, Eq)]
pub enum Course {
    /// It was first sent.
    Sent,
    /// It came on from another queue, and has this origin.
    CameOn(Origin),
    /// It came by a forward.
    Came,
    /// A forward came of a message that had come before.
    CameAgain,
    /// It was forwarded to the queue with this number.
    Forwarded(u32),
    /// It left for the queue with this number.
    WentOn(u32),
    /// It was deleted.
    Ended,
    /// It expired.
    Expired,
    /// Nothing.
    Stayed,
}

impl Course {
    /// What a row of this kind with this answer and detail says, whose message is of an origin of
    /// its own or not.
    #[inline(always)]
    pub(crate) fn of(kind: RowKind, answer: &RowAnswer, own: bool, detail: Detail) -> Course
        ensures { result ≡ course_of kind answer.now own detail }
    {
        match (kind, answer, detail) {
            (RowKind::Send, RowAnswer::New, _) => Course::Sent,
            (RowKind::Arrive, RowAnswer::New, Detail::From(origin)) => {
                if own {
                    Course::Came
                } else {
                    Course::CameOn(origin)
                }
            }
            (RowKind::Arrive, RowAnswer::Repeat, _) => Course::CameAgain,
            (RowKind::Forward, RowAnswer::Out, Detail::Queue(to)) => Course::Forwarded(to),
            (RowKind::Redrive | RowKind::Move, RowAnswer::Out, Detail::Queue(to)) => {
                Course::WentOn(to)
            }
            (RowKind::Delete, RowAnswer::Deleted, _) => Course::Ended,
            (RowKind::Expire, RowAnswer::Expired, _) => Course::Expired,
            _ => Course::Stayed,
        }
    }
}
