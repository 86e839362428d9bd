//! What a row counts.
ghost use Rattle.std.specs.Prelude.{◌≡◌};
ghost use Rattle.sim_report.specs.Tally.{count_of};
ghost use Rattle.sim_report.specs.Figures.{comes_in};
ghost use Rattle.sqs_formats.specs.Report.{age_when, column, is_column};

use sqs_message::{Detail, Row, RowAnswer, RowKind};

// The indexes of the columns that count messages which came into a queue.
pub(crate) const SENDS: u16 = 0;

pub(crate) const ARRIVALS: u16 = 8;

// The indexes of those that count messages which left it.
pub(crate) const DELETES: u16 = 4;

pub(crate) const EXPIRIES: u16 = 5;

pub(crate) const REDRIVES: u16 = 6;

pub(crate) const MOVES: u16 = 7;

// The index of the column that counts a row. The columns of the errors follow the first nine.
#[inline(always)]
pub(crate) fn column_of(kind: RowKind, answer: &RowAnswer) -> Option<u16>
    ensures { result ≡ column kind answer.now }
{
    match (kind, answer) {
        (_, RowAnswer::Refused(refusal)) => Some(u16::from(refusal.code()) + 8),
        (RowKind::Send, RowAnswer::New) => Some(SENDS),
        (RowKind::Send | RowKind::Arrive, RowAnswer::Repeat) => Some(1),
        (RowKind::Receive, RowAnswer::Ok) => Some(2),
        (RowKind::Receive, RowAnswer::Empty) => Some(3),
        (RowKind::Delete, RowAnswer::Deleted) => Some(DELETES),
        (RowKind::Expire, RowAnswer::Expired) => Some(EXPIRIES),
        (RowKind::Redrive, RowAnswer::Out) => Some(REDRIVES),
        (RowKind::Move, RowAnswer::Out) => Some(MOVES),
        (RowKind::Arrive, RowAnswer::New) => Some(ARRIVALS),
        _ => None,
    }
}

/// Whether a row in this column brings a message into a queue.
pub(crate) fn comes_in(column: Option<u16>) -> bool
    ensures { result ≡ comes_in column }
{
    matches!(column, Some(SENDS | ARRIVALS))
}

// The age at which a row in this column deleted a message, in milliseconds.
pub(crate) fn age_of(column: Option<u16>, detail: Detail) -> Option<u64>
    ensures { result ≡ age_when (is_column 4 column) detail }
{
    match (column, detail) {
        (Some(DELETES), Detail::Age(ms)) => Some(ms),
        _ => None,
    }
}

/// What a row counts: all that a report needs of it.
#[derive(Clone, Copy, Debug, PartialEq, Eq)]
pub struct RowCount {
    /// The age at which the row deleted a message, in milliseconds.
    pub age: Option<u64>,
    /// The number of the queue of the row.
    pub queue: u32,
    /// The index of the column that counts the row.
    pub column: Option<u16>,
}

impl RowCount {
    /// What a row counts.
    #[inline(always)]
    pub fn of(row: &Row) -> RowCount
        ensures { result ≡ count_of row.now }
    {
        let column = column_of(row.kind, &row.answer);
        RowCount {
            age: age_of(column, row.detail),
            queue: row.queue,
            column,
        }
    }
}
