//! Which columns a row has.
ghost use Rattle.std.specs.Prelude.{◌≡◌, ◌↔◌, IsTrue, Some};
ghost use Rattle.sim_logs.specs.Columns.{HasItsColumns, columns_by, columns_of, detail_form, receipt_form};

use sqs_message::{Detail, Row, RowAnswer, RowKind, RowReceipt};

/// What the receipt column of a row has.
#[derive(Clone, Copy, Debug, PartialEq, Eq)]
pub enum ReceiptForm {
    Absent,
    /// The receipt that a receive made.
    Made,
    /// The handle that a call gave.
    Given,
}

/// What the detail column of a row has; the variants are those of `Detail`.
#[derive(Clone, Copy, Debug, PartialEq, Eq)]
pub enum DetailForm {
    Absent,
    Digest,
    From,
    Age,
    Timeout,
    Queue,
    Task,
    Moved,
    Copies,
    Counts,
}

/// What the last three columns of a row have.
#[derive(Clone, Copy, Debug, PartialEq, Eq)]
pub struct Columns {
    /// Whether there is a message.
    pub message: bool,
    pub receipt: ReceiptForm,
    pub detail: DetailForm,
}

// What the receipt column has.
fn receipt_form(receipt: &RowReceipt) -> ReceiptForm
    ensures { result ≡ receipt_form receipt.now }
{
    match receipt {
        RowReceipt::Absent => ReceiptForm::Absent,
        RowReceipt::Made(_) => ReceiptForm::Made,
        RowReceipt::Given(_) => ReceiptForm::Given,
    }
}

// What the detail column has.
fn detail_form(detail: Detail) -> DetailForm
    ensures { result ≡ detail_form detail }
{
    match detail {
        Detail::Absent => DetailForm::Absent,
        Detail::Digest(_) => DetailForm::Digest,
        Detail::From(_) => DetailForm::From,
        Detail::Age(_) => DetailForm::Age,
        Detail::Timeout(_) => DetailForm::Timeout,
        Detail::Queue(_) => DetailForm::Queue,
        Detail::Task(_) => DetailForm::Task,
        Detail::Moved(_) => DetailForm::Moved,
        Detail::Copies { .. } => DetailForm::Copies,
        Detail::Counts { .. } => DetailForm::Counts,
    }
}

impl Columns {
    /// What the columns of a row of this kind with this answer have, if the program writes such rows.
    pub(crate) fn by(kind: RowKind, answer: RowAnswer) -> Option<Columns>
        ensures { result ≡ columns_by kind answer }
    {
        let (message, receipt, detail) = match (kind, answer) {
            (RowKind::Send, RowAnswer::New | RowAnswer::Repeat) => {
                (true, ReceiptForm::Absent, DetailForm::Digest)
            }
            (RowKind::Receive, RowAnswer::Ok) => (true, ReceiptForm::Made, DetailForm::From),
            (RowKind::Receive, RowAnswer::Wait | RowAnswer::Empty | RowAnswer::Refused(_))
            | (RowKind::Send, RowAnswer::Refused(_)) => {
                (false, ReceiptForm::Absent, DetailForm::Absent)
            }
            (RowKind::Delete, RowAnswer::Deleted) => (true, ReceiptForm::Given, DetailForm::Age),
            (RowKind::Delete, RowAnswer::Kept | RowAnswer::Gone) => {
                (true, ReceiptForm::Given, DetailForm::Absent)
            }
            (RowKind::Change, RowAnswer::Ok) => (true, ReceiptForm::Given, DetailForm::Timeout),
            (RowKind::Delete | RowKind::Change, RowAnswer::Refused(_)) => {
                (false, ReceiptForm::Given, DetailForm::Absent)
            }
            (RowKind::Fail, RowAnswer::Ok) => (true, ReceiptForm::Made, DetailForm::Absent),
            (RowKind::Forward | RowKind::Redrive | RowKind::Move, RowAnswer::Out) => {
                (true, ReceiptForm::Absent, DetailForm::Queue)
            }
            (RowKind::Start | RowKind::Cancel, RowAnswer::Ok | RowAnswer::Refused(_)) => {
                (false, ReceiptForm::Absent, DetailForm::Task)
            }
            (RowKind::Release, RowAnswer::Visible) => {
                (true, ReceiptForm::Absent, DetailForm::Absent)
            }
            (RowKind::Arrive, RowAnswer::New | RowAnswer::Repeat) => {
                (true, ReceiptForm::Absent, DetailForm::From)
            }
            (RowKind::Expire, RowAnswer::Expired) => (true, ReceiptForm::Absent, DetailForm::Age),
            (RowKind::Task, RowAnswer::Completed | RowAnswer::Failed) => {
                (false, ReceiptForm::Absent, DetailForm::Moved)
            }
            (RowKind::Scale, RowAnswer::Ok) => (false, ReceiptForm::Absent, DetailForm::Copies),
            (RowKind::Sample, RowAnswer::Ok) => (false, ReceiptForm::Absent, DetailForm::Counts),
            _ => return None,
        };
        Some(Columns {
            message,
            receipt,
            detail,
        })
    }

    // What the columns of a row have.
    fn of(row: &Row) -> Columns
        ensures { result ≡ columns_of row.now }
    {
        Columns {
            message: row.message.is_some(),
            receipt: receipt_form(&row.receipt),
            detail: detail_form(row.detail),
        }
    }
}

// Whether there are columns, and they are these.
fn are_these(columns: Option<Columns>, these: Columns) -> bool
    ensures { IsTrue result ↔ (columns ≡ Some these) }
{
    match columns {
        Some(columns) => columns == these,
        None => false,
    }
}

/// Whether the columns of a row have what its kind and its answer say.
pub(crate) fn has_its_columns(row: &Row) -> bool
    ensures { IsTrue result ↔ HasItsColumns row.now }
{
    let columns = Columns::by(row.kind, row.answer);
    are_these(columns, Columns::of(row))
}
