//! Rows that a site makes itself.
ghost use Rattle.std.specs.Prelude.{Some, ◌≡◌};
ghost use Rattle.sqs_message.specs.declared.row.RowReceipt.TheVariants as receipts;
ghost use Rattle.sim_site.specs.Rows.{row_at};

use sim_clock::Key;
use sqs_message::{Detail, MessageId, Row, RowAnswer, RowKind, RowReceipt};

/// A row that a site makes itself, of one of its messages.
pub fn site_row(
    key: Key,
    site: u32,
    kind: RowKind,
    answer: RowAnswer,
    id: MessageId,
    detail: Detail,
) -> Row
    ensures { result ≡ row_at key site site kind answer (Some id) receipts.Absent detail }
{
    Row {
        key,
        queue: site,
        agent: site,
        kind,
        answer,
        message: Some(id),
        receipt: RowReceipt::Absent,
        detail,
    }
}

/// The row with this receipt.
pub fn with_receipt(row: Row, receipt: RowReceipt) -> Row
    ensures { result ≡ record row { receipt = receipt } }
{
    Row { receipt, ..row }
}
