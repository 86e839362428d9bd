//! A handling at a site as it goes on.
ghost use Rattle.std.specs.Prelude.{◌≡◌, ◌≤◌};
ghost use Rattle.sqs_message.specs.declared.row.RowReceipt.TheVariants as receipts;
ghost use Rattle.sim_site.specs.Rows.{row_at};
ghost use Rattle.sqs_model.specs.Answers.{most_count};

use crate::effects::Effects;
use sim_clock::Key;
use sqs_message::{Detail, MessageId, Row, RowAnswer, RowKind, RowReceipt};

/// A handling as it goes on: the key of the entry that is handled, the agent that acts, and the
/// rows and transfers so far.
#[derive(Drop)]
pub struct Handling<'a> {
    pub key: Key,
    pub agent: u32,
    pub effects: &'a mut Effects,
    ghost moment: { key.at ≤ most_count },
}

impl Handling<'_> {
    /// A row on what the agent does at a queue, without a receipt.
    pub fn row(
        &self,
        queue: u32,
        kind: RowKind,
        answer: RowAnswer,
        message: Option<MessageId>,
        detail: Detail,
    ) -> Row
        ensures { result ≡ row_at self.now.key queue self.now.agent kind answer message
            receipts.Absent detail }
    {
        Row {
            key: self.key,
            queue,
            agent: self.agent,
            kind,
            answer,
            message,
            receipt: RowReceipt::Absent,
            detail,
        }
    }
}
