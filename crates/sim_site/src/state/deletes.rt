//! Deletes and changes of visibility by actors.
ghost use Rattle.std.specs.Prelude.{None, unwrap_or, ◌/◌, ◌≡◌, Some};
ghost use Rattle.sqs_message.specs.declared.row.Detail.TheVariants as details;
ghost use Rattle.sqs_message.specs.declared.row.RowAnswer.TheVariants as answers;
ghost use Rattle.sqs_message.specs.declared.row.RowReceipt.TheVariants as receipts;
ghost use Rattle.sqs_model.specs.declared.acts.Act.TheVariants as acts;
ghost use Rattle.sqs_model.specs.Acts.{change_made, deleted_row as the_deleted_row};
ghost use Rattle.sqs_model.specs.Calls.{change};
ghost use Rattle.sqs_model.specs.Site.{Core};
ghost use Rattle.sim_site.specs.Effects.{ActorDoes, DoesAct, IsRowOfCall};
ghost use Rattle.sim_site.specs.Rows.{refused_row as the_refused_row};

use super::Core;
use crate::handling::Handling;
use crate::rows::with_receipt;
use sim_clock::Refusal;
use sqs_message::{Detail, MessageId, Receipt, ReceiptHandle, Row, RowAnswer, RowKind, RowReceipt};
use sqs_model::LONGEST_TIMEOUT;
use sqs_redrive::Deleted;

// The row of a delete or of a change that was refused.
fn refused_row(
    handling: &Handling<'_>,
    site: u32,
    kind: RowKind,
    handle: ReceiptHandle,
    refusal: Refusal,
) -> Row
    ensures { result ≡ the_refused_row handling.now.key site handling.now.agent kind handle
        refusal }
{
    let answer = RowAnswer::Refused(refusal);
    let row = handling.row(site, kind, answer, None, Detail::Absent);
    with_receipt(row, RowReceipt::Given(handle))
}

// The row of a delete by a receipt.
fn deleted_row(
    handling: &Handling<'_>,
    site: u32,
    handle: ReceiptHandle,
    receipt: Receipt,
    answer: Result<Deleted, Refusal>,
) -> Row
    ensures { IsRowOfCall handling.now site result
        (λ k a c. the_deleted_row k a c handle receipt answer) }
{
    let id = MessageId {
        site,
        number: receipt.number,
    };
    let (answer, message, detail) = match answer {
        Ok(Deleted::Removed(age)) => (RowAnswer::Deleted, Some(id), Detail::Age(age)),
        Ok(Deleted::Kept) => (RowAnswer::Kept, Some(id), Detail::Absent),
        Ok(Deleted::Gone) => (RowAnswer::Gone, Some(id), Detail::Absent),
        Err(refusal) => (RowAnswer::Refused(refusal), None, Detail::Absent),
    };
    let row = handling.row(site, RowKind::Delete, answer, message, detail);
    with_receipt(row, RowReceipt::Given(handle))
}

impl Core {
    /// An actor deletes a message by a receipt handle, which may be no receipt. The only error is
    /// `Memory`.
    #[tactic(auto, unfolding(sqs_model::specs::Acts::act_made))]
    pub fn delete(
        &mut self,
        handling: &mut Handling<'_>,
        handle: ReceiptHandle,
    ) -> Result<(), Refusal>
        ensures { DoesAct result handling.old handling.new self.old self.new (acts.Delete handle) }
    {
        let site = self.queue.site();
        let Some(receipt) = handle.receipt() else {
            let refusal = Refusal::ReceiptHandleIsInvalid;
            let row = refused_row(handling, site, RowKind::Delete, handle, refusal);
            handling.effects.say(row)?;
            return Ok(());
        };
        let answer = self.queue.delete(handling.key.at, &receipt);
        let row = deleted_row(handling, site, handle, receipt, answer);
        handling.effects.say(row)?;
        Ok(())
    }

    // An actor changes a visibility timeout by a receipt.
    fn change_by(
        &mut self,
        handling: &mut Handling<'_>,
        handle: ReceiptHandle,
        timeout: u64,
        receipt: Receipt,
    ) -> Result<(), Refusal>
        ensures { ActorDoes result handling.old handling.new self.new
            (λ k a. change_made k a self.old handle timeout (Some receipt)) }
    {
        let site = self.queue.site();
        match self.queue.change(handling.key.at, &receipt, timeout) {
            Err(refusal) => {
                let row = refused_row(handling, site, RowKind::Change, handle, refusal);
                handling.effects.say(row)?;
                Ok(())
            }
            Ok(left) => {
                let id = MessageId {
                    site,
                    number: receipt.number,
                };
                let detail = Detail::Timeout(timeout);
                let row = handling.row(site, RowKind::Change, RowAnswer::Ok, Some(id), detail);
                let row = with_receipt(row, RowReceipt::Given(handle));
                handling.effects.say(row)?;
                if timeout == 0 {
                    self.came_back(handling, receipt.number, left)
                } else {
                    drop(left);
                    Ok(())
                }
            }
        }
    }

    /// An actor changes a visibility timeout, in seconds, by a receipt handle, which may be no
    /// receipt.
    #[tactic(auto, unfolding(sqs_model::specs::Acts::act_made))]
    pub fn change(
        &mut self,
        handling: &mut Handling<'_>,
        handle: ReceiptHandle,
        timeout: u64,
    ) -> Result<(), Refusal>
        ensures { DoesAct result handling.old handling.new self.old self.new
            (acts.Change handle timeout) }
    {
        match handle.receipt() {
            None => {
                let site = self.queue.site();
                let refusal = if timeout > LONGEST_TIMEOUT {
                    Refusal::BadTimeout
                } else {
                    Refusal::ReceiptHandleIsInvalid
                };
                let row = refused_row(handling, site, RowKind::Change, handle, refusal);
                handling.effects.say(row)?;
                Ok(())
            }
            Some(receipt) => self.change_by(handling, handle, timeout, receipt),
        }
    }

    /// An actor sets a visibility timeout anew, in seconds, by a receipt handle. Without a timeout it
    /// is the queue's.
    #[tactic(auto, unfolding(sqs_model::specs::Acts::act_made))]
    pub fn prolong(
        &mut self,
        handling: &mut Handling<'_>,
        handle: ReceiptHandle,
        timeout: Option<u64>,
    ) -> Result<(), Refusal>
        ensures { DoesAct result handling.old handling.new self.old self.new
            (acts.Prolong handle timeout) }
    {
        let own = self.queue.settings().visibility / 1000;
        self.change(handling, handle, timeout.unwrap_or(own))
    }
}
