//! Ends of services.
ghost use Rattle.std.specs.Prelude.{◌≡◌};
ghost use Rattle.sqs_model.specs.Actor.{Actor};
ghost use Rattle.sqs_model.specs.Acts.{forward_made, forwards_made};
ghost use Rattle.sqs_model.specs.declared.acts.Act.TheVariants as acts;
ghost use Rattle.sim_site.specs.Effects.{Does, DoesAct};

use super::Core;
use crate::handling::Handling;
use crate::rows::with_receipt;
use sim_clock::Refusal;
use sqs_message::{Detail, Listed, MessageId, Receipt, RowAnswer, RowKind, RowReceipt};
use sqs_redrive::Outbound;

impl Core {
    // An actor forwards a message to another queue. This makes a row. The only error is `Memory`.
    fn forward(
        &self,
        handling: &mut Handling<'_>,
        id: MessageId,
        transfer: Outbound,
    ) -> Result<(), Refusal>
        ensures { (a : Actor) → a.number ≡ handling.old.agent → Does result handling.old handling.new
            self.now (forward_made handling.old.key a id transfer self.now) }
    {
        let to = Detail::Queue(transfer.to);
        let row = handling.row(
            self.queue.site(),
            RowKind::Forward,
            RowAnswer::Out,
            Some(id),
            to,
        );
        handling.effects.say_sent(row, transfer)?;
        Ok(())
    }

    // An actor forwards a message to other queues, one after another. The only error is `Memory`.
    fn forward_all(
        &self,
        handling: &mut Handling<'_>,
        id: MessageId,
        forwards: Listed<Outbound>,
    ) -> Result<(), Refusal>
        ensures { (a : Actor) → a.number ≡ handling.old.agent → Does result handling.old handling.new
            self.now (forwards_made handling.old.key a id forwards self.now) }
    {
        for transfer in forwards.into_vec() {
            self.forward(handling, id, transfer)?;
        }
        Ok(())
    }

    // An actor forwards a message to other queues. It keeps the memory of the list of one transfer,
    // as nearly all are. The only error is `Memory`.
    fn forward_listed(
        &mut self,
        handling: &mut Handling<'_>,
        id: MessageId,
        forwards: Listed<Outbound>,
    ) -> Result<(), Refusal>
        ensures same { self.new ≡ self.old }
        ensures done { (a : Actor) → a.number ≡ handling.old.agent → Does result handling.old
            handling.new self.old (forwards_made handling.old.key a id forwards self.old) }
    {
        if forwards.as_slice().len() != 1 {
            return self.forward_all(handling, id, forwards);
        }
        let mut room = forwards.into_vec();
        if let Some(only) = room.pop() {
            self.forward(handling, id, only)?;
        }
        self.actors.keep_room(room);
        Ok(())
    }

    /// An actor ends the service of a message. If the service failed, this makes a row. If not, it
    /// forwards the message to other queues, if it does. The only error is `Memory`.
    #[tactic(auto, unfolding(sqs_model::specs::Acts::act_made))]
    pub fn serve(
        &mut self,
        handling: &mut Handling<'_>,
        id: MessageId,
        receipt: Receipt,
        failed: bool,
        forwards: Listed<Outbound>,
    ) -> Result<(), Refusal>
        ensures { DoesAct result handling.old handling.new self.old self.new
            (acts.Serve id receipt failed forwards) }
    {
        if !failed {
            return self.forward_listed(handling, id, forwards);
        }
        let site = self.queue.site();
        let row = handling.row(site, RowKind::Fail, RowAnswer::Ok, Some(id), Detail::Absent);
        let row = with_receipt(row, RowReceipt::Made(receipt));
        handling.effects.say(row)?;
        Ok(())
    }
}
