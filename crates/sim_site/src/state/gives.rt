//! The rows of the messages that a receive gave.
ghost use Rattle.std.specs.Prelude.{OnOk, ◌++◌, ◌≡◌};
ghost use Rattle.sqs_model.specs.Acts.{all_came_back, given, got_row as the_got_row};
ghost use Rattle.sqs_model.specs.Site.{Core, number_of};
ghost use Rattle.sim_site.specs.Effects.{GoesOn, Handles, AddsGots, GivesGots};

use super::Core;
use crate::handling::Handling;
use crate::loads::copied;
use crate::rows::with_receipt;
use sim_clock::Refusal;
use sqs_message::{Detail, Row, RowAnswer, RowKind, RowReceipt};
use sqs_redrive::Got;
use std::alloc::AllocError;

// The row of a message that was received.
fn got_row(handling: &Handling<'_>, site: u32, got: &Got) -> Row
    ensures { (c : Core) → number_of c ≡ site
        → result ≡ the_got_row handling.now.key c handling.now.agent got.now }
{
    let (id, origin) = (Some(got.id), Detail::From(got.origin));
    let row = handling.row(site, RowKind::Receive, RowAnswer::Ok, id, origin);
    with_receipt(row, RowReceipt::Made(got.receipt))
}

impl Core {
    // A row for each message that was received.
    fn say_gots(&self, handling: &mut Handling<'_>, gots: &[Got]) -> Result<(), AllocError>
        ensures on { GoesOn handling.old handling.new }
        ensures rows { OnOk result (AddsGots handling.old handling.new self.now gots.now) }
        ensures sent { OnOk result (handling.new.effects.now.sent ≡ handling.old.effects.now.sent) }
    {
        let site = self.queue.site();
        for i in 0..gots.len() {
            let row = got_row(handling, site, &gots[i]);
            handling.effects.say(row)?;
        }
        Ok(())
    }

    // All messages that were given come back, in order.
    fn all_come_back(&mut self, handling: &mut Handling<'_>, gots: &[Got]) -> Result<(), Refusal>
        ensures { Handles result handling.old handling.new self.new
            (λ k. all_came_back k gots.now self.old) }
    {
        for i in 0..gots.len() {
            let left = copied(self.alloc, gots[i].left.load())?;
            self.came_back(handling, gots[i].id.number, left)?;
        }
        Ok(())
    }

    /// Makes the rows of a receive's messages: one for each, and with a timeout of 0 after them
    /// those of their coming back. The site's queue has given these messages already.
    pub fn give(
        &mut self,
        handling: &mut Handling<'_>,
        timeout: Option<u64>,
        gots: &[Got],
    ) -> Result<(), Refusal>
        ensures { GivesGots result handling.old handling.new self.old self.new timeout gots.now }
    {
        self.say_gots(handling, gots)?;
        let at_once = match timeout {
            None => self.queue.settings().visibility == 0,
            Some(seconds) => seconds == 0,
        };
        if at_once {
            self.all_come_back(handling, gots)
        } else {
            Ok(())
        }
    }
}
