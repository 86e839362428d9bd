//! Messages that come back to their queue, or leave it for the dead-letter queue.
ghost use Rattle.std.specs.Prelude.{◌≡◌, ◌≤◌, Some};
ghost use Rattle.sqs_model.specs.Acts.{came_back as the_came_back, redrive_by};
ghost use Rattle.sqs_model.specs.Step.{handle_expiry, handle_release};
ghost use Rattle.sqs_model.specs.Valid.{IsLatency};
ghost use Rattle.sim_site.specs.Effects.{Handles};

use super::Core;
use crate::handling::Handling;
use crate::rows::site_row;
use sim_clock::Refusal;
use sqs_message::{Detail, MessageId, RowAnswer, RowKind};
use sqs_model::MOST_COUNT;
use sqs_redrive::{Load, Outbound, Policy};

impl Core {
    // Sends the load of a message to the dead-letter queue.
    fn redrive(
        &mut self,
        handling: &mut Handling<'_>,
        number: u64,
        load: Load,
        policy: Policy,
    ) -> Result<(), Refusal>
        requires { IsLatency policy.latency }
        ensures { Handles result handling.old handling.new self.new (λ k. redrive_by
            (Some policy) k self.old number load) }
    {
        let (least, greatest) = (policy.latency.least, policy.latency.greatest);
        let varies = least < greatest;
        if self.sent >= MOST_COUNT || (varies && self.draws.taken() >= MOST_COUNT) {
            return Err(Refusal::CountLimit);
        }
        let key = handling.key;
        let site = self.queue.site();
        let id = MessageId { site, number };
        let to = Detail::Queue(policy.dead_letter);
        let latency = self.draws.between(least, greatest);
        let row = site_row(key, site, RowKind::Redrive, RowAnswer::Out, id, to);
        let transfer = Outbound {
            at: key.at + latency,
            sender: site,
            number: self.sent,
            from: site,
            to: policy.dead_letter,
            load,
        };
        handling.effects.say_sent(row, transfer)?;
        self.sent += 1;
        Ok(())
    }

    /// A message came back, or left with a load.
    pub fn came_back(
        &mut self,
        handling: &mut Handling<'_>,
        number: u64,
        left: Option<Load>,
    ) -> Result<(), Refusal>
        ensures { Handles result handling.old handling.new self.new
            (λ k. the_came_back k self.old number left) }
    {
        match left {
            None => {
                let site = self.queue.site();
                let id = MessageId { site, number };
                let (kind, answer) = (RowKind::Release, RowAnswer::Visible);
                let row = site_row(handling.key, site, kind, answer, id, Detail::Absent);
                handling.effects.say(row)?;
                Ok(())
            }
            Some(load) => match self.queue.settings().policy {
                None => Ok(()),
                Some(policy) => self.redrive(handling, number, load, policy),
            },
        }
    }

    /// A message reaches the end of its delay or visibility timeout.
    pub fn handle_release(&mut self, handling: &mut Handling<'_>) -> Result<(), Refusal>
        ensures { Handles result handling.old handling.new self.new
            (λ k. handle_release k self.old) }
    {
        let number = handling.key.number;
        let left = self.queue.release(number);
        self.came_back(handling, number, left)
    }

    /// A message reaches the end of its retention period. The only error is `Memory`.
    pub fn handle_expiry(&mut self, handling: &mut Handling<'_>) -> Result<(), Refusal>
        ensures { Handles result handling.old handling.new self.new
            (λ k. handle_expiry k self.old) }
    {
        let key = handling.key;
        let age = self.queue.expire(key.at, key.number);
        let site = self.queue.site();
        let id = MessageId {
            site,
            number: key.number,
        };
        let (kind, answer) = (RowKind::Expire, RowAnswer::Expired);
        let row = site_row(key, site, kind, answer, id, Detail::Age(age));
        handling.effects.say(row)?;
        Ok(())
    }
}
