//! Polls that wait: their ends, and their answers.
ghost use Rattle.std.specs.Prelude.{false, ◌-◌, ◌≡◌};
ghost use Rattle.sqs_model.specs.Polls.{answer_polls};
ghost use Rattle.sqs_model.specs.Site.{no_effect};
ghost use Rattle.sim_clock.specs.declared.key.Key.{Key};
ghost use Rattle.sqs_model.specs.Valid.{IsQueueSettings, MayBeTimeout};
ghost use Rattle.sqs_model.specs.Progress.{IsRecent};
ghost use Rattle.sqs_model.specs.Step.{handle_poll_end};
ghost use Rattle.sim_site.specs.Effects.{Handles};
ghost use Rattle.sim_site.specs.Kept.{IsHostCount};
ghost use Rattle.sim_site.specs.Reading.{poll_served};

use super::Core;
use super::receives::{all_hosts_of, receive_row, received_by};
use crate::agents::Poll;
use crate::handling::Handling;
use sim_actor::Reply;
use sim_clock::Refusal;
use sqs_message::RowAnswer;
use sqs_queue::Queue;
use sqs_redrive::{Batch, Kind};

// The number of hosts on which the messages of a queue are; 1 for a FIFO queue.
fn host_count(queue: &Queue) -> u64
    requires { IsQueueSettings queue.now.settings }
    ensures { IsHostCount queue.now.settings.kind result }
{
    match queue.settings().kind {
        Kind::Standard { hosts, .. } => hosts,
        Kind::Fifo { .. } => 1,
    }
}

impl Core {
    // Answers the first poll, which leaves the list; its actor acts on the answer. Afterwards the
    // handling's agent is who it was.
    fn answer_poll(&mut self, handling: &mut Handling<'_>, poll: Poll) -> Result<(), Refusal>
        requires allowed { MayBeTimeout poll.timeout }
        requires recent { IsRecent handling.old.key.at self.old.queue }
        ensures { Handles result handling.old handling.new self.new
            (λ k. poll_served k poll self.old) }
    {
        let agent = handling.agent;
        handling.agent = poll.actor;
        let set = all_hosts_of(host_count(&self.queue));
        let (now, max, timeout) = (handling.key.at, poll.max, poll.timeout);
        let gots = match received_by(&mut self.queue, now, max, timeout, set, false)? {
            Ok(gots) => gots,
            // The timeout was allowed when the poll began to wait.
            Err(_) => unreachable!(),
        };
        self.polls.drop_first();
        self.give(handling, timeout, gots.as_slice())?;
        self.told(handling, Reply::Got(Batch::new(gots)))?;
        handling.agent = agent;
        Ok(())
    }

    // Answers waiting polls, oldest first, while there is something to give. It is apart from
    // `answer_polls`, which follows each handling.
    #[inline(never)]
    fn answer_each(&mut self, handling: &mut Handling<'_>) -> Result<(), Refusal>
        requires { IsRecent handling.old.key.at self.old.queue }
        ensures { Handles result handling.old handling.new self.new
            (λ k. answer_polls k self.old.polls self.old) }
    {
        for _ in 0..self.polls.len() {
            let gives = self.queue.can_give();
            if !gives {
                return Ok(());
            }
            let Some(poll) = self.polls.first() else {
                // Polls that were there and have no answer yet still wait.
                unreachable!();
            };
            self.answer_poll(handling, poll)?;
        }
        Ok(())
    }

    // Whether a poll waits and there is something to give.
    fn may_answer(&self) -> bool
        ensures { result ≡ false → (key : Key)
            → answer_polls key self.now.polls self.now ≡ no_effect self.now }
    {
        !self.polls.is_empty() && self.queue.can_give()
    }

    /// Answers waiting polls, oldest first, while there is something to give.
    pub fn answer_polls(&mut self, handling: &mut Handling<'_>) -> Result<(), Refusal>
        requires { IsRecent handling.old.key.at self.old.queue }
        ensures { Handles result handling.old handling.new self.new
            (λ k. answer_polls k self.old.polls self.old) }
    {
        if self.may_answer() {
            self.answer_each(handling)
        } else {
            Ok(())
        }
    }

    /// A long poll ends with nothing, and its actor acts on that.
    pub fn handle_poll_end(&mut self, handling: &mut Handling<'_>) -> Result<(), Refusal>
        requires recent { IsRecent handling.old.key.at self.old.queue }
        requires agent { handling.old.agent ≡ handling.old.key.agent }
        ensures { Handles result handling.old handling.new self.new
            (λ k. handle_poll_end k self.old) }
    {
        let site = self.queue.site();
        let row = receive_row(handling, site, RowAnswer::Empty);
        handling.effects.say(row)?;
        self.polls.end(handling.key);
        let nothing = Reply::Got(Batch::new(Vec::new(self.alloc)));
        self.told(handling, nothing)
    }
}
