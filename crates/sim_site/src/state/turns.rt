//! What an actor does at its site, act after act.
ghost use Rattle.std.specs.Prelude.{Some, option_map, ◌≡◌};
ghost use Rattle.std.specs.Result.{result_map_both};
ghost use Rattle.sim_actor.specs.Lives.{act_following, answer_of};
ghost use Rattle.sqs_model.specs.Acts.{act_made};
ghost use Rattle.sqs_model.specs.Progress.{IsRecent};
ghost use Rattle.sqs_model.specs.Site.{actor_numbered};
ghost use Rattle.sqs_model.specs.Step.{handle_wake, woken_by};
ghost use Rattle.sim_site.specs.Effects.{Handles};
ghost use Rattle.sim_site.specs.Kept.{WaitsShortly};
ghost use Rattle.sim_site.specs.Turns.{TakesTurn, answer_if, TakesAct, ActsMost};

use super::Core;
use crate::handling::Handling;
use sim_actor::{FollowUp, Reply};
use sim_clock::Refusal;
use sqs_message::ReceiptHandle;
use sqs_model::{Act, Answer};

// The reply to an act that is no receive.
fn reply_to(done: Result<(), Refusal>) -> Result<Option<Reply>, Refusal>
    ensures { result ≡ result_map_both (λ _. Some Reply.Other) (λ refusal. refusal) done }
{
    done?;
    Ok(Some(Reply::Other))
}

impl Core {
    // An actor acts. Returns the reply that it gets, if it did anything.
    #[tactic(auto, unfolding(sqs_model::specs::Acts::act_made))]
    fn act(&mut self, handling: &mut Handling<'_>, act: Act) -> Result<Option<Reply>, Refusal>
        requires recent { IsRecent handling.old.key.at self.old.queue }
        requires wait { WaitsShortly act }
        ensures { TakesAct (option_map answer_of) result handling.old handling.new self.old self.new
            act }
    {
        let done = match act {
            Act::Send {
                body,
                delay,
                group,
                id,
            } => self.send(handling, body, delay, group, id),
            Act::Receive { max, wait, timeout } => {
                return Ok(Some(self.receive(handling, max, wait, timeout)?));
            }
            Act::Delete { receipt } => self.delete(handling, receipt),
            Act::Change { receipt, timeout } => self.change(handling, receipt, timeout),
            Act::Prolong { receipt, timeout } => self.prolong(handling, receipt, timeout),
            Act::Start { task } => self.start(handling, task),
            Act::Cancel { task } => self.cancel(handling, task),
            Act::Serve {
                id,
                receipt,
                failed,
                forwards,
            } => self.serve(handling, id, receipt, failed, forwards),
            Act::Scale { from, to } => self.scale(handling, from, to),
            Act::Nothing => return Ok(None),
        };
        reply_to(done)
    }

    // An actor does what follows a reply. Returns whether it did anything.
    #[tactic(auto, unfolding(sqs_model::specs::Acts::act_made))]
    fn follow_up(
        &mut self,
        handling: &mut Handling<'_>,
        follow_up: FollowUp,
    ) -> Result<bool, Refusal>
        requires { IsRecent handling.old.key.at self.old.queue }
        ensures { TakesAct answer_if result handling.old handling.new self.old self.new
            (act_following follow_up) }
    {
        match follow_up {
            FollowUp::Nothing => return Ok(false),
            FollowUp::Delete(receipt) => self.delete(handling, ReceiptHandle::from(receipt))?,
            FollowUp::Change { receipt, timeout } => {
                self.change(handling, ReceiptHandle::from(receipt), timeout)?;
            }
        }
        Ok(true)
    }

    // An actor's wake has come: it decides and acts. Returns the reply to what it did, if it did
    // anything. It is apart from `handle`, so that other entries are handled without what it keeps.
    #[inline(never)]
    fn first_turn(&mut self, handling: &mut Handling<'_>) -> Result<Option<Reply>, Refusal>
        requires { IsRecent handling.old.key.at self.old.queue }
        ensures { TakesTurn (option_map answer_of) result handling.old handling.new self.old
            self.new (Answer.Wake
            (woken_by self.old (actor_numbered handling.old.agent self.old))) }
    {
        let (now, agent) = (handling.key.at, handling.agent);
        let Some(place) = self.actors.place_of(agent) else {
            return Ok(None);
        };
        let standing = self.standing_at(place, agent);
        let act = self.actors.woken_at(place, agent, now, standing)?;
        self.act(handling, act)
    }

    // An actor gets a reply, decides and acts. Returns whether it did anything.
    fn next_turn(&mut self, handling: &mut Handling<'_>, reply: Reply) -> Result<bool, Refusal>
        requires { IsRecent handling.old.key.at self.old.queue }
        ensures { TakesTurn answer_if result handling.old handling.new self.old self.new
            (answer_of reply) }
    {
        let (now, agent) = (handling.key.at, handling.agent);
        let Some(place) = self.actors.place_of(agent) else {
            return Ok(false);
        };
        let follow_up = self.actors.answered_at(place, agent, now, reply)?;
        self.follow_up(handling, follow_up)
    }

    // An actor gets a reply and acts, and then the reply to that.
    fn last_turns(&mut self, handling: &mut Handling<'_>, reply: Reply) -> Result<(), Refusal>
        requires { IsRecent handling.old.key.at self.old.queue }
        ensures { ActsMost 2 result handling.old handling.new self.old self.new reply }
    {
        let acted = self.next_turn(handling, reply)?;
        if !acted {
            return Ok(());
        }
        self.next_turn(handling, Reply::Other)?;
        Ok(())
    }

    /// An actor gets a reply and acts. It then gets the reply to each act in turn, until it does
    /// nothing.
    pub fn told(&mut self, handling: &mut Handling<'_>, reply: Reply) -> Result<(), Refusal>
        requires { IsRecent handling.old.key.at self.old.queue }
        ensures { ActsMost 3 result handling.old handling.new self.old self.new reply }
    {
        let acted = self.next_turn(handling, reply)?;
        if !acted {
            return Ok(());
        }
        self.last_turns(handling, Reply::Other)
    }

    /// An actor wakes. It acts, and gets the reply to each act in turn, until it does nothing.
    pub fn handle_wake(&mut self, handling: &mut Handling<'_>) -> Result<(), Refusal>
        requires recent { IsRecent handling.old.key.at self.old.queue }
        requires agent { handling.old.agent ≡ handling.old.key.agent }
        ensures { Handles result handling.old handling.new self.new (λ k. handle_wake k self.old) }
    {
        let Some(reply) = self.first_turn(handling)? else {
            return Ok(());
        };
        self.last_turns(handling, reply)
    }
}
