//! The decisions of an actor.
ghost use Rattle.std.specs.Prelude.{◌≤◌};
ghost use Rattle.sqs_model.specs.Actor.{next as the_next, next_as};
ghost use Rattle.sqs_model.specs.Answers.{most_count};
ghost use Rattle.sim_actor.specs.Lives.{Decides, DoesNothing, FollowsUp, IsFramed, answer_of, greatest_count};

use super::Actor;
use crate::life::act_scaling;
use crate::replies::{FollowUp, Reply};
use sim_clock::Refusal;
use sqs_model::{Act, Answer, Role, Standing};
use sqs_redrive::Batch;

impl Actor {
    // Decides when its wake has come.
    fn next_woken(&mut self, now: u64, standing: Standing) -> Result<Act, Refusal>
        requires { now ≤ most_count }
        ensures decision { Decides result self.new
            (next_as self.old.settings.role self.old now (Answer.Wake standing)) }
        ensures framed { IsFramed self.old self.new }
    {
        match &self.settings.role {
            Role::Script(script) => self.life.script_wake(script.as_slice()),
            Role::Producer(producer) => self.life.producer_wake(producer, now),
            Role::Consumer(consumer) => {
                let home = self.settings.home;
                self.life.copy_wake(consumer, home, now, standing)
            }
            Role::Scaler(scaler) => {
                let change = self.life.scaler_wake(scaler, now, standing.number)?;
                Ok(act_scaling(change))
            }
        }
    }

    // Decides on the messages that it got.
    fn next_got(&mut self, now: u64, batch: Batch) -> Result<(), Refusal>
        requires { now ≤ most_count }
        ensures decision { DoesNothing result self.new
            (next_as self.old.settings.role self.old now (Answer.Got batch)) }
        ensures framed { IsFramed self.old self.new }
    {
        match &self.settings.role {
            Role::Script(_) | Role::Producer(_) | Role::Scaler(_) => Ok(()),
            Role::Consumer(consumer) => self.life.consumer_got(consumer, now, batch),
        }
    }

    // Decides on any other answer.
    fn next_told(&mut self, now: u64) -> Result<FollowUp, Refusal>
        requires { now ≤ most_count }
        ensures decision { FollowsUp result self.new
            (next_as self.old.settings.role self.old now Answer.Other) }
        ensures framed { IsFramed self.old self.new }
    {
        match &self.settings.role {
            Role::Script(_) | Role::Scaler(_) => {}
            Role::Producer(producer) => self.life.producer_sent(producer, now)?,
            Role::Consumer(consumer) => return self.life.consumer_told(consumer, now),
        }
        Ok(FollowUp::Nothing)
    }

    // Decides on a reply of any kind.
    #[tactic(auto, unfolding(sqs_model::specs::Actor::next))]
    fn follow_up(&mut self, now: u64, reply: Reply) -> Result<FollowUp, Refusal>
        requires { now ≤ most_count }
        ensures decision { FollowsUp result self.new (the_next self.old now (answer_of reply)) }
        ensures framed { IsFramed self.old self.new }
    {
        match reply {
            Reply::Got(batch) => self.next_got(now, batch)?,
            Reply::Waiting => {}
            Reply::Other => return self.next_told(now),
        }
        Ok(FollowUp::Nothing)
    }

    /// Decides what to do when its wake has come, at a moment in milliseconds, by what a scaler or a
    /// copy goes by then.
    ///
    /// # Errors
    ///
    /// `CountLimit` exactly if the decision would count past the limit, and `Memory`, which a
    /// consumer that forwards may report. After either nothing is promised of the actor.
    #[tactic(auto, unfolding(sqs_model::specs::Actor::next))]
    pub fn woken(&mut self, now: u64, standing: Standing) -> Result<Act, Refusal>
        requires { now ≤ most_count }
        ensures decision { Decides result self.new
            (the_next self.old now (Answer.Wake standing)) }
        ensures counted { greatest_count self.new ≤ most_count }
        ensures framed { IsFramed self.old self.new }
    {
        let act = self.next_woken(now, standing);
        // The type's invariant says that its counts are within the limit.
        let _ = &self.life.wakes;
        act
    }

    /// Decides what to do on a reply, at a moment in milliseconds.
    ///
    /// # Errors
    ///
    /// `CountLimit` exactly if the decision would count past the limit, and `Memory`, which a
    /// consumer that gathers messages may report. After either nothing is promised of the actor.
    pub fn answered(&mut self, now: u64, reply: Reply) -> Result<FollowUp, Refusal>
        requires { now ≤ most_count }
        ensures decision { FollowsUp result self.new (the_next self.old now (answer_of reply)) }
        ensures counted { greatest_count self.new ≤ most_count }
        ensures framed { IsFramed self.old self.new }
    {
        let follow_up = self.follow_up(now, reply);
        // The type's invariant says that its counts are within the limit.
        let _ = &self.life.wakes;
        follow_up
    }
}
