//! The handling of an entry due, by its class, and after it the answers to waiting polls.
ghost use Rattle.std.specs.Prelude.{IfSome};
ghost use Rattle.sqs_model.specs.Progress.{IsRecent, WasEnqueuedBy};
ghost use Rattle.sqs_model.specs.Step.{handle_arrival, handle_class};
ghost use Rattle.sim_site.specs.Effects.{Handles, HandlesAndAnswers};
ghost use Rattle.sim_site.specs.Turns.{IsDueNow};

use super::Core;
use crate::handling::Handling;
use sim_clock::{Class, Refusal};
use sqs_redrive::Outbound;

impl Core {
    // Handles an entry due that is no arrival. If a task's step is due, the task runs.
    #[tactic(auto, unfolding(sqs_model::specs::Step::handle_class))]
    fn handle_class(&mut self, handling: &mut Handling<'_>) -> Result<(), Refusal>
        requires { IsDueNow handling.old self.old }
        ensures { Handles result handling.old handling.new self.new
            (λ k. handle_class k.class k self.old) }
    {
        match handling.key.class {
            Class::Expiry => self.handle_expiry(handling),
            Class::Release => self.handle_release(handling),
            Class::Arrival => Ok(()),
            Class::PollEnd => self.handle_poll_end(handling),
            Class::Wake => self.handle_wake(handling),
            Class::Sample => self.handle_sample(handling),
            Class::Step => self.handle_step(handling),
        }
    }

    /// Handles an entry due that is no arrival, and answers waiting polls.
    ///
    /// # Errors
    ///
    /// `Memory`. `CountLimit` if a count would pass its limit.
    pub fn handle(&mut self, handling: &mut Handling<'_>) -> Result<(), Refusal>
        requires { IsDueNow handling.old self.old }
        ensures { HandlesAndAnswers result handling.old handling.new self.new
            (λ k. handle_class k.class k self.old) }
    {
        self.handle_class(handling)?;
        self.answer_polls(handling)
    }

    // A transfer arrives, if there is one.
    fn handle_transfer(
        &mut self,
        handling: &mut Handling<'_>,
        transfer: Option<Outbound>,
    ) -> Result<(), Refusal>
        requires recent { IsRecent handling.old.key.at self.old.queue }
        requires enqueued { IfSome transfer (λ t. WasEnqueuedBy handling.old.key.at t.load) }
        ensures { Handles result handling.old handling.new self.new
            (λ k. handle_arrival k transfer self.old) }
    {
        match transfer {
            None => Ok(()),
            Some(transfer) => self.arrive(handling, transfer.load),
        }
    }

    /// A transfer arrives, if there is one, and waiting polls are answered.
    ///
    /// # Errors
    ///
    /// `Memory`. `CountLimit` if a count would pass its limit.
    pub fn handle_arrival(
        &mut self,
        handling: &mut Handling<'_>,
        transfer: Option<Outbound>,
    ) -> Result<(), Refusal>
        requires recent { IsRecent handling.old.key.at self.old.queue }
        requires enqueued { IfSome transfer (λ t. WasEnqueuedBy handling.old.key.at t.load) }
        ensures { HandlesAndAnswers result handling.old handling.new self.new
            (λ k. handle_arrival k transfer self.old) }
    {
        self.handle_transfer(handling, transfer)?;
        self.answer_polls(handling)
    }
}
