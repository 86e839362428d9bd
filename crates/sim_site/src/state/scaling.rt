//! How many copies of a consumer ask for messages, as its scaler says.
ghost use Rattle.std.specs.Prelude.{◌≡◌};
ghost use Rattle.sim_clock.specs.Places.{Stands};
ghost use Rattle.sqs_model.specs.declared.acts.Act.TheVariants as acts;
ghost use Rattle.sqs_model.specs.Site.{actor_numbered, is_actor};
ghost use Rattle.sqs_model.specs.Step.{woken_by};
ghost use Rattle.sim_site.specs.Effects.{DoesAct};

use super::Core;
use crate::handling::Handling;
use sim_clock::Refusal;
use sqs_message::{Detail, RowAnswer, RowKind};
use sqs_model::{Role, Standing};

impl Core {
    /// What the actor at `place` goes by when it wakes: a scaler by how many messages are visible, a
    /// copy by its scaler, and any other by nothing.
    pub fn standing_at(&self, place: usize, number: u32) -> Standing
        requires { Stands (is_actor number) self.now.actors place }
        ensures { result ≡ woken_by self.now (actor_numbered number self.now) }
    {
        match self.actors.role_at(place, number) {
            Role::Consumer(consumer) => match consumer.scaling {
                None => Standing::none(),
                Some(scaling) => self.actors.standing_of(scaling.scaler),
            },
            Role::Scaler(_) => Standing {
                number: self.queue.counts().visible,
                next: None,
            },
            Role::Script(_) | Role::Producer(_) => Standing::none(),
        }
    }

    /// A scaler changes how many copies ask. This makes a row. The only error is `Memory`.
    #[inline(never)]
    #[tactic(auto, unfolding(sqs_model::specs::Acts::act_made))]
    pub fn scale(&mut self, handling: &mut Handling<'_>, from: u32, to: u32) -> Result<(), Refusal>
        ensures { DoesAct result handling.old handling.new self.old self.new
            (acts.Scale from to) }
    {
        let copies = Detail::Copies { from, to };
        let site = self.queue.site();
        let row = handling.row(site, RowKind::Scale, RowAnswer::Ok, None, copies);
        handling.effects.say(row)?;
        Ok(())
    }
}
