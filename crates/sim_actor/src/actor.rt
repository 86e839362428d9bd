//! Actors.
ghost use Rattle.std.specs.Prelude.{◌≡◌, ◌↔◌, ◌+◌, OnOk, OnErr, IsOkUnless};
ghost use Rattle.sqs_model.specs.Answers.{most_count};
ghost use Rattle.sim_actor.specs.Lives.{IsFramed, IsRole};
ghost use Rattle.sqs_model.specs.Scenario.{first_wake as the_first_wake};

mod counts;
mod decision;

use crate::holding::Holding;
use crate::life::{LastAct, Life, copies_by};
use sim_clock::Refusal;
use sim_draw::Draws;
use sqs_message::Ahead;
use sqs_model::{ActorSettings, MOST_COUNT, Role, Standing};
use sqs_redrive::Outbound;
use std::alloc::Global;
use std::marker::Model;

/// A script, a producer, a consumer or a scaler: what it holds and counts, when it wakes, and its draws.
/// Contracts see it as the definitions' record of these.
#[derive(Drop)]
pub struct Actor {
    settings: ActorSettings,
    life: Life,
}

impl Model for Actor {
    ghost use Rattle.sqs_model.specs.Actor.{Actor};
    ghost use Rattle.sim_actor.specs.Lives.{IsRole, lived};

    ghost Value = { Actor };

    ghost view = { λ a. lived a.settings a.life };

    ghost invariant = { λ a. IsRole a.settings.role };
}

// When an actor with a role first wakes, in milliseconds.
fn first_wake(role: &Role) -> Option<u64>
    ensures { result ≡ the_first_wake role.now }
{
    match role {
        Role::Script(script) => script.as_slice().first().map(|call| call.at),
        Role::Producer(producer) => Some(producer.start),
        Role::Consumer(consumer) => Some(consumer.start),
        Role::Scaler(scaler) => Some(scaler.start),
    }
}

impl Actor {
    ghost use Rattle.sqs_model.specs.Scenario.{opening_actor};
    ghost use Rattle.sqs_model.specs.Step.{standing_as};

    /// An actor that has done nothing.
    pub fn new(alloc: Global, number: u32, settings: ActorSettings, seed: u64) -> Actor
        requires { IsRole settings.role }
        ensures { result ≡ opening_actor seed (number, settings) }
    {
        let wake = first_wake(&settings.role);
        Actor {
            settings,
            life: Life {
                alloc,
                number,
                holding: Holding::new(alloc),
                ends: 0,
                will_fail: false,
                last_act: LastAct::Asked,
                wake,
                wakes: 0,
                polls: 0,
                sent: 0,
                draws: Draws::new(seed, number),
                ahead: Ahead::new(alloc),
                transfer_room: Vec::new(alloc),
            },
        }
    }

    /// When it next wakes, in milliseconds.
    pub fn wake(&self) -> Option<u64>
        ensures { result ≡ self.now.wake }
    {
        self.life.wake
    }

    /// Its number among the agents.
    pub fn number(&self) -> u32
        ensures { result ≡ self.now.number }
    {
        self.life.number
    }

    /// Its settings.
    pub fn settings(&self) -> &ActorSettings
        ensures { result.now ≡ self.now.settings }
    {
        &self.settings
    }

    /// What the copies go by whose scaler it is: how many are to ask, and when it wakes next, in
    /// milliseconds. Nothing if it is no scaler.
    pub fn standing(&self) -> Standing
        ensures { result ≡ standing_as self.now.settings.role self.now }
    {
        match &self.settings.role {
            Role::Scaler(scaler) => Standing {
                number: copies_by(scaler, self.life.last_act) as u64,
                next: self.life.wake,
            },
            Role::Script(_) | Role::Producer(_) | Role::Consumer(_) => Standing::none(),
        }
    }

    /// Takes memory for the transfers that it sends next: a list that is not used any more.
    pub fn keep_room(&mut self, room: Vec<Outbound>)
        ensures { self.new ≡ self.old }
    {
        self.life.transfer_room = room;
    }

    /// Counts a waiting poll. At the limit of counts the actor stays as it was.
    pub fn polled(&mut self) -> Result<(), Refusal>
        ensures counted { OnOk result (self.new ≡ record self.old { polls = self.old.polls + 1 }) }
        ensures limit { (result ≡ Err Refusal.CountLimit) ↔ (self.old.polls ≡ most_count) }
        ensures limit_only { IsOkUnless result Refusal.CountLimit }
        ensures unchanged { OnErr result (self.new ≡ self.old) }
        ensures framed { IsFramed self.old self.new }
    {
        if self.life.polls == MOST_COUNT {
            return Err(Refusal::CountLimit);
        }
        self.life.polls += 1;
        Ok(())
    }
}
