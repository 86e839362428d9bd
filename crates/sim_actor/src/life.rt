//! What an actor holds and counts, besides its settings.
ghost use Rattle.std.specs.Prelude.{◌≡◌, ◌≤◌, ◌<◌, ◌+◌, None};
ghost use Rattle.sqs_model.specs.Actor.{has_come};
ghost use Rattle.sqs_model.specs.Answers.{most_count};
ghost use Rattle.sqs_model.specs.Valid.{IsDistribution};
ghost use Rattle.sim_actor.specs.Lives.{Becomes, Lived, wakes_by};

mod consumer;
mod failing;
mod forwarding;
mod gathering;
mod producer;
mod scaling;
mod script;

use crate::holding::Holding;
pub(crate) use scaling::{act_scaling, copies_by};
use sim_clock::Refusal;
use sim_draw::Draws;
use sqs_message::{Ahead, Receipt};
use sqs_model::{Distribution, MOST_COUNT};
use sqs_redrive::Outbound;
use std::alloc::Global;
use std::marker::Model;

/// The last act of a consumer or scaler.
#[derive(Clone, Copy)]
pub enum LastAct {
    /// It asked for messages.
    Asked,
    /// It asked for more messages while it holds some.
    Gathered,
    /// It served the message with this receipt, and the service ended well.
    Served(Receipt),
    /// It ended a service and did what follows one.
    Ended,
    /// It ended a service that failed.
    Failed,
    /// It set the visibility timeout of the message in service anew.
    Beat,
    /// It asks no more, until its scaler says so.
    Parked,
    /// A scaler decided that so many copies ask, which last changed at a moment.
    Decided {
        copies: u32,
        changed: u64,
    },
    /// It also read how many messages are visible, and waits to decide by that.
    Read {
        copies: u32,
        changed: u64,
        visible: u64,
    },
}

/// What an actor holds and counts, when it wakes, and its draws. Contracts see it as the record of
/// these.
#[derive(Drop)]
pub struct Life {
    pub(crate) alloc: Global,
    pub(crate) number: u32,
    pub(crate) holding: Holding,
    // When the service ends, or before it the time to gather messages.
    pub(crate) ends: u64,
    // Whether that service will fail, if it was decided when the service began.
    pub(crate) will_fail: bool,
    pub(crate) last_act: LastAct,
    pub(crate) wake: Option<u64>,
    pub(crate) wakes: u64,
    pub(crate) polls: u64,
    pub(crate) sent: u64,
    pub(crate) draws: Draws,
    // The MD5s of the bodies that a producer sends next.
    pub(crate) ahead: Ahead,
    // Memory for the transfers of an act. What is in it does not count.
    pub(crate) transfer_room: Vec<Outbound>,
}

impl Model for Life {
    ghost use Rattle.std.specs.Prelude.{◌≤◌};
    ghost use Rattle.sqs_model.specs.Answers.{most_count};
    ghost use Rattle.sim_actor.specs.Lives.{Life, last_act_of};

    ghost Value = { Life };

    ghost view = { λ l. record { number = l.number; held = l.holding.held; done = l.holding.done; failed = l.holding.failed; ends = l.ends; will_fail = l.will_fail; last_act = last_act_of l.last_act; wake = l.wake; wakes = l.wakes; polls = l.polls; sent = l.sent; draws = l.draws } };

    ghost invariant = { λ l. (l.wakes ≤ most_count) × (l.polls ≤ most_count) × (l.sent ≤ most_count) × (l.draws.taken ≤ most_count) };
}

impl Life {
    // Wakes after a time drawn by a distribution.
    pub(crate) fn wake_after(
        &mut self,
        now: u64,
        distribution: &Distribution,
    ) -> Result<(), Refusal>
        requires moment { now ≤ most_count }
        requires distribution { IsDistribution distribution.now }
        ensures life { Lived self.old self.new (λ a b. Becomes result b
            (wakes_by distribution.now now a)) }
        ensures framed { self.new.number ≡ self.old.number }
    {
        if self.draws.taken() == MOST_COUNT {
            return Err(Refusal::CountLimit);
        }
        let time = self.draws.time(distribution);
        self.wake = Some(now + time);
        Ok(())
    }

    // Counts a wake that has come.
    pub(crate) fn count_wake(&mut self)
        requires { self.old.wakes < most_count }
        ensures { self.new ≡ record self.old { wake = None; wakes = self.old.wakes + 1 } }
    {
        self.wake = None;
        self.wakes += 1;
    }
}

// Whether a stop, if there is one, has come.
pub(crate) fn has_come(stop: Option<u64>, now: u64) -> bool
    ensures { result ≡ has_come stop now }
{
    match stop {
        None => false,
        Some(stop) => stop <= now,
    }
}
