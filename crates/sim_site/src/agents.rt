//! Move tasks as agents, and polls that wait.
ghost use Rattle.std.specs.Prelude.{◌≡◌, ◌≤◌, false, true};
ghost use Rattle.sim_clock.specs.Order.{least};
ghost use Rattle.sqs_model.specs.Dues.{poll_key, task_dues, actor_dues};
ghost use Rattle.sqs_model.specs.Acts.{runs};
ghost use Rattle.sqs_model.specs.Answers.{most_count};
ghost use Rattle.sqs_model.specs.Counts.{task_count};
ghost use Rattle.sim_site.specs.Reading.{settings_of, status_of, moved_of, cancelled_task, started_task};
ghost use Rattle.sim_site.specs.Kept.{IsCount};

use sim_actor::Actor;
use sim_clock::{Class, Key};
use sim_draw::Draws;
use sqs_redrive::{MoveTask, TaskSettings, TaskStatus};
use std::marker::Model;

/// A receive that waits. Times are milliseconds, but the timeout is in seconds.
#[derive(Clone, Copy)]
pub struct Poll {
    pub actor: u32,
    pub number: u64,
    pub max: u64,
    pub timeout: Option<u64>,
    pub end: u64,
}

impl Model for Poll {
    ghost use Rattle.sqs_model.specs.Site.{Poll};

    ghost Value = { Poll };

    ghost view = { λ p. record { actor = p.actor; number = p.number; max = p.max; timeout = p.timeout; end = p.end } };

    ghost inverse = { λ p. record { actor = p.actor; number = p.number; max = p.max; timeout = p.timeout; end = p.end } };
}

impl Poll {
    /// The key of its end.
    pub fn key(&self) -> Key
        ensures { result ≡ poll_key self.now }
    {
        Key {
            at: self.end,
            agent: self.actor,
            class: Class::PollEnd,
            number: self.number,
        }
    }
}

/// A move task as an agent: its number, its state, its draws, and how many transfers it ever sent,
/// which are no fewer than those since its last start. Contracts see it as the definitions' record
/// of these.
#[derive(Drop)]
pub struct Task {
    pub(crate) number: u32,
    pub(crate) movement: MoveTask,
    pub(crate) sent: u64,
    pub(crate) draws: Draws,
}

impl Model for Task {
    ghost use Rattle.std.specs.Prelude.{◌≤◌};
    ghost use Rattle.sqs_model.specs.Answers.{most_count};
    ghost use Rattle.sqs_model.specs.Task.{Task};

    ghost Value = { Task };

    ghost view = { λ t. record { number = t.number; move = t.movement; sent = t.sent; draws = t.draws } };

    ghost invariant = { λ t. (t.movement.moved ≤ t.sent) × (t.sent ≤ most_count) × (t.movement.steps ≤ most_count) × (t.draws.taken ≤ most_count) };
}

impl Task {
    ghost use Rattle.sqs_model.specs.Scenario.{opening_task};

    /// A task that was never started.
    pub fn new(number: u32, settings: TaskSettings, seed: u64) -> Task
        ensures { result ≡ opening_task seed (number, settings) }
    {
        Task {
            number,
            movement: MoveTask::new(settings),
            sent: 0,
            draws: Draws::new(seed, number),
        }
    }

    /// Its number among the agents.
    pub fn number(&self) -> u32
        ensures { result ≡ self.now.number }
    {
        self.number
    }

    /// Its settings.
    pub(crate) fn settings(&self) -> TaskSettings
        ensures { result ≡ settings_of self.now }
    {
        self.movement.settings()
    }

    /// Whether it is idle, runs, or how it ended.
    pub fn status(&self) -> TaskStatus
        ensures { result ≡ status_of self.now }
    {
        self.movement.status()
    }

    /// The number of messages that it moved since its last start.
    pub fn moved(&self) -> u64
        ensures { result ≡ moved_of self.now }
    {
        self.movement.moved()
    }

    /// Whether it has steps to come.
    pub fn is_running(&self) -> bool
        ensures { result ≡ runs self.now }
    {
        self.movement.is_running()
    }

    /// The greatest of its counts: of its steps, transfers and words.
    pub(crate) fn greatest_count(&self) -> u64
        ensures { IsCount result (task_count self.now) }
    {
        let words = self.draws.taken();
        self.movement.steps().max(self.sent.max(words))
    }

    /// Starts it, also if it ran before; it must not be running.
    pub(crate) fn start(&mut self, now: u64)
        requires idle { runs self.old ≡ false }
        requires moment { now ≤ most_count }
        ensures { self.new ≡ started_task now self.old }
    {
        let _ = self.movement.start(now);
    }

    /// Stops it; it must be running.
    pub(crate) fn cancel(&mut self)
        requires { runs self.old ≡ true }
        ensures { self.new ≡ cancelled_task self.old }
    {
        let _ = self.movement.cancel();
    }

    /// The key of its next step, while it runs.
    pub fn due(&self) -> Option<Key>
        ensures { result ≡ least (task_dues self.now) }
    {
        match self.movement.next_step() {
            None => None,
            Some(at) => Some(Key {
                at,
                agent: self.number,
                class: Class::Step,
                number: self.movement.steps(),
            }),
        }
    }
}

/// The key of an actor's wake, if it has one.
pub fn wake_of(actor: &Actor) -> Option<Key>
    ensures { result ≡ least (actor_dues actor.now) }
{
    match actor.wake() {
        None => None,
        Some(at) => Some(Key {
            at,
            agent: actor.number(),
            class: Class::Wake,
            number: actor.wakes(),
        }),
    }
}
