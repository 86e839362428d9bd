//! The fate of a message that comes back, and move tasks.
ghost use Rattle.std.specs.Prelude.{◌≡◌, ◌<◌, ◌^◌, ℕ, Option, Some, None, if◌then◌else◌};
ghost use Rattle.sqs_redrive.specs.MoveTasks.{is_running, opening_move, returned_by, started, task_cancelled, task_stepped};
ghost use Rattle.sqs_redrive.specs.declared.settings.TaskStatus.TheVariants.{Running};

use crate::answers::{Rest, Returned};
use crate::settings::{Policy, TaskSettings, TaskStatus};
use sim_clock::Refusal;
use sqs_message::Message;
use std::marker::Model;

/// What happens to a message that would be visible again: it leaves for the dead-letter queue if it
/// was received at least `max_receives` times (`RedrivePolicy`). It allocates nothing.
pub fn on_return(policy: &Policy, message: &Message) -> Returned
    ensures { result ≡ returned_by policy.now message.now }
{
    if policy.max_receives <= message.receives {
        Returned::Leaves
    } else {
        Returned::Stays
    }
}

/// The state of a move task (`StartMessageMoveTask`). Its calls allocate nothing, and a call that
/// returns an error leaves the task as it was.
#[derive(Drop)]
pub struct MoveTask {
    settings: TaskSettings,
    status: TaskStatus,
    moved: u64,
    step_at: u64,
    steps: u64,
}

impl Model for MoveTask {
    ghost use Rattle.sqs_redrive.specs.MoveTasks.{MoveTask};

    ghost Value = { MoveTask };

    ghost view = { λ t. record { settings = t.settings; status = t.status; moved = t.moved; step_at = t.step_at; steps = t.steps } };
}

impl MoveTask {
    /// A task that was never started.
    pub fn new(settings: TaskSettings) -> MoveTask
        ensures { result ≡ opening_move settings }
    {
        MoveTask {
            settings,
            status: TaskStatus::Idle,
            moved: 0,
            step_at: 0,
            steps: 0,
        }
    }

    /// Starts it, also if it ran before; its first step is 1,000 ms later. `TaskRunning` if it is
    /// running.
    pub fn start(&mut self, now: u64) -> Result<(), Refusal>
        requires { now < 2 ^ 63 }
        ensures { started self.old now ≡ (result, self.new) }
    {
        if self.is_running() {
            return Err(Refusal::TaskRunning);
        }
        self.status = TaskStatus::Running;
        self.moved = 0;
        self.step_at = now + 1000;
        Ok(())
    }

    /// Stops it; what it moved stays moved (`CancelMessageMoveTask`). `NoTask` if it is not
    /// running.
    pub fn cancel(&mut self) -> Result<(), Refusal>
        ensures { task_cancelled self.old ≡ (result, self.new) }
    {
        if !self.is_running() {
            return Err(Refusal::NoTask);
        }
        self.status = TaskStatus::Cancelled;
        Ok(())
    }

    /// The greatest number of messages that a step takes.
    pub fn quota(&self) -> u64
        ensures { result ≡ self.now.settings.per_second }
    {
        self.settings.per_second
    }

    /// Counts a step at its moment, in milliseconds, that took `taken` messages and left `rest`.
    /// The next step is 1,000 ms later.
    pub fn step(&mut self, now: u64, taken: u64, rest: Rest)
        requires running { self.old.status ≡ Running }
        requires moment { now < 2 ^ 63 }
        requires moved { (self.old.moved < 2 ^ 62) × (taken < 2 ^ 62) }
        requires steps { self.old.steps < 2 ^ 62 }
        ensures { self.new ≡ task_stepped self.old now taken rest }
    {
        self.status = match rest {
            Rest::Empty => TaskStatus::Completed,
            Rest::More => TaskStatus::Running,
            Rest::NoSource => TaskStatus::Failed,
        };
        self.moved += taken;
        self.step_at = now + 1000;
        self.steps += 1;
    }

    /// Whether it is idle, runs, or how it ended.
    pub fn status(&self) -> TaskStatus
        ensures { result ≡ self.now.status }
    {
        self.status
    }

    /// The number of messages that it moved since its last start.
    pub fn moved(&self) -> u64
        ensures { result ≡ self.now.moved }
    {
        self.moved
    }

    /// The number of steps that it took.
    pub fn steps(&self) -> u64
        ensures { result ≡ self.now.steps }
    {
        self.steps
    }

    /// When its next step is due, in milliseconds, while it is running.
    pub fn next_step(&self) -> Option<u64>
        ensures { result ≡ (if is_running self.now.status then Some self.now.step_at else None) }
    {
        if self.is_running() {
            Some(self.step_at)
        } else {
            None
        }
    }

    /// Its settings.
    pub fn settings(&self) -> TaskSettings
        ensures { result ≡ self.now.settings }
    {
        self.settings
    }

    /// Whether it has steps to come.
    pub fn is_running(&self) -> bool
        ensures { result ≡ is_running self.now.status }
    {
        self.status == TaskStatus::Running
    }
}
