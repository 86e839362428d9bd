//! The steps of move tasks.
ghost use Rattle.std.specs.Prelude.{All, IfErr, IfOk, IfSome, OnOk, [], find, length, map, true, ◌+◌, ◌<◌, ◌∷◌, ◌≡◌, ◌≤◌};
ghost use Rattle.sim_clock.specs.declared.key.Class.TheVariants.{Step as StepClass};
ghost use Rattle.sqs_model.specs.Acts.{runs};
ghost use Rattle.sqs_model.specs.Answers.{most_count};
ghost use Rattle.sqs_model.specs.Dues.{core_dues};
ghost use Rattle.sim_clock.specs.Places.{Stands};
ghost use Rattle.sqs_model.specs.Site.{Core as TheCore, is_task, number_of};
ghost use Rattle.sqs_model.specs.Step.{handle_step, load_id as the_load_id, move_row as the_move_row, moves};
ghost use Rattle.sqs_model.specs.Task.{Task as TheTask};
ghost use Rattle.sqs_model.specs.Valid.{IsLatency};
ghost use Rattle.sim_site.specs.Due.{IsAmong};
ghost use Rattle.sim_site.specs.Effects.{Handles};
ghost use Rattle.sim_engine.specs.Limits.{StopsWhere};
ghost use Rattle.sim_site.specs.Kept.{numbered_settings};
ghost use Rattle.sim_site.specs.Steps.{IsKept, Moves, PassesSending, SendsOn, StepsTask, ReportsEnd, stepped_moves};
ghost use Rattle.sim_site.specs.Reading.{step_due};

use super::Core;
use crate::agents::Task;
use crate::handling::Handling;
use crate::places::place_of_task;
use crate::rows::site_row;
use sim_clock::{Key, Refusal};
use sqs_message::{Detail, MessageId, Row, RowAnswer, RowKind, RowReceipt};
use sqs_model::MOST_COUNT;
use sqs_redrive::{Latency, Load, Outbound, Rest};
use std::alloc::AllocError;

// The id that the message of a load had.
fn load_id(load: &Load) -> MessageId
    ensures { result ≡ the_load_id load.now }
{
    match load {
        Load::Redrive { id, .. } => *id,
        Load::Move { id, .. } => *id,
        Load::Forward { id, .. } => *id,
    }
}

// The row of a message that is moved.
fn move_row(key: Key, site: u32, task: u32, to: u32, load: &Load) -> Row
    ensures { (c : TheCore) (t : TheTask) → number_of c ≡ site → t.number ≡ task
        → result ≡ the_move_row key c t to load.now }
{
    let id = load_id(load);
    let row = site_row(
        key,
        site,
        RowKind::Move,
        RowAnswer::Out,
        id,
        Detail::Queue(to),
    );
    Row { agent: task, ..row }
}

impl Task {
    // Sends a message on, with a latency that is drawn. `CountLimit` if the task's transfers or
    // words are used up.
    fn send_on(&mut self, key: Key, site: u32, to: u32, load: Load) -> Result<Outbound, Refusal>
        requires moment { key.at ≤ most_count }
        requires latency { IsLatency self.old.move.settings.latency }
        ensures sent { IfOk result (λ o. SendsOn key site self.old to load o self.new) }
        ensures counted { OnOk result (self.new.sent ≡ self.old.sent + 1) }
        ensures kept { IsKept self.old self.new }
        ensures stops { IfErr result (StopsWhere (PassesSending self.old)) }
    {
        let Latency { least, greatest } = self.movement.settings().latency;
        let draws_a_word = least < greatest;
        if self.sent >= MOST_COUNT || (draws_a_word && self.draws.taken() >= MOST_COUNT) {
            return Err(Refusal::CountLimit);
        }
        let latency = self.draws.between(least, greatest);
        let outbound = Outbound {
            at: key.at + latency,
            sender: self.number,
            number: self.sent,
            from: site,
            to,
            load,
        };
        self.sent += 1;
        Ok(outbound)
    }

    // Makes the row of one message and sends it on.
    fn move_one(
        &mut self,
        handling: &mut Handling<'_>,
        site: u32,
        to: u32,
        load: Load,
    ) -> Result<(), Refusal>
        requires { IsLatency self.old.move.settings.latency }
        ensures moved { Moves result handling.old handling.new site self.new
            (λ k c. moves k c self.old ((to, load) ∷ [])) }
        ensures counted { OnOk result (self.new.sent ≡ self.old.sent + 1) }
        ensures kept { IsKept self.old self.new }
    {
        let row = move_row(handling.key, site, self.number, to, &load);
        handling.effects.say(row)?;
        let outbound = self.send_on(handling.key, site, to, load)?;
        handling.effects.send(outbound)?;
        Ok(())
    }

    // Sends messages on, one after another, each after its row.
    fn move_all(
        &mut self,
        handling: &mut Handling<'_>,
        site: u32,
        loads: Vec<(u32, Load)>,
    ) -> Result<(), Refusal>
        requires { IsLatency self.old.move.settings.latency }
        ensures moved { Moves result handling.old handling.new site self.new
            (λ k c. moves k c self.old loads.items) }
        ensures counted { OnOk result (self.new.sent ≡ self.old.sent + length loads.items) }
        ensures kept { IsKept self.old self.new }
    {
        for (to, load) in loads {
            self.move_one(handling, site, to, load)?;
        }
        Ok(())
    }

    // Makes the row of the task's end, if this step was its last.
    fn tell_end(&self, handling: &mut Handling<'_>, site: u32, rest: Rest) -> Result<(), AllocError>
        ensures { ReportsEnd result handling.old handling.new site self.now rest }
    {
        let answer = match rest {
            Rest::Empty => RowAnswer::Completed,
            Rest::More => return Ok(()),
            Rest::NoSource => RowAnswer::Failed,
        };
        handling.effects.say(Row {
            key: handling.key,
            queue: site,
            agent: self.number,
            kind: RowKind::Task,
            answer,
            message: None,
            receipt: RowReceipt::Absent,
            detail: Detail::Moved(self.movement.moved()),
        })
    }

    /// A step that took these messages and left this. It sends them on, and if it was the last
    /// step, makes the row of the task's end.
    pub fn step(
        &mut self,
        handling: &mut Handling<'_>,
        site: u32,
        loads: Vec<(u32, Load)>,
        rest: Rest,
    ) -> Result<(), Refusal>
        requires running { runs self.old ≡ true }
        requires latency { IsLatency self.old.move.settings.latency }
        ensures stepped { Moves result handling.old handling.new site self.new
            (λ k c. stepped_moves k c self.old loads.items rest) }
        ensures settings { numbered_settings self.new ≡ numbered_settings self.old }
    {
        if self.movement.steps() >= MOST_COUNT {
            return Err(Refusal::CountLimit);
        }
        let taken = loads.len() as u64;
        self.move_all(handling, site, loads)?;
        self.movement.step(handling.key.at, taken, rest);
        self.tell_end(handling, site, rest)?;
        Ok(())
    }
}

// The task at a place, which is running, takes a step.
fn step_at(
    tasks: &mut Vec<Task>,
    place: usize,
    handling: &mut Handling<'_>,
    site: u32,
    loads: Vec<(u32, Load)>,
    rest: Rest,
) -> Result<(), Refusal>
    requires place { Stands (is_task handling.old.key.agent) tasks.old.items place }
    requires running { IfSome (find (is_task handling.old.key.agent) tasks.old.items)
        (λ t. runs t ≡ true) }
    requires latencies { All (λ t. IsLatency t.1.latency) (map numbered_settings tasks.old.items) }
    ensures stepped { StepsTask result handling.old handling.new site tasks.old.items
        tasks.new.items loads.items rest }
    ensures settings { map numbered_settings tasks.new.items
        ≡ map numbered_settings tasks.old.items }
{
    tasks[place].step(handling, site, loads, rest)
}

impl Core {
    /// A move task, which is running, takes its next step.
    pub fn handle_step(&mut self, handling: &mut Handling<'_>) -> Result<(), Refusal>
        requires class { handling.old.key.class ≡ StepClass }
        requires due { IsAmong (core_dues self.old) handling.old.key }
        ensures { Handles result handling.old handling.new self.new (λ k. step_due k self.old) }
    {
        let site = self.queue.site();
        let Some(place) = place_of_task(&self.tasks, handling.key.agent) else {
            return Ok(());
        };
        let settings = self.tasks[place].settings();
        let (loads, rest) = self.queue.take_movable(settings.per_second, settings.to)?;
        step_at(&mut self.tasks, place, handling, site, loads, rest)
    }
}
