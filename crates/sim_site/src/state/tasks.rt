//! Starts and cancels of move tasks by actors.
ghost use Rattle.std.specs.Prelude.{IfSome, false, find, map, true, ◌≡◌, ◌≤◌};
ghost use Rattle.std.specs.List.{list_any};
ghost use Rattle.sqs_model.specs.declared.acts.Act.TheVariants as acts;
ghost use Rattle.sqs_model.specs.Acts.{runs, task_row as the_task_row};
ghost use Rattle.sqs_model.specs.Answers.{most_count};
ghost use Rattle.sim_clock.specs.Places.{Stands};
ghost use Rattle.sqs_model.specs.Site.{Core, is_task};
ghost use Rattle.sim_site.specs.Effects.{DoesAct, IsRowOfCall};
ghost use Rattle.sim_site.specs.Kept.{numbered_settings};
ghost use Rattle.sim_site.specs.Reading.{cancelled_task, started_task};
ghost use Rattle.sim_site.specs.Tasks.{Rewritten};

use super::Core;
use crate::agents::Task;
use crate::handling::Handling;
use crate::places::place_of_task;
use sim_clock::Refusal;
use sqs_message::{Detail, Row, RowAnswer, RowKind};

// Whether one of some tasks is running.
fn any_runs(tasks: &[Task]) -> bool
    ensures { result ≡ list_any runs tasks.now }
{
    tasks.iter().any(|task| task.is_running())
}

// Starts the task at a place; no task is running.
fn start_at(tasks: &mut Vec<Task>, place: usize, number: u32, now: u64)
    requires place { Stands (is_task number) tasks.old.items place }
    requires idle { list_any runs tasks.old.items ≡ false }
    requires moment { now ≤ most_count }
    ensures started { Rewritten number (started_task now) tasks.old.items tasks.new.items }
    ensures settings { map numbered_settings tasks.new.items
        ≡ map numbered_settings tasks.old.items }
{
    tasks[place].start(now);
}

// Cancels the task at a place, if it is running. Returns whether it was.
fn cancel_at(tasks: &mut Vec<Task>, place: usize, number: u32) -> bool
    requires { Stands (is_task number) tasks.old.items place }
    ensures ran { IfSome (find (is_task number) tasks.old.items) (λ t. result ≡ runs t) }
    ensures cancelled { result ≡ true
        → Rewritten number cancelled_task tasks.old.items tasks.new.items }
    ensures unchanged { result ≡ false → tasks.new ≡ tasks.old }
    ensures settings { map numbered_settings tasks.new.items
        ≡ map numbered_settings tasks.old.items }
{
    if !tasks[place].is_running() {
        return false;
    }
    tasks[place].cancel();
    true
}

// The row of a start or cancel.
fn task_row(handling: &Handling<'_>, site: u32, task: u32, kind: RowKind, answer: RowAnswer) -> Row
    ensures { IsRowOfCall handling.now site result (λ k a c. the_task_row k a c task kind answer) }
{
    handling.row(site, kind, answer, None, Detail::Task(task))
}

impl Core {
    /// An actor starts a task. It is refused while a task of the site is running. The only error is
    /// `Memory`.
    #[tactic(auto, unfolding(sqs_model::specs::Acts::act_made))]
    pub fn start(&mut self, handling: &mut Handling<'_>, task: u32) -> Result<(), Refusal>
        ensures { DoesAct result handling.old handling.new self.old self.new (acts.Start task) }
    {
        let site = self.queue.site();
        let Some(place) = place_of_task(&self.tasks, task) else {
            return Ok(());
        };
        if any_runs(&self.tasks) {
            let answer = RowAnswer::Refused(Refusal::TaskRunning);
            let row = task_row(handling, site, task, RowKind::Start, answer);
            handling.effects.say(row)?;
            return Ok(());
        }
        start_at(&mut self.tasks, place, task, handling.key.at);
        let row = task_row(handling, site, task, RowKind::Start, RowAnswer::Ok);
        handling.effects.say(row)?;
        Ok(())
    }

    /// An actor cancels a task. It is refused if the task is not running. The only error is
    /// `Memory`.
    #[tactic(auto, unfolding(sqs_model::specs::Acts::act_made))]
    pub fn cancel(&mut self, handling: &mut Handling<'_>, task: u32) -> Result<(), Refusal>
        ensures { DoesAct result handling.old handling.new self.old self.new (acts.Cancel task) }
    {
        let site = self.queue.site();
        let Some(place) = place_of_task(&self.tasks, task) else {
            return Ok(());
        };
        if !cancel_at(&mut self.tasks, place, task) {
            let answer = RowAnswer::Refused(Refusal::NoTask);
            let row = task_row(handling, site, task, RowKind::Cancel, answer);
            handling.effects.say(row)?;
            return Ok(());
        }
        let row = task_row(handling, site, task, RowKind::Cancel, RowAnswer::Ok);
        handling.effects.say(row)?;
        Ok(())
    }
}
