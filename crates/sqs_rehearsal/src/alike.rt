//! Where two scenarios are the same: their settings, and their queues with the agents there.
ghost use Rattle.std.specs.Prelude.{◌≡◌, IfOk, length, map};
ghost use Rattle.std.specs.Bool.{Decides};
ghost use Rattle.std.specs.List.{slice_get};
ghost use Rattle.sim_scenario.specs.Ranges.{IsInRange};
ghost use Rattle.sqs_laws.specs.Reach.{IsSameAt, actors_at, tasks_at};
ghost use Rattle.sqs_rehearsal.specs.Reaching.{AreAlike, AreMarkedSame, with_number};

use sim_scenario::Scenario;
use sqs_model::ActorSettings;
use sqs_redrive::{QueueSettings, TaskSettings};
use std::alloc::{AllocError, Global};

// The actors of a scenario at a queue, with their numbers.
fn actors_at<'a>(
    alloc: Global,
    scenario: &'a Scenario,
    queue: u32,
) -> Result<Vec<(usize, &'a ActorSettings)>, AllocError>
    ensures { IfOk result (λ v. map with_number v.items ≡ actors_at scenario.now queue) }
{
    let first = scenario.queues().len();
    let actors = scenario.actors();
    (first..first + actors.len())
        .zip(actors)
        .filter(|(_, actor)| actor.home == queue)
        .collect(alloc)
}

// Its tasks there, with theirs.
fn tasks_at<'a>(
    alloc: Global,
    scenario: &'a Scenario,
    queue: u32,
) -> Result<Vec<(usize, &'a TaskSettings)>, AllocError>
    ensures { IfOk result (λ v. map with_number v.items ≡ tasks_at scenario.now queue) }
{
    let first = scenario.queues().len() + scenario.actors().len();
    let tasks = scenario.tasks();
    (first..first + tasks.len())
        .zip(tasks)
        .filter(|(_, task)| task.home == queue)
        .collect(alloc)
}

// Whether two scenarios have the same horizon, seed and interval of samples.
fn are_alike(first: &Scenario, second: &Scenario) -> bool
    ensures alike { Decides result (AreAlike first.now second.now) }
    ensures range { IsInRange first.now × IsInRange second.now }
{
    first.horizon() == second.horizon()
        && first.seed() == second.seed()
        && first.sample() == second.sample()
}

// Whether two scenarios have the same actors at a queue, with the same numbers.
fn has_same_actors(
    alloc: Global,
    first: &Scenario,
    second: &Scenario,
    queue: u32,
) -> Result<bool, AllocError>
    ensures { IfOk result
        (λ same. Decides same (actors_at first.now queue ≡ actors_at second.now queue)) }
{
    let actors = actors_at(alloc, first, queue)?;
    let others = actors_at(alloc, second, queue)?;
    Ok(actors == others)
}

// Whether they have the same tasks there, with the same numbers.
fn has_same_tasks(
    alloc: Global,
    first: &Scenario,
    second: &Scenario,
    queue: u32,
) -> Result<bool, AllocError>
    ensures { IfOk result
        (λ same. Decides same (tasks_at first.now queue ≡ tasks_at second.now queue)) }
{
    let tasks = tasks_at(alloc, first, queue)?;
    let others = tasks_at(alloc, second, queue)?;
    Ok(tasks == others)
}

// The settings of a queue, if there is one of this number.
fn settings_at(scenario: &Scenario, queue: u32) -> Option<QueueSettings>
    ensures { result ≡ slice_get scenario.now.queues queue }
{
    scenario.queues().get(queue as usize).copied()
}

// Whether a queue has the same settings in two scenarios.
fn has_same_settings(first: &Scenario, second: &Scenario, queue: u32) -> bool
    ensures { Decides result (slice_get first.now.queues queue ≡ slice_get second.now.queues queue) }
{
    settings_at(first, queue) == settings_at(second, queue)
}

// Whether two scenarios are the same at a queue.
fn is_same_at(
    alloc: Global,
    first: &Scenario,
    second: &Scenario,
    queue: u32,
) -> Result<bool, AllocError>
    ensures { IfOk result (λ same. Decides same (IsSameAt first.now second.now queue)) }
{
    Ok(
        has_same_settings(first, second, queue)
            && has_same_actors(alloc, first, second, queue)?
            && has_same_tasks(alloc, first, second, queue)?,
    )
}

/// For each queue of a scenario whether nothing differs there from another one. It fails if memory
/// runs out.
pub(crate) fn same_queues(
    alloc: Global,
    first: &Scenario,
    second: &Scenario,
) -> Result<Vec<bool>, AllocError>
    ensures many { IfOk result (λ marks. length marks.items ≡ length first.now.queues) }
    ensures each { IfOk result (λ marks. AreMarkedSame first.now second.now marks.items) }
    ensures range { IfOk result (λ _. IsInRange first.now × IsInRange second.now) }
{
    let alike = are_alike(first, second);
    let queues = first.queues().len();
    let mut marks = Vec::with_capacity(alloc, queues)?;
    for queue in 0..queues {
        marks.push(alike && is_same_at(alloc, first, second, queue as u32)?)?;
    }
    Ok(marks)
}
