//! The actors and tasks with which a site opens.
ghost use Rattle.std.specs.Prelude.{◌≡◌, All, IfOk, map};
ghost use Rattle.sim_actor.specs.Lives.{IsRole};
ghost use Rattle.sqs_model.specs.Scenario.{opening_actor, opening_task};

use crate::actors::Actors;
use crate::agents::Task;
use sim_actor::Actor;
use sqs_model::ActorSettings;
use sqs_redrive::TaskSettings;
use std::alloc::{AllocError, Global};

/// Actors with these numbers and settings, which have done nothing.
pub fn open_actors(
    alloc: Global,
    actors: Vec<(u32, ActorSettings)>,
    seed: u64,
) -> Result<Actors, AllocError>
    requires { All (λ x. IsRole x.1.role) actors.items }
    ensures { IfOk result (λ opened. opened ≡ map (opening_actor seed) actors.items) }
{
    let mut opened = Vec::with_capacity(alloc, actors.len())?;
    for (number, settings) in actors {
        opened.push(Actor::new(alloc, number, settings, seed))?;
    }
    Actors::of(alloc, opened)
}

/// Tasks with these numbers and settings, none of them started.
pub fn open_tasks(
    alloc: Global,
    tasks: &[(u32, TaskSettings)],
    seed: u64,
) -> Result<Vec<Task>, AllocError>
    ensures { IfOk result (λ opened. opened.items ≡ map (opening_task seed) tasks.now) }
{
    let mut opened = Vec::with_capacity(alloc, tasks.len())?;
    for i in 0..tasks.len() {
        let (number, settings) = tasks[i];
        opened.push(Task::new(number, settings, seed))?;
    }
    Ok(opened)
}
