//! The sites with which a scenario opens.
ghost use Rattle.std.specs.List.{enumerate_from};
ghost use Rattle.std.specs.Prelude.{◌≡◌, ◌+◌, ◌<◌, ◌≤◌, ◌^◌, [], All, IfOk, OnOk, length, map};
ghost use Rattle.sim_engine.specs.Simulated.{IsSimulated};
ghost use Rattle.sqs_model.specs.Answers.{most_count};
ghost use Rattle.sqs_model.specs.Conditions.{sqs_conditions};
ghost use Rattle.sqs_model.specs.Run.{setting_of};
ghost use Rattle.sqs_model.specs.Sqs.{sqs};
ghost use Rattle.sqs_model.specs.Scenario.{HasItsQueues, opening};
ghost use Rattle.sqs_model.specs.Valid.{IsQueueSettings};
ghost use Rattle.sqs_rehearsal.specs.Homes.{IsFit, IsVacant, OfHomes, actors_in, tasks_in, HaveActors, HaveTasks, IsSettledBehind};

use sim_scenario::{Scenario, edges};
use sim_site::Site;
use sim_windows::World;
use sqs_model::ActorSettings;
use sqs_redrive::{QueueSettings, TaskSettings};
use std::alloc::{AllocError, Global};

// The actors and tasks of one queue, each under its own number.
#[derive(Drop)]
struct Home {
    actors: Vec<(u32, ActorSettings)>,
    tasks: Vec<(u32, TaskSettings)>,
}

// The homes of `queues` queues, without actors and tasks.
fn vacant_homes(alloc: Global, queues: usize) -> Result<Vec<Home>, AllocError>
    ensures vacant { IfOk result (λ homes. All IsVacant homes.items) }
    ensures count { IfOk result (λ homes. length homes.items ≡ queues) }
{
    let mut homes = Vec::with_capacity(alloc, queues)?;
    for _ in 0..queues {
        homes.push(Home {
            actors: Vec::new(alloc),
            tasks: Vec::new(alloc),
        })?;
    }
    Ok(homes)
}

// Adds actors to their homes, in order, with consecutive numbers.
fn settle_actors(
    homes: &mut Vec<Home>,
    first: u32,
    actors: Vec<ActorSettings>,
) -> Result<(), AllocError>
    requires homes { All (λ a. a.home < length homes.old.items) actors.items }
    requires numbers { first + length actors.items < 2 ^ 32 }
    ensures settled { OnOk result (HaveActors homes.old.items [] → HaveActors homes.new.items
        (enumerate_from first actors.items)) }
    ensures tasks { OnOk result (map tasks_in homes.new.items ≡ map tasks_in homes.old.items) }
    ensures count { OnOk result (length homes.new.items ≡ length homes.old.items) }
{
    let mut number = first;
    for settings in actors {
        let home = settings.home as usize;
        homes[home].actors.push((number, settings))?;
        number += 1;
    }
    Ok(())
}

// The same for tasks.
fn settle_tasks(
    homes: &mut Vec<Home>,
    first: u32,
    tasks: Vec<TaskSettings>,
) -> Result<(), AllocError>
    requires homes { All (λ t. t.home < length homes.old.items) tasks.items }
    requires numbers { first + length tasks.items < 2 ^ 32 }
    ensures settled { OnOk result (HaveTasks homes.old.items [] → HaveTasks homes.new.items
        (enumerate_from first tasks.items)) }
    ensures actors { OnOk result (map actors_in homes.new.items ≡ map actors_in homes.old.items) }
    ensures count { OnOk result (length homes.new.items ≡ length homes.old.items) }
{
    let mut number = first;
    for settings in tasks {
        let home = settings.home as usize;
        homes[home].tasks.push((number, settings))?;
        number += 1;
    }
    Ok(())
}

// The homes of `queues` queues. Agents are numbered: queues first, then actors, then tasks.
fn settled_homes(
    alloc: Global,
    queues: usize,
    actors: Vec<ActorSettings>,
    tasks: Vec<TaskSettings>,
) -> Result<Vec<Home>, AllocError>
    requires actors { All (λ a. a.home < queues) actors.items }
    requires tasks { All (λ t. t.home < queues) tasks.items }
    requires numbers { queues + length actors.items + length tasks.items < 2 ^ 32 }
    ensures settled { IfOk result
        (λ homes. IsSettledBehind queues actors.items tasks.items homes.items) }
    ensures count { IfOk result (λ homes. length homes.items ≡ queues) }
{
    let mut homes = vacant_homes(alloc, queues)?;
    let first_actor = queues as u32;
    let first_task = (queues + actors.len()) as u32;
    settle_actors(&mut homes, first_actor, actors)?;
    settle_tasks(&mut homes, first_task, tasks)?;
    Ok(homes)
}

// The sites of queues, by number, each with its actors and tasks.
fn open_sites(
    alloc: Global,
    queues: &[QueueSettings],
    homes: Vec<Home>,
    seed: u64,
    sample: u64,
) -> Result<Vec<Site>, AllocError>
    requires queues { All IsQueueSettings queues.now }
    requires homes { All IsFit homes.items }
    requires count { length homes.items ≡ length queues.now }
    requires numbers { length queues.now < 2 ^ 32 }
    requires sample { sample ≤ most_count }
    ensures opened { IfOk result (λ sites. OfHomes seed sample queues.now homes.items
        (λ s. sites.items ≡ opening s)) }
{
    let mut sites = Vec::with_capacity(alloc, queues.len())?;
    let mut number = 0;
    for home in homes {
        let settings = queues[number as usize];
        let site = Site::new(
            alloc,
            number,
            settings,
            home.actors,
            home.tasks,
            seed,
            sample,
        )?;
        sites.push(site)?;
        number += 1;
    }
    Ok(sites)
}

// The sites with which a scenario opens: one for each of its queues, by number, that has done
// nothing and to which nothing is on its way.
fn opening_sites(alloc: Global, scenario: Scenario) -> Result<Vec<Site>, AllocError>
    ensures opened { IfOk result (λ sites. sites.items ≡ opening scenario) }
    ensures has_queues { IfOk result (λ _. HasItsQueues scenario) }
{
    let parts = scenario.into_parts();
    let homes = settled_homes(alloc, parts.queues.len(), parts.actors, parts.tasks)?;
    open_sites(
        alloc,
        parts.queues.as_slice(),
        homes,
        parts.seed,
        parts.sample,
    )
}

/// The world with which a scenario opens: a site for each of its queues, and the ways between them.
/// The sites have done nothing, and nothing is on its way to them.
///
/// # Errors
///
/// `AllocError` if memory runs out.
pub fn open_world(alloc: Global, scenario: Scenario) -> Result<World<Site>, AllocError>
    ensures setting { IfOk result (λ world. world ≡ setting_of scenario) }
    ensures simulated { IfOk result (λ world. IsSimulated sqs sqs_conditions world) }
    ensures horizon { IfOk result (λ world. world.horizon ≤ most_count) }
    ensures ways { IfOk result
        (λ world. All (λ e. (1 ≤ e.least) × (e.least ≤ 900000)) world.edges) }
    ensures has_queues { IfOk result (λ _. HasItsQueues scenario) }
{
    let horizon = scenario.horizon();
    let ways = edges(alloc, &scenario)?;
    let sites = opening_sites(alloc, scenario)?;
    Ok(World {
        horizon,
        sites,
        edges: ways,
    })
}
