//! The reader of a scenario: from a TOML document it makes a scenario, or returns the first fault.
ghost use Rattle.std.specs.Prelude.{◌≡◌, ◌≤◌, ◌+◌, ◌++◌, IfOk, OnOk, drop, length, map, take};
ghost use Rattle.toml.specs.View.{table_view};
ghost use Rattle.sqs_formats.specs.Scenario.{agents as the_agents, by_number, scenario_in, whole};
ghost use Rattle.sim_scenario.specs.Gives.{Gives};
ghost use Rattle.sim_scenario.specs.Ranges.{IsInRange};
ghost use Rattle.sim_scenario.specs.Tops.{IsTop, top_view, outline_of_top};

use crate::actors::Actors;
use crate::fault::ReadError;
use crate::items::each;
use crate::outline::Outline;
use crate::queues::{DeadLetters, Queues};
use crate::scenario::Scenario;
use crate::scripted::Scripts;
use crate::section::Section;
use crate::tasks::Tasks;
use crate::top::{Top, top_table};
use sqs_message::{Listed, Text};
use sqs_model::ActorSettings;
use sqs_redrive::{QueueSettings, TaskSettings};
use std::alloc::{AllocError, Global};
use toml::Table;

/// Splits settings from their names, which are appended to other names.
fn part<T: Drop>(
    alloc: Global,
    items: Vec<(Text, T)>,
    names: &mut Vec<Text>,
) -> Result<Vec<T>, AllocError>
    ensures settings { IfOk result (λ v. v.items ≡ map (λ x. x.1) items.items) }
    ensures names { OnOk result (names.new.items ≡ names.old.items ++ map (λ x. x.0) items.items) }
{
    let mut settings = Vec::with_capacity(alloc, items.len())?;
    for item in items {
        let (name, setting) = item;
        names.push(name)?;
        settings.push(setting)?;
    }
    Ok(settings)
}

/// Appends the first of an actor's agents to other firsts, and the rest of them to other agents.
fn place_agents(
    agents: Vec<(Text, ActorSettings)>,
    firsts: &mut Vec<(Text, ActorSettings)>,
    others: &mut Vec<(Text, ActorSettings)>,
) -> Result<(), AllocError>
    ensures firsts { OnOk result (firsts.new.items ≡ firsts.old.items ++ take 1 agents.items) }
    ensures others { OnOk result (others.new.items ≡ others.old.items ++ drop 1 agents.items) }
{
    let mut agents = agents.into_iter();
    if let Some(first) = agents.next() {
        firsts.push(first)?;
    }
    for agent in agents {
        others.push(agent)?;
    }
    Ok(())
}

/// The agents of all actors: the first of each, and behind them the others.
fn by_number(
    alloc: Global,
    actors: Vec<Listed<(Text, ActorSettings)>>,
) -> Result<Vec<(Text, ActorSettings)>, AllocError>
    ensures { IfOk result (λ v. v.items ≡ by_number actors.items) }
{
    let mut firsts = Vec::with_capacity(alloc, actors.len())?;
    let mut others = Vec::new(alloc);
    for agents in actors {
        place_agents(agents.into_vec(), &mut firsts, &mut others)?;
    }
    firsts.append(&mut others)?;
    Ok(firsts)
}

/// The scenario of these agents.
fn assembled(
    alloc: Global,
    top: &Top<'_>,
    queues: Vec<(Text, QueueSettings)>,
    actors: Vec<(Text, ActorSettings)>,
    tasks: Vec<(Text, TaskSettings)>,
) -> Result<Scenario, AllocError>
    requires { IsInRange (whole (top_view top.now) queues.items actors.items tasks.items) }
    ensures value { IfOk result
        (λ s. s ≡ whole (top_view top.now) queues.items actors.items tasks.items) }
    ensures range { IfOk result IsInRange }
{
    let mut names = Vec::new(alloc);
    let queues = part(alloc, queues, &mut names)?;
    let actors = part(alloc, actors, &mut names)?;
    let tasks = part(alloc, tasks, &mut names)?;
    Ok(Scenario::new(
        top.horizon,
        top.seed,
        top.sample,
        queues,
        actors,
        tasks,
        names,
    ))
}

/// The agents in the lists of queues, actors and move tasks.
#[tactic(auto, unfolding(sqs_formats::specs::Scenario::agents, sqs_formats::specs::Reading::and_then))]
fn agents(
    alloc: Global,
    scripts: &Scripts,
    top: &Top<'_>,
    outline: &Outline,
) -> Result<Scenario, ReadError>
    requires few { length top.now.queues.now + length top.now.actors.now + length top.now.tasks.now
        ≤ 11000 }
    requires numbers { IsTop (top_view top.now) }
    requires outlined { outline.now ≡ outline_of_top (top_view top.now) }
    ensures range { IfOk result IsInRange }
    ensures value { Gives (λ s. s) result (the_agents scripts.now (top_view top.now) outline.now) }
{
    let queues = each(alloc, "queue", top.queues, &Queues { outline })?;
    each(alloc, "queue", top.queues, &DeadLetters { outline })?;
    let actors = each(alloc, "actor", top.actors, &Actors { scripts, outline })?;
    let tasks = each(alloc, "task", top.tasks, &Tasks { outline })?;
    let actors = by_number(alloc, actors)?;
    let scenario = assembled(alloc, top, queues, actors, tasks)?;
    Ok(scenario)
}

/// The scenario in a document of a version up to the newest one.
#[tactic(auto, unfolding(sqs_formats::specs::Scenario::scenario_in, sqs_formats::specs::Reading::and_then))]
pub(crate) fn document(
    alloc: Global,
    newest: u64,
    scripts: &Scripts,
    table: &Table,
) -> Result<Scenario, ReadError>
    ensures range { IfOk result IsInRange }
    ensures value { Gives (λ s. s) result (scenario_in newest scripts.now (table_view table.now)) }
{
    let section = Section::top(alloc, table);
    let top = top_table(newest, &section)?;
    let outline = Outline::new(alloc, top.version, top.queues, top.actors, top.tasks)?;
    agents(alloc, scripts, &top, &outline)
}
