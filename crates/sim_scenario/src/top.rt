//! The top table of a scenario's text.
ghost use Rattle.std.specs.Prelude.{◌+◌, ◌≤◌, IfOk, length, map};
ghost use Rattle.toml.specs.View.{view};
ghost use Rattle.sqs_formats.specs.Scenario.{agent_list, queue_list, top as the_top};
ghost use Rattle.sim_scenario.specs.Gives.{Gives};
ghost use Rattle.sim_scenario.specs.Sections.{table_of};
ghost use Rattle.sim_scenario.specs.Tops.{top_view};

use crate::fault::ReadError;
use crate::key_type::Integer;
use crate::section::Section;
use sim_clock::Refusal;
use toml::Value;

/// The top table: its numbers, and the items in its lists.
#[derive(Drop)]
pub(crate) struct Top<'a> {
    pub(crate) version: u64,
    pub(crate) horizon: u64,
    pub(crate) seed: u64,
    pub(crate) sample: u64,
    pub(crate) queues: &'a [Value],
    pub(crate) actors: &'a [Value],
    pub(crate) tasks: &'a [Value],
}

/// The list of queues, which has 1 to 1,000 items.
#[tactic(auto, unfolding(sqs_formats::specs::Scenario::queue_list, sqs_formats::specs::Reading::and_then))]
fn queue_list<'a>(section: &Section<'a>) -> Result<&'a [Value], ReadError>
    ensures value { Gives (λ vs. map view vs.now) result (queue_list (table_of section.now)) }
    ensures few { IfOk result (λ vs. length vs.now ≤ 1000) }
{
    let values = section.required_list("queue")?;
    if values.len() < 1 {
        return Err(section.blame(Refusal::OutOfRange, "queue"));
    }
    if values.len() > 1000 {
        return Err(section.blame(Refusal::TooMany, "queue"));
    }
    Ok(values)
}

/// The list of actors or of tasks. Together they are at most 10,000; `before` of them come before
/// this list.
#[tactic(auto, unfolding(sqs_formats::specs::Scenario::agent_list, sqs_formats::specs::Reading::and_then))]
fn agent_list<'a>(before: usize, section: &Section<'a>, key: &str) -> Result<&'a [Value], ReadError>
    requires { before ≤ 10000 }
    ensures value { Gives (λ vs. map view vs.now) result (agent_list before
        (table_of section.now) key.now) }
    ensures few { IfOk result (λ vs. before + length vs.now ≤ 10000) }
{
    let values = section.optional_list(key)?;
    if values.len() > 10_000 - before {
        return Err(section.blame(Refusal::TooMany, key));
    }
    Ok(values)
}

/// The keys of the top table.
const TOP_KEYS: &[&str] = &[
    "version", "horizon", "seed", "sample", "queue", "actor", "task",
];

/// The contents of the top table, of a version up to the newest one.
#[tactic(auto, unfolding(sqs_formats::specs::Scenario::top, sqs_formats::specs::Reading::and_then))]
pub(crate) fn top_table<'a>(newest: u64, section: &Section<'a>) -> Result<Top<'a>, ReadError>
    ensures value { Gives top_view result (the_top newest (table_of section.now)) }
    ensures few { IfOk result
        (λ t. length t.queues.now + length t.actors.now + length t.tasks.now ≤ 11000) }
{
    section.only(&[TOP_KEYS])?;
    let version = section.required("version", &Integer(1, newest))?;
    let horizon = section.required("horizon", &Integer(1, 2_592_000_000))?;
    let seed = section.optional("seed", &Integer(0, 9_223_372_036_854_775_807), 0)?;
    let sample = section.optional("sample", &Integer(0, 2_592_000_000), 0)?;
    let queues = queue_list(section)?;
    let actors = agent_list(0, section, "actor")?;
    let tasks = agent_list(actors.len(), section, "task")?;
    Ok(Top {
        version,
        horizon,
        seed,
        sample,
        queues,
        actors,
        tasks,
    })
}
