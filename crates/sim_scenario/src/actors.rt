//! The actors of a scenario's text.
ghost use Rattle.std.specs.Prelude.{◌≡◌, ◌<◌, map};
ghost use Rattle.std.specs.List.{list_all};
ghost use Rattle.sqs_formats.specs.Actors.{copies as the_copies, kinds_of, role as the_role};
ghost use Rattle.sqs_formats.specs.Names.{is_agent_name};
ghost use Rattle.sqs_formats.specs.Outline.{is_fresh};
ghost use Rattle.sim_scenario.specs.Gives.{Gives};
ghost use Rattle.sim_scenario.specs.Sections.{table_of};

use crate::consumers::consumer;
use crate::copies::copy_names;
use crate::fault::ReadError;
use crate::items::ItemType;
use crate::key_type::{Integer, OneOf};
use crate::named::{AgentName, NamedQueue};
use crate::names::is_agent_name;
use crate::outline::Outline;
use crate::producers::producer;
use crate::scalers::scaler;
use crate::scripted::{Scripts, scripted};
use crate::section::Section;
use sim_clock::Refusal;
use sqs_formats::ActorKind;
use sqs_message::{Listed, Text};
use sqs_model::{ActorSettings, Role};

/// The kinds of actors, by their names.
const KINDS: &[(&str, ActorKind)] = &[
    ("script", ActorKind::Script),
    ("producer", ActorKind::Producer),
    ("consumer", ActorKind::Consumer),
];

/// Those from version 3 on.
const NEWER_KINDS: &[(&str, ActorKind)] = &[
    ("script", ActorKind::Script),
    ("producer", ActorKind::Producer),
    ("consumer", ActorKind::Consumer),
    ("scaler", ActorKind::Scaler),
];

/// The kinds of actors of a version, by their names.
fn kinds_of(version: u64) -> &'static [(&'static str, ActorKind)]
    ensures { map (λ k. (k.0.now, k.1)) result.now ≡ kinds_of version }
{
    if version < 3 { KINDS } else { NEWER_KINDS }
}

/// What an actor of a kind does.
fn role(
    kind: ActorKind,
    scripts: &Scripts,
    outline: &Outline,
    home: u32,
    index: usize,
    section: &Section<'_>,
) -> Result<Role, ReadError>
    ensures { Gives (λ r. r) result
        (the_role kind scripts.now outline.now home index (table_of section.now)) }
{
    match kind {
        ActorKind::Script => scripted(scripts, outline, home, section),
        ActorKind::Producer => producer(outline.version(), outline.is_fifo_at(home), section),
        ActorKind::Consumer => consumer(outline, home, index, section),
        ActorKind::Scaler => scaler(section),
    }
}

/// Whether all of these are names of actors.
fn are_agent_names(names: &[Text]) -> bool
    ensures { result ≡ list_all is_agent_name names.now }
{
    names.iter().all(|name| is_agent_name(name.as_bytes()))
}

/// Whether no name before a place is one of these.
fn are_fresh(outline: &Outline, place: usize, names: &[Text]) -> bool
    ensures { result ≡ list_all (is_fresh outline.now place) names.now }
{
    names
        .iter()
        .all(|name| outline.is_fresh(place, name.as_bytes()))
}

/// The names of an actor's copies; none if it has no copies.
#[tactic(auto, unfolding(sqs_formats::specs::Actors::copies, sqs_formats::specs::Reading::and_then))]
fn copies(
    outline: &Outline,
    index: usize,
    name: &[u8],
    section: &Section<'_>,
) -> Result<Vec<Text>, ReadError>
    requires { index < 11000 }
    ensures { Gives (λ v. v.items) result
        (the_copies outline.now index name.now (table_of section.now)) }
{
    let newer = section.newer(outline.version());
    let copies = newer.optional("copies", &Integer(1, 1000), 0)?;
    let names = copy_names(section.alloc, name, copies)?;
    if !are_agent_names(names.as_slice()) {
        return Err(section.blame(Refusal::BadName, "copies"));
    }
    if !are_fresh(outline, outline.actor_place(index), names.as_slice()) {
        return Err(section.blame(Refusal::NameTwice, "copies"));
    }
    if outline.copies(index) != names.len() as u64 {
        return Err(section.blame(Refusal::TooMany, "copies"));
    }
    Ok(names)
}

/// The agents of an actor, each with its name.
type Agents = Listed<(Text, ActorSettings)>;

/// The actors of a text, each with its agents.
#[derive(Drop)]
pub(crate) struct Actors<'o> {
    pub(crate) scripts: &'o Scripts,
    pub(crate) outline: &'o Outline,
}

impl Actors<'_> {
    ghost use Rattle.std.specs.Prelude.{◌≡◌, Ok};
    ghost use Rattle.sim_scenario.specs.AtHome.{each_at};

    /// Copies with these names. What they do is read anew for each, as for the actor.
    fn copied(
        &self,
        kind: ActorKind,
        home: u32,
        index: usize,
        names: Vec<Text>,
        section: &Section<'_>,
    ) -> Result<Agents, ReadError>
        ensures { (r : Role) → the_role kind self.now.scripts.now self.now.outline.now home index
            (table_of section.now) ≡ Ok r → Gives (λ v. v) result (Ok
            (each_at home r names.items)) }
    {
        let mut agents = Vec::with_capacity(section.alloc, names.len())?;
        for name in names {
            let role = role(kind, self.scripts, self.outline, home, index, section)?;
            agents.push((name, ActorSettings { home, role }))?;
        }
        Ok(Listed::new(agents))
    }
}

impl ItemType for Actors<'_> {
    type Item = Agents;

    ghost use Rattle.sqs_formats.specs.Actors.{actor};

    ghost says = { λ a. actor a.scripts.now a.outline.now };

    #[tactic(auto, unfolding(sqs_formats::specs::Actors::actor, sqs_formats::specs::Reading::and_then))]
    fn read(&self, number: usize, section: &Section<'_>) -> Result<Agents, ReadError> {
        let outline = self.outline;
        let place = outline.actor_place(number);
        let name = section.required(
            "name",
            &AgentName {
                outline,
                place,
                is_queue: false,
            },
        )?;
        let kinds = kinds_of(outline.version());
        let kind = section.required("kind", &OneOf(kinds))?;
        let home = section.required("queue", &NamedQueue { outline })?;
        let role = role(kind, self.scripts, outline, home, number, section)?;
        let actor = (name, ActorSettings { home, role });
        let agents = vec![in section.alloc; actor]?;
        let copies = copies(outline, number, agents[0].0.as_bytes(), section)?;
        if copies.is_empty() {
            return Ok(Listed::new(agents));
        }
        self.copied(kind, home, number, copies, section)
    }
}
