//! Keys whose values are names: of the agent itself, or of a queue.
ghost use Rattle.sqs_formats.specs.Keys.{place_of};
ghost use Rattle.sqs_formats.specs.Names.{is_agent_name, is_queue_name};
ghost use Rattle.sqs_formats.specs.Outline.{fresh_name, queue_number, same_kind};
ghost use Rattle.sim_scenario.specs.Gives.{Gives, Returns};
ghost use Rattle.sim_scenario.specs.Sections.{table_of, key_place};

use crate::fault::ReadError;
use crate::key_type::KeyType;
use crate::lists::{ListItem, list_of};
use crate::names::{is_agent_name, is_queue_name};
use crate::outline::Outline;
use crate::section::Section;
use sim_clock::Refusal;
use sqs_message::{Listed, Text};
use toml::Value;

/// A name, if it is well-formed and no name before its place is the same.
#[tactic(auto, unfolding(sqs_formats::specs::Reading::and_then))]
fn fresh_name(
    section: &Section<'_>,
    key: &str,
    outline: &Outline,
    place: usize,
    name: &str,
    is_well_formed: bool,
) -> Result<Text, ReadError>
    ensures { Returns result (fresh_name is_well_formed outline.now place
        (key_place section.now key.now) name.now) }
{
    if !is_well_formed {
        return Err(section.blame(Refusal::BadName, key));
    }
    if !outline.is_fresh(place, name.as_bytes()) {
        return Err(section.blame(Refusal::NameTwice, key));
    }
    section.owned(name)
}

/// The name of an agent, by its place among all names: of a queue, or else of an actor or a move
/// task.
#[derive(Drop)]
pub(crate) struct AgentName<'o> {
    pub(crate) outline: &'o Outline,
    pub(crate) place: usize,
    pub(crate) is_queue: bool,
}

impl KeyType for AgentName<'_> {
    type Value = Text;

    ghost use Rattle.std.specs.Prelude.{if◌then◌else◌};
    ghost use Rattle.sqs_formats.specs.Names.{is_agent_name, is_queue_name};
    ghost use Rattle.sqs_formats.specs.Outline.{name_of};

    ghost says = { λ k. name_of (if k.is_queue then is_queue_name else is_agent_name)
        k.outline.now k.place };

    #[tactic(auto, unfolding(sqs_formats::specs::Outline::name_of, sqs_formats::specs::Reading::and_then))]
    fn read(&self, section: &Section<'_>, value: &Value, key: &str) -> Result<Text, ReadError> {
        let name = section.text(value, key)?;
        let is_well_formed = if self.is_queue {
            is_queue_name(name.as_bytes())
        } else {
            is_agent_name(name.as_bytes())
        };
        fresh_name(section, key, self.outline, self.place, name, is_well_formed)
    }
}

/// The number of a queue, if it is of the same kind as the agent's queue.
fn of_same_kind(
    section: &Section<'_>,
    key: &str,
    outline: &Outline,
    home: u32,
    number: u32,
) -> Result<u32, ReadError>
    ensures { Gives (λ n. n) result
        (same_kind outline.now home (place_of (table_of section.now) key.now) number) }
{
    if outline.is_fifo_at(number) == outline.is_fifo_at(home) {
        Ok(number)
    } else {
        Err(section.blame(Refusal::KindMismatch, key))
    }
}

/// The name of a queue.
#[derive(Drop)]
pub(crate) struct NamedQueue<'o> {
    pub(crate) outline: &'o Outline,
}

impl KeyType for NamedQueue<'_> {
    type Value = u32;

    ghost use Rattle.sqs_formats.specs.Outline.{queue_named};

    ghost says = { λ k. queue_named k.outline.now };

    #[tactic(auto, unfolding(sqs_formats::specs::Outline::queue_named, sqs_formats::specs::Reading::and_then))]
    fn read(&self, section: &Section<'_>, value: &Value, key: &str) -> Result<u32, ReadError> {
        let name = section.text(value, key)?;
        match self.outline.queue_number(name.as_bytes()) {
            Some(number) => Ok(number),
            None => Err(section.blame(Refusal::UnknownQueue, key)),
        }
    }
}

/// The name of a queue of the same kind as the agent's queue.
#[derive(Drop)]
pub(crate) struct KinQueue<'o> {
    pub(crate) outline: &'o Outline,
    pub(crate) home: u32,
}

impl KeyType for KinQueue<'_> {
    type Value = u32;

    ghost use Rattle.sqs_formats.specs.Outline.{kin_named};

    ghost says = { λ k. kin_named k.outline.now k.home };

    #[tactic(auto, unfolding(sqs_formats::specs::Outline::kin_named, sqs_formats::specs::Reading::and_then))]
    fn read(&self, section: &Section<'_>, value: &Value, key: &str) -> Result<u32, ReadError> {
        let outline = self.outline;
        let number = NamedQueue { outline }.read(section, value, key)?;
        of_same_kind(section, key, outline, self.home, number)
    }
}

impl ListItem for KinQueue<'_> {
    type Item = u32;

    ghost use Rattle.sqs_formats.specs.Outline.{kin_named};

    ghost says = { λ k count before. kin_named k.outline.now k.home };

    fn read_item(
        &self,
        _count: usize,
        _before: &[u32],
        section: &Section<'_>,
        value: &Value,
        place: &str,
    ) -> Result<u32, ReadError> {
        self.read(section, value, place)
    }
}

/// The names of 1 to 10 queues of the same kind as the agent's queue in a list, or one name. Before
/// version 3 only one name is right.
#[derive(Drop)]
pub(crate) struct KinQueues<'o> {
    pub(crate) outline: &'o Outline,
    pub(crate) home: u32,
}

impl KeyType for KinQueues<'_> {
    type Value = Listed<u32>;

    ghost use Rattle.sqs_formats.specs.Outline.{kins_named};

    ghost says = { λ k. kins_named k.outline.now k.home };

    #[tactic(auto, unfolding(sqs_formats::specs::Outline::kins_named, sqs_formats::specs::Reading::and_then))]
    fn read(
        &self,
        section: &Section<'_>,
        value: &Value,
        key: &str,
    ) -> Result<Listed<u32>, ReadError> {
        let (outline, home) = (self.outline, self.home);
        let queue = KinQueue { outline, home };
        if outline.version() >= 3 && value.is_array() {
            let queues = list_of(section, value, key, 1, 10, &queue)?;
            return Ok(Listed::new(queues));
        }
        let number = queue.read(section, value, key)?;
        Ok(Listed::new(vec![in section.alloc; number]?))
    }
}

/// The name of a queue of the same kind as the agent's queue, and not that queue itself.
#[derive(Drop)]
pub(crate) struct OtherKinQueue<'o> {
    pub(crate) outline: &'o Outline,
    pub(crate) home: u32,
}

impl KeyType for OtherKinQueue<'_> {
    type Value = u32;

    ghost use Rattle.sqs_formats.specs.Outline.{other_kin_named};

    ghost says = { λ k. other_kin_named k.outline.now k.home };

    #[tactic(auto, unfolding(sqs_formats::specs::Outline::other_kin_named, sqs_formats::specs::Reading::and_then))]
    fn read(&self, section: &Section<'_>, value: &Value, key: &str) -> Result<u32, ReadError> {
        let outline = self.outline;
        let number = NamedQueue { outline }.read(section, value, key)?;
        if number == self.home {
            return Err(section.blame(Refusal::UnknownQueue, key));
        }
        of_same_kind(section, key, outline, self.home, number)
    }
}

/// The name of a queue that some queue names as its dead-letter queue.
#[derive(Drop)]
pub(crate) struct SourceQueue<'o> {
    pub(crate) outline: &'o Outline,
}

impl KeyType for SourceQueue<'_> {
    type Value = u32;

    ghost use Rattle.sqs_formats.specs.Outline.{source_named};

    ghost says = { λ k. source_named k.outline.now };

    #[tactic(auto, unfolding(sqs_formats::specs::Outline::source_named, sqs_formats::specs::Reading::and_then))]
    fn read(&self, section: &Section<'_>, value: &Value, key: &str) -> Result<u32, ReadError> {
        let outline = self.outline;
        let name = section.text(value, key)?;
        let number = NamedQueue { outline }.read(section, value, key)?;
        if outline.is_dead_letter(name.as_bytes()) {
            Ok(number)
        } else {
            Err(section.blame(Refusal::UnknownQueue, key))
        }
    }
}

/// The name of a scaler of the agent's queue.
#[derive(Drop)]
pub(crate) struct NamedScaler<'o> {
    pub(crate) outline: &'o Outline,
    pub(crate) home: u32,
}

impl KeyType for NamedScaler<'_> {
    type Value = u32;

    ghost use Rattle.sqs_formats.specs.Outline.{scaler_named};

    ghost says = { λ k. scaler_named k.outline.now k.home };

    #[tactic(auto, unfolding(sqs_formats::specs::Outline::scaler_named, sqs_formats::specs::Reading::and_then))]
    fn read(&self, section: &Section<'_>, value: &Value, key: &str) -> Result<u32, ReadError> {
        let name = section.text(value, key)?;
        match self.outline.scaler_number(self.home, name.as_bytes()) {
            Some(number) => Ok(number),
            None => Err(section.blame(Refusal::UnknownQueue, key)),
        }
    }
}

/// The name of a dead-letter queue, which is checked once all queues are read: 0 if there is no
/// queue of this name.
#[derive(Drop)]
pub(crate) struct DeadLetterName<'o> {
    pub(crate) outline: &'o Outline,
}

impl KeyType for DeadLetterName<'_> {
    type Value = u32;

    ghost use Rattle.sqs_formats.specs.Outline.{dead_letter_named};

    ghost says = { λ k. dead_letter_named k.outline.now };

    #[tactic(auto, unfolding(sqs_formats::specs::Outline::dead_letter_named, sqs_formats::specs::Reading::and_then))]
    fn read(&self, section: &Section<'_>, value: &Value, key: &str) -> Result<u32, ReadError> {
        let name = section.text(value, key)?;
        Ok(self.outline.queue_number(name.as_bytes()).unwrap_or(0))
    }
}
