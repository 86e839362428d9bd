//! Groups in a scenario's text, each with its weight.
use crate::fault::ReadError;
use crate::key_type::{Integer, KeyType};
use crate::lists::{ListItem, list_of, pair};
use crate::section::Section;
use sim_clock::Refusal;
use sim_script::is_token;
use sqs_message::{Listed, Text};
use sqs_model::WeightedGroup;
use toml::Value;

/// A group, as in scripts.
#[derive(Drop)]
struct Group;

impl KeyType for Group {
    type Value = Text;

    ghost use Rattle.sqs_formats.specs.Groups.{group};

    ghost says = { λ k. group };

    #[tactic(auto, unfolding(sqs_formats::specs::Groups::group, sqs_formats::specs::Reading::and_then))]
    fn read(&self, section: &Section<'_>, value: &Value, key: &str) -> Result<Text, ReadError> {
        let text = section.text(value, key)?;
        if !is_token(128, text.as_bytes()) {
            return Err(section.blame(Refusal::OutOfRange, key));
        }
        section.owned(text)
    }
}

/// A group with its weight, as `["customer-7", 90]`.
#[derive(Drop)]
struct Pair;

impl ListItem for Pair {
    type Item = WeightedGroup;

    ghost use Rattle.sqs_formats.specs.Groups.{weighted_group};

    ghost says = { λ k count before. weighted_group };

    #[tactic(auto, unfolding(sqs_formats::specs::Groups::weighted_group, sqs_formats::specs::Reading::and_then))]
    fn read_item(
        &self,
        _count: usize,
        _before: &[WeightedGroup],
        section: &Section<'_>,
        value: &Value,
        place: &str,
    ) -> Result<WeightedGroup, ReadError> {
        let (first, second) = pair(section, value, place)?;
        let group = Group.read(section, first, place)?;
        let weight = Integer(1, 1_000_000).read(section, second, place)?;
        Ok(WeightedGroup { group, weight })
    }
}

/// 1 to 100 groups with their weights.
#[derive(Drop)]
pub(crate) struct WeightedGroups;

impl KeyType for WeightedGroups {
    type Value = Listed<WeightedGroup>;

    ghost use Rattle.sqs_formats.specs.Groups.{weighted_groups};

    ghost says = { λ k. weighted_groups };

    fn read(
        &self,
        section: &Section<'_>,
        value: &Value,
        key: &str,
    ) -> Result<Listed<WeightedGroup>, ReadError> {
        let groups = list_of(section, value, key, 1, 100, &Pair)?;
        Ok(Listed::new(groups))
    }
}
