//! Lists in a table of a scenario's text whose items are no tables.
ghost use Rattle.std.specs.Prelude.{◌≡◌, [], map};
ghost use Rattle.toml.specs.View.{view};
ghost use Rattle.sqs_formats.specs.Lists.{list_of as the_list_of, pair as a_pair, sized_list as a_sized_list};
ghost use Rattle.sim_scenario.specs.Gives.{Gives};
ghost use Rattle.sim_scenario.specs.Sections.{GivesAt, items_at, key_place};

use crate::fault::ReadError;
use crate::key_type::{Integer, KeyType};
use crate::place::item_place;
use crate::section::Section;
use sim_clock::Refusal;
use sqs_message::Listed;
use std::alloc::Global;
use toml::Value;

/// What the items of a list are.
pub(crate) trait ListItem {
    ghost use Rattle.std.specs.Prelude.{List, ℕ};
    ghost use Rattle.toml.specs.View.{view};
    ghost use Rattle.sqs_formats.specs.Keys.{KeyType, place_of};
    ghost use Rattle.sim_scenario.specs.Gives.{Gives};
    ghost use Rattle.sim_scenario.specs.Sections.{table_of};

    /// What an item says.
    type Item: Drop;

    // The type of an item in the definitions, by the number of items and those before it.
    ghost says: { Self → ℕ → List Self.Item → KeyType Self.Item };

    /// Reads one of `count` items at its place, after those before it.
    fn read_item(
        &self,
        count: usize,
        before: &[Self::Item],
        section: &Section<'_>,
        value: &Value,
        place: &str,
    ) -> Result<Self::Item, ReadError>
        ensures { GivesAt (λ x. x) result section.now place.now value.now
            (says self.now count before.now) };
}

/// The list that a value at a key is, of a number of items from `least` to `most`.
#[tactic(auto, unfolding(sqs_formats::specs::Lists::sized_list, sqs_formats::specs::Reading::and_then))]
fn sized_list<'v>(
    section: &Section<'_>,
    value: &'v Value,
    key: &str,
    least: usize,
    most: usize,
) -> Result<&'v [Value], ReadError>
    ensures { GivesAt (λ vs. map view vs.now) result section.now key.now value.now
        (a_sized_list least most) }
{
    let values = section.items(value, key)?;
    if values.len() < least {
        return Err(section.blame(Refusal::OutOfRange, key));
    }
    if values.len() > most {
        return Err(section.blame(Refusal::TooMany, key));
    }
    Ok(values)
}

/// Reads all items of the list at a key.
pub(crate) fn items<T: ListItem>(
    section: &Section<'_>,
    values: &[Value],
    key: &str,
    of: &T,
) -> Result<Vec<T::Item>, ReadError>
    ensures { Gives (λ v. v.items) result (items_at (T.says of.now)
        (key_place section.now key.now) values.now) }
{
    let mut items = Vec::with_capacity(section.alloc, values.len())?;
    for (i, value) in values.iter().enumerate() {
        let place = item_place(section.alloc, key, i)?;
        let item = of.read_item(
            values.len(),
            items.as_slice(),
            section,
            value,
            place.as_str(),
        )?;
        items.push(item)?;
    }
    Ok(items)
}

/// The list at a key, of a number of items from `least` to `most`.
#[tactic(auto, unfolding(sqs_formats::specs::Lists::list_of, sqs_formats::specs::Reading::and_then))]
pub(crate) fn list_of<T: ListItem>(
    section: &Section<'_>,
    value: &Value,
    key: &str,
    least: usize,
    most: usize,
    of: &T,
) -> Result<Vec<T::Item>, ReadError>
    ensures { GivesAt (λ v. v.items) result section.now key.now value.now (the_list_of least most
        (T.says of.now)) }
{
    let values = sized_list(section, value, key, least, most)?;
    items(section, values, key, of)
}

/// The two items of the list at a key.
#[tactic(auto, unfolding(sqs_formats::specs::Lists::pair, sqs_formats::specs::Reading::and_then))]
pub(crate) fn pair<'v>(
    section: &Section<'_>,
    value: &'v Value,
    key: &str,
) -> Result<(&'v Value, &'v Value), ReadError>
    ensures { GivesAt (λ p.
        (view p.0.now, view p.1.now)) result section.now key.now value.now a_pair }
{
    let values = section.items(value, key)?;
    match values {
        [first, second] => Ok((first, second)),
        _ => Err(section.blame(Refusal::OutOfRange, key)),
    }
}

/// No integers, which is the default of a list of them.
pub(crate) fn no_integers(alloc: Global) -> Listed<u64>
    ensures { result ≡ [] }
{
    Listed::new(Vec::new(alloc))
}

impl ListItem for Integer {
    type Item = u64;

    ghost use Rattle.sqs_formats.specs.Keys.{integer};

    ghost says = { λ k count before. integer k.0 k.1 };

    fn read_item(
        &self,
        _count: usize,
        _before: &[u64],
        section: &Section<'_>,
        value: &Value,
        place: &str,
    ) -> Result<u64, ReadError> {
        self.read(section, value, place)
    }
}

/// A list of a number of integers, from the first number to the second, each of which is from the
/// third number to the fourth.
#[derive(Drop)]
pub(crate) struct Integers(
    pub(crate) usize,
    pub(crate) usize,
    pub(crate) u64,
    pub(crate) u64,
);

impl KeyType for Integers {
    type Value = Listed<u64>;

    ghost use Rattle.sqs_formats.specs.Lists.{integers};

    ghost says = { λ k. integers k.0 k.1 k.2 k.3 };

    fn read(
        &self,
        section: &Section<'_>,
        value: &Value,
        key: &str,
    ) -> Result<Listed<u64>, ReadError> {
        let integers = list_of(
            section,
            value,
            key,
            self.0,
            self.1,
            &Integer(self.2, self.3),
        )?;
        Ok(Listed::new(integers))
    }
}
