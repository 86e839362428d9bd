//! The tables of a scenario's text, by whose keys it is read.
ghost use Rattle.std.specs.Prelude.{◌≡◌, [], Ok, flat_map, map, option_map};
ghost use Rattle.std.specs.List.{list_any};
ghost use Rattle.std.specs.Str.{bytes_eq};
ghost use Rattle.toml.specs.Data.{as_table, get_member};
ghost use Rattle.toml.specs.View.{table_view, view};
ghost use Rattle.sqs_formats.specs.Keys.{at as the_value, bounds, fault_at, has, item_place, item_table, list as a_list, maybe, newer, only, optional, place_of, required, says, text as a_text, text_when};
ghost use Rattle.sim_scenario.specs.Gives.{Gives, Names, table as the_table};
ghost use Rattle.sim_scenario.specs.Sections.{table_of};

use crate::fault::{ReadError, blame};
use crate::key_type::{Integer, KeyType};
use crate::place::{Place, item_place};
use sim_clock::Refusal;
use sqs_message::Text;
use std::alloc::Global;
use toml::{Table, Value};

/// A table of a scenario's text, with the place of its keys. In contracts `table_of` says what the
/// definitions see of it.
#[derive(Drop)]
pub(crate) struct Section<'a> {
    /// For the places of faults and for what is read.
    pub(crate) alloc: Global,
    /// None if it has no keys.
    table: Option<&'a Table>,
    place: Place,
}

/// The keys of every actor.
pub(crate) const ACTOR_KEYS: &[&str] = &["name", "kind", "queue"];

/// The value of a table at a key.
pub(crate) fn member<'a>(table: &'a Table, key: &str) -> Option<&'a Value>
    ensures { option_map (λ v. view v.now) result ≡ get_member key.now (table_view table.now) }
{
    table.get(key)
}

/// The text that a value is, or none.
pub(crate) fn text_when(value: Option<&Value>) -> &str
    ensures { result.now ≡ text_when (option_map (λ v. view v.now) value.entry) }
{
    match value {
        None => "",
        Some(value) => match value.as_str() {
            None => "",
            Some(text) => text,
        },
    }
}

/// Whether the list has a key.
fn is_listed(keys: &[&str], key: &str) -> bool
    ensures { result ≡ list_any (λ k. bytes_eq k.now key.now) keys.now }
{
    keys.iter().any(|k| *k == key)
}

/// Whether one of the lists has a key.
fn is_known(known: &[&[&str]], key: &str) -> bool
    ensures { result ≡ list_any (λ ks. list_any (λ k. bytes_eq k.now key.now) ks.now) known.now }
{
    known.iter().any(|keys| is_listed(keys, key))
}

/// Finds the first key, in the order of their bytes, that a table may not have: one that is in none
/// of the lists.
fn known_keys(
    alloc: Global,
    table: &Table,
    place: &Place,
    known: &[&[&str]],
) -> Result<(), ReadError>
    ensures { Gives (λ u. u) result (only (flat_map (λ ks. map (λ k. k.now) ks.now) known.now)
        (the_table place.now (table_view table.now))) }
{
    for key in table.keys() {
        if !is_known(known, key.as_str()) {
            return Err(blame(alloc, Refusal::UnknownKey, place, key.as_str()));
        }
    }
    Ok(())
}

impl<'a> Section<'a> {
    /// The top table.
    pub(crate) fn top(alloc: Global, table: &'a Table) -> Section<'a>
        ensures { table_of result ≡ the_table [] (table_view table.now) }
    {
        Section {
            alloc,
            table: Some(table),
            place: Place::top(),
        }
    }

    /// The table that an item of a list is.
    pub(crate) fn item(
        alloc: Global,
        list: &'static str,
        number: usize,
        value: &'a Value,
    ) -> Result<Section<'a>, ReadError>
        ensures { Gives table_of result
            (item_table (item_place list.now number) (as_table (view value.now))) }
    {
        match value.as_table() {
            Some(table) => Ok(Section {
                alloc,
                table: Some(table),
                place: Place::item(list, number),
            }),
            None => {
                let item = item_place(alloc, list, number)?;
                Err(blame(alloc, Refusal::WrongType, &Place::top(), item.as_str()))
            }
        }
    }

    /// The fault at a key, or out of memory.
    pub(crate) fn blame(&self, refusal: Refusal, key: &str) -> ReadError
        ensures { Names result (fault_at refusal (place_of (table_of self.now) key.now)) }
    {
        blame(self.alloc, refusal, &self.place, key)
    }

    /// The table in which keys are looked for that are known from version 3 on alone.
    pub(crate) fn newer(&self, version: u64) -> Section<'a>
        ensures { table_of result ≡ newer version (table_of self.now) }
    {
        Section {
            alloc: self.alloc,
            table: if version >= 3 { self.table } else { None },
            place: self.place.copy(),
        }
    }

    /// The value at a key.
    fn at(&self, key: &str) -> Option<&'a Value>
        ensures { option_map (λ v. view v.now) result ≡ the_value (table_of self.now) key.now }
    {
        member(self.table?, key)
    }

    /// Whether there is a value at a key.
    pub(crate) fn has(&self, key: &str) -> bool
        ensures { result ≡ has (table_of self.now) key.now }
    {
        self.at(key).is_some()
    }

    /// Whether the value at a key is this word.
    pub(crate) fn says(&self, key: &str, word: &str) -> bool
        ensures { result ≡ says (table_of self.now) key.now word.now }
    {
        text_when(self.at(key)) == word
    }

    /// Checks that the table has none but the keys in these lists.
    pub(crate) fn only(&self, known: &[&[&str]]) -> Result<(), ReadError>
        ensures { Gives (λ u. u) result
            (only (flat_map (λ ks. map (λ k. k.now) ks.now) known.now) (table_of self.now)) }
    {
        match self.table {
            Some(table) => known_keys(self.alloc, table, &self.place, known),
            None => Ok(()),
        }
    }

    /// The text that a value at a key is.
    pub(crate) fn text<'v>(&self, value: &'v Value, key: &str) -> Result<&'v str, ReadError>
        ensures { Gives (λ s. s.now) result
            (a_text (place_of (table_of self.now) key.now) (view value.now)) }
    {
        match value.as_str() {
            Some(text) => Ok(text),
            None => Err(self.blame(Refusal::WrongType, key)),
        }
    }

    /// A text of the scenario as one of its own.
    pub(crate) fn owned(&self, text: &str) -> Result<Text, ReadError>
        ensures { Gives (λ t. t) result (Ok text.now) }
    {
        Ok(Text::new(text.as_bytes().to_vec(self.alloc)?))
    }

    /// The items of the list that a value at a key is.
    #[tactic(auto, using(crate::proofs::ListItems::in_order_is), unfolding(sqs_formats::specs::Reading::and_then))]
    pub(crate) fn items<'v>(&self, value: &'v Value, key: &str) -> Result<&'v [Value], ReadError>
        ensures { Gives (λ vs. map view vs.now) result
            (a_list (place_of (table_of self.now) key.now) (view value.now)) }
    {
        match value.as_array() {
            Some(values) => Ok(values.as_slice()),
            None => Err(self.blame(Refusal::WrongType, key)),
        }
    }

    /// The items of the list at a key, which is required.
    #[tactic(auto, unfolding(sqs_formats::specs::Keys::required, sqs_formats::specs::Reading::and_then))]
    pub(crate) fn required_list(&self, key: &str) -> Result<&'a [Value], ReadError>
        ensures { Gives (λ vs. map view vs.now) result (required a_list
            (table_of self.now) key.now) }
    {
        match self.at(key) {
            Some(value) => self.items(value, key),
            None => Err(self.blame(Refusal::MissingKey, key)),
        }
    }

    /// The items of the list at a key, which may be left out.
    #[tactic(auto, unfolding(sqs_formats::specs::Keys::optional))]
    pub(crate) fn optional_list(&self, key: &str) -> Result<&'a [Value], ReadError>
        ensures { Gives (λ vs. map view vs.now) result (optional [] a_list
            (table_of self.now) key.now) }
    {
        match self.at(key) {
            Some(value) => self.items(value, key),
            None => Ok(&[]),
        }
    }

    /// What the value at a key says; the key is required.
    #[tactic(auto, unfolding(sqs_formats::specs::Keys::required, sqs_formats::specs::Reading::and_then))]
    pub(crate) fn required<K: KeyType>(&self, key: &str, of: &K) -> Result<K::Value, ReadError>
        ensures { Gives (λ x. x) result (required (K.says of.now) (table_of self.now) key.now) }
    {
        match self.at(key) {
            Some(value) => of.read(self, value, key),
            None => Err(self.blame(Refusal::MissingKey, key)),
        }
    }

    /// What the value at a key says; the default if the key is left out.
    #[tactic(auto, unfolding(sqs_formats::specs::Keys::optional))]
    pub(crate) fn optional<K: KeyType>(
        &self,
        key: &str,
        of: &K,
        default: K::Value,
    ) -> Result<K::Value, ReadError>
        ensures { Gives (λ x. x) result (optional default (K.says of.now)
            (table_of self.now) key.now) }
    {
        match self.at(key) {
            Some(value) => of.read(self, value, key),
            None => Ok(default),
        }
    }

    /// Two bounds from 1 to `most`, at keys that are required. The second is no less than the first.
    #[tactic(auto, unfolding(sqs_formats::specs::Keys::bounds, sqs_formats::specs::Reading::and_then))]
    pub(crate) fn bounds(&self, low: &str, high: &str, most: u64) -> Result<(u64, u64), ReadError>
        ensures { Gives (λ x. x) result (bounds most (table_of self.now) low.now high.now) }
    {
        let least = self.required(low, &Integer(1, most))?;
        let greatest = self.required(high, &Integer(least, most))?;
        Ok((least, greatest))
    }

    /// What the value at a key says, if the key is not left out.
    #[tactic(auto, unfolding(sqs_formats::specs::Keys::optional, sqs_formats::specs::Reading::and_then))]
    pub(crate) fn maybe<K: KeyType>(&self, key: &str, of: &K) -> Result<Option<K::Value>, ReadError>
        ensures { Gives (λ x. x) result (maybe (K.says of.now) (table_of self.now) key.now) }
    {
        match self.at(key) {
            Some(value) => {
                let read = of.read(self, value, key)?;
                Ok(Some(read))
            }
            None => Ok(None),
        }
    }
}
