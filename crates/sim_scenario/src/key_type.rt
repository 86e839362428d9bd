//! The types of keys: how a value at a key is read.
ghost use Rattle.std.specs.Prelude.{◌≤◌, IfOk};
ghost use Rattle.toml.specs.View.{view};
ghost use Rattle.sqs_formats.specs.Keys.{integer as an_integer, place_of};
ghost use Rattle.sim_scenario.specs.Gives.{Gives};
ghost use Rattle.sim_scenario.specs.Sections.{table_of, GivesAt};

use crate::fault::ReadError;
use crate::section::Section;
use sim_clock::Refusal;
use sqs_message::Text;
use toml::Value;

/// A type of key.
pub(crate) trait KeyType {
    ghost use Rattle.toml.specs.View.{view};
    ghost use Rattle.sqs_formats.specs.Keys.{KeyType, place_of};
    ghost use Rattle.sim_scenario.specs.Gives.{Gives};
    ghost use Rattle.sim_scenario.specs.Sections.{table_of};

    /// What a value says.
    type Value: Drop;

    // The same type of key in the definitions.
    ghost says: { Self → KeyType Self.Value };

    /// Reads the value at a key of a table.
    fn read(
        &self,
        section: &Section<'_>,
        value: &Value,
        key: &str,
    ) -> Result<Self::Value, ReadError>
        ensures { Gives (λ x. x) result
            (says self.now (place_of (table_of section.now) key.now) (view value.now)) };
}

/// The number in a value, from `low` to `high`.
#[tactic(auto, unfolding(sqs_formats::specs::Keys::integer, sqs_formats::specs::Reading::and_then))]
fn number(
    section: &Section<'_>,
    value: &Value,
    key: &str,
    low: u64,
    high: u64,
) -> Result<u64, ReadError>
    ensures value { GivesAt (λ n. n) result section.now key.now value.now (an_integer low high) }
    ensures most { IfOk result (λ n. n ≤ high) }
{
    let Some(n) = value.as_integer() else {
        return Err(section.blame(Refusal::WrongType, key));
    };
    if n < 0 {
        return Err(section.blame(Refusal::OutOfRange, key));
    }
    let n = n as u64;
    if low <= n && n <= high {
        Ok(n)
    } else {
        Err(section.blame(Refusal::OutOfRange, key))
    }
}

/// An integer from the first number to the second.
#[derive(Drop)]
pub(crate) struct Integer(pub(crate) u64, pub(crate) u64);

impl KeyType for Integer {
    type Value = u64;

    ghost use Rattle.sqs_formats.specs.Keys.{integer};

    ghost says = { λ k. integer k.0 k.1 };

    fn read(&self, section: &Section<'_>, value: &Value, key: &str) -> Result<u64, ReadError> {
        number(section, value, key, self.0, self.1)
    }
}

/// A small integer from the first number to the second.
#[derive(Drop)]
pub(crate) struct Count(pub(crate) u32, pub(crate) u32);

impl KeyType for Count {
    type Value = u32;

    ghost use Rattle.sqs_formats.specs.Keys.{integer};

    ghost says = { λ k. integer k.0 k.1 };

    fn read(&self, section: &Section<'_>, value: &Value, key: &str) -> Result<u32, ReadError> {
        let count = number(section, value, key, self.0 as u64, self.1 as u64)?;
        Ok(count as u32)
    }
}

/// A time in seconds from the first number to the second, which is read as milliseconds.
#[derive(Drop)]
pub(crate) struct Seconds(pub(crate) u32, pub(crate) u32);

impl KeyType for Seconds {
    type Value = u64;

    ghost use Rattle.sqs_formats.specs.Keys.{seconds};

    ghost says = { λ k. seconds k.0 k.1 };

    #[tactic(auto, unfolding(sqs_formats::specs::Keys::seconds, sqs_formats::specs::Reading::and_then))]
    fn read(&self, section: &Section<'_>, value: &Value, key: &str) -> Result<u64, ReadError> {
        let seconds = number(section, value, key, self.0 as u64, self.1 as u64)?;
        Ok(1000 * seconds)
    }
}

/// A text of a number of bytes, from the first number to the second.
#[derive(Drop)]
pub(crate) struct SizedText(pub(crate) usize, pub(crate) usize);

impl KeyType for SizedText {
    type Value = Text;

    ghost use Rattle.sqs_formats.specs.Keys.{sized_text};

    ghost says = { λ k. sized_text k.0 k.1 };

    #[tactic(auto, unfolding(sqs_formats::specs::Keys::sized_text, sqs_formats::specs::Reading::and_then))]
    fn read(&self, section: &Section<'_>, value: &Value, key: &str) -> Result<Text, ReadError> {
        let text = section.text(value, key)?;
        if text.len() < self.0 || self.1 < text.len() {
            return Err(section.blame(Refusal::OutOfRange, key));
        }
        section.owned(text)
    }
}

/// One of some texts, each of which means something.
#[derive(Drop)]
pub(crate) struct OneOf<T: 'static>(pub(crate) &'static [(&'static str, T)]);

impl<T: Copy> KeyType for OneOf<T> {
    type Value = T;

    ghost use Rattle.std.specs.Prelude.{map};
    ghost use Rattle.sqs_formats.specs.Keys.{one_of};

    ghost says = { λ k. one_of (map (λ m. (m.0.now, m.1)) k.0.now) };

    #[tactic(auto, unfolding(sqs_formats::specs::Keys::one_of, sqs_formats::specs::Reading::and_then))]
    fn read(&self, section: &Section<'_>, value: &Value, key: &str) -> Result<T, ReadError> {
        let name = section.text(value, key)?;
        for (text, meaning) in self.0 {
            if *text == name {
                return Ok(*meaning);
            }
        }
        Err(section.blame(Refusal::OutOfRange, key))
    }
}

/// True or false.
#[derive(Drop)]
pub(crate) struct Boolean;

impl KeyType for Boolean {
    type Value = bool;

    ghost use Rattle.sqs_formats.specs.Keys.{boolean};

    ghost says = { λ k. boolean };

    fn read(&self, section: &Section<'_>, value: &Value, key: &str) -> Result<bool, ReadError> {
        match value.as_bool() {
            Some(truth) => Ok(truth),
            None => Err(section.blame(Refusal::WrongType, key)),
        }
    }
}
