//! The outages of a consumer in a scenario's text: a list of stretches of time, or one.
ghost use Rattle.std.specs.Prelude.{◌≡◌, [], ◌∷◌, map, IfOk};
ghost use Rattle.sqs_formats.specs.Outages.{one_each as the_one_each, one_for_all as the_one_for_all, one_stretch as the_one_stretch, outage_keys, outages as the_outages, outages_in, permille_at as the_permille_at, stretches_by as the_stretches_by};
ghost use Rattle.sim_scenario.specs.Gives.{Gives};
ghost use Rattle.sim_scenario.specs.Sections.{GivesAt, table_of};

use crate::fault::ReadError;
use crate::key_type::{Integer, KeyType};
use crate::lists::{ListItem, items, list_of, no_integers, pair};
use crate::section::Section;
use sim_clock::Refusal;
use sqs_message::Listed;
use sqs_model::{Outage, Stretch};
use std::alloc::{AllocError, Global};
use toml::Value;

/// A stretch of time, as `[600000, 1800000]`.
#[derive(Drop)]
struct Pair;

impl ListItem for Pair {
    type Item = Stretch;

    ghost use Rattle.sqs_formats.specs.Outages.{stretch};

    ghost says = { λ k count before. stretch };

    #[tactic(auto, unfolding(sqs_formats::specs::Outages::stretch, sqs_formats::specs::Reading::and_then))]
    fn read_item(
        &self,
        _count: usize,
        _before: &[Stretch],
        section: &Section<'_>,
        value: &Value,
        place: &str,
    ) -> Result<Stretch, ReadError> {
        let (first, second) = pair(section, value, place)?;
        let from = Integer(0, 2_592_000_000).read(section, first, place)?;
        let to = Integer(from, 2_592_000_000).read(section, second, place)?;
        Ok(Stretch { from, to })
    }
}

/// 1 to 32 stretches of time.
#[derive(Drop)]
struct Stretches;

impl KeyType for Stretches {
    type Value = Listed<Stretch>;

    ghost use Rattle.sqs_formats.specs.Outages.{stretches};

    ghost says = { λ k. stretches };

    fn read(
        &self,
        section: &Section<'_>,
        value: &Value,
        key: &str,
    ) -> Result<Listed<Stretch>, ReadError> {
        let stretches = list_of(section, value, key, 1, 32, &Pair)?;
        Ok(Listed::new(stretches))
    }
}

/// The keys of outages, by whether there is a list of them, and whether the begin of one.
pub(crate) fn outage_keys(has_list: bool, has_one: bool) -> &'static [&'static str]
    ensures { map (λ k. k.now) result.now ≡ outage_keys has_list has_one }
{
    if has_list {
        &["fails_between_ms", "fails_permille"]
    } else if has_one {
        &["fails_from_ms", "fails_to_ms", "fails_permille"]
    } else {
        &[]
    }
}

/// One stretch of time, by its begin and its end.
#[tactic(auto, unfolding(sqs_formats::specs::Outages::one_stretch, sqs_formats::specs::Reading::and_then))]
fn one_stretch(section: &Section<'_>) -> Result<Stretch, ReadError>
    ensures { Gives (λ s. s) result (the_one_stretch (table_of section.now)) }
{
    let from = section.required("fails_from_ms", &Integer(0, 2_592_000_000))?;
    let to = section.required("fails_to_ms", &Integer(from, 2_592_000_000))?;
    Ok(Stretch { from, to })
}

/// The stretches of time of a consumer's outages: a list, or one, or none.
#[tactic(auto, unfolding(sqs_formats::specs::Outages::stretches_by, sqs_formats::specs::Reading::and_then))]
fn stretches_by(
    has_list: bool,
    has_one: bool,
    section: &Section<'_>,
) -> Result<Listed<Stretch>, ReadError>
    ensures { Gives (λ s. s) result (the_stretches_by has_list has_one (table_of section.now)) }
{
    if has_list {
        return section.required("fails_between_ms", &Stretches);
    }
    let mut stretches = Vec::new(section.alloc);
    if has_one {
        stretches.push(one_stretch(section)?)?;
    }
    Ok(Listed::new(stretches))
}

/// Of 1,000 services how many fail in each of so many outages, by a list of as many numbers.
#[tactic(auto, unfolding(sqs_formats::specs::Outages::one_each, sqs_formats::specs::Reading::and_then))]
fn one_each(
    section: &Section<'_>,
    value: &Value,
    key: &str,
    outages: usize,
) -> Result<Vec<u64>, ReadError>
    ensures { GivesAt (λ v. v.items) result section.now key.now value.now
        (the_one_each outages) }
{
    let values = section.items(value, key)?;
    if values.len() != outages {
        return Err(section.blame(Refusal::OutOfRange, key));
    }
    items(section, values, key, &Integer(0, 1000))
}

/// The same by one number for all.
#[tactic(auto, unfolding(sqs_formats::specs::Outages::one_for_all, sqs_formats::specs::Reading::and_then))]
fn one_for_all(section: &Section<'_>, value: &Value, key: &str) -> Result<Vec<u64>, ReadError>
    ensures { GivesAt (λ v. v.items) result section.now key.now value.now the_one_for_all }
{
    let permille = Integer(0, 1000).read(section, value, key)?;
    let mut permilles = Vec::new(section.alloc);
    permilles.push(permille)?;
    Ok(permilles)
}

/// Of 1,000 services how many fail in each of some outages: one number for all, or a list with one
/// for each. There may be a list only if the outages are one.
#[derive(Drop)]
struct Permilles {
    listed: bool,
    outages: usize,
}

impl KeyType for Permilles {
    type Value = Listed<u64>;

    ghost use Rattle.sqs_formats.specs.Outages.{permilles};

    ghost says = { λ k. permilles k.listed k.outages };

    #[tactic(auto, unfolding(sqs_formats::specs::Outages::permilles))]
    fn read(
        &self,
        section: &Section<'_>,
        value: &Value,
        key: &str,
    ) -> Result<Listed<u64>, ReadError> {
        let permilles = if self.listed && value.as_array().is_some() {
            one_each(section, value, key, self.outages)?
        } else {
            one_for_all(section, value, key)?
        };
        Ok(Listed::new(permilles))
    }
}

/// The chance of the outage at a place of their list: its own, or that of all.
fn permille_at(permilles: &[u64], place: usize) -> u64
    ensures { result ≡ the_permille_at permilles.now place }
{
    let of_all = permilles.first().copied().unwrap_or(1000);
    permilles.get(place).copied().unwrap_or(of_all)
}

/// Outages in these stretches of time with their chances.
fn outages_in(
    alloc: Global,
    permilles: &[u64],
    stretches: &[Stretch],
) -> Result<Vec<Outage>, AllocError>
    ensures { IfOk result (λ v. v.items ≡ outages_in permilles.now stretches.now) }
{
    let mut outages = Vec::with_capacity(alloc, stretches.len())?;
    for (place, stretch) in stretches.iter().enumerate() {
        outages.push(Outage {
            stretch: *stretch,
            permille: permille_at(permilles, place),
        })?;
    }
    Ok(outages)
}

/// The outages of a consumer.
#[tactic(auto, unfolding(sqs_formats::specs::Outages::outages, sqs_formats::specs::Reading::and_then))]
pub(crate) fn outages(section: &Section<'_>) -> Result<Listed<Outage>, ReadError>
    ensures { Gives (λ o. o) result (the_outages (table_of section.now)) }
{
    let listed = section.has("fails_between_ms");
    let stretches = stretches_by(listed, section.has("fails_from_ms"), section)?;
    let outages = stretches.as_slice().len();
    let type_of = Permilles { listed, outages };
    let none = no_integers(section.alloc);
    let permilles = section.optional("fails_permille", &type_of, none)?;
    let outages = outages_in(section.alloc, permilles.as_slice(), stretches.as_slice())?;
    Ok(Listed::new(outages))
}
