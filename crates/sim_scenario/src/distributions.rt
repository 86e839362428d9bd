//! Times in a scenario's text: two bounds, or quantiles in their place.
ghost use Rattle.std.specs.Prelude.{◌≡◌};
ghost use Rattle.sqs_formats.specs.Distributions.{last_of as the_last_of, least_time, permilles, rises, time as the_time};
ghost use Rattle.sim_scenario.specs.Gives.{Returns};
ghost use Rattle.sim_scenario.specs.Sections.{table_of};

use crate::fault::ReadError;
use crate::key_type::{Integer, KeyType};
use crate::lists::{ListItem, list_of, pair};
use crate::section::Section;
use sim_clock::Refusal;
use sqs_message::Listed;
use sqs_model::{Distribution, Quantile};
use toml::Value;

/// The last of some quantiles.
fn last_of(quantiles: &[Quantile]) -> Option<Quantile>
    ensures { result ≡ the_last_of quantiles.now }
{
    if quantiles.is_empty() {
        None
    } else {
        Some(quantiles[quantiles.len() - 1])
    }
}

/// The permilles of a quantile, by whether it is the first and whether it is the last.
fn permilles(is_first: bool, is_last: bool) -> (u64, u64)
    ensures { result ≡ permilles is_first is_last }
{
    if is_first {
        (0, 0)
    } else if is_last {
        (1000, 1000)
    } else {
        (1, 999)
    }
}

/// Whether a permille is greater than that of the quantile before it.
fn rises(last: Option<Quantile>, permille: u64) -> bool
    ensures { result ≡ rises last permille }
{
    match last {
        None => true,
        Some(last) => last.permille < permille,
    }
}

/// The least time of a quantile, by the one before it.
fn least_time(last: Option<Quantile>) -> u64
    ensures { result ≡ least_time last }
{
    match last {
        None => 1,
        Some(last) => last.time,
    }
}

/// A quantile, as `[500, 120]`.
#[derive(Drop)]
struct Pair;

impl ListItem for Pair {
    type Item = Quantile;

    ghost use Rattle.sqs_formats.specs.Distributions.{quantile};

    ghost says = { λ k. quantile };

    #[tactic(auto, unfolding(sqs_formats::specs::Distributions::quantile, sqs_formats::specs::Reading::and_then))]
    fn read_item(
        &self,
        count: usize,
        before: &[Quantile],
        section: &Section<'_>,
        value: &Value,
        place: &str,
    ) -> Result<Quantile, ReadError> {
        let (first, second) = pair(section, value, place)?;
        let (low, high) = permilles(before.is_empty(), before.len() + 1 == count);
        let permille = Integer(low, high).read(section, first, place)?;
        let last = last_of(before);
        if !rises(last, permille) {
            return Err(section.blame(Refusal::OutOfRange, place));
        }
        let time = Integer(least_time(last), 86_400_000).read(section, second, place)?;
        Ok(Quantile { permille, time })
    }
}

/// Quantiles from 0 to 1,000 in a thousand.
#[derive(Drop)]
struct Quantiles;

impl KeyType for Quantiles {
    type Value = Listed<Quantile>;

    ghost use Rattle.sqs_formats.specs.Distributions.{quantiles};

    ghost says = { λ k. quantiles };

    fn read(
        &self,
        section: &Section<'_>,
        value: &Value,
        key: &str,
    ) -> Result<Listed<Quantile>, ReadError> {
        let quantiles = list_of(section, value, key, 2, 32, &Pair)?;
        Ok(Listed::new(quantiles))
    }
}

/// A time: quantiles at the key, or else the two bounds.
#[tactic(auto, unfolding(sqs_formats::specs::Distributions::time, sqs_formats::specs::Reading::and_then))]
pub(crate) fn time(
    by_quantiles: bool,
    key: &str,
    low: &str,
    high: &str,
    section: &Section<'_>,
) -> Result<Distribution, ReadError>
    ensures { Returns result (the_time by_quantiles key.now low.now high.now (table_of section.now)) }
{
    if by_quantiles {
        let quantiles = section.required(key, &Quantiles)?;
        Ok(Distribution::Quantiles(quantiles))
    } else {
        let (least, greatest) = section.bounds(low, high, 86_400_000)?;
        Ok(Distribution::Uniform(least, greatest))
    }
}
