//! Scalers in a scenario's text.
ghost use Rattle.sqs_formats.specs.Actors.{all_scaler_keys, scaler as the_scaler};
ghost use Rattle.sim_scenario.specs.Gives.{Gives};
ghost use Rattle.sim_scenario.specs.Sections.{HasOnly, table_of};

use crate::fault::ReadError;
use crate::key_type::{Count, Integer, Seconds};
use crate::section::{ACTOR_KEYS, Section};
use crate::targets::{target, target_keys};
use sqs_model::{Role, ScalerSettings};

/// The keys of every scaler.
const SCALER_KEYS: &[&str] = &[
    "start_ms",
    "every_s",
    "reading_s",
    "copies_min",
    "copies_max",
    "added_max",
    "taken_max",
    "cooldown_out_s",
    "cooldown_in_s",
];

/// Checks that a scaler has known keys alone.
fn known_scaler_keys(section: &Section<'_>) -> Result<(), ReadError>
    ensures { HasOnly (all_scaler_keys (table_of section.now)) section.now result }
{
    let own = target_keys(section.has("steps"));
    section.only(&[ACTOR_KEYS, SCALER_KEYS, own])
}

/// A scaler.
#[tactic(auto, unfolding(sqs_formats::specs::Reading::and_then))]
pub(crate) fn scaler(section: &Section<'_>) -> Result<Role, ReadError>
    ensures { Gives (λ r. r) result (the_scaler (table_of section.now)) }
{
    known_scaler_keys(section)?;
    let start = section.optional("start_ms", &Integer(0, 2_592_000_000), 0)?;
    let every = section.required("every_s", &Count(1, 86_400))?;
    let reading = section.optional("reading_s", &Count(0, every.saturating_sub(1)), 0)?;
    let target = target(section)?;
    let least = section.optional("copies_min", &Count(0, 1000), 1)?;
    let most = section.required("copies_max", &Count(least, 1000))?;
    let most_added = section.optional("added_max", &Count(1, 1000), 1000)?;
    let most_taken = section.optional("taken_max", &Count(1, 1000), 1000)?;
    let cooldown_out = section.optional("cooldown_out_s", &Seconds(0, 86_400), 0)?;
    let cooldown_in = section.optional("cooldown_in_s", &Seconds(0, 86_400), 0)?;
    Ok(Role::Scaler(ScalerSettings {
        start,
        every: 1000 * every as u64,
        reading: 1000 * reading as u64,
        target,
        least,
        most,
        most_added,
        most_taken,
        cooldown_out,
        cooldown_in,
    }))
}
