//! How many copies a scaler in a scenario's text wants: one for each of so many visible messages, or
//! by steps.
ghost use Rattle.std.specs.Option.{option_copied};
ghost use Rattle.std.specs.Prelude.{◌≡◌, map};
ghost use Rattle.sqs_formats.specs.Targets.{is_further as the_is_further, target as the_target, target_keys};
ghost use Rattle.sim_scenario.specs.Gives.{Gives};
ghost use Rattle.sim_scenario.specs.Sections.{table_of};

use crate::fault::ReadError;
use crate::key_type::{Integer, KeyType};
use crate::lists::{ListItem, list_of, pair};
use crate::section::Section;
use sim_clock::Refusal;
use sqs_message::Listed;
use sqs_model::{ScalingStep, Target};
use toml::Value;

/// Whether so many visible messages are more than the step before has, if there is one.
fn is_further(before: Option<&ScalingStep>, visible: u64) -> bool
    ensures { result ≡ the_is_further (option_copied before.entry) visible }
{
    match before {
        None => true,
        Some(before) => before.visible < visible,
    }
}

/// A step, as `[100, 4]`.
#[derive(Drop)]
struct Pair;

impl ListItem for Pair {
    type Item = ScalingStep;

    ghost use Rattle.sqs_formats.specs.Targets.{step};

    ghost says = { λ k count. step };

    #[tactic(auto, unfolding(sqs_formats::specs::Targets::step, sqs_formats::specs::Reading::and_then))]
    fn read_item(
        &self,
        _count: usize,
        before: &[ScalingStep],
        section: &Section<'_>,
        value: &Value,
        place: &str,
    ) -> Result<ScalingStep, ReadError> {
        let (first, second) = pair(section, value, place)?;
        let visible = Integer(0, 1_000_000).read(section, first, place)?;
        if !is_further(before.last(), visible) {
            return Err(section.blame(Refusal::OutOfRange, place));
        }
        let copies = Integer(0, 1000).read(section, second, place)?;
        Ok(ScalingStep { visible, copies })
    }
}

/// 1 to 32 steps.
#[derive(Drop)]
struct Steps;

impl KeyType for Steps {
    type Value = Listed<ScalingStep>;

    ghost use Rattle.sqs_formats.specs.Targets.{steps};

    ghost says = { λ k. steps };

    fn read(
        &self,
        section: &Section<'_>,
        value: &Value,
        key: &str,
    ) -> Result<Listed<ScalingStep>, ReadError> {
        let steps = list_of(section, value, key, 1, 32, &Pair)?;
        Ok(Listed::new(steps))
    }
}

/// The keys of what a scaler wants, by whether it has steps.
pub(crate) fn target_keys(has_steps: bool) -> &'static [&'static str]
    ensures { map (λ k. k.now) result.now ≡ target_keys has_steps }
{
    if has_steps {
        &["steps"]
    } else {
        &["visible_per_copy"]
    }
}

/// What a scaler wants.
#[tactic(auto, unfolding(sqs_formats::specs::Targets::target_by, sqs_formats::specs::Reading::and_then))]
pub(crate) fn target(section: &Section<'_>) -> Result<Target, ReadError>
    ensures { Gives (λ r. r) result (the_target (table_of section.now)) }
{
    if section.has("steps") {
        let steps = section.required("steps", &Steps)?;
        return Ok(Target::Steps(steps));
    }
    let messages = section.required("visible_per_copy", &Integer(1, 1_000_000))?;
    Ok(Target::PerCopy(messages))
}
