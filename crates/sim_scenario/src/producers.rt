//! A producer of a scenario's text.
ghost use Rattle.std.specs.Prelude.{◌≡◌, IfOk, length, map, nat_le};
ghost use Rattle.sqs_formats.specs.Actors.{all_producer_keys, gap as the_gap, gap_keys, is_producer_body, newer_producer_keys, producing, sending as the_sending, sending_keys, stopping};
ghost use Rattle.sqs_formats.specs.Groups.{groups as the_groups};
ghost use Rattle.sqs_formats.specs.Keys.{only};
ghost use Rattle.sqs_message.specs.Bodies.{filled};
ghost use Rattle.sim_scenario.specs.Gives.{Gives};
ghost use Rattle.sim_scenario.specs.Sections.{table_of, HasOnly};

use crate::distributions::time;
use crate::fault::ReadError;
use crate::groups::WeightedGroups;
use crate::key_type::{Boolean, Integer, KeyType};
use crate::section::{ACTOR_KEYS, Section};
use sim_clock::Refusal;
use sqs_message::{Template, has_mark};
use sqs_model::{Distribution, Groups, ProducerSettings, Role};
use std::alloc::{AllocError, Global};
use toml::Value;

/// The keys of every producer.
const PRODUCER_KEYS: &[&str] = &["count", "start_ms", "body"];

/// The keys of the time from one send to the next.
fn gap_keys(by_quantiles: bool) -> &'static [&'static str]
    ensures { map (λ k. k.now) result.now ≡ gap_keys by_quantiles }
{
    if by_quantiles {
        &["gap"]
    } else {
        &["gap_min_ms", "gap_max_ms"]
    }
}

/// The keys that only a producer of a queue of this kind has.
fn sending_keys(is_fifo: bool, by_weight: bool) -> &'static [&'static str]
    ensures { map (λ k. k.now) result.now ≡ sending_keys is_fifo by_weight }
{
    match (is_fifo, by_weight) {
        (true, true) => &["key_groups", "ids"],
        (true, false) => &["groups", "ids"],
        (false, _) => &["delay_s"],
    }
}

/// The keys that a producer has from version 3 on.
fn newer_producer_keys(version: u64) -> &'static [&'static str]
    ensures { map (λ k. k.now) result.now ≡ newer_producer_keys version }
{
    if version >= 3 {
        &["stop_ms", "copies"]
    } else {
        &[]
    }
}

/// Checks that a producer has known keys alone.
fn known_producer_keys(version: u64, is_fifo: bool, section: &Section<'_>) -> Result<(), ReadError>
    ensures { HasOnly (all_producer_keys version is_fifo
        (table_of section.now)) section.now result }
{
    let newer = section.newer(version);
    let gap = gap_keys(newer.has("gap"));
    let own = sending_keys(is_fifo, newer.has("key_groups"));
    let newer_keys = newer_producer_keys(version);
    section.only(&[ACTOR_KEYS, PRODUCER_KEYS, gap, own, newer_keys])
}

/// The groups to which a producer sends, in turn or by weight.
#[tactic(auto, unfolding(sqs_formats::specs::Groups::groups, sqs_formats::specs::Reading::and_then))]
fn groups(by_weight: bool, section: &Section<'_>) -> Result<Groups, ReadError>
    ensures { Gives (λ g. g) result (the_groups by_weight (table_of section.now)) }
{
    if by_weight {
        let weighted = section.required("key_groups", &WeightedGroups)?;
        Ok(Groups::ByWeight(weighted))
    } else {
        let count = section.required("groups", &Integer(1, 1000))?;
        Ok(Groups::InTurn(count))
    }
}

/// The groups, the ids and the delay of a producer, by the kind of its queue.
#[tactic(auto, unfolding(sqs_formats::specs::Actors::sending, sqs_formats::specs::Reading::and_then))]
fn sending(
    is_fifo: bool,
    by_weight: bool,
    section: &Section<'_>,
) -> Result<(Option<Groups>, bool, Option<u64>), ReadError>
    ensures { Gives (λ s. s) result (the_sending is_fifo by_weight (table_of section.now)) }
{
    if is_fifo {
        let groups = groups(by_weight, section)?;
        let ids = section.optional("ids", &Boolean, true)?;
        Ok((Some(groups), ids, None))
    } else {
        let delay = section.maybe("delay_s", &Integer(0, 900))?;
        Ok((None, false, delay))
    }
}

/// Whether a body has at most `most` bytes if these digits replace each `{n}`.
fn fits(body: &[u8], digits: &[u8], most: usize) -> bool
    ensures { result ≡ nat_le (length (filled digits.now body.now)) most }
{
    let mut left = most;
    let mut rest = body;
    while !rest.is_empty() {
        if has_mark(rest) {
            if digits.len() > left {
                return false;
            }
            left -= digits.len();
            rest = &rest[3..];
        } else {
            if left == 0 {
                return false;
            }
            left -= 1;
            rest = &rest[1..];
        }
    }
    true
}

/// Whether a body has 1 to 1,024 bytes for the first and the last of `count` messages.
#[tactic(auto, using(crate::proofs::ProducerBody::body_none, crate::proofs::ProducerBody::body_some))]
fn is_producer_body(alloc: Global, count: u64, body: &[u8]) -> Result<bool, AllocError>
    ensures { IfOk result (λ b. b ≡ is_producer_body count body.now) }
{
    if body.is_empty() {
        return Ok(false);
    }
    let last = count.saturating_sub(1).to_string(alloc)?;
    Ok(fits(body, last.as_bytes(), 1024))
}

/// The body of `count` messages.
#[derive(Drop)]
struct Body {
    count: u64,
}

impl KeyType for Body {
    type Value = Template;

    ghost use Rattle.sqs_formats.specs.Actors.{producer_body};

    ghost says = { λ k. producer_body k.count };

    #[tactic(auto, unfolding(sqs_formats::specs::Actors::producer_body, sqs_formats::specs::Reading::and_then))]
    fn read(&self, section: &Section<'_>, value: &Value, key: &str) -> Result<Template, ReadError> {
        let text = section.text(value, key)?;
        if !is_producer_body(section.alloc, self.count, text.as_bytes())? {
            return Err(section.blame(Refusal::OutOfRange, key));
        }
        let text = section.owned(text)?;
        Ok(Template::new(section.alloc, text)?)
    }
}

/// The moment from which on an actor does nothing new, which is not before its start.
#[tactic(auto, unfolding(sqs_formats::specs::Actors::stopping))]
pub(crate) fn stopping(start: u64, section: &Section<'_>) -> Result<Option<u64>, ReadError>
    ensures { Gives (λ s. s) result (stopping start (table_of section.now)) }
{
    section.maybe("stop_ms", &Integer(start, 2_592_000_000))
}

/// The time from one send to the next.
#[tactic(auto, unfolding(sqs_formats::specs::Actors::gap))]
fn gap(version: u64, section: &Section<'_>) -> Result<Distribution, ReadError>
    ensures { Gives (λ d. d) result (the_gap version (table_of section.now)) }
{
    let by_quantiles = section.newer(version).has("gap");
    time(by_quantiles, "gap", "gap_min_ms", "gap_max_ms", section)
}

/// A producer of a queue of a kind.
#[tactic(auto, unfolding(sqs_formats::specs::Reading::and_then))]
pub(crate) fn producer(
    version: u64,
    is_fifo: bool,
    section: &Section<'_>,
) -> Result<Role, ReadError>
    ensures { Gives (λ p. p) result (producing version is_fifo (table_of section.now)) }
{
    known_producer_keys(version, is_fifo, section)?;
    let newer = section.newer(version);
    let count = section.required("count", &Integer(1, 1_000_000))?;
    let start = section.optional("start_ms", &Integer(0, 2_592_000_000), 0)?;
    let gap = gap(version, section)?;
    let body = section.required("body", &Body { count })?;
    let (groups, ids, delay) = sending(is_fifo, newer.has("key_groups"), section)?;
    let stop = stopping(start, &newer)?;
    Ok(Role::Producer(ProducerSettings {
        count,
        start,
        gap,
        body,
        groups,
        ids,
        delay,
        stop,
    }))
}
