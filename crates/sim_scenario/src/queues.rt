//! The queues of a scenario's text.
ghost use Rattle.std.specs.Prelude.{◌≡◌, map};
ghost use Rattle.sqs_formats.specs.Keys.{has, only};
ghost use Rattle.sqs_formats.specs.Queues.{kind as the_kind, kind_keys, latency as the_latency, latency_keys, policy as the_policy, policy_keys};
ghost use Rattle.sim_scenario.specs.Gives.{Gives};
ghost use Rattle.sim_scenario.specs.Sections.{table_of, HasOnly, all_queue_keys};

use crate::fault::ReadError;
use crate::items::ItemType;
use crate::key_type::{Boolean, Integer, OneOf, Seconds};
use crate::named::{AgentName, DeadLetterName, OtherKinQueue};
use crate::names::is_fifo;
use crate::outline::Outline;
use crate::section::Section;
use sqs_message::Text;
use sqs_redrive::{Kind, Latency, Policy, QueueSettings, Scope};

/// The latency of a version: one number in version 1, which is both bounds, and two from then on.
#[tactic(auto, unfolding(sqs_formats::specs::Queues::latency, sqs_formats::specs::Reading::and_then))]
pub(crate) fn latency(version: u64, section: &Section<'_>) -> Result<Latency, ReadError>
    ensures { Gives (λ l. l) result (the_latency version (table_of section.now)) }
{
    if version == 1 {
        let both = section.required("latency_ms", &Integer(1, 900_000))?;
        return Ok(Latency {
            least: both,
            greatest: both,
        });
    }
    let (least, greatest) = section.bounds("latency_min_ms", "latency_max_ms", 900_000)?;
    Ok(Latency { least, greatest })
}

/// The scopes of deduplication ids, by their names.
const SCOPES: &[(&str, Scope)] = &[("queue", Scope::Queue), ("group", Scope::Group)];

/// The settings that only a queue of this kind has.
#[tactic(auto, unfolding(sqs_formats::specs::Queues::kind, sqs_formats::specs::Reading::and_then))]
fn kind(is_fifo: bool, section: &Section<'_>) -> Result<Kind, ReadError>
    ensures { Gives (λ k. k) result (the_kind is_fifo (table_of section.now)) }
{
    if is_fifo {
        let content_dedup = section.optional("content_dedup", &Boolean, false)?;
        let scope = section.optional("dedup_scope", &OneOf(SCOPES), Scope::Queue)?;
        Ok(Kind::Fifo {
            content_dedup,
            scope,
        })
    } else {
        let hosts = section.optional("hosts", &Integer(1, 16), 1)?;
        let sampled = section.optional("sampled", &Integer(1, hosts), hosts)?;
        Ok(Kind::Standard { hosts, sampled })
    }
}

/// The redrive policy of a queue, if it has a dead-letter queue.
#[tactic(auto, unfolding(sqs_formats::specs::Queues::policy, sqs_formats::specs::Reading::and_then))]
fn policy(
    outline: &Outline,
    leads: bool,
    section: &Section<'_>,
) -> Result<Option<Policy>, ReadError>
    ensures { Gives (λ p. p) result (the_policy outline.now leads (table_of section.now)) }
{
    if !leads {
        return Ok(None);
    }
    let dead_letter = section.required("dead_letter", &DeadLetterName { outline })?;
    let max_receives = section.required("max_receives", &Integer(1, 1000))?;
    let latency = latency(outline.version(), section)?;
    Ok(Some(Policy {
        dead_letter,
        max_receives,
        latency,
    }))
}

/// The keys of every queue.
const QUEUE_KEYS: &[&str] = &[
    "name",
    "visibility_s",
    "delay_s",
    "retention_s",
    "in_flight",
    "dead_letter",
];

/// The keys that only a queue of this kind has.
fn kind_keys(is_fifo: bool) -> &'static [&'static str]
    ensures { map (λ k. k.now) result.now ≡ kind_keys is_fifo }
{
    if is_fifo {
        &["content_dedup", "dedup_scope"]
    } else {
        &["hosts", "sampled"]
    }
}

/// The keys of a latency in a version.
pub(crate) fn latency_keys(version: u64) -> &'static [&'static str]
    ensures { map (λ k. k.now) result.now ≡ latency_keys version }
{
    if version == 1 {
        &["latency_ms"]
    } else {
        &["latency_min_ms", "latency_max_ms"]
    }
}

/// The keys that a queue with a dead-letter queue has, too.
fn policy_keys(version: u64, leads: bool) -> &'static [&'static str]
    ensures { map (λ k. k.now) result.now ≡ policy_keys version leads }
{
    if !leads {
        &[]
    } else if version == 1 {
        &["max_receives", "latency_ms"]
    } else {
        &["max_receives", "latency_min_ms", "latency_max_ms"]
    }
}

/// Checks that a queue has known keys alone.
fn known_queue_keys(version: u64, is_fifo: bool, section: &Section<'_>) -> Result<(), ReadError>
    ensures { HasOnly (all_queue_keys version is_fifo (table_of section.now)) section.now result }
{
    let policy = policy_keys(version, section.has("dead_letter"));
    section.only(&[QUEUE_KEYS, kind_keys(is_fifo), policy])
}

/// The queues of a text, each with its name.
#[derive(Drop)]
pub(crate) struct Queues<'o> {
    pub(crate) outline: &'o Outline,
}

impl ItemType for Queues<'_> {
    type Item = (Text, QueueSettings);

    ghost use Rattle.sqs_formats.specs.Queues.{queue};

    ghost says = { λ q. queue q.outline.now };

    #[tactic(auto, unfolding(sqs_formats::specs::Queues::queue, sqs_formats::specs::Reading::and_then))]
    fn read(
        &self,
        number: usize,
        section: &Section<'_>,
    ) -> Result<(Text, QueueSettings), ReadError> {
        let outline = self.outline;
        let name = section.required(
            "name",
            &AgentName {
                outline,
                place: number,
                is_queue: true,
            },
        )?;
        let is_fifo = is_fifo(name.as_bytes());
        known_queue_keys(outline.version(), is_fifo, section)?;
        let visibility = section.optional("visibility_s", &Seconds(0, 43_200), 30_000)?;
        let delay = section.optional("delay_s", &Seconds(0, 900), 0)?;
        let retention = section.optional("retention_s", &Seconds(60, 1_209_600), 345_600_000)?;
        let in_flight_limit = section.optional("in_flight", &Integer(1, 120_000), 120_000)?;
        let kind = kind(is_fifo, section)?;
        let policy = policy(outline, section.has("dead_letter"), section)?;
        let settings = QueueSettings {
            kind,
            visibility,
            delay,
            retention,
            in_flight_limit,
            policy,
        };
        Ok((name, settings))
    }
}

/// The dead-letter queues of the queues of a text, which are checked once all queues are read.
#[derive(Drop)]
pub(crate) struct DeadLetters<'o> {
    pub(crate) outline: &'o Outline,
}

impl ItemType for DeadLetters<'_> {
    type Item = Option<u32>;

    ghost use Rattle.sqs_formats.specs.Queues.{dead_letter};

    ghost says = { λ q. dead_letter q.outline.now };

    #[tactic(auto, unfolding(sqs_formats::specs::Queues::dead_letter))]
    fn read(&self, number: usize, section: &Section<'_>) -> Result<Option<u32>, ReadError> {
        let outline = self.outline;
        let home = number as u32;
        section.maybe("dead_letter", &OtherKinQueue { outline, home })
    }
}
