//! A consumer of a scenario's text.
ghost use Rattle.std.specs.Prelude.{◌≡◌, map};
ghost use Rattle.sqs_formats.specs.Actors.{all_consumer_keys, consuming, fail_service_keys, failing, forward as the_forward, forward_keys, jitter_keys, newer_consumer_keys, scaling as the_scaling, scaling_keys, service as the_service, service_keys, serving as the_serving, serving_keys};
ghost use Rattle.sqs_formats.specs.Keys.{only};
ghost use Rattle.sim_scenario.specs.Gives.{Gives};
ghost use Rattle.sim_scenario.specs.Sections.{table_of};

use crate::distributions::time;
use crate::fault::ReadError;
use crate::key_type::{Integer, OneOf, Seconds, SizedText};
use crate::lists::{Integers, no_integers};
use crate::named::{KinQueues, NamedScaler};
use crate::outages::{outage_keys, outages};
use crate::outline::Outline;
use crate::producers::stopping;
use crate::queues::{latency, latency_keys};
use crate::section::{ACTOR_KEYS, Section};
use sqs_formats::Failing;
use sqs_model::{ConsumerSettings, Distribution, Forwarding, Role, Scaling, Serving};

/// The keys of every consumer.
const CONSUMER_KEYS: &[&str] = &[
    "start_ms",
    "batch",
    "wait_s",
    "timeout_s",
    "fail_permille",
    "idle_ms",
    "forward",
];

/// The keys of the time of a service.
fn service_keys(by_quantiles: bool) -> &'static [&'static str]
    ensures { map (λ k. k.now) result.now ≡ service_keys by_quantiles }
{
    if by_quantiles {
        &["service"]
    } else {
        &["service_min_ms", "service_max_ms"]
    }
}

/// The keys that a consumer that forwards has, too.
fn forward_keys(version: u64, forwards: bool) -> &'static [&'static str]
    ensures { map (λ k. k.now) result.now ≡ forward_keys version forwards }
{
    if forwards { latency_keys(version) } else { &[] }
}

/// The keys that a consumer has from version 3 on.
fn newer_consumer_keys(version: u64) -> &'static [&'static str]
    ensures { map (λ k. k.now) result.now ≡ newer_consumer_keys version }
{
    if version >= 3 {
        &[
            "gather_ms",
            "stop_ms",
            "batch_service",
            "fails_on",
            "batch_fails",
            "backoff_s",
            "copies",
            "scaler",
        ]
    } else {
        &[]
    }
}

/// The keys that go with what one service is of, by whether the text says it.
fn serving_keys(version: u64, says_serving: bool) -> &'static [&'static str]
    ensures { map (λ k. k.now) result.now ≡ serving_keys version says_serving }
{
    if says_serving {
        &["service_each_ms"]
    } else if version >= 3 {
        &["heartbeat_s"]
    } else {
        &[]
    }
}

/// The key of the time of failed services, by whether a batch is served at once and whether it fails
/// as a whole.
fn fail_service_keys(version: u64, once: bool, whole: bool) -> &'static [&'static str]
    ensures { map (λ k. k.now) result.now ≡ fail_service_keys version once whole }
{
    if version >= 3 && (whole || !once) {
        &["fail_service_ms"]
    } else {
        &[]
    }
}

/// The key that a consumer with a backoff has, too.
fn jitter_keys(has_backoff: bool) -> &'static [&'static str]
    ensures { map (λ k. k.now) result.now ≡ jitter_keys has_backoff }
{
    if has_backoff {
        &["backoff_jitter"]
    } else {
        &[]
    }
}

/// The key that a consumer with a scaler has, too.
fn scaling_keys(has_scaler: bool) -> &'static [&'static str]
    ensures { map (λ k. k.now) result.now ≡ scaling_keys has_scaler }
{
    if has_scaler {
        &["scaler_start_ms"]
    } else {
        &[]
    }
}

/// By whom a consumer is scaled, if it is.
#[tactic(auto, unfolding(sqs_formats::specs::Actors::scaling, sqs_formats::specs::Reading::and_then))]
fn scaling(
    has_scaler: bool,
    outline: &Outline,
    home: u32,
    index: usize,
    section: &Section<'_>,
) -> Result<Option<Scaling>, ReadError>
    ensures { Gives (λ s. s) result
        (the_scaling has_scaler outline.now home index (table_of section.now)) }
{
    if !has_scaler {
        return Ok(None);
    }
    let scaler = section.required("scaler", &NamedScaler { outline, home })?;
    let start = section.optional("scaler_start_ms", &Integer(0, 86_400_000), 0)?;
    Ok(Some(Scaling {
        scaler,
        second: outline.second_copy(index),
        start,
    }))
}

/// Checks that a consumer has known keys alone.
fn known_consumer_keys(version: u64, section: &Section<'_>) -> Result<(), ReadError>
    ensures { Gives (λ u. u) result
        (only (all_consumer_keys version (table_of section.now)) (table_of section.now)) }
{
    let newer = section.newer(version);
    let service = service_keys(newer.has("service"));
    let forward = forward_keys(version, section.has("forward"));
    let serving = serving_keys(version, newer.has("batch_service"));
    let once = newer.says("batch_service", "once");
    let fail_service = fail_service_keys(version, once, newer.says("batch_fails", "whole"));
    let outages = outage_keys(newer.has("fails_between_ms"), newer.has("fails_from_ms"));
    let jitter = jitter_keys(newer.has("backoff_s"));
    let scaling = scaling_keys(newer.has("scaler"));
    section.only(&[
        ACTOR_KEYS,
        CONSUMER_KEYS,
        service,
        forward,
        newer_consumer_keys(version),
        serving,
        fail_service,
        outages,
        jitter,
        scaling,
    ])
}

/// The queues to which a consumer forwards, if it does.
#[tactic(auto, unfolding(sqs_formats::specs::Actors::forward, sqs_formats::specs::Reading::and_then))]
fn forward(
    forwards: bool,
    outline: &Outline,
    home: u32,
    section: &Section<'_>,
) -> Result<Option<Forwarding>, ReadError>
    ensures { Gives (λ f. f) result
        (the_forward forwards outline.now home (table_of section.now)) }
{
    if !forwards {
        return Ok(None);
    }
    let to = section.required("forward", &KinQueues { outline, home })?;
    let latency = latency(outline.version(), section)?;
    Ok(Some(Forwarding { to, latency }))
}

/// Each message of a batch is served by itself, or fails by itself.
const EACH: bool = false;

/// All messages of a batch are served at once.
const ONCE: bool = true;

/// What one service is of, by its name.
const SERVINGS: &[(&str, bool)] = &[("each", EACH), ("once", ONCE)];

/// What one service is of.
#[tactic(auto, unfolding(sqs_formats::specs::Actors::serving, sqs_formats::specs::Reading::and_then))]
fn serving(section: &Section<'_>) -> Result<Serving, ReadError>
    ensures { Gives (λ s. s) result (the_serving (table_of section.now)) }
{
    let once = section.optional("batch_service", &OneOf(SERVINGS), EACH)?;
    let each = section.optional("service_each_ms", &Integer(0, 86_400_000), 0)?;
    Ok(if once {
        Serving::Once { each }
    } else {
        Serving::Each
    })
}

/// A failed service fails its batch as a whole.
const WHOLE: bool = true;

/// What a failed service fails, by its name.
const FAILURES: &[(&str, bool)] = &[("each", EACH), ("whole", WHOLE)];

/// A timeout of the backoff is not drawn.
const NONE: bool = false;

/// A timeout of the backoff is drawn from 0 on.
const FULL: bool = true;

/// Whether a timeout of the backoff is drawn, by its name.
const JITTERS: &[(&str, bool)] = &[("none", NONE), ("full", FULL)];

/// Which services fail, and what follows.
#[tactic(auto, unfolding(sqs_formats::specs::Actors::failing, sqs_formats::specs::Reading::and_then))]
fn failing(section: &Section<'_>) -> Result<Failing, ReadError>
    ensures { Gives (λ f. f) result (failing (table_of section.now)) }
{
    let fails_on = section.maybe("fails_on", &SizedText(1, 128))?;
    let outages = outages(section)?;
    let whole = section.optional("batch_fails", &OneOf(FAILURES), EACH)?;
    let none = no_integers(section.alloc);
    let backoff = section.optional("backoff_s", &Integers(1, 12, 0, 43_200), none)?;
    let jitter = section.optional("backoff_jitter", &OneOf(JITTERS), NONE)?;
    let heartbeat = section.maybe("heartbeat_s", &Seconds(1, 43_200))?;
    Ok(Failing {
        fails_on,
        outages,
        whole,
        backoff,
        jitter,
        heartbeat,
    })
}

/// The time of a service.
#[tactic(auto, unfolding(sqs_formats::specs::Actors::service))]
fn service(version: u64, section: &Section<'_>) -> Result<Distribution, ReadError>
    ensures { Gives (λ d. d) result (the_service version (table_of section.now)) }
{
    let by_quantiles = section.newer(version).has("service");
    time(
        by_quantiles,
        "service",
        "service_min_ms",
        "service_max_ms",
        section,
    )
}

/// A consumer of a queue.
#[tactic(auto, unfolding(sqs_formats::specs::Reading::and_then))]
pub(crate) fn consumer(
    outline: &Outline,
    home: u32,
    index: usize,
    section: &Section<'_>,
) -> Result<Role, ReadError>
    ensures { Gives (λ c. c) result (consuming outline.now home index (table_of section.now)) }
{
    let version = outline.version();
    known_consumer_keys(version, section)?;
    let newer = section.newer(version);
    let start = section.optional("start_ms", &Integer(0, 2_592_000_000), 0)?;
    let batch = section.optional("batch", &Integer(1, 10), 1)?;
    let gather = newer.optional("gather_ms", &Integer(0, 300_000), 0)?;
    let wait = section.optional("wait_s", &Integer(0, 20), 0)?;
    let timeout = section.maybe("timeout_s", &Integer(0, 43_200))?;
    let service = service(version, section)?;
    let serving = serving(&newer)?;
    let fail_service = newer.maybe("fail_service_ms", &Integer(0, 43_200_000))?;
    let fail_permille = section.optional("fail_permille", &Integer(0, 1000), 0)?;
    let idle = section.optional("idle_ms", &Integer(1, 86_400_000), 1000)?;
    let forward = forward(section.has("forward"), outline, home, section)?;
    let stop = stopping(start, &newer)?;
    let scaling = scaling(newer.has("scaler"), outline, home, index, &newer)?;
    let fails = failing(&newer)?;
    Ok(Role::Consumer(ConsumerSettings {
        start,
        batch,
        gather,
        wait,
        timeout,
        service,
        serving,
        fail_service,
        fail_permille,
        idle,
        forward,
        stop,
        scaling,
        fails_on: fails.fails_on,
        outages: fails.outages,
        whole: fails.whole,
        backoff: fails.backoff,
        jitter: fails.jitter,
        heartbeat: fails.heartbeat,
    }))
}
