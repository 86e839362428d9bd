//! Whether a service fails.
ghost use Rattle.std.specs.List.{list_any};
ghost use Rattle.std.specs.Prelude.{◌≡◌, take};
ghost use Rattle.sqs_message.specs.Bodies.{contains};
ghost use Rattle.sqs_model.specs.Actor.{at_stake, failing_at as the_failing_at, fails as the_fails, is_in as the_is_in};

use crate::holding::Holding;
use sqs_message::Text;
use sqs_model::{ConsumerSettings, Outage, Serving, Stretch};

// Whether the body of one of the messages held contains a text.
#[inline(never)]
fn any_contains(holding: &Holding, part: &Text) -> bool
    ensures { result ≡ list_any (λ g. contains part.now g.body) holding.now.held }
{
    holding.held().any(|got| got.body.contains(part.as_bytes()))
}

// Whether the body of the first message held contains a text.
#[inline(never)]
fn first_contains(holding: &Holding, part: &Text) -> bool
    ensures { result ≡ list_any (λ g. contains part.now g.body) (take 1 holding.now.held) }
{
    match holding.first() {
        None => false,
        Some(got) => got.body.contains(part.as_bytes()),
    }
}

// Whether a moment is in a stretch of time, whose end is not in it.
fn is_in(stretch: Stretch, now: u64) -> bool
    ensures { result ≡ the_is_in stretch now }
{
    stretch.from <= now && now < stretch.to
}

// Of a thousand services that are decided now, how many fail: as the first outage says that it is
// in, or else as at any other time.
fn failing_at(outages: &[Outage], otherwise: u64, now: u64) -> u64
    ensures { result ≡ the_failing_at outages.now otherwise now }
{
    match outages.iter().find(|outage| is_in(outage.stretch, now)) {
        None => otherwise,
        Some(outage) => outage.permille,
    }
}

/// Of a thousand services of a consumer that are decided now, how many fail by chance.
pub fn failing(consumer: &ConsumerSettings, now: u64) -> u64
    ensures { result ≡ the_failing_at consumer.now.outages consumer.now.fail_permille now }
{
    failing_at(consumer.outages.as_slice(), consumer.fail_permille, now)
}

/// Whether a service fails: by chance, by the first of the messages held, or by any of them if all
/// are served at once and end as a whole.
#[inline(always)]
pub fn fails(consumer: &ConsumerSettings, holding: &Holding, by_chance: bool) -> bool
    ensures { result ≡ the_fails consumer.now
        (at_stake consumer.now.serving consumer.now.whole holding.now.held) by_chance }
{
    if by_chance {
        return true;
    }
    let Some(part) = &consumer.fails_on else {
        return false;
    };
    match (consumer.serving, consumer.whole) {
        (Serving::Once { .. }, true) => any_contains(holding, part),
        _ => first_contains(holding, part),
    }
}
