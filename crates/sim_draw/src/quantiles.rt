//! Times by quantiles.
ghost use Rattle.std.specs.Prelude.{◌≡◌, ◌≤◌, ◌<◌, ◌*◌, ◌^◌};
ghost use Rattle.sqs_model.specs.Draw.{time_at as the_time_at, time_between as the_time_between};
ghost use Rattle.sqs_model.specs.Valid.{AreQuantiles, Follows};

use sqs_model::Quantile;

// How many words there are.
const WORDS: u64 = 1 << 32;

// The time at a word between a quantile and the next one.
#[tactic(auto, using(crate::proofs::Between::between_within))]
fn time_between(first: Quantile, second: Quantile, word: u32) -> u64
    requires follows { Follows first second }
    requires permille { second.permille ≤ 1000 }
    requires time { second.time ≤ 86400000 }
    requires before { word * 1000 < second.permille * 2 ^ 32 }
    ensures time { result ≡ the_time_between first second word }
    ensures greatest { result ≤ second.time }
{
    let passed = (u64::from(word) * 1000).saturating_sub(first.permille * WORDS);
    let share = u128::from(passed) * u128::from(second.time - first.time);
    let span = (second.permille - first.permille) * WORDS;
    first.time + (share / u128::from(span)) as u64
}

/// The time in milliseconds that a word has by quantiles.
pub fn time_at(quantiles: &[Quantile], word: u32) -> u64
    requires { AreQuantiles quantiles.now }
    ensures time { result ≡ the_time_at quantiles.now word }
    ensures greatest { result ≤ 86400000 }
{
    let Some((first, others)) = quantiles.split_first() else {
        unreachable!();
    };
    let mut first = *first;
    for second in others {
        if u64::from(word) * 1000 < second.permille * WORDS {
            return time_between(first, *second, word);
        }
        first = *second;
    }
    first.time
}
