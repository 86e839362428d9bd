//! Groups by weight.
ghost use Rattle.std.specs.Prelude.{◌≡◌, ◌≤◌, ◌*◌};
ghost use Rattle.sqs_model.specs.Draw.{group_at as the_group_at, total_weight as the_total_weight};
ghost use Rattle.sqs_model.specs.Valid.{AreWeighted};

use sqs_model::WeightedGroup;

// The sum of the weights of groups.
fn total_weight(groups: &[WeightedGroup]) -> u64
    requires { AreWeighted groups.now }
    ensures sum { result ≡ the_total_weight groups.now }
    ensures greatest { result ≤ 100000000 }
{
    let mut total = 0;
    for group in groups {
        total += group.weight;
    }
    total
}

/// The group that a word has by weights; none only if there are no groups.
pub fn group_at(groups: &[WeightedGroup], word: u32) -> &[u8]
    requires { AreWeighted groups.now }
    ensures { result.now ≡ the_group_at groups.now word }
{
    let place = (u64::from(word) * total_weight(groups)) >> 32;
    let mut before = 0;
    for group in groups {
        before += group.weight;
        if place < before {
            return group.group.as_bytes();
        }
    }
    &[]
}
