//! Entries over ten minutes, with answers worked out by hand.
ghost use Rattle.std.specs.Prelude.{All, ◌+◌, ◌≤◌};
ghost use Rattle.sqs_model.specs.Longest.{deduplication_interval};

use crate::tests::same::same;
use sim_clock::Refusal;
use sqs_dedup::{Dedup, ScopedId};
use sqs_message::Text;
use std::alloc::Global;
use std::process::Abort;

fn text(rt: &impl Abort, alloc: Global, letter: &[u8]) -> Text {
    Text::new(letter.to_vec(alloc).expect(rt, "memory"))
}

// The id `a` of the whole queue.
fn of_queue(rt: &impl Abort, alloc: Global) -> ScopedId {
    ScopedId {
        scope: None,
        id: text(rt, alloc, b"a"),
    }
}

// The id `a` of the group `b`.
fn of_group(rt: &impl Abort, alloc: Global) -> ScopedId {
    ScopedId {
        scope: Some(text(rt, alloc, b"b")),
        id: text(rt, alloc, b"a"),
    }
}

// Enters an id of a scope, if it does not live yet. Returns whether it did so.
fn enter(window: &mut Dedup, now: u64, key: ScopedId, number: u64) -> Result<bool, Refusal>
    requires moment { now ≤ 1000000 }
    requires before { All (λ e. e.end ≤ now + deduplication_interval) window.old }
    ensures after { All (λ e. e.end ≤ now + deduplication_interval) window.new }
{
    if window.living(now, &key).is_some() {
        return Ok(false);
    }
    window.enter(now, key, number)?;
    Ok(true)
}

// Moments, and the numbers that live then in the whole queue and in the group.
const LIVING: [(u64, Option<u64>, Option<u64>); 3] = [
    (600008, Some(9), Some(8)),
    (600009, Some(9), None),
    (600010, None, None),
];

fn try_lookups(rt: &impl Abort, window: &Dedup, by_queue: &ScopedId, by_group: &ScopedId) {
    for &(now, in_queue, in_group) in &LIVING {
        let of_queue = window.living(now, by_queue);
        let of_group = window.living(now, by_group);
        same(rt, (now, of_queue, of_group), (now, in_queue, in_group));
    }
}

// Whether four entries of the id `a` are made, the third of them in the group `b`.
fn entries(rt: &impl Abort, alloc: Global, window: &mut Dedup) -> [Result<bool, Refusal>; 4]
    requires { All (λ e. e.end ≤ 300010) window.old }
{
    [
        enter(window, 10, of_queue(rt, alloc), 7),
        enter(window, 300009, of_queue(rt, alloc), 8),
        enter(window, 300009, of_group(rt, alloc), 8),
        enter(window, 300010, of_queue(rt, alloc), 9),
    ]
}

#[test]
fn lives_for_five_minutes(rt: HostRuntime) {
    let mut window = Dedup::new(rt.alloc());
    let entered = entries(&rt, rt.alloc(), &mut window);
    same(&rt, entered, [Ok(true), Ok(false), Ok(true), Ok(true)]);
    let (by_queue, by_group) = (of_queue(&rt, rt.alloc()), of_group(&rt, rt.alloc()));
    try_lookups(&rt, &window, &by_queue, &by_group);
}
