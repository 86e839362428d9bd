//! The queues that no difference between two scenarios reaches.
ghost use Rattle.std.specs.Prelude.{◌≡◌, ◌<◌, ◌++◌, IfOk, false, length, true};
ghost use Rattle.sqs_model.specs.Scenario.{edges};
ghost use Rattle.sqs_laws.specs.Reach.{AreOutOfReach, NoneLeadsTo, is_marked};
ghost use Rattle.sqs_rehearsal.specs.Reaching.{AreMarked, IsFollowed, KeepsNeeded, marked_count};

use crate::alike::same_queues;
use sim_engine::Edge;
use sim_scenario::{Scenario, edges};
use std::alloc::{AllocError, Global};

// Whether a queue is marked.
fn is_marked(marks: &[bool], queue: u32) -> bool
    ensures { result ≡ is_marked marks.now queue }
{
    marks.get(queue as usize).copied().unwrap_or(false)
}

// Takes the mark from a queue to which a way leads from one without a mark. Returns whether it did.
fn follow(marks: &mut [bool], way: &Edge) -> bool
    ensures follows { result ≡ true → IsFollowed way.now marks.old marks.new }
    ensures stays { result ≡ false → marks.new ≡ marks.old }
    ensures closed { result ≡ false → is_marked marks.old way.now.from ≡ false
        → is_marked marks.old way.now.to ≡ false }
{
    if is_marked(marks, way.from) || !is_marked(marks, way.to) {
        return false;
    }
    marks[way.to as usize] = false;
    true
}

// Follows each way once. Returns whether any mark was taken away.
fn spread(marks: &mut [bool], ways: &[Edge]) -> bool
    ensures many { length marks.new ≡ length marks.old }
    ensures fewer { AreMarked (is_marked marks.new) marks.old }
    ensures needed { KeepsNeeded ways.now marks.old marks.new }
    ensures falls { result ≡ true → marked_count marks.new < marked_count marks.old }
    ensures closed { result ≡ false → NoneLeadsTo (is_marked marks.new) ways.now }
{
    let mut spreads = false;
    for way in ways {
        if follow(marks, way) {
            spreads = true;
        }
    }
    spreads
}

// Follows the ways until no mark is taken away any more.
fn spread_all(marks: &mut [bool], ways: &[Edge])
    ensures many { length marks.new ≡ length marks.old }
    ensures fewer { AreMarked (is_marked marks.new) marks.old }
    ensures needed { KeepsNeeded ways.now marks.old marks.new }
    ensures closed { NoneLeadsTo (is_marked marks.new) ways.now }
{
    while spread(marks, ways) {}
}

// The ways of both scenarios.
fn ways_of_both(alloc: Global, first: &Scenario, second: &Scenario) -> Result<Vec<Edge>, AllocError>
    ensures { IfOk result (λ ways. ways.items ≡ edges first.now ++ edges second.now) }
{
    let mut ways = edges(alloc, first)?;
    let others = edges(alloc, second)?;
    ways.extend_from_slice(others.as_slice())?;
    Ok(ways)
}

/// For each queue of a scenario whether no difference from another one reaches it: it is the same in
/// both, and no way of either leads to it from a queue that is not marked. Neither may horizon, seed
/// and interval of samples differ.
///
/// # Errors
///
/// `AllocError` if memory runs out.
pub fn queues_out_of_reach(
    alloc: Global,
    first: &Scenario,
    second: &Scenario,
) -> Result<Vec<bool>, AllocError>
    ensures { IfOk result (λ marks. AreOutOfReach first.now second.now marks.items) }
{
    let mut marks = same_queues(alloc, first, second)?;
    let ways = ways_of_both(alloc, first, second)?;
    spread_all(&mut marks, ways.as_slice());
    Ok(marks)
}
