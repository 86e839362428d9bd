//! The queues from which others can be reached.
ghost use Rattle.std.specs.Prelude.{◌≡◌, ◌&&◌, not, false, true, fold, get_or, replicate, IfOk};
ghost use Rattle.sim_report.specs.Doors.{before, reach, reach_by};
ghost use Rattle.sim_report.specs.Running.{changed};

use crate::asked::Way;
use std::alloc::{AllocError, Global};

/// Whether the queue with this number is marked.
pub(crate) fn is_marked(marks: &[bool], queue: usize) -> bool
    ensures { result ≡ get_or marks.now queue false }
{
    match marks.get(queue) {
        Some(marked) => *marked,
        None => false,
    }
}

// Marks the queue with this number.
fn mark(marks: &mut [bool], queue: usize)
    ensures { marks.new ≡ changed (λ m. true) queue marks.old }
{
    if queue < marks.len() {
        marks[queue] = true;
    }
}

// Marks the queues from which a way leads to a marked one.
fn grow(marks: &mut [bool], ways: &[Way])
    ensures { marks.new ≡ fold reach_by marks.old ways.now }
{
    for way in ways {
        if is_marked(marks, way.to as usize) {
            mark(marks, way.from as usize);
        }
    }
}

// Whether a way leads from a queue that is not marked to a marked one.
fn grows_by(marks: &[bool], way: Way) -> bool
    ensures { result ≡ (get_or marks.now way.to false && not (get_or marks.now way.from false)) }
{
    is_marked(marks, way.to as usize) && !is_marked(marks, way.from as usize)
}

// Whether no way leads from a queue that is not marked to a marked one.
fn are_closed(marks: &[bool], ways: &[Way]) -> bool
    ensures { result ≡ true → fold reach_by marks.now ways.now ≡ marks.now }
{
    for place in 0..ways.len() {
        if grows_by(marks, ways[place]) {
            return false;
        }
    }
    true
}

// Marks the queues from which ways lead to a marked one, of so many steps at least.
fn reach(marks: &mut [bool], steps: usize, ways: &[Way])
    ensures { marks.new ≡ reach steps ways.now marks.old }
{
    for _ in 0..steps {
        if are_closed(marks, ways) {
            return;
        }
        grow(marks, ways);
    }
}

/// Marks of so many queues, where one is marked and those from which these ways lead to it.
///
/// # Errors
///
/// `AllocError` if a growth is refused.
pub(crate) fn before(
    alloc: Global,
    queues: usize,
    ways: &[Way],
    queue: usize,
) -> Result<Vec<bool>, AllocError>
    ensures { IfOk result (λ v. v.items ≡ before queues ways.now queue) }
{
    let mut marks = vec![in alloc; false; queues]?;
    mark(marks.as_mut_slice(), queue);
    reach(marks.as_mut_slice(), queues, ways);
    Ok(marks)
}
