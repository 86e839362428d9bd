//! The distances from one partition.
ghost use Rattle.std.specs.Prelude.{◌≡◌, ◌<◌, ◌≤◌, All, IfOk, List, None, false, get_or, length, true, ℕ};
ghost use Rattle.sim_engine.specs.Members.{In};
ghost use Rattle.sim_engine.specs.declared.edge.Edge.{Edge};
ghost use Rattle.sim_engine.specs.Bounds.{IsDistance};
ghost use Rattle.sim_exchange.specs.Layout.{owner_of};
ghost use Rattle.sim_exchange.specs.Line.{AreShort, AreWalked, IsNearer, IsSettled, IsWithin, so_far, total_of};

use crate::layout::PartMap;
use sim_engine::Edge;
use std::alloc::{AllocError, Global};

// The distances from one partition to each. They are shortened by one more way as long as a way
// shortens one of them.
pub fn distances_from(
    alloc: Global,
    ways: &[Edge],
    layout: &PartMap,
    start: u32,
) -> Result<Vec<Option<u64>>, AllocError>
    requires { All (λ e. e.least ≤ 900000) ways.now }
    ensures parts { IfOk result (λ line. length line.items ≡ layout.now.parts) }
    ensures distances { IfOk result (λ line.
        (p : ℕ) → IsDistance (owner_of layout.now) ways.now start p (get_or line.items p None)) }
{
    let mut line = vec![in alloc; None; layout.parts() as usize]?;
    while shorten(&mut line, ways, layout, start) {}
    Ok(line)
}

// Scans the ways once. Returns whether any of them shortened a distance.
fn shorten(line: &mut [Option<u64>], ways: &[Edge], layout: &PartMap, start: u32) -> bool
    requires least { All (λ e. e.least ≤ 900000) ways.now }
    requires parts { length line.old ≡ layout.now.parts }
    requires few { layout.now.parts ≤ 256 }
    requires short { AreShort line.old }
    requires walked { AreWalked (owner_of layout.now) ways.now start line.old }
    ensures short { AreShort line.new }
    ensures walked { AreWalked (owner_of layout.now) ways.now start line.new }
    ensures nearer { result ≡ true → total_of line.new < total_of line.old }
    ensures settled { result ≡ false
        → All (IsSettled (owner_of layout.now) start line.new) ways.now }
{
    let mut is_shorter = false;
    for way in ways {
        if shorten_by(line, way, layout, start) {
            is_shorter = true;
        }
    }
    is_shorter
}

// Shortens the distance to the end of a way, if the way is shorter. Returns whether it did.
fn shorten_by(line: &mut [Option<u64>], way: &Edge, layout: &PartMap, start: u32) -> bool
    requires least { way.now.least ≤ 900000 }
    requires parts { length line.old ≡ layout.now.parts }
    requires few { layout.now.parts ≤ 256 }
    requires short { AreShort line.old }
    ensures short { AreShort line.new }
    ensures walked { (ways : List Edge) → In ways way.now →
        AreWalked (owner_of layout.now) ways start line.old →
        AreWalked (owner_of layout.now) ways start line.new }
    ensures nearer { result ≡ true → total_of line.new < total_of line.old }
    ensures same { result ≡ false → line.new ≡ line.old }
    ensures settled { result ≡ false → IsSettled (owner_of layout.now) start line.new way.now }
{
    let to = layout.part_of(way.to) as usize;
    let Some(before) = distance_before(line, layout.part_of(way.from), start) else {
        return false;
    };
    let distance = before + way.least;
    if is_nearer(distance, line[to]) {
        line[to] = Some(distance);
        true
    } else {
        false
    }
}

// The distance to the beginning of a way, by the distances so far.
fn distance_before(line: &[Option<u64>], part: u32, start: u32) -> Option<u64>
    requires { part < length line.now }
    ensures { result ≡ so_far start line.now part }
{
    if part == start {
        Some(0)
    } else {
        line[part as usize]
    }
}

// Whether a distance is less than one that may be none.
fn is_nearer(distance: u64, known: Option<u64>) -> bool
    ensures nearer { result ≡ true → IsNearer distance known }
    ensures within { result ≡ false → IsWithin known (Some distance) 0 }
{
    match known {
        None => true,
        Some(known) => distance < known,
    }
}
