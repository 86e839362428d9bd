//! The members of groups.
ghost use Rattle.std.specs.Prelude.{◌≡◌, ◌≢◌, ◌+◌, ◌<◌, ◌≤◌, ◌^◌, ℕ, All, List, Option, length, map, false, true};
ghost use Rattle.sqs_messages.specs.Heads.{AreLed, IsLedBut, of_group, told};
ghost use Rattle.sqs_messages.specs.Slots.{held};
ghost use Rattle.sqs_messages.specs.Marked.{unhosted};
ghost use Rattle.sqs_messages.specs.Groups.{bit, group_at, in_flight_at, out_of, place_by, HoldSame, MarksLeader, StayBelow, numbers_at, out_at};

use crate::groups::front::refresh;
use crate::shelf::Shelf;
use indexmap::IndexSet;
use sqs_message::{Place, Text};
use std::collections::VecDeque;

/// The flag in the mark of a message that leads its group: it is the first of its group and
/// visible, and no message of the group is in flight. All messages of a FIFO queue are on one host.
pub const LEADS: u32 = 1;

/// Whether a state is that of a message in flight.
pub fn in_flight(place: Place) -> bool
    ensures { result ≡ in_flight_at place }
{
    matches!(place, Place::InFlight)
}

/// The numbers of a group's messages, in order, some of which may have left; and how many messages
/// of the group are in flight.
#[derive(Drop)]
pub struct Members {
    pub numbers: VecDeque<u64>,
    pub out: u64,
}

// The index of a group; the number of groups if it is not there.
pub fn place_of(names: &IndexSet<Option<Text>>, group: &Option<Text>) -> usize
    ensures { result ≡ place_by names.now.keys group.now }
{
    names.get_index_of(group).unwrap_or(names.len())
}

// The number in flight after a message changes: `was` and `is` say whether it was and is in flight.
fn counted(out: u64, was: bool, is: bool) -> u64
    requires less { was ≡ true → 1 ≤ out }
    requires room { was ≡ false → is ≡ true → out + 1 < 2 ^ 64 }
    ensures { result + bit was ≡ out + bit is }
{
    if was {
        if is { out } else { out - 1 }
    } else if is {
        out + 1
    } else {
        out
    }
}

// Counts a change of a group's message, and marks the first message of the group anew.
pub fn moved(shelf: &mut Shelf, groups: &mut [Members], index: usize, was: bool, is: bool)
    requires index { index < length groups.old }
    requires less { was ≡ true → 1 ≤ out_at groups.old index }
    requires room { was ≡ false → is ≡ true → out_at groups.old index + 1 < 2 ^ 64 }
    ensures kept { map unhosted shelf.new.items ≡ map unhosted shelf.old.items }
    ensures next { shelf.new.next ≡ shelf.old.next }
    ensures others { (j : ℕ) → j ≢ index → group_at groups.new j ≡ group_at groups.old j }
    ensures len { length groups.new ≡ length groups.old }
    ensures out { out_at groups.new index + bit was ≡ out_at groups.old index + bit is }
    ensures held { HoldSame shelf.old.items (numbers_at groups.old index)
        (numbers_at groups.new index) }
    ensures below { StayBelow (numbers_at groups.old index) (numbers_at groups.new index) }
    ensures led { MarksLeader shelf.old.items (numbers_at groups.old index)
        (out_at groups.new index) shelf.new.items }
{
    let members = &mut groups[index];
    members.out = counted(members.out, was, is);
    refresh(shelf, members);
}
