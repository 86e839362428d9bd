//! The first message of a group.
ghost use Rattle.std.specs.Prelude.{◌≡◌, ◌<◌, ◌==◌, ◌&&◌, ℕ, All, List, Option, map};
ghost use Rattle.sqs_model.specs.Queue.{is_visible};
ghost use Rattle.sqs_messages.specs.Heads.{AreLed, IsLedBut, of_group, told};
ghost use Rattle.sqs_messages.specs.Slots.{held};
ghost use Rattle.sqs_messages.specs.Marked.{unhosted};
ghost use Rattle.sqs_messages.specs.Groups.{bit, front_of, out_of, HoldSame, MarksLeader, StayBelow};

use crate::groups::members::{LEADS, Members};
use crate::shelf::Shelf;
use sqs_message::{Message, Place};
use std::collections::VecDeque;

// Drops the numbers of messages that have left from the front of a list. Returns the number of the
// first message that is there, and whether it may be received.
pub fn trim(shelf: &Shelf, numbers: &mut VecDeque<u64>) -> Option<(u64, bool)>
    ensures front { result ≡ front_of (held shelf.now.items numbers.new.items) }
    ensures held { HoldSame shelf.now.items numbers.old.items numbers.new.items }
    ensures below { StayBelow numbers.old.items numbers.new.items }
{
    while let Some(first) = numbers.front() {
        let number = *first;
        if let Some(message) = shelf.get(number) {
            return Some((message.number, message.place == Place::Visible));
        }
        let _gone = numbers.pop_front();
    }
    None
}

// The flags of a group's first message.
pub fn leader_hosts(visible: bool, out: u64) -> u32
    ensures { result ≡ bit (visible && out == 0) }
{
    if visible && out == 0 { LEADS } else { 0 }
}

// Marks the first message of a group if it leads, and drops the numbers of those that left before
// it.
pub fn refresh(shelf: &mut Shelf, members: &mut Members)
    ensures kept { map unhosted shelf.new.items ≡ map unhosted shelf.old.items }
    ensures next { shelf.new.next ≡ shelf.old.next }
    ensures out { members.new.out ≡ members.old.out }
    ensures held { HoldSame shelf.old.items members.old.numbers.items members.new.numbers.items }
    ensures below { StayBelow members.old.numbers.items members.new.numbers.items }
    ensures led { MarksLeader shelf.old.items members.old.numbers.items members.old.out
        shelf.new.items }
{
    let _next = shelf.number();
    let Some((number, visible)) = trim(shelf, &mut members.numbers) else {
        return;
    };
    let hosts = leader_hosts(visible, members.out);
    shelf.mark(number, hosts);
}
