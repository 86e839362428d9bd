//! The arrival of a message for which there is room.
ghost use Rattle.std.specs.Prelude.{◌≡◌, ◌≢◌, ◌+◌, ◌++◌, ◌∷◌, ◌<◌, ◌≤◌, ◌^◌, ℕ, All, List, Option, [], length, map, true};
ghost use Rattle.sqs_messages.specs.Heads.{AreLed, IsLedBut, of_group, told};
ghost use Rattle.sqs_messages.specs.Slots.{held};
ghost use Rattle.sqs_messages.specs.Marked.{unhosted};
ghost use Rattle.sqs_messages.specs.Groups.{AreInGroups, HasRoomAt, IsPlaceOf, bit, group_at, out_of, HoldSame, MarksLeader, StayBelow, numbers_at, out_at};

use crate::groups::front::leader_hosts;
use crate::groups::members::{Members, in_flight, moved};
use crate::shelf::Shelf;
use indexmap::IndexSet;
use sim_clock::Key;
use sim_index::Mark;
use sqs_message::{Message, Place, Text};

// Appends the number of a new message to its group's, and marks the first message of the group
// anew.
fn join(shelf: &mut Shelf, groups: &mut [Members], place: usize, number: u64, is_out: bool)
    requires place { place < length groups.old }
    requires room { HasRoomAt groups.old place }
    requires count { is_out ≡ true → out_at groups.old place + 1 < 2 ^ 64 }
    ensures kept { map unhosted shelf.new.items ≡ map unhosted shelf.old.items }
    ensures next { shelf.new.next ≡ shelf.old.next }
    ensures len { length groups.new ≡ length groups.old }
    ensures others { (j : ℕ) → j ≢ place → group_at groups.new j ≡ group_at groups.old j }
    ensures out { out_at groups.new place ≡ out_at groups.old place + bit is_out }
    ensures held { HoldSame shelf.old.items (numbers_at groups.old place
        ++ number ∷ []) (numbers_at groups.new place) }
    ensures below { StayBelow (numbers_at groups.old place
        ++ number ∷ []) (numbers_at groups.new place) }
    ensures led { MarksLeader shelf.old.items (numbers_at groups.old place
        ++ number ∷ []) (out_at groups.new place) shelf.new.items }
{
    groups[place].numbers.push_back_reserved(number);
    moved(shelf, groups, place, false, is_out);
}

// The flags of a new message of the group with an index. If the group's list is empty, the message
// is its first. If not, it is marked as no leader.
fn hosts_at(groups: &[Members], place: usize, visible: bool) -> u32
    requires { place < length groups.now }
    ensures { numbers_at groups.now place ≢ [] → result ≡ 0 }
{
    let members = &groups[place];
    if members.numbers.is_empty() {
        leader_hosts(visible, members.out)
    } else {
        0
    }
}

/// Adds a message of the group with an index, with what is due of it.
pub fn add(
    shelf: &mut Shelf,
    names: &IndexSet<Option<Text>>,
    groups: &mut [Members],
    place: usize,
    message: Message,
    due: Option<Key>,
)
    requires grouped { AreInGroups shelf.old.items shelf.old.next names.now.keys groups.old }
    requires ready { shelf.old.ready ≡ true }
    requires number { message.number ≡ shelf.old.next }
    requires range { shelf.old.next + 1 < 2 ^ 64 }
    requires place { IsPlaceOf names.now.keys message.group place }
    requires room { HasRoomAt groups.old place }
    ensures grouped { AreInGroups shelf.new.items shelf.new.next names.now.keys groups.new }
    ensures added { map unhosted shelf.new.items
        ≡ map unhosted shelf.old.items ++ (message, due, place) ∷ [] }
    ensures next { shelf.new.next ≡ shelf.old.next + 1 }
    ensures len { length groups.new ≡ length groups.old }
{
    let _next = shelf.number();
    let number = message.number;
    let is_out = in_flight(message.place);
    let hosts = hosts_at(groups, place, message.place == Place::Visible);
    let Ok(()) = shelf.push(message, place, Mark { due, flags: hosts }) else {
        unreachable!();
    };
    join(shelf, groups, place, number, is_out);
}
