//! Room for one more message of a group.
ghost use Rattle.std.specs.Prelude.{◌≡◌, ◌≢◌, ◌+◌, ◌++◌, ◌∷◌, ◌<◌, ◌≤◌, [], All, IfOk, List, OnErr, OnOk, Option, filter, is_some, length, map, ℕ};
ghost use Rattle.std.specs.VecDeque.{deque_capacity, deque_len};
ghost use Rattle.sqs_messages.specs.Groups.{AreInGroups, HasRoomAt, IsPlaceOf, group_at, group_by, kept, nobody, place_by, HoldSame, KeepGroups, StayBelow, numbers_at, out_at};
ghost use Rattle.sqs_messages.specs.Slots.{held, message_of};

use crate::groups::members::{Members, place_of};
use crate::shelf::Shelf;
use indexmap::IndexSet;
use sqs_message::Text;
use std::alloc::{AllocError, Global};
use std::collections::VecDeque;

// Adds a group that is not there yet, without messages. If memory runs out, nothing changes.
fn enter(
    alloc: Global,
    names: &mut IndexSet<Option<Text>>,
    groups: &mut Vec<Members>,
    group: &Option<Text>,
) -> Result<(), AllocError>
    requires new { length names.old.keys ≤ place_by names.old.keys group.now }
    ensures names { OnOk result (names.new.keys ≡ names.old.keys ++ group.now ∷ []) }
    ensures groups { OnOk result
        (map kept groups.new.items ≡ map kept groups.old.items ++ nobody ∷ []) }
    ensures same_names { OnErr result (names.new.keys ≡ names.old.keys) }
    ensures same_groups { OnErr result (map kept groups.new.items ≡ map kept groups.old.items) }
{
    let name = Text::copy_of(alloc, group.as_ref())?;
    groups.reserve(1)?;
    names.insert(name)?;
    groups.push_reserved(Members {
        numbers: VecDeque::new(alloc),
        out: 0,
    });
    Ok(())
}

// The index of a group, which is added if it is new. No group's messages change.
fn place_for(
    alloc: Global,
    names: &mut IndexSet<Option<Text>>,
    groups: &mut Vec<Members>,
    group: &Option<Text>,
) -> Result<usize, AllocError>
    requires { length names.old.keys ≡ length groups.old.items }
    ensures same { length names.new.keys ≡ length groups.new.items }
    ensures groups { KeepGroups names.old.keys groups.old.items names.new.keys groups.new.items }
    ensures places { (g : Option (List ℕ)) (i : ℕ) → IsPlaceOf names.old.keys g i
        → IsPlaceOf names.new.keys g i }
    ensures place { IfOk result (IsPlaceOf names.new.keys group.now) }
{
    let place = place_of(names, group);
    if groups.len() <= place {
        enter(alloc, names, groups, group)?;
    }
    Ok(place)
}

// Whether a message is there.
fn is_there(shelf: &Shelf, number: u64) -> bool
    ensures { result ≡ is_some (message_of shelf.now.items number) }
{
    shelf.get(number).is_some()
}

// Makes room for one more number in a list. If the list is full, the numbers of messages that have
// left go first; then it asks for room for as many more as stay. So a list has room for at most
// about four times as many messages as there once were, and numbers are dropped only now and then.
fn room_in(shelf: &Shelf, numbers: &mut VecDeque<u64>) -> Result<(), AllocError>
    ensures held { HoldSame shelf.now.items numbers.old.items numbers.new.items }
    ensures below { StayBelow numbers.old.items numbers.new.items }
    ensures room { OnOk result (deque_len numbers.new < deque_capacity numbers.new) }
{
    if numbers.len() < numbers.capacity() {
        return Ok(());
    }
    numbers.retain(|number| is_there(shelf, *number));
    let more = numbers.len() + 1;
    numbers.reserve(more)
}

// Makes room for one more number in the list of the group with an index.
fn room_at(shelf: &Shelf, groups: &mut [Members], place: usize) -> Result<(), AllocError>
    requires { place < length groups.old }
    ensures len { length groups.new ≡ length groups.old }
    ensures others { (j : ℕ) → j ≢ place → group_at groups.new j ≡ group_at groups.old j }
    ensures out { out_at groups.new place ≡ out_at groups.old place }
    ensures held { HoldSame shelf.now.items (numbers_at groups.old place)
        (numbers_at groups.new place) }
    ensures below { StayBelow (numbers_at groups.old place) (numbers_at groups.new place) }
    ensures room { OnOk result (HasRoomAt groups.new place) }
{
    let members = &mut groups[place];
    room_in(shelf, &mut members.numbers)
}

/// Makes room for one more message of a group, which may be new. Returns the group's index. No
/// group's messages change.
pub fn room_for(
    alloc: Global,
    shelf: &Shelf,
    names: &mut IndexSet<Option<Text>>,
    groups: &mut Vec<Members>,
    group: &Option<Text>,
) -> Result<usize, AllocError>
    requires { AreInGroups shelf.now.items shelf.now.next names.old.keys groups.old.items }
    ensures grouped { AreInGroups shelf.now.items shelf.now.next names.new.keys groups.new.items }
    ensures place { IfOk result (IsPlaceOf names.new.keys group.now) }
    ensures room { IfOk result (HasRoomAt groups.new.items) }
{
    let place = place_for(alloc, names, groups, group)?;
    let groups = groups.as_mut_slice();
    room_at(shelf, groups, place)?;
    Ok(place)
}
