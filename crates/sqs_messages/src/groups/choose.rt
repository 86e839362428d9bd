//! Which messages the queue may give.
ghost use Rattle.std.specs.Prelude.{◌≡◌, ◌+◌, ◌*◌, ◌++◌, ◌<◌, ◌≤◌, ◌^◌, [], IfOk, OnOk, length, map, take};
ghost use Rattle.sqs_model.specs.Available.{by_group, open_from};
ghost use Rattle.sqs_model.specs.Queue.{is_delayed};
ghost use Rattle.sqs_messages.specs.Heads.{told, until_delayed, given_of};
ghost use Rattle.sqs_messages.specs.Slots.{held};
ghost use Rattle.sqs_messages.specs.Groups.{AreInGroups};
ghost use Rattle.sqs_messages.specs.Choices.{AddsUpTo, ChoosesFirst, chosen, open_by_group};

use crate::choose::Choice;
use crate::groups::Groups;
use crate::groups::members::LEADS;
use crate::shelf::Shelf;
use smallvec::SmallVec;
use sqs_message::{Message, Place};
use std::alloc::{AllocError, Global};
use std::collections::VecDeque;

// Adds the numbers of a group's messages before its first delayed one, up to `most` in all.
fn give(
    shelf: &Shelf,
    numbers: &VecDeque<u64>,
    most: u64,
    choice: &mut Choice,
) -> Result<(), AllocError>
    requires most { chosen choice.old ≤ most }
    requires range { most < 2 ^ 63 }
    requires few { choice.old.looked ≤ 2 * chosen choice.old }
    ensures walked { OnOk result (AddsUpTo most
        (given_of shelf.now.items numbers.now.items) choice.old choice.new) }
    ensures looked { OnOk result (choice.new.looked + chosen choice.old
        ≤ choice.old.looked + chosen choice.new + 1) }
    ensures read { OnOk result (choice.old.looked + chosen choice.new
        ≤ choice.new.looked + chosen choice.old) }
{
    for number in numbers.iter() {
        if choice.numbers.len() as u64 == most {
            return Ok(());
        }
        if let Some(message) = shelf.get(*number) {
            choice.looked += 1;
            if message.place == Place::Delayed {
                return Ok(());
            }
            choice.numbers.push(message.number)?;
        }
    }
    Ok(())
}

// The numbers of the first messages that the queue may give, at most `most`: group after group, by
// the groups' leaders.
pub fn choose(
    alloc: Global,
    shelf: &Shelf,
    groups: &Groups,
    most: u64,
) -> Result<Choice, AllocError>
    requires range { most < 2 ^ 63 }
    requires grouped { AreInGroups shelf.now.items shelf.now.next groups.now.names.keys
        groups.now.members.items }
    ensures numbers { IfOk result (ChoosesFirst most (open_by_group (told shelf.now.items))) }
    ensures looked { IfOk result (λ choice. choice.looked ≤ 2 * most) }
    ensures read { IfOk result (λ choice. chosen choice ≤ choice.looked) }
{
    let _next = shelf.number();
    let mut choice = Choice {
        numbers: SmallVec::new(alloc),
        looked: 0,
    };
    let mut from = 0;
    while (choice.numbers.len() as u64) < most {
        let Some((number, place)) = shelf.next(from, LEADS) else {
            return Ok(choice);
        };
        give(shelf, &groups.members[place].numbers, most, &mut choice)?;
        from = number + 1;
    }
    Ok(choice)
}
