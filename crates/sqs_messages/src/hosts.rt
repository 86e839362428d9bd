//! A standard queue's messages by their hosts.
//!
//! A message is on one of the queue's hosts, and a receive sees some of these (Developer Guide:
//! short and long polling). Message n is on host n modulo the number of hosts. A set of hosts is
//! given by its bits.
ghost use Rattle.std.specs.Prelude.{◌≡◌, ◌+◌, ◌*◌, ◌++◌, ◌∷◌, ◌<◌, ◌≤◌, ◌^◌, [], IfOk, filter, length, map, take, true};
ghost use Rattle.sim_clock.specs.Firsts.{changed};
ghost use Rattle.sim_index.specs.Marks.{meets};
ghost use Rattle.sqs_messages.specs.Marked.{host_mark, restamped, unhosted, with_state, on_hosts};
ghost use Rattle.sqs_messages.specs.Orders.{AreOnHosts};
ghost use Rattle.sqs_messages.specs.Slots.{is_numbered, number_of};
ghost use Rattle.sqs_messages.specs.Choices.{chosen, ChoosesOnShelf};

use crate::choose::Choice;
use crate::shelf::Shelf;
use crate::slot::State;
use sim_clock::Key;
use sim_index::Mark;
use smallvec::SmallVec;
use sqs_message::{Message, Place};
use std::alloc::{AllocError, Global};

// The host of a message that may be received, as a bit.
fn host_bit(hosts: u64, number: u64, place: Place) -> u32
    requires some { 1 ≤ hosts }
    requires few { hosts ≤ 16 }
    ensures { result ≡ host_mark hosts number place }
{
    match place {
        Place::Visible => 1 << (number % hosts),
        Place::Delayed | Place::InFlight => 0,
    }
}

/// Adds a message, for which there is room, with what is due of it, and marks it with its host;
/// there are `hosts` of them. The index of its group is kept with it.
pub fn add(hosts: u64, shelf: &mut Shelf, place: usize, message: Message, due: Option<Key>)
    requires hosted { AreOnHosts hosts shelf.old.items }
    requires ready { shelf.old.ready ≡ true }
    requires number { message.number ≡ shelf.old.next }
    requires range { shelf.old.next + 1 < 2 ^ 64 }
    ensures hosted { AreOnHosts hosts shelf.new.items }
    ensures added { map unhosted shelf.new.items
        ≡ map unhosted shelf.old.items ++ (message, due, place) ∷ [] }
    ensures next { shelf.new.next ≡ shelf.old.next + 1 }
{
    let host = host_bit(hosts, message.number, message.place);
    let Ok(()) = shelf.push(message, place, Mark { due, flags: host }) else {
        unreachable!();
    };
}

/// Sets the state of the message with a number, if it is there, and what is due of it then, and
/// marks it with its host.
pub fn put(hosts: u64, shelf: &mut Shelf, number: u64, state: State, due: Option<Key>)
    requires hosted { AreOnHosts hosts shelf.old.items }
    ensures hosted { AreOnHosts hosts shelf.new.items }
    ensures changed { map unhosted shelf.new.items
        ≡ map unhosted (with_state number state due shelf.old.items) }
    ensures next { shelf.new.next ≡ shelf.old.next }
{
    let host = host_bit(hosts, number, state.place);
    let _found = shelf.put(number, state, Mark { due, flags: host });
}

/// The numbers of the first messages, at most `most`, that may be received and are on one of the
/// hosts in `set`. It reads no other messages.
pub fn choose(alloc: Global, shelf: &Shelf, set: u32, most: u64) -> Result<Choice, AllocError>
    ensures numbers { IfOk result (ChoosesOnShelf most (on_hosts set shelf.now.items)) }
    ensures looked { IfOk result (λ choice. choice.looked ≤ 2 * most) }
    ensures read { IfOk result (λ choice. chosen choice ≤ choice.looked) }
{
    let mut choice = Choice {
        numbers: SmallVec::new(alloc),
        looked: 0,
    };
    let mut from = 0;
    for _count in 0..most {
        let Some((number, _place)) = shelf.next(from, set) else {
            return Ok(choice);
        };
        choice.looked += 1;
        choice.numbers.push(number)?;
        from = number + 1;
    }
    Ok(choice)
}
