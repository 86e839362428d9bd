//! A FIFO queue's messages by their message groups.
//!
//! A group gives its messages in the order of their arrival, and none while one of them is in
//! flight (Developer Guide: FIFO delivery logic). The first message of a group is marked if the
//! group may give it. Messages without a group form one group.
ghost use Rattle.std.specs.Prelude.{◌≡◌, [], map};
ghost use Rattle.sim_clock.specs.Firsts.{changed, without};
ghost use Rattle.sqs_messages.specs.Groups.{AreInGroups};
ghost use Rattle.sqs_messages.specs.Marked.{restamped, unhosted, with_state};
ghost use Rattle.sqs_messages.specs.Slots.{is_numbered, message_of};

use crate::shelf::Shelf;
use crate::slot::State;
use indexmap::IndexSet;
use members::{Members, in_flight, moved};
use sim_clock::Key;
use sim_index::Mark;
use sqs_message::{Message, Text};
use std::alloc::Global;

pub mod arrival;
pub mod choose;
pub mod front;
pub mod members;
pub mod room;

/// The groups of a queue's messages. Once a message of a group came, the group's name stays.
#[derive(Drop)]
pub struct Groups {
    // The groups' names; each has the index of its members.
    pub names: IndexSet<Option<Text>>,
    pub members: Vec<Members>,
}

impl Groups {
    /// No groups. It allocates nothing.
    pub fn new(alloc: Global) -> Groups
        ensures names { result.names.keys ≡ [] }
        ensures members { result.members.items ≡ [] }
    {
        Groups {
            names: IndexSet::new(alloc),
            members: Vec::new(alloc),
        }
    }

    /// Removes the message with a number, if it is there. It allocates nothing.
    pub fn remove(&mut self, shelf: &mut Shelf, number: u64) -> Option<Message>
        requires { AreInGroups shelf.old.items shelf.old.next self.old.names.keys
            self.old.members.items }
        ensures grouped { AreInGroups shelf.new.items shelf.new.next self.new.names.keys
            self.new.members.items }
        ensures found { result ≡ message_of shelf.old.items number }
        ensures rest { map unhosted shelf.new.items
            ≡ map unhosted (without (is_numbered number) shelf.old.items) }
        ensures next { shelf.new.next ≡ shelf.old.next }
    {
        let _next = shelf.number();
        let (message, place) = shelf.remove(number)?;
        let groups = self.members.as_mut_slice();
        moved(shelf, groups, place, in_flight(message.place), false);
        Some(message)
    }

    /// Sets the state of the message with a number, if it is there, and what is due of it then. It
    /// allocates nothing.
    pub fn put(&mut self, shelf: &mut Shelf, number: u64, state: State, due: Option<Key>)
        requires { AreInGroups shelf.old.items shelf.old.next self.old.names.keys
            self.old.members.items }
        ensures grouped { AreInGroups shelf.new.items shelf.new.next self.new.names.keys
            self.new.members.items }
        ensures changed { map unhosted shelf.new.items
            ≡ map unhosted (with_state number state due shelf.old.items) }
        ensures next { shelf.new.next ≡ shelf.old.next }
    {
        let _next = shelf.number();
        let Some((was, place)) = shelf.put(number, state, Mark { due, flags: 0 }) else {
            return;
        };
        let groups = self.members.as_mut_slice();
        moved(shelf, groups, place, in_flight(was), in_flight(state.place));
    }
}
