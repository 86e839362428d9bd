//! The order in which a queue gives its messages.
ghost use Rattle.std.specs.Prelude.{◌≡◌, ◌+◌, ◌++◌, ◌∷◌, ◌<◌, ◌^◌, [], IfOk, List, OnOk, map, true, ℕ};
ghost use Rattle.sim_clock.specs.Firsts.{changed, without};
ghost use Rattle.sqs_model.specs.Valid.{IsQueueSettings};
ghost use Rattle.sqs_redrive.specs.declared.settings.Kind.{Kind};
ghost use Rattle.sqs_messages.specs.Marked.{restamped, unhosted, with_state};
ghost use Rattle.sqs_messages.specs.Orders.{AreInOrder, IsOrderOf, IsRoomed, hosts_by};
ghost use Rattle.sqs_messages.specs.Slots.{Shelved, is_numbered, message_of};

use crate::groups::Groups;
use crate::groups::arrival::add;
use crate::groups::members::LEADS;
use crate::groups::room::room_for;
use crate::hosts;
use crate::shelf::Shelf;
use crate::slot::State;
use sim_clock::Key;
use sqs_message::{Message, Text};
use sqs_redrive::{Kind, QueueSettings};
use std::alloc::{AllocError, Global};

/// The order in which a queue gives its messages: a standard queue by their hosts, a FIFO queue by
/// their groups.
#[derive(Drop)]
pub enum Order {
    /// By hosts, with the number of hosts on which the queue's messages are.
    Hosts(u64),
    Groups(Groups),
}

impl Order {
    /// The order of an empty queue. It allocates nothing.
    pub fn opened(alloc: Global, settings: &QueueSettings) -> Order
        requires { IsQueueSettings settings.now }
        ensures kind { IsOrderOf settings.now.kind result }
        ensures empty { (items : List Shelved) (next : ℕ) → items ≡ []
            → AreInOrder items next result }
    {
        match settings.kind {
            Kind::Standard { hosts, .. } => Order::Hosts(hosts),
            Kind::Fifo { .. } => Order::Groups(Groups::new(alloc)),
        }
    }

    /// Makes room for one more message of a group, on the shelf and in the list of its group.
    /// Returns the index of the group, if the order is by groups. No message changes.
    #[inline(always)]
    pub fn room_for(
        &mut self,
        alloc: Global,
        shelf: &mut Shelf,
        group: &Option<Text>,
    ) -> Result<usize, AllocError>
        requires { AreInOrder shelf.old.items shelf.old.next self.old }
        ensures ordered { AreInOrder shelf.new.items shelf.new.next self.new }
        ensures kind { (kind : Kind) → IsOrderOf kind self.old → IsOrderOf kind self.new }
        ensures items { shelf.new.items ≡ shelf.old.items }
        ensures next { shelf.new.next ≡ shelf.old.next }
        ensures ready { OnOk result (shelf.new.ready ≡ true) }
        ensures room { IfOk result (IsRoomed self.new group.now) }
    {
        shelf.reserve()?;
        match self {
            Order::Hosts(_) => Ok(0),
            Order::Groups(groups) => room_for(
                alloc,
                shelf,
                &mut groups.names,
                &mut groups.members,
                group,
            ),
        }
    }

    /// Adds a message, for which there is room, with what is due of it. Its group has this index.
    #[inline(always)]
    pub fn add(&mut self, shelf: &mut Shelf, place: usize, message: Message, due: Option<Key>)
        requires ordered { AreInOrder shelf.old.items shelf.old.next self.old }
        requires ready { shelf.old.ready ≡ true }
        requires number { message.number ≡ shelf.old.next }
        requires range { shelf.old.next + 1 < 2 ^ 64 }
        requires room { IsRoomed self.old message.group place }
        ensures ordered { AreInOrder shelf.new.items shelf.new.next self.new }
        ensures kind { (kind : Kind) → IsOrderOf kind self.old → IsOrderOf kind self.new }
        ensures added { map unhosted shelf.new.items
            ≡ map unhosted shelf.old.items ++ (message, due, place) ∷ [] }
        ensures next { shelf.new.next ≡ shelf.old.next + 1 }
    {
        match self {
            Order::Hosts(hosts) => hosts::add(*hosts, shelf, place, message, due),
            Order::Groups(groups) => add(
                shelf,
                &groups.names,
                groups.members.as_mut_slice(),
                place,
                message,
                due,
            ),
        }
    }

    /// Sets the state of the message with a number, if it is there, and what is due of it then.
    pub fn put(&mut self, shelf: &mut Shelf, number: u64, state: State, due: Option<Key>)
        requires { AreInOrder shelf.old.items shelf.old.next self.old }
        ensures ordered { AreInOrder shelf.new.items shelf.new.next self.new }
        ensures kind { (kind : Kind) → IsOrderOf kind self.old → IsOrderOf kind self.new }
        ensures changed { map unhosted shelf.new.items
            ≡ map unhosted (with_state number state due shelf.old.items) }
        ensures next { shelf.new.next ≡ shelf.old.next }
    {
        match self {
            Order::Hosts(hosts) => hosts::put(*hosts, shelf, number, state, due),
            Order::Groups(groups) => groups.put(shelf, number, state, due),
        }
    }

    /// Removes the message with a number, if it is there.
    pub fn remove(&mut self, shelf: &mut Shelf, number: u64) -> Option<Message>
        requires { AreInOrder shelf.old.items shelf.old.next self.old }
        ensures ordered { AreInOrder shelf.new.items shelf.new.next self.new }
        ensures kind { (kind : Kind) → IsOrderOf kind self.old → IsOrderOf kind self.new }
        ensures found { result ≡ message_of shelf.old.items number }
        ensures rest { map unhosted shelf.new.items
            ≡ map unhosted (without (is_numbered number) shelf.old.items) }
        ensures next { shelf.new.next ≡ shelf.old.next }
    {
        match self {
            Order::Hosts(_) => shelf.remove(number).map(|(message, _)| message),
            Order::Groups(groups) => groups.remove(shelf, number),
        }
    }

    /// The flags by which a receive that sees these hosts finds the messages with which it begins.
    pub fn hosts(&self, set: u32) -> u32
        ensures { result ≡ hosts_by self.now set }
    {
        match self {
            Order::Hosts(_) => set,
            Order::Groups(_) => LEADS,
        }
    }
}
