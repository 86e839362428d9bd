//! A shelf's messages, one after another.
ghost use Rattle.std.specs.Prelude.{◌≡◌};
ghost use Rattle.std.specs.Iterator.{YieldsFirstRef, item_count};
ghost use Rattle.sqs_messages.specs.Slots.{standing};

use crate::slot::Slot;
use sqs_message::Message;
use std::marker::Model;

/// A shelf's messages in the order of their numbers. Contracts see the list of those still to come.
#[derive(Drop)]
pub struct Messages<'a> {
    slots: &'a [Slot],
}

impl<'a> Model for Messages<'a> {
    ghost use Rattle.std.specs.Prelude.{List};
    ghost use Rattle.sqs_message.specs.declared.message.Message.{Message};
    ghost use Rattle.sqs_messages.specs.Slots.{standing};

    ghost Value = { List Message };

    ghost view = { λ messages. standing messages.slots.now };
}

// The messages that are in slots.
pub fn messages_in(slots: &[Slot]) -> Messages<'_>
    ensures { result ≡ standing slots.now }
{
    Messages { slots }
}

impl<'a> Iterator for Messages<'a> {
    type Item = &'a Message;

    ghost next_gives = { YieldsFirstRef (λ rest. rest) };

    ghost remaining = { item_count (λ rest. rest) };

    fn next(&mut self) -> Option<&'a Message> {
        while let Some((slot, others)) = self.slots.split_first() {
            self.slots = others;
            if let Some(message) = &slot.message {
                return Some(message);
            }
        }
        None
    }
}
