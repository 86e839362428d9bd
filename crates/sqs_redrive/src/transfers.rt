//! The transfers from one queue to another.
ghost use Rattle.std.specs.Prelude.{◌≡◌};
ghost use Rattle.sqs_redrive.specs.Transfers.{transfer_key};

use sim_clock::{Class, Key};
use sqs_message::{Body, MessageId, Origin, Text};

/// The load of a transfer. The group stands at one place in all three: a copy of a load then has no
/// padding to move.
#[derive(Drop)]
pub enum Load {
    /// A message on its way to the dead-letter queue, with the enqueue time that it had.
    Redrive {
        id: MessageId,
        group: Option<Text>,
        origin: Origin,
        body: Body,
        enqueued: u64,
    },
    /// A message that a move task took out.
    Move {
        id: MessageId,
        group: Option<Text>,
        origin: Origin,
        body: Body,
    },
    /// A copy of a message that a consumer served: a send that is made on arrival.
    Forward {
        id: MessageId,
        group: Option<Text>,
        body: Body,
    },
}

/// A transfer to another queue.
#[derive(Drop)]
pub struct Outbound {
    /// When it arrives, in milliseconds.
    pub at: u64,
    /// The agent that sent it: the queue of a redriven message, the consumer of a forward, the
    /// task of a moved message.
    pub sender: u32,
    /// How many transfers the sender had sent before.
    pub number: u64,
    /// The number of the queue that it left.
    pub from: u32,
    /// The number of the queue that receives it.
    pub to: u32,
    pub load: Load,
}

/// A transfer, as the queue that receives it sees it.
pub type Transfer = Outbound;

impl Outbound {
    /// The key of its arrival.
    pub fn key(&self) -> Key
        ensures { result ≡ transfer_key self.now }
    {
        Key {
            at: self.at,
            agent: self.sender,
            class: Class::Arrival,
            number: self.number,
        }
    }
}
