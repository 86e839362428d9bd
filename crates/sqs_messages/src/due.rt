//! The next entry due of a message.
ghost use Rattle.std.specs.Prelude.{◌≡◌, ◌+◌, ◌<◌, ◌^◌};
ghost use Rattle.sim_clock.specs.Order.{least};
ghost use Rattle.sqs_message.specs.declared.message.Message.{Message};
ghost use Rattle.sqs_model.specs.Dues.{message_dues, release_due};

use sim_clock::{Class, Key, lesser};
use sqs_message::Message;

// The key of the next entry due of a message whose delay or visibility timeout has this end.
pub fn due_of(site: u32, retention: u64, message: &Message, release: Option<u64>) -> Option<Key>
    requires { message.now.enqueued + retention < 2 ^ 64 }
    ensures { result
        ≡ least (message_dues site retention (record message.now { release = release })) }
{
    let expiry = Key {
        at: message.enqueued + retention,
        agent: site,
        class: Class::Expiry,
        number: message.number,
    };
    let release = release.map(|at| Key {
        at,
        class: Class::Release,
        ..expiry
    });
    lesser(Some(expiry), release)
}
