//! The messages that a step of a move task takes out.
ghost use Rattle.std.specs.Prelude.{◌≡◌, ◌≤◌, [], length, vec_capacity};
ghost use Rattle.sqs_message.specs.declared.message.Message.{Message};
ghost use Rattle.sqs_model.specs.Progress.{Differ};
ghost use Rattle.sqs_model.specs.Task.{take_each};
ghost use Rattle.sqs_queue.specs.Picked.{move_load, picked, taken};

use sqs_message::{Message, MessageId};
use sqs_messages::MessageTable;
use sqs_redrive::Load;

// The load of a move of a message of this queue.
fn move_of(site: u32, message: Message) -> Load
    ensures { result ≡ move_load site message }
{
    Load::Move {
        id: MessageId {
            site,
            number: message.number,
        },
        origin: message.origin,
        body: message.body,
        group: message.group,
    }
}

// Takes out the messages with these numbers, up to the first without a destination. Each goes to
// the task's queue, or else back to the queue that it came from. Appends each destination and load
// to a list that has room. Returns whether there was a message without a destination.
pub fn take_each(
    messages: &mut MessageTable,
    numbers: &[u64],
    to: Option<u32>,
    loads: &mut Vec<(u32, Load)>,
) -> bool
    requires apart { Differ (λ n. n) numbers.now }
    requires none { loads.old.items ≡ [] }
    requires room { length numbers.now ≤ vec_capacity loads.old }
    ensures { take_each messages.old to (picked messages.old numbers.now)
        ≡ taken messages.new loads.new.items result }
{
    let site = messages.site();
    for number in numbers {
        if let Some(message) = messages.find(*number) {
            let Some(queue) = to.or(message.source) else {
                return true;
            };
            if let Some(message) = messages.remove(*number) {
                loads.push_reserved((queue, move_of(site, message)));
            }
        }
    }
    false
}
