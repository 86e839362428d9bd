//! What a receive returns for the messages that it gives.
ghost use Rattle.std.specs.Prelude.{◌≡◌, ◌⊎◌, ◌+◌, ◌<◌, All, Err, IfErr, IfOk, OnOk};
ghost use Rattle.sqs_model.specs.Answers.{most_count};
ghost use Rattle.sqs_queue.specs.Giving.{told_of, told_by};
ghost use Rattle.sqs_queue.specs.Picked.{picked};
ghost use Rattle.sqs_queue.specs.Calls.{HasAllReceives};

use sim_clock::Refusal;
use sqs_message::{Body, Message, MessageId, Receipt, Text};
use sqs_messages::MessageTable;
use sqs_model::MOST_COUNT;
use sqs_redrive::{Got, LeftLoad};
use std::alloc::Global;

/// The messages that a receive gives, and the cost of choosing them.
#[derive(Drop)]
pub struct Received {
    /// The messages that it gives, in order.
    pub messages: Vec<Got>,
    /// The number of messages that it read to choose these. A standard queue reads those that it
    /// gives and no others. A FIFO queue reads at most one delayed message more of each group that
    /// gives.
    pub looked: u64,
}

// What a receive returns for a message, before it gives the message, with copies of its group and
// its body.
#[inline(always)]
fn told_of(site: u32, message: &Message, group: Option<Text>, body: Body) -> Got
    requires below { message.now.receives < most_count }
    requires group { group ≡ message.now.group }
    requires body { body ≡ message.now.body }
    ensures { result ≡ told_of site message.now }
{
    Got {
        id: MessageId {
            site,
            number: message.number,
        },
        receipt: Receipt {
            site,
            number: message.number,
            count: message.receives + 1,
        },
        origin: message.origin,
        group,
        body,
        left: LeftLoad::none(),
    }
}

// What a receive returns for the messages with these numbers. `CountLimit` if the receive count of
// one of them is at its limit.
pub fn batch_of(
    alloc: Global,
    messages: &MessageTable,
    numbers: &[u64],
) -> Result<Vec<Got>, Refusal>
    ensures told { IfOk result (λ batch. batch.items
        ≡ told_by messages.now (picked messages.now numbers.now)) }
    ensures below { OnOk result (All (λ m. m.receives
        < most_count) (picked messages.now numbers.now)) }
    ensures at_limit { result ≡ Err Refusal.CountLimit
        → HasAllReceives (picked messages.now numbers.now) }
    ensures refused { IfErr result
        (λ refusal. (refusal ≡ Refusal.CountLimit) ⊎ (refusal ≡ Refusal.Memory)) }
{
    let site = messages.site();
    let mut batch = Vec::with_capacity(alloc, numbers.len())?;
    for number in numbers {
        if let Some(message) = messages.find(*number) {
            if message.receives == MOST_COUNT {
                return Err(Refusal::CountLimit);
            }
            let group = Text::copy_of(alloc, message.group.as_ref())?;
            let body = message.body.copy()?;
            // There is room for all of them, so each is made where it stays.
            batch.push_reserved(told_of(site, message, group, body));
        }
    }
    Ok(batch)
}
