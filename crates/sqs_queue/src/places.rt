//! The states of messages: whether they are visible or in flight, and how they change.
ghost use Rattle.std.specs.Prelude.{◌≡◌, ◌+◌, ◌<◌, ◌^◌};
ghost use Rattle.sqs_model.specs.Answers.{most_count};
ghost use Rattle.sqs_model.specs.Calls.{in_flight_until};
ghost use Rattle.sqs_model.specs.Queue.{is_in_flight, is_visible};
ghost use Rattle.sqs_model.specs.Receive.{received};
ghost use Rattle.sqs_model.specs.Return.{visible_again};
ghost use Rattle.sqs_messages.specs.Slots.{restated};

use sqs_message::{Message, Place};
use sqs_messages::State;

/// Whether a message may be received.
pub fn may_be_received(message: &Message) -> bool
    ensures { result ≡ is_visible message.now }
{
    matches!(message.place, Place::Visible)
}

/// Whether a message was received and is not back yet.
pub fn is_out(message: &Message) -> bool
    ensures { result ≡ is_in_flight message.now }
{
    matches!(message.place, Place::InFlight)
}

// The state of a message that is visible again.
pub fn visible_again(message: &Message) -> State
    ensures state { restated result message.now ≡ visible_again message.now }
    ensures receives { result.receives ≡ message.now.receives }
    ensures received { result.received ≡ message.now.received }
{
    State {
        place: Place::Visible,
        release: None,
        receives: message.receives,
        received: message.received,
    }
}

// The state of a message that is in flight until a moment.
pub fn out_until(message: &Message, until: u64) -> State
    ensures state { restated result message.now ≡ in_flight_until until message.now }
    ensures receives { result.receives ≡ message.now.receives }
    ensures received { result.received ≡ message.now.received }
{
    State {
        place: Place::InFlight,
        release: Some(until),
        receives: message.receives,
        received: message.received,
    }
}

// The state of a message that is received, with a timeout in milliseconds.
pub fn received(message: &Message, now: u64, timeout: u64) -> State
    requires counted { message.now.receives < most_count }
    requires until { now + timeout < 2 ^ 64 }
    ensures state { restated result message.now ≡ received now timeout message.now }
    ensures receives { result.receives ≡ message.now.receives + 1 }
    ensures received { result.received ≡ now }
{
    State {
        place: Place::InFlight,
        release: Some(now + timeout),
        receives: message.receives + 1,
        received: now,
    }
}
