//! The slots of a shelf.
ghost use Rattle.std.specs.Prelude.{◌≡◌, ◌<◌, ◌≤◌, ℕ, IfSome, MatchOption, get_or, length};
ghost use Rattle.std.specs.Option.{option_map};
ghost use Rattle.sqs_messages.specs.Slots.{AreOrdered, IsOff, IsOn, restated};
ghost use Rattle.sqs_messages.specs.declared.slot.Slot.{Slot};

use sqs_message::{Message, Place};

/// The part of a message that changes while the message is in a queue. Times are milliseconds from
/// the start of the run.
#[derive(Clone, Copy, Debug)]
pub struct State {
    /// Whether it is delayed, visible or in flight.
    pub place: Place,
    /// When its delay or visibility timeout ends; none while it is visible.
    pub release: Option<u64>,
    /// How often it was received in this queue.
    pub receives: u64,
    /// When it was last received; 0 before the first receive.
    pub received: u64,
}

// A slot: the number of the message that came there, the index of its group if the queue goes by
// groups, and the message while it is there.
#[derive(Drop)]
pub struct Slot {
    pub number: u64,
    pub group: usize,
    pub message: Option<Message>,
}

// The index of the slot with a number, if it is there and no later number is missing.
fn place_from_last(slots: &[Slot], number: u64) -> Option<usize>
    ensures within { IfSome result (λ place. place < length slots.now) }
    ensures number { IfSome result
        (λ place. (d : Slot) → (get_or slots.now place d).number ≡ number) }
{
    let behind = slots.last()?.number.checked_sub(number)? as usize;
    let place = (slots.len() - 1).checked_sub(behind)?;
    if slots[place].number == number {
        Some(place)
    } else {
        None
    }
}

// The index of the first slot whose number is not below this one. It is found at once for 0, and if
// no later number is missing.
pub fn first_from(slots: &[Slot], number: u64) -> usize
    requires { AreOrdered slots.now }
    ensures bound { result ≤ length slots.now }
    ensures below { (k : ℕ) (d : Slot) → k < result → (get_or slots.now k d).number < number }
    ensures from { (k : ℕ) (d : Slot) → result ≤ k → k < length slots.now
        → number ≤ (get_or slots.now k d).number }
{
    if number == 0 {
        return 0;
    }
    if let Some(place) = place_from_last(slots, number) {
        return place;
    }
    slots.partition_point(|slot| slot.number < number)
}

// The index of the slot of the message with a number.
pub fn place_of(slots: &[Slot], number: u64) -> Option<usize>
    requires { AreOrdered slots.now }
    ensures { MatchOption result (IsOff slots.now number) (IsOn slots.now number) }
{
    let place = first_from(slots, number);
    let slot = slots.get(place)?;
    if slot.number == number && slot.message.is_some() {
        Some(place)
    } else {
        None
    }
}

// Sets the state of a message. Returns the state that it was in.
pub fn write(slot: &mut Slot, state: State) -> Option<Place>
    ensures number { slot.new.number ≡ slot.old.number }
    ensures group { slot.new.group ≡ slot.old.group }
    ensures message { slot.new.message ≡ option_map (restated state) slot.old.message }
    ensures was { result ≡ option_map (λ m. m.place) slot.old.message }
{
    let message = slot.message.as_mut()?;
    let was = message.place;
    message.place = state.place;
    message.release = state.release;
    message.receives = state.receives;
    message.received = state.received;
    Some(was)
}
