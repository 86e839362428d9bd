//! The end of a hand-off, and what is left in its places then.
ghost use Rattle.std.specs.Prelude.{◌≡◌, ℕ, ◌+◌, ◌<◌, ◌≤◌, [], length, slice_index, slice_index_or, vec_capacity, IfOk, IsOkUnless, All};
ghost use Rattle.std.specs.Slots.{slots_items, slots_filled, slots_len, IsFull};
ghost use Rattle.sim_handoff.specs.Ends.{Says, IsLeft};
ghost use Rattle.sim_handoff.specs.Place.{place_record};
ghost use Rattle.sim_handoff.specs.Seats.{places_of, table_of, owner_table, owner_record, IsIdleHand};
ghost use Rattle.sim_handoff.specs.declared.records.Slot.TheVariants.{Nothing};

use crate::handoff::{Hand, Handoff, Owner};
use crate::records::Slot;
use crate::rule::{DONE, OFFERED, Work};
use atomic_table::Closed;
use sim_clock::Refusal;
use std::alloc::Global;

/// What is left in a place when its hand-off is closed.
#[derive(Debug, PartialEq, Drop)]
pub enum Left<P, D> {
    /// The owner has collected all that it offered here.
    Empty,
    /// The last offer, which no hand claimed.
    Offered(P),
    /// An answer to the last offer, which was not collected.
    Done(D),
}

// What is left in a place with this word and this slot.
fn left_at<P: Drop, D: Drop>(word: u64, slot: Slot<P, D>) -> Left<P, D>
    ensures { Says word slot result }
{
    match slot {
        Slot::Piece(piece) if word == OFFERED => Left::Offered(piece),
        Slot::Answer(done) if word == DONE => Left::Done(done),
        _ => Left::Empty,
    }
}

// Takes all slots out of a closed table, in the order of places.
fn unload<P: Drop, D: Drop>(
    mut closed: Closed<Slot<P, D>, Global>,
    places: usize,
    mut all: Vec<Left<P, D>>,
) -> Vec<Left<P, D>>
    requires full { IsFull closed.words × IsFull closed.slots }
    requires counts { (slots_len closed.words ≡ places + 1) × (slots_len closed.slots ≡ places) }
    requires room { (all.items ≡ []) × (places ≤ vec_capacity all) }
    ensures len { length result.items ≡ places }
    ensures says { (place : ℕ) → place < places
        → Says (slice_index (slots_items closed.words) place)
        (slice_index_or (slots_items closed.slots) place Nothing)
        (slice_index_or result.items place Left.Empty) }
{
    let mut i = 0;
    while i < places {
        let word = closed.word(i);
        all.push_reserved(left_at(word, closed.take(i)));
        i += 1;
    }
    closed.free();
    all
}

// Takes in all hands.
fn take_in_all<W: Work>(owner: &mut Owner<W>, handoff: &Handoff<W>, mut hands: Vec<Hand<W>>)
    requires here { owner_table owner.old ≡ table_of handoff.now }
    requires theirs { All (IsIdleHand (table_of handoff.now)) hands.items }
    requires all { length hands.items ≡ (owner_record owner.old).hands }
    ensures here { owner_table owner.new ≡ owner_table owner.old }
    ensures owner { owner_record owner.new ≡ record (owner_record owner.old) { hands = 0 } }
{
    while let Some(hand) = hands.pop() {
        owner.take_in(handoff, hand);
    }
}

/// Ends a hand-off. Its owner calls it with all hands that it made, none of which holds a piece.
/// Returns what is left in each place: the last offer, an answer to it, or nothing; nothing only if
/// the owner has nothing to collect there.
///
/// # Errors
///
/// Only `Memory`, if memory runs out; all values in the places are then dropped.
pub fn close<W: Work>(
    alloc: Global,
    handoff: Handoff<W>,
    mut owner: Owner<W>,
    hands: Vec<Hand<W>>,
) -> Result<Vec<Left<W::Piece, W::Done>>, Refusal>
    requires here { owner_table owner ≡ table_of handoff }
    requires theirs { All (IsIdleHand (table_of handoff)) hands.items }
    requires all { length hands.items ≡ (owner_record owner).hands }
    ensures len { IfOk result (λ left. length left.items ≡ places_of handoff) }
    ensures left { IfOk result (λ left. (place : ℕ) → place < places_of handoff
        → IsLeft W.does (place_record (owner_record owner) place)
        (slice_index_or left.items place Left.Empty)) }
    ensures memory_only { IsOkUnless result Refusal.Memory }
{
    let all = Vec::with_capacity(alloc, handoff.places)?;
    take_in_all(&mut owner, &handoff, hands);
    let Handoff {
        table,
        places,
        offers: _,
        answers: _,
    } = handoff;
    let Owner {
        seat,
        uncalled: _,
        alone: _,
    } = owner;
    Ok(unload(table.close_with(seat), places, all))
}
