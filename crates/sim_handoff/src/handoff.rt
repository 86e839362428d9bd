//! The table of places, its owner and its hands.
ghost use Rattle.std.specs.Prelude.{◌≡◌, ℕ, ◌+◌, ◌-◌, ◌<◌, ◌≤◌, [], length, false, true, None, IfSome, IfNone, IfOk, IfErr, IsOkUnless, MatchBool, replicate};
ghost use Rattle.sim_handoff.specs.declared.records.Slot.TheVariants.{Nothing};
ghost use Rattle.sim_handoff.specs.Place.{place_record, IsFree, HoldsNothing, HoldsOnly, AnswersLast, AnswersHeld};
ghost use Rattle.sim_handoff.specs.Steps.{at, offered, collected, holding, returned, stopped, with_hand, new_hand, opening_record, LearnsClaims};

use crate::bell::{Answers, Bell, Missed, Offers, Rung, Seen};
use crate::brought::Brought;
use crate::records::{PartyRecord, Slot};
use crate::rule::{CLAIMED, DONE, EMPTY, HandoffRule, OFFERED, RUNNING, STOPPED, Work};
use crate::steps::{
    Claim, Collect, GiveBack, Joining, Look, Lower, Offer, PickUp, Raise, SetDown, Splitting, Stop,
};
use atomic_table::{Refused, Seat, Table};
use sim_clock::Refusal;
use std::alloc::{AllocError, Global};

pub(crate) type SlotOf<W> = Slot<<W as Work>::Piece, <W as Work>::Done>;

pub(crate) type RecordOf<W> = PartyRecord<<W as Work>::Piece>;

pub(crate) type SeatOf<W> = Seat<SlotOf<W>, RecordOf<W>>;

type TableOf<W> = Table<SlotOf<W>, RecordOf<W>, usize, HandoffRule<W>, Global>;

/// A fixed number of places, each of them empty, offered, claimed or done, and a flag. It has two
/// bells: hands wait on one for offers, and the owner waits on the other for answers. The owner and
/// its hands share it by reference, each on a thread of its own if they like.
#[derive(Drop)]
pub struct Handoff<W: Work> {
    pub(crate) table: TableOf<W>,
    pub(crate) places: usize,
    pub(crate) offers: Bell<Offers>,
    pub(crate) answers: Bell<Answers>,
    ghost sized: { (table.shared.table_id.words ≡ places + 1)
        × (table.shared.table_id.slots ≡ places) × (table.shared.key ≡ places) },
}

// The pieces that an owner has offered since it last called hands.
#[derive(Drop)]
pub(crate) enum Uncalled {
    Nothing,
    One(Brought<Offer>),
    Several(Brought<Offer>),
}

/// The only party that offers, collects, stops, makes hands and closes. Its record is kept for
/// contracts alone.
#[derive(Drop)]
pub struct Owner<W: Work> {
    pub(crate) seat: SeatOf<W>,
    // What it has offered since it last called hands.
    pub(crate) uncalled: Uncalled,
    // Whether it never calls hands.
    pub(crate) alone: bool,
    ghost seated: { (seat.id ≡ 0) × (seat.me.1 ≡ [])
        × (length seat.me.0.by_place ≡ seat.table_id.slots) },
    ghost rests: { (place : ℕ) → (place_record seat.me.0 place).lifted ≡ false },
}

/// A party that claims pieces and gives answers back. Its record is kept for contracts alone. A
/// hand that is dropped counts as out for good, and its hand-off can then no longer be closed.
#[derive(Drop)]
pub struct Hand<W: Work> {
    pub(crate) seat: SeatOf<W>,
    ghost seated: { (seat.me.0.is_hand ≡ true) × (seat.me.1 ≡ [])
        × (length seat.me.0.by_place ≡ seat.table_id.slots) },
    ghost rests: { (place : ℕ) → (place_record seat.me.0 place).out ≡ false },
}

/// A claim of a place by a hand. It has no `Drop`: only `Hand::give_back` consumes it.
pub struct Claimed {
    place: usize,
}

impl Claimed {
    ghost use Rattle.sim_handoff.specs.Seats.{claimed_place};

    /// The place that was claimed. Any holder of the claim may ask, and nothing changes.
    pub fn place(&self) -> usize
        ensures { result ≡ claimed_place self.now }
    {
        self.place
    }
}

// `count` empty slots.
fn empty_slots<P: Drop, D: Drop>(alloc: Global, count: usize) -> Result<Vec<Slot<P, D>>, AllocError>
    ensures { IfOk result (λ slots. slots.items ≡ replicate count Nothing) }
{
    let mut slots = Vec::with_capacity(alloc, count)?;
    let mut i = 0;
    while i < count {
        slots.push(Slot::Nothing)?;
        i += 1;
    }
    Ok(slots)
}

impl<W: Work> Handoff<W> {
    ghost use Rattle.sim_handoff.specs.Seats.{places_of, table_of, owner_table, owner_record};

    /// Makes `places` empty places and their owner. The owner's record says that nothing was
    /// offered, no hand is out and the flag is not set. Anyone may call it.
    ///
    /// # Errors
    ///
    /// Only `Memory`, if memory runs out and for 2^60 places or more.
    pub fn make(alloc: Global, places: usize) -> Result<(Handoff<W>, Owner<W>), Refusal>
        ensures places { IfOk result (λ made. places_of made.0 ≡ places) }
        ensures here { IfOk result (λ made. owner_table made.1 ≡ table_of made.0) }
        ensures owner { IfOk result (λ made. owner_record made.1 ≡ opening_record places) }
        ensures memory_only { IsOkUnless result Refusal.Memory }
    {
        // No allocator has room for that many words.
        if places >= 1 << 60 {
            return Err(Refusal::Memory);
        }
        let words = Vec::from_elem(alloc, EMPTY, places + 1)?;
        let slots = empty_slots(alloc, places)?;
        match Table::new(alloc, words.as_slice(), slots, &places) {
            Ok((table, seat)) => Ok((
                Handoff {
                    table,
                    places,
                    offers: Bell::new(),
                    answers: Bell::new(),
                },
                Owner {
                    seat,
                    uncalled: Uncalled::Nothing,
                    alone: false,
                },
            )),
            Err(Refused { slots: _ }) => Err(Refusal::Memory),
        }
    }

    /// The number of places. Anyone may ask, and nothing changes.
    pub fn places(&self) -> usize
        ensures { result ≡ places_of self.now }
    {
        self.places
    }

    /// The bell that is rung when there are pieces to claim, and when the owner has stopped. Hands
    /// wait on it.
    pub fn offers(&self) -> &Bell<Offers> {
        &self.offers
    }

    /// The bell that is rung when there are answers to collect. The owner waits on it.
    pub fn answers(&self) -> &Bell<Answers> {
        &self.answers
    }
}

impl<W: Work> Owner<W> {
    ghost use Rattle.sim_handoff.specs.Seats.{places_of, table_of, owner_table, owner_record, hand_table, hand_record};

    /// Makes one more hand of the owner's hand-off. The hand holds nothing and has seen nothing;
    /// the owner's record counts it, and says of each place what it said before.
    pub fn hand(&mut self, handoff: &Handoff<W>) -> Hand<W>
        requires here { owner_table self.old ≡ table_of handoff.now }
        ensures here { owner_table self.new ≡ owner_table self.old }
        ensures theirs { hand_table result ≡ owner_table self.old }
        ensures owner { owner_record self.new ≡ with_hand (owner_record self.old) }
        ensures places { (place : ℕ)
            → place_record (owner_record self.new) place
            ≡ place_record (owner_record self.old) place }
        ensures hand { hand_record result ≡ new_hand (owner_record self.old) }
        ensures idle { HoldsNothing (hand_record result) }
    {
        let seat = handoff.table.shared.split_seat::<Splitting>(&mut self.seat);
        Hand { seat }
    }

    /// Wakes the waiting hands if several pieces were offered since the last call. If only one was,
    /// the owner's own thread can claim it as well. An owner that works alone wakes none. The
    /// owner's record stays as it was.
    pub fn call(&mut self, handoff: &Handoff<W>)
        ensures here { owner_table self.new ≡ owner_table self.old }
        ensures same { owner_record self.new ≡ owner_record self.old }
    {
        if let Uncalled::Several(brought) = &self.uncalled {
            if !self.alone {
                handoff.offers.ring(brought);
            }
        }
        self.uncalled = Uncalled::Nothing;
    }

    /// Wakes the waiting hands if a piece was offered since the last call, even if the owner works
    /// alone. It does not count as a call.
    pub fn call_early(&self, handoff: &Handoff<W>) {
        match &self.uncalled {
            Uncalled::One(brought) | Uncalled::Several(brought) => {
                handoff.offers.ring(brought);
            }
            Uncalled::Nothing => {}
        }
    }

    /// Sets whether the owner works alone from now on. If it does, `call` wakes no hand. The
    /// owner's record stays as it was.
    pub fn work_alone(&mut self, alone: bool)
        ensures here { owner_table self.new ≡ owner_table self.old }
        ensures same { owner_record self.new ≡ owner_record self.old }
    {
        self.alone = alone;
    }

    /// Sets the flag of the owner's hand-off for good, and wakes all hands. The owner's record says
    /// so.
    pub fn stop(&mut self, handoff: &Handoff<W>) -> Rung<Stop>
        requires here { owner_table self.old ≡ table_of handoff.now }
        ensures here { owner_table self.new ≡ owner_table self.old }
        ensures stopped { owner_record self.new ≡ stopped (owner_record self.old) }
    {
        let brought = handoff.bring::<Stop>(&mut self.seat, handoff.places, STOPPED);
        handoff.offers.ring(&brought)
    }

    // Takes in a hand that holds nothing.
    pub(crate) fn take_in(&mut self, handoff: &Handoff<W>, hand: Hand<W>)
        requires here { owner_table self.old ≡ table_of handoff.now }
        requires theirs { hand_table hand ≡ table_of handoff.now }
        requires idle { HoldsNothing (hand_record hand) }
        ensures here { owner_table self.new ≡ owner_table self.old }
        ensures owner { owner_record self.new
            ≡ record (owner_record self.old) { hands = (owner_record self.old).hands - 1 } }
    {
        let Hand { seat } = hand;
        handoff
            .table
            .shared
            .join_seat::<Joining>(&mut self.seat, seat);
    }

    /// Offers a piece in a place of the owner's hand-off from which it has nothing to collect. In
    /// the owner's record the piece is then the last offer there, and the place is to be collected.
    pub fn offer(&mut self, handoff: &Handoff<W>, place: usize, piece: W::Piece)
        requires here { owner_table self.old ≡ table_of handoff.now }
        requires place { place < places_of handoff.now }
        requires empty { IsFree (owner_record self.old) place }
        ensures here { owner_table self.new ≡ owner_table self.old }
        ensures offered { owner_record self.new ≡ at place (offered piece) (owner_record self.old) }
    {
        let shared = &handoff.table.shared;
        shared.load::<Raise>(&mut self.seat, place);
        match shared.exchange(&mut self.seat, place, Slot::Piece(piece)) {
            Slot::Nothing => {}
            Slot::Piece(_) | Slot::Answer(_) => unreachable!(),
        }
        let brought = handoff.bring::<Offer>(&mut self.seat, place, OFFERED);
        self.uncalled = match self.uncalled {
            Uncalled::Nothing => Uncalled::One(brought),
            Uncalled::One(_) | Uncalled::Several(_) => Uncalled::Several(brought),
        };
    }

    /// Collects, from any place of the owner's hand-off, an answer to its last offer there; the
    /// place is then empty. If the place was not seen done, returns none and leaves the owner's
    /// record as it was.
    pub fn collect(&mut self, handoff: &Handoff<W>, place: usize) -> Option<W::Done>
        requires here { owner_table self.old ≡ table_of handoff.now }
        requires place { place < places_of handoff.now }
        ensures here { owner_table self.new ≡ owner_table self.old }
        ensures answer { IfSome result
            (AnswersLast W.does (place_record (owner_record self.old) place)) }
        ensures collected { IfSome result
            (λ _. owner_record self.new ≡ at place collected (owner_record self.old)) }
        ensures empty { IfSome result (λ _. IsFree (owner_record self.new) place) }
        ensures none { IfNone result (owner_record self.new ≡ owner_record self.old) }
    {
        let shared = &handoff.table.shared;
        let found = shared.compare_exchange::<Collect<W>>(&mut self.seat, place, DONE, EMPTY);
        if found != DONE {
            return None;
        }
        let value = shared.exchange(&mut self.seat, place, Slot::Nothing);
        shared.load::<Lower>(&mut self.seat, place);
        match value {
            Slot::Answer(done) => Some(done),
            Slot::Nothing | Slot::Piece(_) => unreachable!(),
        }
    }
}

impl<W: Work> Owner<W> {
    ghost use Rattle.sim_handoff.specs.Seats.{places_of, table_of, owner_table, owner_record};

    /// Collects as `collect` does. The look for it began with what was seen of the bell of answers.
    /// If it finds nothing, it returns what the owner needs to wait.
    pub fn collect_or_miss(
        &mut self,
        handoff: &Handoff<W>,
        place: usize,
        seen: Seen<Answers>,
    ) -> Result<W::Done, Missed<Answers>>
        requires here { owner_table self.old ≡ table_of handoff.now }
        requires place { place < places_of handoff.now }
        ensures here { owner_table self.new ≡ owner_table self.old }
        ensures answer { IfOk result
            (AnswersLast W.does (place_record (owner_record self.old) place)) }
        ensures collected { IfOk result
            (λ _. owner_record self.new ≡ at place collected (owner_record self.old)) }
        ensures empty { IfOk result (λ _. IsFree (owner_record self.new) place) }
        ensures none { IfErr result (λ _. owner_record self.new ≡ owner_record self.old) }
    {
        match self.collect(handoff, place) {
            Some(done) => Ok(done),
            None => Err(seen.missed()),
        }
    }
}

impl<W: Work> Hand<W> {
    ghost use Rattle.sim_handoff.specs.Seats.{places_of, table_of, hand_table, hand_record, claimed_place};

    /// Whether the owner has stopped; any hand of the hand-off may ask. If it returns true, the
    /// hand's record says that the hand saw so. It returns false only to a hand that has not seen
    /// it.
    pub fn stopped(&mut self, handoff: &Handoff<W>) -> bool
        requires here { hand_table self.old ≡ table_of handoff.now }
        ensures here { hand_table self.new ≡ hand_table self.old }
        ensures seen { MatchBool result
            (hand_record self.new ≡ stopped (hand_record self.old))
            ((hand_record self.new ≡ hand_record self.old)
            × ((hand_record self.old).stopped ≡ false)) }
    {
        let flag = handoff
            .table
            .shared
            .load::<Look>(&mut self.seat, handoff.places);
        flag != RUNNING
    }

    /// Claims the piece that is offered in a place; any hand of the hand-off may try. The hand's
    /// record then says that it holds the piece. If the place was not seen offered, returns none.
    /// The record then has a number of first offers there that were all claimed, at least those
    /// that it had before.
    pub fn claim(&mut self, handoff: &Handoff<W>, place: usize) -> Option<(Claimed, W::Piece)>
        requires here { hand_table self.old ≡ table_of handoff.now }
        requires place { place < places_of handoff.now }
        ensures here { hand_table self.new ≡ hand_table self.old }
        ensures place { IfSome result (λ claim. claimed_place claim.0 ≡ place) }
        ensures held { IfSome result
            (λ claim. hand_record self.new ≡ at place (holding claim.1) (hand_record self.old)) }
        ensures none { IfNone result
            (LearnsClaims place (hand_record self.old) (hand_record self.new)) }
    {
        let shared = &handoff.table.shared;
        let found = shared.compare_exchange::<Claim>(&mut self.seat, place, OFFERED, CLAIMED);
        if found != OFFERED {
            return None;
        }
        let value = shared.exchange(&mut self.seat, place, Slot::Nothing);
        shared.load::<SetDown>(&mut self.seat, place);
        match value {
            Slot::Piece(piece) => Some((Claimed { place }, piece)),
            Slot::Nothing | Slot::Answer(_) => unreachable!(),
        }
    }

    // Claims the first piece that is offered in the places of a range.
    fn claim_between(
        &mut self,
        handoff: &Handoff<W>,
        from: usize,
        to: usize,
    ) -> Option<(Claimed, W::Piece)>
        requires here { hand_table self.old ≡ table_of handoff.now }
        requires idle { HoldsNothing (hand_record self.old) }
        requires places { to ≤ places_of handoff.now }
        ensures here { hand_table self.new ≡ hand_table self.old }
        ensures held { IfSome result
            (λ claim. HoldsOnly (claimed_place claim.0) claim.1 (hand_record self.new)) }
        ensures none { IfNone result (HoldsNothing (hand_record self.new)) }
    {
        for place in from..to {
            if let Some(claim) = self.claim(handoff, place) {
                return Some(claim);
            }
        }
        None
    }

    /// Claims the first piece that is offered, in the places from one on and then in those before
    /// it. The look for it began with what was seen of the bell of offers. Any hand of the hand-off
    /// that holds nothing may try. The hand then holds that piece alone. If no place was seen
    /// offered, the hand still holds nothing, and the call returns what the hand needs to wait.
    pub fn claim_or_miss(
        &mut self,
        handoff: &Handoff<W>,
        from: usize,
        seen: Seen<Offers>,
    ) -> Result<(Claimed, W::Piece), Missed<Offers>>
        requires here { hand_table self.old ≡ table_of handoff.now }
        requires idle { HoldsNothing (hand_record self.old) }
        ensures here { hand_table self.new ≡ hand_table self.old }
        ensures held { IfOk result
            (λ claim. HoldsOnly (claimed_place claim.0) claim.1 (hand_record self.new)) }
        ensures none { IfErr result (λ _. HoldsNothing (hand_record self.new)) }
    {
        let places = handoff.places();
        let from = from.min(places);
        if let Some(claim) = self.claim_between(handoff, from, places) {
            return Ok(claim);
        }
        match self.claim_between(handoff, 0, from) {
            Some(claim) => Ok(claim),
            None => Err(seen.missed()),
        }
    }

    /// Gives back an answer to the piece that this hand claimed and holds, and wakes the owner. The
    /// place is done, and the hand's record says that it holds nothing there any more.
    pub fn give_back(
        &mut self,
        handoff: &Handoff<W>,
        claimed: Claimed,
        done: W::Done,
    ) -> Rung<GiveBack>
        requires here { hand_table self.old ≡ table_of handoff.now }
        requires does { AnswersHeld W.does
            (place_record (hand_record self.old) (claimed_place claimed)) done }
        ensures here { hand_table self.new ≡ hand_table self.old }
        ensures returned { hand_record self.new
            ≡ at (claimed_place claimed) returned (hand_record self.old) }
    {
        let Claimed { place } = claimed;
        let shared = &handoff.table.shared;
        shared.load::<PickUp>(&mut self.seat, place);
        match shared.exchange(&mut self.seat, place, Slot::Answer(done)) {
            Slot::Nothing => {}
            Slot::Piece(_) | Slot::Answer(_) => unreachable!(),
        }
        let brought = handoff.bring::<GiveBack>(&mut self.seat, place, DONE);
        handoff.answers.ring(&brought)
    }
}
