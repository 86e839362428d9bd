//! The kinds of step. These types are for the proofs alone.
ghost use Rattle.sim_handoff.specs.Steps.{raised, lowered, set_down, picked_up, returned, takes_up, puts_down, offering, collecting, claiming, stopping, looking, with_hand, new_hand, without_hand, spent_record};

use crate::records::{PartyRecord, Slot};
use crate::rule::Work;
use atomic_table::{Join, Play, Split};
use std::marker::PhantomData;

/// The owner takes the slot of an empty place.
pub struct Raise;

impl<P, D> Play<Slot<P, D>, PartyRecord<P>> for Raise {
    ghost then = { takes_up raised };
}

/// The owner gives back the slot with a piece in it: the place is offered.
pub struct Offer;

impl<P, D> Play<Slot<P, D>, PartyRecord<P>> for Offer {
    ghost then = { offering };
}

/// The owner takes the slot of a place that is done: the place is empty.
pub struct Collect<W> {
    work: PhantomData<W>,
}

impl<W: Work> Play<Slot<W::Piece, W::Done>, PartyRecord<W::Piece>> for Collect<W> {
    ghost then = { collecting W.does };
}

/// The owner gives back the slot of an empty place.
pub struct Lower;

impl<P, D> Play<Slot<P, D>, PartyRecord<P>> for Lower {
    ghost then = { puts_down lowered };
}

/// A hand takes the slot of a place that is offered: the place is claimed.
pub struct Claim;

impl<P, D> Play<Slot<P, D>, PartyRecord<P>> for Claim {
    ghost then = { claiming };
}

/// A hand gives back the slot of a place that it claimed.
pub struct SetDown;

impl<P, D> Play<Slot<P, D>, PartyRecord<P>> for SetDown {
    ghost then = { puts_down set_down };
}

/// A hand takes the slot of a place that it claimed.
pub struct PickUp;

impl<P, D> Play<Slot<P, D>, PartyRecord<P>> for PickUp {
    ghost then = { takes_up picked_up };
}

/// A hand gives back the slot with an answer in it: the place is done.
pub struct GiveBack;

impl<P, D> Play<Slot<P, D>, PartyRecord<P>> for GiveBack {
    ghost then = { puts_down returned };
}

/// The owner sets the flag.
pub struct Stop;

impl<P, D> Play<Slot<P, D>, PartyRecord<P>> for Stop {
    ghost then = { stopping };
}

/// A hand looks at the flag.
pub struct Look;

impl<P, D> Play<Slot<P, D>, PartyRecord<P>> for Look {
    ghost then = { looking };
}

/// The owner makes a hand.
pub struct Splitting;

impl<P> Split<PartyRecord<P>> for Splitting {
    ghost left = { with_hand };

    ghost right = { new_hand };
}

/// The owner takes a hand in.
pub struct Joining;

impl<P> Join<PartyRecord<P>> for Joining {
    ghost both = { without_hand };

    ghost spent = { spent_record };
}
