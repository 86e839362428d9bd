//! The work that is handed over, and the rule of its table.
use crate::records::{PartyRecord, Slot};
use atomic_table::TableRule;
use std::marker::PhantomData;

/// What is handed over, and what is given back for it.
pub trait Work {
    /// What the owner offers.
    type Piece: Drop + Send;

    /// What a hand gives back for a piece.
    type Done: Drop + Send;

    /// Whether an answer is right for a piece.
    ghost does: { Self.Piece → Self.Done → Type 0 };
}

/// The rule of a hand-off: a clause for each place, and one for the flag. It is used in types
/// alone.
pub struct HandoffRule<W> {
    work: PhantomData<W>,
}

impl<W: Work> TableRule<Slot<W::Piece, W::Done>, PartyRecord<W::Piece>, usize> for HandoffRule<W> {
    ghost use Rattle.sim_handoff.specs.Place.{IsHandoff};
    ghost use Rattle.sim_handoff.specs.Steps.{opening_record};

    ghost holds = { λ places. IsHandoff W.does places };

    ghost first = { λ places. opening_record places };
}

/// The word of a place where nothing is offered.
pub const EMPTY: u64 = 0;

/// The word of a place whose piece waits for a hand.
pub const OFFERED: u64 = 1;

/// The word of a place whose piece a hand has.
pub const CLAIMED: u64 = 2;

/// The word of a place whose answer waits for the owner.
pub const DONE: u64 = 3;

/// The word of the flag before `stop`.
pub const RUNNING: u64 = 0;

/// The word of the flag after `stop`.
pub const STOPPED: u64 = 1;
