//! The contents of a slot, and the records of the parties.
use std::collections::LinkedList;

/// The contents of the slot of a place.
#[derive(Drop)]
pub enum Slot<P, D> {
    Nothing,
    Piece(P),
    Answer(D),
}

/// What a party knows of one place. It is used in contracts alone: no value of it is made.
pub struct PlaceRecord<P> {
    /// The owner's: all pieces offered here, the newest first.
    pub offers: LinkedList<P>,
    /// The owner's: whether the last offer is still to be collected.
    pub pending: bool,
    /// The owner's: whether it has taken the slot, in the midst of a call.
    pub lifted: bool,
    /// A hand's: the piece that it claimed here and did not give back.
    pub held: Option<P>,
    /// A hand's: whether it has taken the slot, in the midst of a call.
    pub out: bool,
    /// A hand's: the number of first offers here that it knows to have been claimed.
    pub known: u64,
}

/// What a party, the owner or a hand, has done and seen. It is used in contracts alone: no value of
/// it is made.
pub struct PartyRecord<P> {
    /// What it knows of each place.
    pub by_place: LinkedList<PlaceRecord<P>>,
    /// Whether it is a hand.
    pub is_hand: bool,
    /// The owner's: the number of hands made and not taken in.
    pub hands: u64,
    /// Whether the owner set the flag; of a hand, whether it saw the flag set.
    pub stopped: bool,
}
