//! Steps that bring what a bell announces, and what they return for its ring.
ghost use Rattle.std.specs.Prelude.{◌≡◌, ◌<◌};
ghost use Rattle.sim_handoff.specs.Seats.{table_of};
ghost use Rattle.sim_handoff.specs.Stores.{HasStored, MayStore};

use crate::bell::{Answers, Offers};
use crate::handoff::{Handoff, RecordOf, SeatOf, SlotOf};
use crate::rule::Work;
use crate::steps::{GiveBack, Offer, Stop};
use atomic_table::Play;
use std::marker::PhantomData;

/// A step that brings what the bell of `A` announces.
pub trait Brings<A> {}

impl Brings<Offers> for Offer {}

impl Brings<Offers> for Stop {}

impl Brings<Answers> for GiveBack {}

/// What a step brings is there. Only `Handoff::bring` makes it, once it is.
#[derive(Drop)]
pub struct Brought<M> {
    step: PhantomData<M>,
}

impl<W: Work> Handoff<W> {
    // Stores a word by a step that brings something.
    pub(crate) fn bring<M: Play<SlotOf<W>, RecordOf<W>>>(
        &self,
        seat: &mut SeatOf<W>,
        word: usize,
        new: u64,
    ) -> Brought<M>
        requires here { seat.old.table_id ≡ table_of self.now }
        requires word { word < (table_of self.now).words }
        requires allowed { MayStore self.now W.does M.then word new seat.old.id seat.old.me }
        ensures here { seat.new.table_id ≡ seat.old.table_id }
        ensures party { seat.new.id ≡ seat.old.id }
        ensures stored { HasStored self.now M.then word new seat.old.me seat.new.me }
    {
        self.table.shared.store::<M>(seat, word, new);
        Brought { step: PhantomData }
    }
}
