//! The first sends of a queue's messages.
ghost use Rattle.std.specs.Prelude.{◌≡◌, IfOk, OnOk};
ghost use Rattle.sim_report.specs.Doors.{came_on, counted_as, ended, entered, first_in, left, left_in, no_door, set_out};

use crate::aged::{Aged, AgedCounts};
use crate::asked::Wanted;
use crate::forwards::{FirstSend, How, UNKNOWN};
use crate::level::one_more;
use std::alloc::{AllocError, Global};
use std::marker::Model;

/// The first sends of a queue's messages, and the ages since then of those that were deleted.
#[derive(Drop)]
pub(crate) struct Door {
    // By the numbers of the messages, as they came.
    came: Vec<FirstSend>,
    // How many messages went out.
    gone: u64,
    /// How many are on their way by a redrive or a move.
    pub(crate) coming: u64,
    // The ages of those that were deleted in the stretch, unless nothing is known of them.
    ages: Aged,
    /// How many these are of which nothing is known.
    pub(crate) unknown: u64,
    /// How many of the others are known only if forwards kept their order.
    pub(crate) unsure: u64,
}

impl Model for Door {
    ghost use Rattle.sim_report.specs.Doors.{DoorState};

    ghost Value = { DoorState };

    ghost view = { λ q. record { came = q.came.items; gone = q.gone; coming = q.coming; ages = q.ages; unknown = q.unknown; unsure = q.unsure } };
}

impl Door {
    /// Of no messages.
    pub(crate) fn new(alloc: Global) -> Door
        ensures { result ≡ no_door }
    {
        Door {
            came: Vec::new(alloc),
            gone: 0,
            coming: 0,
            ages: Aged::new(alloc),
            unknown: 0,
            unsure: 0,
        }
    }

    /// Takes in that a message came with this first send.
    ///
    /// # Errors
    ///
    /// `AllocError` if a growth is refused.
    pub(crate) fn enter(&mut self, first: FirstSend) -> Result<(), AllocError>
        ensures { OnOk result (self.new ≡ entered first self.old) }
    {
        self.came.push(first)?;
        Ok(())
    }

    /// Takes in that a message came by a redrive or a move with this first send.
    ///
    /// # Errors
    ///
    /// `AllocError` if a growth is refused.
    pub(crate) fn come_on(&mut self, first: FirstSend) -> Result<(), AllocError>
        ensures { OnOk result (self.new ≡ came_on first self.old) }
    {
        self.coming = self.coming.saturating_sub(1);
        self.enter(first)
    }

    /// Takes in that a message is on its way by a redrive or a move.
    ///
    /// # Errors
    ///
    /// `AllocError` if a count is at its greatest value.
    pub(crate) fn set_out(&mut self) -> Result<(), AllocError>
        ensures { OnOk result (self.new ≡ set_out self.old) }
    {
        self.coming = one_more(self.coming)?;
        Ok(())
    }

    /// Takes in that a message went out.
    ///
    /// # Errors
    ///
    /// `AllocError` if a count is at its greatest value.
    pub(crate) fn leave(&mut self) -> Result<(), AllocError>
        ensures { OnOk result (self.new ≡ left self.old) }
    {
        self.gone = one_more(self.gone)?;
        Ok(())
    }

    /// The first send of the message with this number.
    pub(crate) fn first(&self, number: u64) -> FirstSend
        ensures { result ≡ first_in number self.now }
    {
        match self.came.get(number as usize) {
            Some(first) => *first,
            None => UNKNOWN,
        }
    }

    // Counts an age in the window with this number, which is so well known.
    fn count(&mut self, how: How, window: u64, age: u64) -> Result<(), AllocError>
        ensures { OnOk result (self.new ≡ counted_as how window age self.old) }
    {
        match how {
            How::Surely => self.ages.add(window, age),
            How::IfOrdered => {
                self.unsure = one_more(self.unsure)?;
                self.ages.add(window, age)
            }
            How::Unknown => {
                self.unknown = one_more(self.unknown)?;
                Ok(())
            }
        }
    }

    /// Takes in that the message with this number was deleted at this moment.
    ///
    /// # Errors
    ///
    /// `AllocError` if a count is at its greatest value, or an age could not be kept.
    pub(crate) fn end(&mut self, wanted: Wanted, number: u64, at: u64) -> Result<(), AllocError>
        ensures { OnOk result (self.new ≡ ended wanted number at self.old) }
    {
        if wanted.stretch.from <= at {
            let first = self.first(number);
            self.count(first.how, wanted.window_of(at), at.saturating_sub(first.at))?;
        }
        self.leave()
    }

    /// The ages, counted.
    ///
    /// # Errors
    ///
    /// `AllocError` if a growth is refused, or more ages are counted than 64 bits can say.
    pub(crate) fn counted(&self, alloc: Global) -> Result<AgedCounts, AllocError>
        ensures { IfOk result (λ all. all ≡ self.now.ages) }
    {
        self.ages.counted(alloc)
    }

    /// How many messages are there.
    pub(crate) fn left(&self) -> u64
        ensures { result ≡ left_in self.now }
    {
        (self.came.len() as u64).saturating_sub(self.gone)
    }
}
