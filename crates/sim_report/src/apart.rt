//! Ages of deletions, of messages that came by a move and of others.
ghost use Rattle.std.specs.Prelude.{◌≡◌, false, true, IfOk, OnOk};
ghost use Rattle.sim_report.specs.Figured.{apart_with, none_apart};

use crate::aged::{Aged, AgedCounts};
use std::alloc::{AllocError, Global};
use std::marker::Model;

/// The ages at which messages of a queue were deleted: of all, of those that came by no move, and
/// of those that came by one.
#[derive(Drop)]
pub(crate) struct AgedApart {
    all: Aged,
    // None as long as no message came by a move: these are then all.
    others: Option<Aged>,
    moved: Aged,
}

impl Model for AgedApart {
    ghost use Rattle.std.specs.Prelude.{unwrap_or};
    ghost use Rattle.sim_report.specs.Figured.{AgesApart};

    ghost Value = { AgesApart };

    ghost view = { λ a. record { all = a.all; others = unwrap_or a.others a.all; moved = a.moved } };
}

/// The same, with the ages counted.
#[derive(Drop)]
pub(crate) struct CountedApart {
    all: AgedCounts,
    others: Option<AgedCounts>,
    moved: AgedCounts,
}

impl Model for CountedApart {
    ghost use Rattle.std.specs.Prelude.{unwrap_or};
    ghost use Rattle.sim_report.specs.Figured.{AgesApart};

    ghost Value = { AgesApart };

    ghost view = { λ a. record { all = a.all; others = unwrap_or a.others a.all; moved = a.moved } };
}

impl AgedApart {
    /// No ages.
    pub(crate) fn new(alloc: Global) -> AgedApart
        ensures { result ≡ none_apart }
    {
        AgedApart {
            all: Aged::new(alloc),
            others: None,
            moved: Aged::new(alloc),
        }
    }

    // Adds an age of a message that came by a move.
    fn add_moved(&mut self, window: u64, age: u64) -> Result<(), AllocError>
        ensures { OnOk result (self.new ≡ apart_with true window age self.old) }
    {
        let others = match self.others.take() {
            Some(others) => others,
            None => self.all.copy()?,
        };
        self.others = Some(others);
        self.moved.add(window, age)?;
        self.all.add(window, age)?;
        Ok(())
    }

    // Adds an age of a message that came by no move.
    fn add_other(&mut self, window: u64, age: u64) -> Result<(), AllocError>
        ensures { OnOk result (self.new ≡ apart_with false window age self.old) }
    {
        match &mut self.others {
            Some(others) => others.add(window, age)?,
            None => {}
        }
        self.all.add(window, age)?;
        Ok(())
    }

    /// Adds an age in the window with this number, of a message that came by a move or not.
    ///
    /// # Errors
    ///
    /// `AllocError` if the age could not be kept or counted.
    pub(crate) fn add(&mut self, moved: bool, window: u64, age: u64) -> Result<(), AllocError>
        ensures { OnOk result (self.new ≡ apart_with moved window age self.old) }
    {
        if moved {
            self.add_moved(window, age)
        } else {
            self.add_other(window, age)
        }
    }

    /// The same, with the ages counted.
    ///
    /// # Errors
    ///
    /// `AllocError` if a growth is refused, or more ages are counted than 64 bits can say.
    pub(crate) fn counted(&self, alloc: Global) -> Result<CountedApart, AllocError>
        ensures { IfOk result (λ all. all ≡ self.now) }
    {
        let others = match &self.others {
            Some(others) => Some(others.counted(alloc)?),
            None => None,
        };
        Ok(CountedApart {
            all: self.all.counted(alloc)?,
            others,
            moved: self.moved.counted(alloc)?,
        })
    }
}

impl CountedApart {
    /// Those of all.
    pub(crate) fn all(&self) -> &AgedCounts
        ensures { result.now ≡ self.now.all }
    {
        &self.all
    }

    /// Those of messages that came by no move.
    pub(crate) fn others(&self) -> &AgedCounts
        ensures { result.now ≡ self.now.others }
    {
        match &self.others {
            Some(others) => others,
            None => &self.all,
        }
    }

    /// Those of messages that came by a move.
    pub(crate) fn moved(&self) -> &AgedCounts
        ensures { result.now ≡ self.now.moved }
    {
        &self.moved
    }
}
