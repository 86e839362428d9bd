//! How many messages came into a queue, and how many went out.
ghost use Rattle.std.specs.Prelude.{◌≡◌, ◌+◌, IfOk, OnOk};
ghost use Rattle.sim_report.specs.Figured.{depth_at, level_with};

use crate::column::{ARRIVALS, DELETES, EXPIRIES, MOVES, REDRIVES, SENDS};
use std::alloc::AllocError;

/// How many messages came into a queue, and how many went out.
#[derive(Clone, Copy, Debug, PartialEq, Eq)]
pub(crate) struct Level {
    came: u64,
    went: u64,
}

/// The level before all rows.
pub(crate) const EMPTY: Level = Level { came: 0, went: 0 };

// One more. A count that is at its greatest value would have to grow, which is refused.
pub(crate) fn one_more(count: u64) -> Result<u64, AllocError>
    ensures { IfOk result (λ more. more ≡ count + 1) }
{
    count.checked_add(1).ok_or(AllocError)
}

impl Level {
    /// Takes in a row that has this column in the report.
    ///
    /// # Errors
    ///
    /// `AllocError` if a count is at its greatest value.
    #[inline(always)]
    pub(crate) fn take(&mut self, column: Option<u16>) -> Result<(), AllocError>
        ensures { OnOk result (self.new ≡ level_with column self.old) }
    {
        match column {
            Some(SENDS | ARRIVALS) => self.came = one_more(self.came)?,
            Some(DELETES | EXPIRIES | REDRIVES | MOVES) => self.went = one_more(self.went)?,
            _ => {}
        }
        Ok(())
    }

    /// The number of messages that are there.
    pub(crate) fn depth(self) -> u64
        ensures { result ≡ depth_at self }
    {
        self.came.saturating_sub(self.went)
    }
}
