//! What an actor holds.
ghost use Rattle.std.specs.Prelude.{◌≡◌, OnOk};
ghost use Rattle.sim_report.specs.Figures.{held_with};

use crate::fact::Hold;
use crate::level::one_more;
use std::alloc::AllocError;

/// How many messages of its last receive an actor has not settled, and whether its last row was of
/// that receive.
#[derive(Clone, Copy, Debug, PartialEq, Eq)]
pub(crate) struct Held {
    pub(crate) number: u64,
    pub(crate) receiving: bool,
}

/// What it holds before all rows.
pub(crate) const NOTHING: Held = Held {
    number: 0,
    receiving: false,
};

impl Held {
    /// Takes in a row that changes this.
    ///
    /// # Errors
    ///
    /// `AllocError` if the number is at its greatest value.
    #[inline(always)]
    pub(crate) fn take(&mut self, hold: Hold) -> Result<(), AllocError>
        ensures { OnOk result (self.new ≡ held_with hold self.old) }
    {
        match hold {
            Hold::Takes if self.receiving => self.number = one_more(self.number)?,
            Hold::Takes => {
                *self = Held {
                    number: 1,
                    receiving: true,
                }
            }
            Hold::Waits | Hold::Asks => *self = NOTHING,
            Hold::Settles => {
                *self = Held {
                    number: self.number.saturating_sub(1),
                    receiving: false,
                }
            }
            Hold::Keeps => {}
        }
        Ok(())
    }
}
