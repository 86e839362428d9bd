//! How often messages were received until they were deleted.
ghost use Rattle.std.specs.Prelude.{◌≡◌, ◌+◌, IfOk};
ghost use Rattle.sim_report.specs.Figured.{tries_with};

use crate::level::one_more;
use std::alloc::AllocError;

/// How often messages were received until they were deleted.
#[derive(Clone, Copy, Debug, PartialEq, Eq)]
pub(crate) struct Tries {
    /// How many messages were received once.
    pub(crate) once: u64,
    /// How many were received more often.
    pub(crate) again: u64,
    pub(crate) sum: u64,
    pub(crate) greatest: u64,
}

/// Those of no messages.
pub(crate) const NO_TRIES: Tries = Tries {
    once: 0,
    again: 0,
    sum: 0,
    greatest: 0,
};

impl Tries {
    /// With those of one more message.
    ///
    /// # Errors
    ///
    /// `AllocError` if a count is at its greatest value, or the sum would pass it.
    pub(crate) fn with(self, tries: u64) -> Result<Tries, AllocError>
        ensures { IfOk result (λ all. all ≡ tries_with tries self) }
    {
        Ok(Tries {
            once: if tries == 1 {
                one_more(self.once)?
            } else {
                self.once
            },
            again: if tries > 1 {
                one_more(self.again)?
            } else {
                self.again
            },
            sum: self.sum.checked_add(tries).ok_or(AllocError)?,
            greatest: self.greatest.max(tries),
        })
    }
}
