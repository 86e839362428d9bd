//! The greatest number that there was in a stretch.
ghost use Rattle.std.specs.Prelude.{◌≡◌};
ghost use Rattle.sim_report.specs.Figured.{no_peak, peak_with};

use crate::stretch::Stretch;

/// The greatest of some numbers, with the first moment at which it was there, in milliseconds.
#[derive(Clone, Copy, Debug, PartialEq, Eq)]
pub(crate) struct Peak {
    pub(crate) at: u64,
    pub(crate) number: u64,
}

impl Peak {
    /// The peak of no rows over a stretch.
    pub(crate) fn none(stretch: Stretch) -> Peak
        ensures { result ≡ no_peak stretch }
    {
        Peak {
            at: stretch.from,
            number: 0,
        }
    }

    /// Takes in one more row at this moment, after which the number is this. Until the stretch has
    /// begun, this is the number at its beginning.
    pub(crate) fn take(&mut self, stretch: Stretch, begun: bool, at: u64, number: u64)
        ensures { self.new ≡ peak_with stretch begun at number self.old }
    {
        if !begun {
            *self = Peak {
                at: stretch.from,
                number,
            };
        } else if self.number < number && stretch.from <= at {
            *self = Peak { at, number };
        }
    }
}
