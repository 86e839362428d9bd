//! How long something lasted.
ghost use Rattle.std.specs.Prelude.{◌≡◌, ◌<◌, ◌^◌, OnOk};
ghost use Rattle.sim_report.specs.Figured.{lasting_until, lasting_with};

use crate::stretch::Stretch;
use std::alloc::AllocError;

/// How long something lasted in a stretch, up to a moment, in milliseconds.
#[derive(Clone, Copy, Debug, PartialEq, Eq)]
pub(crate) struct Lasting {
    // The moment of the last row.
    at: u64,
    // How long it lasted up to there.
    total: u64,
}

/// Before all rows.
pub(crate) const NO_TIME: Lasting = Lasting { at: 0, total: 0 };

impl Lasting {
    /// Takes in one more row at this moment, where it is known whether it lasted until then.
    ///
    /// # Errors
    ///
    /// `AllocError` if the time would pass 2^64 - 1.
    pub(crate) fn take(&mut self, stretch: Stretch, lasted: bool, at: u64) -> Result<(), AllocError>
        ensures { OnOk result (self.new ≡ lasting_with stretch lasted at self.old) }
    {
        if lasted {
            let more = stretch.overlap(self.at, at);
            self.total = self.total.checked_add(more).ok_or(AllocError)?;
        }
        self.at = at;
        Ok(())
    }

    /// How long it lasted up to the end of the stretch, where it is known whether it lasts.
    pub(crate) fn until_end(self, stretch: Stretch, lasts: bool) -> u128
        ensures is { result ≡ lasting_until stretch lasts self }
        ensures fits { result < 2 ^ 65 }
    {
        let rest = if lasts {
            stretch.overlap(self.at, stretch.until)
        } else {
            0
        };
        u128::from(self.total) + u128::from(rest)
    }
}
