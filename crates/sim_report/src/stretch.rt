//! A stretch of a run.
ghost use Rattle.std.specs.Prelude.{◌≡◌, ◌<◌, ◌-◌, ◌^◌};
ghost use Rattle.sim_report.specs.Figures.{overlap, permille};

/// From one moment to before another, in milliseconds.
#[derive(Clone, Copy, Debug, PartialEq, Eq)]
pub struct Stretch {
    pub from: u64,
    pub until: u64,
}

impl Stretch {
    /// How much of the time from one moment to another, which is not past its end, lies in it, in
    /// milliseconds.
    pub(crate) fn overlap(self, first: u64, last: u64) -> u64
        ensures { result ≡ overlap self first last }
    {
        last.saturating_sub(first.max(self.from))
    }

    /// A time in thousandths of it, rounded down; none if it is empty.
    pub(crate) fn permille(self, ms: u128) -> Option<u128>
        requires { ms < 2 ^ 65 }
        ensures { result ≡ permille self ms }
    {
        if self.from < self.until {
            Some(1000 * ms / u128::from(self.until - self.from))
        } else {
            None
        }
    }

    /// Its last moment.
    pub(crate) fn last(self) -> u64
        ensures { result ≡ self.until - 1 }
    {
        self.until.saturating_sub(1)
    }
}
