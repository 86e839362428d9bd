//! When backlogs began and ended.
ghost use Rattle.std.specs.Prelude.{◌≡◌};
ghost use Rattle.sim_report.specs.Figured.{backlogs_with};

/// When a backlog last began, and when one last ended in a stretch, in milliseconds.
#[derive(Clone, Copy, Debug, PartialEq, Eq)]
pub(crate) struct Backlogs {
    pub(crate) since: Option<u64>,
    pub(crate) gone: Option<u64>,
}

/// Before all rows.
pub(crate) const NO_BACKLOGS: Backlogs = Backlogs {
    since: None,
    gone: None,
};

impl Backlogs {
    /// Takes in one more row at this moment, which lies in the stretch or not, and before and after
    /// which there was a backlog or not.
    pub(crate) fn take(&mut self, within: bool, at: u64, was: bool, is: bool)
        ensures { self.new ≡ backlogs_with within at was is self.old }
    {
        if !was && is {
            self.since = Some(at);
        }
        if within && was && !is {
            self.gone = Some(at);
        }
    }
}
