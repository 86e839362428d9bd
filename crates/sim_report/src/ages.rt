//! The ages at which messages were deleted.
ghost use Rattle.std.specs.Prelude.{◌≡◌, ◌≤◌, IfOk, OnOk};
ghost use Rattle.std.specs.List.Sorted.{IsNonDecreasing};
ghost use Rattle.sqs_formats.specs.Report.{ascending, put};
ghost use Rattle.sim_report.specs.Figures.{rank_in};

use crate::age_counts::AgeCounts;
use std::alloc::{AllocError, Global};
use std::marker::Model;

/// The number of recent ages up to which they are kept as they came.
const RECENT: usize = 1024;

/// The ages at which messages were deleted. They are kept as counts, but for the latest ones, which
/// are counted once there are as many of them as of different ages.
#[derive(Drop)]
pub(crate) struct Ages {
    counted: AgeCounts,
    recent: Vec<u64>,
}

impl Model for Ages {
    ghost use Rattle.std.specs.Prelude.{ℕ, ◌++◌, List};
    ghost use Rattle.sqs_formats.specs.Report.{ascending};

    ghost Value = { List ℕ };

    ghost view = { λ a. ascending (a.counted ++ a.recent.items) };
}

/// The ages in ascending order.
///
/// # Errors
///
/// `AllocError` if a growth is refused.
pub(crate) fn sorted(alloc: Global, ages: &[u64]) -> Result<Vec<u64>, AllocError>
    ensures same { IfOk result (λ v. v.items ≡ ascending ages.now) }
    ensures ascends { IfOk result (λ v. IsNonDecreasing v.items) }
{
    let mut sorted = ages.to_vec(alloc)?;
    sorted.sort_unstable();
    Ok(sorted)
}

impl Ages {
    ghost use Rattle.std.specs.Prelude.{[]};

    /// No ages.
    pub(crate) fn new(alloc: Global) -> Ages
        ensures { result ≡ [] }
    {
        Ages {
            counted: AgeCounts::new(alloc),
            recent: Vec::new(alloc),
        }
    }

    /// The same ages.
    ///
    /// # Errors
    ///
    /// `AllocError` if a growth is refused.
    pub(crate) fn copy(&self) -> Result<Ages, AllocError>
        ensures { IfOk result (λ copy. copy ≡ self.now) }
    {
        let alloc = *self.recent.allocator();
        Ok(Ages {
            counted: self.counted(alloc)?,
            recent: Vec::new(alloc),
        })
    }

    /// Adds an age.
    ///
    /// # Errors
    ///
    /// `AllocError` if the age could not be kept or counted.
    #[inline(always)]
    pub(crate) fn add(&mut self, age: u64) -> Result<(), AllocError>
        ensures { OnOk result (self.new ≡ put age self.old) }
    {
        if self.recent.len() >= self.counted.different().max(RECENT) {
            self.count_recent()?;
        }
        self.recent.push(age)?;
        Ok(())
    }

    // Counts the recent ages, so that none is recent. It is a call of its own, since it is rare.
    #[cold]
    #[inline(never)]
    fn count_recent(&mut self) -> Result<(), AllocError>
        ensures { self.new ≡ self.old }
    {
        self.recent.sort_unstable();
        let alloc = *self.recent.allocator();
        self.counted = self.counted.merged(alloc, self.recent.as_slice())?;
        self.recent.clear();
        Ok(())
    }

    /// Forgets all ages.
    pub(crate) fn clear(&mut self)
        ensures { self.new ≡ [] }
    {
        self.counted = AgeCounts::new(*self.recent.allocator());
        self.recent.clear();
    }

    /// The nearest rank: the least of the ages such that `percent` of 100 are at or below it.
    ///
    /// # Errors
    ///
    /// Those of `counted`.
    pub(crate) fn nearest_rank(&self, percent: u64) -> Result<Option<u128>, AllocError>
        requires { percent ≤ 100 }
        ensures { IfOk result (λ age. age ≡ rank_in percent self.now) }
    {
        let all = self.counted(*self.recent.allocator())?;
        Ok(all.nearest_rank(percent))
    }

    /// All ages, counted.
    ///
    /// # Errors
    ///
    /// `AllocError` if a growth is refused, or more ages are counted than 64 bits can say.
    pub(crate) fn counted(&self, alloc: Global) -> Result<AgeCounts, AllocError>
        ensures { IfOk result (λ all. all ≡ self.now) }
    {
        let recent = sorted(alloc, self.recent.as_slice())?;
        self.counted.merged(alloc, recent.as_slice())
    }
}
