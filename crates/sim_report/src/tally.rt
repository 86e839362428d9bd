//! The running counts of a queue.
ghost use Rattle.std.specs.Prelude.{◌≡◌, ◌↔◌, ◌⊎◌, IfOk, OnErr, OnOk, map, Some, true};
ghost use Rattle.sim_report.specs.Tally.{counted, depth_by, others_by, tallied_by};

use crate::age_counts::AgeCounts;
use crate::ages::Ages;
use crate::column::RowCount;
use crate::left::Left;
use std::alloc::{AllocError, Global};
use std::marker::Model;

/// The number of columns that count rows.
pub(crate) const COUNTED: usize = 18;

/// The number of other columns.
pub(crate) const OTHERS: usize = 9;

/// The running counts of a queue: what its columns need of the rows so far, without the rows.
#[derive(Drop)]
pub(crate) struct Tally {
    counts: [u64; COUNTED],
    depth_max: u128,
    ages: Ages,
}

impl Model for Tally {
    ghost use Rattle.std.specs.Prelude.{◌≤◌};
    ghost use Rattle.sim_report.specs.Tally.{TallyState, depth_by};

    ghost Value = { TallyState };

    ghost view = { λ t. record { counts = t.counts; depth_max = t.depth_max; ages = t.ages } };

    ghost invariant = { λ t. depth_by t.counts ≤ t.depth_max };
}

// Counts one more row in a column, if it is one of these. A count that is at its greatest value
// would have to grow, and this is refused like any growth: the counts stay as they are.
pub(crate) fn count_in(counts: &mut [u64], column: Option<u16>) -> Result<(), AllocError>
    ensures counted { OnOk result (counts.new ≡ counted column counts.old) }
    ensures unchanged { OnErr result (counts.new ≡ counts.old) }
{
    if let Some(column) = column
        && usize::from(column) < counts.len()
    {
        let place = usize::from(column);
        let Some(more) = counts[place].checked_add(1) else {
            return Err(AllocError);
        };
        counts[place] = more;
    }
    Ok(())
}

// The number of messages that came in by these counts, minus those that left.
fn depth_of(counts: &[u64; COUNTED]) -> u128
    ensures { result ≡ depth_by counts.now }
{
    let came = u128::from(counts[0]) + u128::from(counts[8]);
    let went = u128::from(counts[4])
        + u128::from(counts[5])
        + u128::from(counts[6])
        + u128::from(counts[7]);
    came.saturating_sub(went)
}

// Whether a column counts messages that came in.
fn comes_in(column: Option<u16>) -> bool
    ensures { (result ≡ true) ↔ ((column ≡ Some 0) ⊎ (column ≡ Some 8)) }
{
    matches!(column, Some(0 | 8))
}

// The columns that count rows.
fn count_columns(alloc: Global, counts: &[u64; COUNTED]) -> Result<Vec<Option<u128>>, AllocError>
    ensures { IfOk result (λ v. v.items ≡ map (λ n. Some n) counts.now) }
{
    let mut columns = Vec::with_capacity(alloc, COUNTED + OTHERS)?;
    for count in counts {
        columns.push(Some(u128::from(*count)))?;
    }
    Ok(columns)
}

// The other columns.
fn other_columns(depth_max: u128, left: Left, ages: &AgeCounts) -> [Option<u128>; OTHERS]
    ensures { result ≡ others_by depth_max left ages.now }
{
    [
        Some(depth_max),
        Some(u128::from(left.visible)),
        Some(u128::from(left.in_flight)),
        Some(u128::from(left.delayed)),
        Some(ages.total()),
        ages.nearest_rank(100),
        ages.nearest_rank(50),
        ages.nearest_rank(95),
        ages.nearest_rank(99),
    ]
}

impl Tally {
    ghost use Rattle.sim_report.specs.Running.{columns_by};
    ghost use Rattle.std.specs.Prelude.{[]};
    ghost use Rattle.sim_report.specs.Tally.{tally_of};

    /// The counts of no rows.
    pub(crate) fn new(alloc: Global) -> Tally
        ensures { result ≡ tally_of [] }
    {
        Tally {
            counts: [0; COUNTED],
            depth_max: 0,
            ages: Ages::new(alloc),
        }
    }

    /// Counts what a row of the queue counts.
    ///
    /// # Errors
    ///
    /// `AllocError` if a count is at its greatest value, or an age could not be kept.
    #[inline(always)]
    pub(crate) fn count(&mut self, count: RowCount) -> Result<(), AllocError>
        ensures { OnOk result (self.new ≡ tallied_by count self.old) }
    {
        count_in(&mut self.counts, count.column)?;
        if comes_in(count.column) {
            self.depth_max = self.depth_max.max(depth_of(&self.counts));
        }
        if let Some(age) = count.age {
            self.ages.add(age)?;
        }
        Ok(())
    }

    /// The columns of the queue, given the messages that are left in it.
    pub(crate) fn columns(&self, alloc: Global, left: Left) -> Result<Vec<Option<u128>>, AllocError>
        ensures { IfOk result (λ v. v.items ≡ columns_by self.now left) }
    {
        let ages = self.ages.counted(alloc)?;
        let others = other_columns(self.depth_max, left, &ages);
        let mut columns = count_columns(alloc, &self.counts)?;
        columns.extend_from_slice(&others)?;
        Ok(columns)
    }
}
