//! Ages of deletions that are counted: each different age once.
ghost use Rattle.std.specs.Prelude.{◌≡◌, ◌<◌, ◌≤◌, ◌^◌, ◌++◌, ◌+◌, IfOk, OnErr, OnOk, length, nat_lt, slice_get, sum};
ghost use Rattle.std.specs.List.{prefix_len};
ghost use Rattle.std.specs.List.Sorted.{IsNonDecreasing};
ghost use Rattle.sqs_formats.specs.Report.{ascending};
ghost use Rattle.sim_report.specs.Ages.{EachOnce, ages_of, expanded};
ghost use Rattle.sim_report.specs.Figures.{rank_below, rank_in};

use std::alloc::{AllocError, Global};
use std::marker::Model;

/// An age, and how many messages were deleted at it.
#[derive(Clone, Copy, Debug)]
pub(crate) struct AgeCount {
    age: u64,
    count: u64,
}

/// Ages in ascending order, of which each different one is kept once, with its count.
#[derive(Drop)]
pub(crate) struct AgeCounts {
    counts: Vec<AgeCount>,
    number: u64,
}

impl Model for AgeCounts {
    ghost use Rattle.std.specs.Prelude.{ℕ, ◌≡◌, ◌<◌, ◌^◌, List, length};
    ghost use Rattle.sim_report.specs.Ages.{EachOnce, expanded};

    ghost Value = { List ℕ };

    ghost view = { λ a. expanded a.counts.items };

    ghost invariant = { λ a. EachOnce a.counts.items × (a.number ≡ length (expanded a.counts.items))
        × (a.number < 2 ^ 64) };
}

// How many ages, from the first on, are below another one.
fn below(ages: &[u64], age: u64) -> usize
    ensures { result ≡ prefix_len (λ a. nat_lt a age) ages.now }
{
    ages.iter().take_while(|before| **before < age).count()
}

// Counts an age behind the others, or more of the last one if it is the same.
fn push_count(counts: &mut Vec<AgeCount>, more: AgeCount) -> Result<(), AllocError>
    requires some { 0 < more.count }
    requires fits { length (expanded counts.old.items) + more.count < 2 ^ 64 }
    requires once { EachOnce counts.old.items }
    requires ascends { IsNonDecreasing (expanded counts.old.items ++ ages_of more) }
    ensures added { OnOk result
        (expanded counts.new.items ≡ expanded counts.old.items ++ ages_of more) }
    ensures once { OnOk result (EachOnce counts.new.items) }
    ensures unchanged { OnErr result (counts.new.items ≡ counts.old.items) }
{
    let len = counts.len();
    if len > 0 && counts[len - 1].age == more.age {
        counts[len - 1].count += more.count;
        return Ok(());
    }
    counts.push(more)?;
    Ok(())
}

// The age at a place, where each age stands as often as its count.
fn age_at(counts: &[AgeCount], place: u128) -> Option<u128>
    ensures { result ≡ slice_get (expanded counts.now) place }
{
    let mut left = place;
    for count in counts {
        let here = u128::from(count.count);
        if left < here {
            return Some(u128::from(count.age));
        }
        left -= here;
    }
    None
}

// The sum of ages, each as often as its count.
fn total(counts: &[AgeCount]) -> u128
    requires { length (expanded counts.now) < 2 ^ 64 }
    ensures { result ≡ sum (expanded counts.now) }
{
    let mut total = 0;
    for count in counts {
        total += u128::from(count.age) * u128::from(count.count);
    }
    total
}

impl AgeCounts {
    ghost use Rattle.std.specs.Prelude.{[]};

    /// No ages.
    pub(crate) fn new(alloc: Global) -> AgeCounts
        ensures { result ≡ [] }
    {
        AgeCounts {
            counts: Vec::new(alloc),
            number: 0,
        }
    }

    /// How many different ages there are.
    pub(crate) fn different(&self) -> usize {
        self.counts.len()
    }

    /// The nearest rank: the least of the ages such that `percent` of 100 are at or below it.
    pub(crate) fn nearest_rank(&self, percent: u64) -> Option<u128>
        requires { percent ≤ 100 }
        ensures { result ≡ rank_in percent self.now }
    {
        let place = (u128::from(percent) * u128::from(self.number)).div_ceil(100);
        age_at(self.counts.as_slice(), place.saturating_sub(1))
    }

    /// The same of these ages and of so many more that are above all of them, if it is one of these.
    pub(crate) fn rank_below(&self, percent: u64, more: usize) -> Option<u128>
        requires { percent ≤ 100 }
        ensures { result ≡ rank_below percent more self.now }
    {
        let all = u128::from(self.number) + more as u128;
        let place = (u128::from(percent) * all).div_ceil(100);
        age_at(self.counts.as_slice(), place.saturating_sub(1))
    }

    /// The sum of the ages.
    pub(crate) fn total(&self) -> u128
        ensures { result ≡ sum self.now }
    {
        total(self.counts.as_slice())
    }

    // Adds an age as often as it counts, behind the others.
    fn add(&mut self, more: AgeCount) -> Result<(), AllocError>
        requires some { 0 < more.count }
        requires ascends { IsNonDecreasing (self.old ++ ages_of more) }
        ensures { OnOk result (self.new ≡ self.old ++ ages_of more) }
    {
        let Some(number) = self.number.checked_add(more.count) else {
            return Err(AllocError);
        };
        push_count(&mut self.counts, more)?;
        self.number = number;
        Ok(())
    }

    // Adds ages behind the others.
    fn add_each(&mut self, ages: &[u64]) -> Result<(), AllocError>
        requires { IsNonDecreasing (self.old ++ ages.now) }
        ensures { OnOk result (self.new ≡ self.old ++ ages.now) }
    {
        for age in ages {
            self.add(AgeCount {
                age: *age,
                count: 1,
            })?;
        }
        Ok(())
    }

    /// These ages and more of them, which are in ascending order.
    ///
    /// # Errors
    ///
    /// `AllocError` if a growth is refused, or more ages are counted than 64 bits can say.
    pub(crate) fn merged(&self, alloc: Global, more: &[u64]) -> Result<AgeCounts, AllocError>
        requires { IsNonDecreasing more.now }
        ensures { IfOk result (λ all. all ≡ ascending (self.now ++ more.now)) }
    {
        let mut all = AgeCounts {
            counts: Vec::with_capacity(alloc, self.counts.len())?,
            number: 0,
        };
        let mut rest = more;
        for count in &self.counts {
            let (before, behind) = rest.split_at(below(rest, count.age));
            all.add_each(before)?;
            all.add(*count)?;
            rest = behind;
        }
        all.add_each(rest)?;
        Ok(all)
    }
}
