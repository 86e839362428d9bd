//! Ages in windows of time.
ghost use Rattle.std.specs.Prelude.{◌≡◌, IfOk, OnOk, Some};
ghost use Rattle.std.specs.List.Sorted.{IsNonDecreasing};
ghost use Rattle.sim_report.specs.Figures.{bounds_after, no_windows, window_bounds, windows_with, worse, worst_of};

use crate::age_counts::AgeCounts;
use crate::ages::Ages;
use std::alloc::{AllocError, Global};
use std::marker::Model;

/// A window by its number, with the 95th percentile of its ages, in milliseconds.
#[derive(Clone, Copy, Debug, PartialEq, Eq)]
pub(crate) struct Worst {
    pub(crate) number: u64,
    pub(crate) age: u128,
}

/// The ages of the window that is counted, and the worst window before.
#[derive(Drop)]
pub(crate) struct Windows {
    number: u64,
    ages: Ages,
    worst: Option<Worst>,
}

/// The same, with the ages of the window counted.
#[derive(Drop)]
pub(crate) struct WindowCounts {
    number: u64,
    ages: AgeCounts,
    worst: Option<Worst>,
}

impl Model for WindowCounts {
    ghost use Rattle.sim_report.specs.declared.windows.Windows.{Windows};

    ghost Value = { Windows };

    ghost view = { λ w. record { number = w.number; ages = w.ages; worst = w.worst } };
}

// The worse of two windows, the second of which has this number and age, if it has any; the first
// one if they are equal.
fn worse(worst: Option<Worst>, number: u64, age: Option<u128>) -> Option<Worst>
    ensures { result ≡ worse worst number age }
{
    match (worst, age) {
        (worst, None) => worst,
        (None, Some(age)) => Some(Worst { number, age }),
        (Some(worst), Some(age)) if worst.age < age => Some(Worst { number, age }),
        (worst, Some(_)) => worst,
    }
}

impl Windows {
    /// Of no ages.
    pub(crate) fn new(alloc: Global) -> Windows
        ensures { result ≡ no_windows }
    {
        Windows {
            number: 0,
            ages: Ages::new(alloc),
            worst: None,
        }
    }

    /// The same windows.
    ///
    /// # Errors
    ///
    /// `AllocError` if a growth is refused.
    pub(crate) fn copy(&self) -> Result<Windows, AllocError>
        ensures { IfOk result (λ copy. copy ≡ self.now) }
    {
        Ok(Windows {
            number: self.number,
            ages: self.ages.copy()?,
            worst: self.worst,
        })
    }

    // The worst window so far.
    fn worst(&self) -> Result<Option<Worst>, AllocError>
        ensures { IfOk result (λ worst. worst ≡ worst_of self.now) }
    {
        let age = self.ages.nearest_rank(95)?;
        Ok(worse(self.worst, self.number, age))
    }

    /// The same, with the ages of the window counted.
    ///
    /// # Errors
    ///
    /// `AllocError` if a growth is refused, or more ages are counted than 64 bits can say.
    pub(crate) fn counted(&self, alloc: Global) -> Result<WindowCounts, AllocError>
        ensures { IfOk result (λ all. all ≡ self.now) }
    {
        Ok(WindowCounts {
            number: self.number,
            ages: self.ages.counted(alloc)?,
            worst: self.worst,
        })
    }

    /// Adds an age in the window with this number.
    ///
    /// # Errors
    ///
    /// `AllocError` if the age could not be kept or counted.
    pub(crate) fn add(&mut self, number: u64, age: u64) -> Result<(), AllocError>
        ensures { OnOk result (self.new ≡ windows_with number (Some age) self.old) }
    {
        if self.number != number {
            self.worst = self.worst()?;
            self.ages.clear();
            self.number = number;
        }
        self.ages.add(age)
    }
}

// The least and the greatest that the age of the worst window can be, if messages that are left,
// whose ages are in ascending order, end in the window with this number and these ages.
fn bounds_after(
    alloc: Global,
    before: Option<Worst>,
    number: u64,
    ages: &AgeCounts,
    left: &[u64],
) -> Result<[Option<u128>; 2], AllocError>
    requires { IsNonDecreasing left.now }
    ensures { IfOk result (λ bounds. bounds ≡ bounds_after before number ages.now left.now) }
{
    let all = ages.merged(alloc, left)?;
    let least = worse(before, number, all.nearest_rank(95)).map(|worst| worst.age);
    let rank = ages.rank_below(95, left.len());
    let most = if rank.is_some() || left.is_empty() {
        worse(before, number, rank).map(|worst| worst.age)
    } else {
        None
    };
    Ok([least, most])
}

impl WindowCounts {
    /// The worst window.
    pub(crate) fn worst(&self) -> Option<Worst>
        ensures { result ≡ worst_of self.now }
    {
        worse(self.worst, self.number, self.ages.nearest_rank(95))
    }

    /// The least and the greatest that the age of the worst window can be, if messages that are
    /// left end in the window with this number. Their ages are in ascending order.
    ///
    /// # Errors
    ///
    /// `AllocError` if a growth is refused.
    pub(crate) fn bounds(
        &self,
        alloc: Global,
        number: u64,
        left: &[u64],
    ) -> Result<[Option<u128>; 2], AllocError>
        requires { IsNonDecreasing left.now }
        ensures { IfOk result (λ bounds. bounds ≡ window_bounds number self.now left.now) }
    {
        if self.number == number {
            bounds_after(alloc, self.worst, number, &self.ages, left)
        } else {
            bounds_after(alloc, self.worst(), number, &AgeCounts::new(alloc), left)
        }
    }
}
