//! Ages of deletions, of all and by windows of time.
ghost use Rattle.std.specs.Prelude.{◌≡◌, map, zip, IfOk, OnOk};
ghost use Rattle.std.specs.List.Sorted.{IsNonDecreasing};
ghost use Rattle.sim_report.specs.Figured.{age_bounds};
ghost use Rattle.sim_report.specs.Figures.{age_numbers, aged_with, no_aged};

use crate::age_counts::AgeCounts;
use crate::ages::Ages;
use crate::asked::Wanted;
use crate::figure::Figure;
use crate::windows::{WindowCounts, Windows};
use std::alloc::{AllocError, Global};
use std::marker::Model;

/// The number of figures of ages.
pub(crate) const AGES: usize = 7;

/// The number of bounds of ages.
pub(crate) const BOUNDS: usize = 10;

/// Ages at which messages were deleted, of all and by windows of time.
#[derive(Drop)]
pub(crate) struct Aged {
    ages: Ages,
    windows: Windows,
}

/// The same, with the ages counted.
#[derive(Drop)]
pub(crate) struct AgedCounts {
    ages: AgeCounts,
    windows: WindowCounts,
}

impl Model for AgedCounts {
    ghost use Rattle.sim_report.specs.declared.aged.Aged.{Aged};

    ghost Value = { Aged };

    ghost view = { λ a. record { ages = a.ages; windows = a.windows } };
}

impl Aged {
    /// No ages.
    pub(crate) fn new(alloc: Global) -> Aged
        ensures { result ≡ no_aged }
    {
        Aged {
            ages: Ages::new(alloc),
            windows: Windows::new(alloc),
        }
    }

    /// The same ages.
    ///
    /// # Errors
    ///
    /// `AllocError` if a growth is refused.
    pub(crate) fn copy(&self) -> Result<Aged, AllocError>
        ensures { IfOk result (λ copy. copy ≡ self.now) }
    {
        Ok(Aged {
            ages: self.ages.copy()?,
            windows: self.windows.copy()?,
        })
    }

    /// Adds an age in the window with this number.
    ///
    /// # Errors
    ///
    /// `AllocError` if the age could not be kept or counted.
    pub(crate) fn add(&mut self, window: u64, age: u64) -> Result<(), AllocError>
        ensures { OnOk result (self.new ≡ aged_with window age self.old) }
    {
        self.ages.add(age)?;
        self.windows.add(window, age)
    }

    /// The same, with the ages counted.
    ///
    /// # Errors
    ///
    /// `AllocError` if a growth is refused, or more ages are counted than 64 bits can say.
    pub(crate) fn counted(&self, alloc: Global) -> Result<AgedCounts, AllocError>
        ensures { IfOk result (λ all. all ≡ self.now) }
    {
        Ok(AgedCounts {
            ages: self.ages.counted(alloc)?,
            windows: self.windows.counted(alloc)?,
        })
    }
}

impl AgedCounts {
    /// The bounds of the ages, by these names, where messages that are left have these ages, in
    /// ascending order, at the last moment of the stretch.
    ///
    /// # Errors
    ///
    /// `AllocError` if a growth is refused.
    pub(crate) fn bounds(
        &self,
        alloc: Global,
        wanted: Wanted,
        left: &[u64],
        names: [&'static [u8]; BOUNDS],
    ) -> Result<[Figure; BOUNDS], AllocError>
        requires { IsNonDecreasing left.now }
        ensures { IfOk result (λ v. v
            ≡ zip (map (λ n. n.now) names.entry) (age_bounds wanted left.now self.now)) }
    {
        let ended = &self.ages;
        let all = ended.merged(alloc, left)?;
        let more = left.len();
        let last = wanted.window_of(wanted.stretch.last());
        let [least, most] = self.windows.bounds(alloc, last, left)?;
        let [
            p50_least,
            p50_most,
            p95_least,
            p95_most,
            p99_least,
            p99_most,
            ..
        ] = names;
        let [.., greatest_least, greatest_most, window_least, window_most] = names;
        Ok([
            Figure::of(p50_least, all.nearest_rank(50)),
            Figure::of(p50_most, ended.rank_below(50, more)),
            Figure::of(p95_least, all.nearest_rank(95)),
            Figure::of(p95_most, ended.rank_below(95, more)),
            Figure::of(p99_least, all.nearest_rank(99)),
            Figure::of(p99_most, ended.rank_below(99, more)),
            Figure::of(greatest_least, all.nearest_rank(100)),
            Figure::of(greatest_most, ended.rank_below(100, more)),
            Figure::of(window_least, least),
            Figure::of(window_most, most),
        ])
    }

    /// The figures of the ages, by these names.
    pub(crate) fn figures(&self, wanted: Wanted, names: [&'static [u8]; AGES]) -> [Figure; AGES]
        ensures { result ≡ zip (map (λ n. n.now) names.entry) (age_numbers wanted self.now) }
    {
        let all = &self.ages;
        let (window_age, window_start) = match self.windows.worst() {
            Some(worst) => (Some(worst.age), Some(wanted.start_of(worst.number))),
            None => (None, None),
        };
        let [sum, half, most, nearly_all, greatest, window, window_at] = names;
        [
            Figure::of(sum, Some(all.total())),
            Figure::of(half, all.nearest_rank(50)),
            Figure::of(most, all.nearest_rank(95)),
            Figure::of(nearly_all, all.nearest_rank(99)),
            Figure::of(greatest, all.nearest_rank(100)),
            Figure::of(window, window_age),
            Figure::of(window_at, window_start),
        ]
    }
}
