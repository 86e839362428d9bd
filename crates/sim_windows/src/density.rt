//! Whether rounds of partitions would make enough rows to pay.
ghost use Rattle.std.specs.Prelude.{◌≡◌};
ghost use Rattle.sim_windows.specs.Densities.{begun_with, next_stretch, pays, with_rows};

// A round of fewer rows costs several workers more than they save.
const ROWS_WORTH_PARTING: u64 = 1_024;
// A stretch of so many rows is over, however short it was.
const MANY_ROWS: u64 = 16_384;
// So many stretches, one after another, have to make enough rows. Fewer may be a burst.
const STRETCHES: u64 = 8;

/// How dense the rows of a run on one list are in time. Time is cut into stretches. A stretch
/// begins with an entry and is as long as a round of partitions would be at least, but it is over
/// once it has made many rows.
#[derive(Drop)]
pub struct Density {
    /// The length of a stretch, in milliseconds.
    pub length: u64,
    /// The end of this stretch, in milliseconds.
    pub end: u64,
    /// The number of rows that this stretch made.
    pub made: u64,
    /// The number of stretches, one after another until this one, that made enough rows for a round.
    pub dense: u64,
}

impl Density {
    /// The density of a run at its beginning, with stretches of this length in milliseconds.
    pub fn new(length: u64) -> Density
        ensures { result ≡ begun_with length }
    {
        Density {
            length,
            end: 0,
            made: 0,
            dense: 0,
        }
    }

    /// Comes to the entry that is handled next, at a moment in milliseconds. Returns whether rounds
    /// of partitions would pay from here on: a stretch is over, and it and the seven before made
    /// enough rows. Fewer may be a burst.
    pub fn come_to(&mut self, at: u64) -> bool
        ensures stretch { self.new ≡ next_stretch self.old at }
        ensures pays { result ≡ pays self.old at }
    {
        if at < self.end && self.made < MANY_ROWS {
            return false;
        }
        let dense = if self.made >= ROWS_WORTH_PARTING {
            self.dense.saturating_add(1)
        } else {
            0
        };
        self.end = at.saturating_add(self.length);
        self.made = 0;
        self.dense = dense;
        dense >= STRETCHES
    }

    /// Counts rows that were made.
    pub fn count(&mut self, rows: usize)
        ensures { self.new ≡ with_rows self.old rows }
    {
        self.made = self.made.saturating_add(rows as u64);
    }
}
