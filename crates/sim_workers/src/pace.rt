//! When rounds are cut, so that few rows wait, and when the waiting rows are settled.
ghost use Rattle.std.specs.Prelude.{◌≡◌, ◌≤◌, ◌<◌, ◌+◌, ◌-◌, ◌^◌};
ghost use Rattle.sim_workers.specs.Paces.{added, is_full, next_stretch, settled_after, settled_if, span_after, word_of};

// A stretch of fewer rows is too short.
const ROWS_TO_LENGTHEN: u64 = 16_384;
// A stretch of more rows is too long.
const ROWS_TO_SHORTEN: u64 = 65_536;
// The longest stretch, in milliseconds.
const LONGEST: u64 = 60_000;
// Rows are settled once there are this many new ones for each partition,
const FULL: u64 = 64;
// counting at most this many partitions.
const SEVERAL: u64 = 16;

/// How far rounds run. Time is cut into stretches. A stretch of few rows is followed by one twice
/// as long, and one of many rows by one half as long. A round runs no further than a stretch is
/// long. The pace also counts the rows that wait.
#[derive(Drop)]
pub struct Pace {
    /// The length of a stretch, in milliseconds.
    pub span: u64,
    /// The end of this stretch, in milliseconds. A round may go past it.
    pub cut: u64,
    /// The number of rows that this stretch made.
    pub made: u64,
    /// The number of rows made since rows were last settled.
    pub fresh: u64,
    /// The number of rows that could not be settled then.
    pub kept: u64,
}

impl Pace {
    /// A pace that begins with short stretches.
    pub fn new() -> Pace
        ensures { result ≡ record { span = 1; cut = 0; made = 0; fresh = 0; kept = 0 } }
    {
        Pace {
            span: 1,
            cut: 0,
            made: 0,
            fresh: 0,
            kept: 0,
        }
    }

    // The length of the stretch that follows this one.
    fn next_span(&self) -> u64
        ensures length { result ≡ span_after self.now }
        ensures some { 1 ≤ self.now.span → 1 ≤ result }
    {
        if self.made < ROWS_TO_LENGTHEN {
            self.span.saturating_mul(2).min(LONGEST)
        } else if self.made > ROWS_TO_SHORTEN {
            (self.span / 2).max(1)
        } else {
            self.span
        }
    }

    /// The moment to which a round runs that begins at `at`, both in milliseconds: one length of
    /// the stretch later. A new stretch begins if the end of this one has been reached, or is more
    /// than its length away. A round that began before the end of its stretch runs past it, so that
    /// no round is cut short there.
    pub fn cut_at(&mut self, at: u64) -> u64
        ensures paced { self.new ≡ next_stretch self.old at }
        ensures cut { result ≡ word_of (at + self.new.span) }
        ensures some { 1 ≤ self.old.span → 1 ≤ self.new.span }
        ensures later { 1 ≤ self.old.span → at < 2 ^ 64 - 1 → at < result }
    {
        if self.cut <= at || at.saturating_add(self.span) < self.cut {
            self.span = self.next_span();
            self.cut = at.saturating_add(self.span);
            self.made = 0;
        }
        at.saturating_add(self.span)
    }

    /// Counts the rows of a round. If some were to be settled meanwhile, it first counts those that
    /// were: none of the round's own rows is among them.
    pub fn count_round(&mut self, settled: Option<u64>, rows: u64)
        ensures paced { self.new ≡ added (settled_if self.old settled) rows }
        ensures span { self.new.span ≡ self.old.span }
    {
        if let Some(settled) = settled {
            self.settle(settled);
        }
        self.count(rows);
    }

    // Counts rows that were made.
    fn count(&mut self, rows: u64)
        ensures { self.new ≡ added self.old rows }
    {
        self.made = self.made.saturating_add(rows);
        self.fresh = self.fresh.saturating_add(rows);
    }

    /// Whether enough rows of `parts` partitions wait: enough are new, and no fewer than could not
    /// be settled before. So the work of settling depends on the rows that are made, however many
    /// have to wait. A single partition's rows are handed on as it made them.
    pub fn is_full(&self, parts: usize) -> bool
        ensures { result ≡ is_full self.now parts }
    {
        self.fresh >= FULL * SEVERAL.min(parts as u64) && self.fresh >= self.kept
    }

    // Counts the rows that were settled.
    fn settle(&mut self, rows: u64)
        ensures { self.new ≡ settled_after self.old rows }
    {
        self.kept = self.kept.saturating_add(self.fresh).saturating_sub(rows);
        self.fresh = 0;
    }
}
