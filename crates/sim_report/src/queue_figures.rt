//! The running figures of a queue.
ghost use Rattle.std.specs.Prelude.{◌≡◌, ◌++◌, map, OnOk};
ghost use Rattle.sim_report.specs.Figured.{apart_by, bounds_by, fresh_queue, is_backlog_by, is_full_by, left_by, oldest_by, peaks_by, queue_ages, queue_changing, queue_counted, queue_counting, queue_numbers, queue_peaking, queue_sizes, queue_with};
ghost use Rattle.sim_report.specs.Figures.{age_by, figure_fields, named_often, named_tries};
ghost use Rattle.sqs_formats.specs.Rows.{lines};

use crate::aged::{AGES, BOUNDS};
use crate::apart::{AgedApart, CountedApart};
use crate::asked::{QueueAsked, Wanted};
use crate::backlogs::{Backlogs, NO_BACKLOGS};
use crate::column::comes_in;
use crate::fact::{Fact, Flight};
use crate::figure::{COUNTS, Figure, add_figures, named_counts, named_requests};
use crate::handled::Handled;
use crate::lasting::{Lasting, NO_TIME};
use crate::level::{EMPTY, Level};
use crate::numbers::Numbers;
use crate::often::Often;
use crate::peak::Peak;
use crate::polls::Polls;
use crate::stretch::Stretch;
use crate::tally::count_in;
use crate::there::There;
use crate::tries::{NO_TRIES, Tries};
use sim_records::Lines;
use std::alloc::{AllocError, Global};
use std::marker::Model;

// The number of figures of peaks, of what is left, and of tries.
const PEAKS: usize = 6;

const LEFT: usize = 5;

const TRIES: usize = 4;

// The number of figures of messages that were handled and received.
const OFTEN: usize = 5;

// The names of the figures of ages, for the ages of all messages, of those that came by no move,
// and of those that came by one.
const AGE_NAMES: [&[u8]; AGES] = [
    b"age_sum_ms",
    b"age_p50_ms",
    b"age_p95_ms",
    b"age_p99_ms",
    b"age_greatest_ms",
    b"age_window_p95_ms",
    b"age_window_p95_at_ms",
];

const NEW_AGE_NAMES: [&[u8]; AGES] = [
    b"new_age_sum_ms",
    b"new_age_p50_ms",
    b"new_age_p95_ms",
    b"new_age_p99_ms",
    b"new_age_greatest_ms",
    b"new_age_window_p95_ms",
    b"new_age_window_p95_at_ms",
];

const MOVED_AGE_NAMES: [&[u8]; AGES] = [
    b"moved_age_sum_ms",
    b"moved_age_p50_ms",
    b"moved_age_p95_ms",
    b"moved_age_p99_ms",
    b"moved_age_greatest_ms",
    b"moved_age_window_p95_ms",
    b"moved_age_window_p95_at_ms",
];

// The names of the bounds of these ages.
const AGE_BOUNDS: [&[u8]; BOUNDS] = [
    b"age_p50_least_ms",
    b"age_p50_most_ms",
    b"age_p95_least_ms",
    b"age_p95_most_ms",
    b"age_p99_least_ms",
    b"age_p99_most_ms",
    b"age_greatest_least_ms",
    b"age_greatest_most_ms",
    b"age_window_p95_least_ms",
    b"age_window_p95_most_ms",
];

const NEW_AGE_BOUNDS: [&[u8]; BOUNDS] = [
    b"new_age_p50_least_ms",
    b"new_age_p50_most_ms",
    b"new_age_p95_least_ms",
    b"new_age_p95_most_ms",
    b"new_age_p99_least_ms",
    b"new_age_p99_most_ms",
    b"new_age_greatest_least_ms",
    b"new_age_greatest_most_ms",
    b"new_age_window_p95_least_ms",
    b"new_age_window_p95_most_ms",
];

const MOVED_AGE_BOUNDS: [&[u8]; BOUNDS] = [
    b"moved_age_p50_least_ms",
    b"moved_age_p50_most_ms",
    b"moved_age_p95_least_ms",
    b"moved_age_p95_most_ms",
    b"moved_age_p99_least_ms",
    b"moved_age_p99_most_ms",
    b"moved_age_greatest_least_ms",
    b"moved_age_greatest_most_ms",
    b"moved_age_window_p95_least_ms",
    b"moved_age_window_p95_most_ms",
];

/// The running figures of a queue: what they need of the rows so far, without the rows.
#[derive(Drop)]
pub(crate) struct QueueFigures {
    asked: QueueAsked,
    counts: [u64; COUNTS],
    polls: Polls,
    handled: Handled,
    tries: Tries,
    ages: AgedApart,
    // Whether the stretch has begun.
    begun: bool,
    level: Level,
    flying: Numbers,
    // The messages that are there and came by a move.
    moved: Numbers,
    there: There,
    depth: Peak,
    in_flight: Peak,
    // The greatest age of the oldest message, as one left.
    oldest: Peak,
    // How long as many were in flight as may be.
    full: Lasting,
    backlogs: Backlogs,
}

impl Model for QueueFigures {
    ghost use Rattle.sim_report.specs.Figured.{QueueState};

    ghost Value = { QueueState };

    ghost view = { λ q. record { asked = q.asked; counts = q.counts; polls = q.polls; handled = q.handled; tries = q.tries; ages = q.ages.all; new_ages = q.ages.others; moved_ages = q.ages.moved; begun = q.begun; level = q.level; flying = q.flying; moved = q.moved; there = q.there; depth = q.depth; in_flight = q.in_flight; oldest = q.oldest; full = q.full; backlogs = q.backlogs } };
}

// Tries by their names.
#[tactic(auto, unfolding(crate::specs::Figures::named_tries))]
fn named_tries(tries: Tries) -> [Figure; TRIES]
    ensures { result ≡ named_tries tries }
{
    [
        Figure::of(b"received_once", Some(u128::from(tries.once))),
        Figure::of(b"received_again", Some(u128::from(tries.again))),
        Figure::of(b"tries_sum", Some(u128::from(tries.sum))),
        Figure::of(b"tries_greatest", Some(u128::from(tries.greatest))),
    ]
}

// The messages that were handled, and those that were received, by their names.
#[tactic(auto, unfolding(crate::specs::Figures::named_often))]
fn named_often(handled: &Often, received: &Often) -> [Figure; OFTEN]
    ensures { result ≡ named_often handled.now received.now }
{
    [
        Figure::of(b"handled_once", Some(u128::from(handled.once()))),
        Figure::of(b"handled_again", Some(u128::from(handled.again()))),
        Figure::of(b"handled_greatest", Some(u128::from(handled.greatest))),
        Figure::of(b"received_messages", Some(u128::from(received.all()))),
        Figure::of(b"received_greatest", Some(u128::from(received.greatest))),
    ]
}

impl QueueFigures {
    /// The figures of no rows over a stretch.
    #[tactic(auto, unfolding(crate::specs::Figures::count_names))]
    pub(crate) fn new(alloc: Global, stretch: Stretch, asked: QueueAsked) -> QueueFigures
        ensures { result ≡ fresh_queue stretch asked }
    {
        QueueFigures {
            asked,
            counts: [0; COUNTS],
            polls: Polls::new(alloc),
            handled: Handled::new(alloc),
            tries: NO_TRIES,
            ages: AgedApart::new(alloc),
            begun: false,
            level: EMPTY,
            flying: Numbers::new(alloc),
            moved: Numbers::new(alloc),
            there: There::new(alloc),
            depth: Peak::none(stretch),
            in_flight: Peak::none(stretch),
            oldest: Peak::none(stretch),
            full: NO_TIME,
            backlogs: NO_BACKLOGS,
        }
    }

    // Counts what lies in the stretch, in this place among the counts.
    fn count(&mut self, place: Option<u16>, wanted: Wanted, fact: &Fact) -> Result<(), AllocError>
        ensures { OnOk result (self.new ≡ queue_counting place wanted fact.now self.old) }
    {
        count_in(&mut self.counts, place)?;
        if let Some(tries) = fact.tries() {
            self.tries = self.tries.with(tries)?;
        }
        if let Some(age) = fact.count.age {
            let window = wanted.window_of(fact.at);
            self.ages.add(self.moved.has(fact.number), window, age)?;
        }
        Ok(())
    }

    // Takes in what the row changes of the messages that are there.
    fn change(&mut self, place: Option<u16>, fact: &Fact) -> Result<(), AllocError>
        ensures { OnOk result (self.new ≡ queue_changing place fact.now self.old) }
    {
        self.level.take(fact.count.column)?;
        self.flying.fly(fact.flight, fact.number)?;
        self.moved.carry(place, fact.flight, fact.number)?;
        let comes = comes_in(fact.count.column);
        self.there.take(comes, fact.flight, fact.number, fact.at)
    }

    // Takes in the numbers of messages at a moment.
    fn peak(&mut self, stretch: Stretch, at: u64)
        ensures { self.new ≡ queue_peaking stretch at self.old }
    {
        self.begun |= stretch.from <= at;
        self.depth.take(stretch, self.begun, at, self.level.depth());
        self.in_flight
            .take(stretch, self.begun, at, self.flying.count());
    }

    // Whether as many messages are in flight as may be.
    fn is_full(&self) -> bool
        ensures { result ≡ is_full_by self.now }
    {
        self.asked.quota <= self.flying.count()
    }

    // Whether more messages than so many are there and not in flight.
    fn has_backlog(&self, few: u64) -> bool
        ensures { result ≡ is_backlog_by few self.now }
    {
        few < self.level.depth().saturating_sub(self.flying.count())
    }

    // How long the oldest message has been there, if a message leaves with a row, and else 0.
    fn age_by(&self, fact: &Fact) -> u64
        ensures { result ≡ age_by fact.now.flight fact.now.at self.now.there }
    {
        match fact.flight {
            Flight::Leaves => self.there.age_of_oldest(fact.at),
            _ => 0,
        }
    }

    // Takes in what a row of the queue says, up to the numbers of messages.
    fn take_counts(
        &mut self,
        place: Option<u16>,
        wanted: Wanted,
        fact: &Fact,
    ) -> Result<(), AllocError>
        ensures { OnOk result (self.new ≡ queue_counted place wanted fact.now self.old) }
    {
        let stretch = wanted.stretch;
        if stretch.from <= fact.at {
            self.count(place, wanted, fact)?;
        }
        let was_full = self.is_full();
        self.full.take(stretch, was_full, fact.at)?;
        let age = self.age_by(fact);
        self.oldest.take(stretch, true, fact.at, age);
        self.polls.take(stretch.from <= fact.at, fact)?;
        self.handled.take(stretch.from <= fact.at, fact)?;
        self.change(place, fact)
    }

    /// Takes in what a row of the queue says, which counts in this place.
    ///
    /// # Errors
    ///
    /// `AllocError` if a count is at its greatest value, or an age could not be kept.
    pub(crate) fn take(
        &mut self,
        place: Option<u16>,
        wanted: Wanted,
        fact: &Fact,
    ) -> Result<(), AllocError>
        ensures { OnOk result (self.new ≡ queue_with place wanted fact.now self.old) }
    {
        let stretch = wanted.stretch;
        let was_backlog = self.has_backlog(wanted.backlog);
        self.take_counts(place, wanted, fact)?;
        self.peak(stretch, fact.at);
        let is_backlog = self.has_backlog(wanted.backlog);
        self.backlogs
            .take(stretch.from <= fact.at, fact.at, was_backlog, is_backlog);
        Ok(())
    }

    // The greatest age of its oldest message, as one left or at the last moment of a stretch.
    fn oldest(&self, stretch: Stretch) -> Peak
        ensures { result ≡ oldest_by stretch self.now }
    {
        let at = stretch.last();
        let number = self.there.age_of_oldest(at);
        if self.oldest.number < number {
            Peak { at, number }
        } else {
            self.oldest
        }
    }

    // The figures of its peaks.
    #[tactic(auto, unfolding(crate::specs::Figured::peaks_by))]
    fn peaks(&self, stretch: Stretch) -> [Figure; PEAKS]
        ensures { result ≡ peaks_by stretch self.now }
    {
        let oldest = self.oldest(stretch);
        [
            Figure::of(b"depth_greatest", Some(u128::from(self.depth.number))),
            Figure::of(b"depth_greatest_at_ms", Some(u128::from(self.depth.at))),
            Figure::of(
                b"in_flight_greatest",
                Some(u128::from(self.in_flight.number)),
            ),
            Figure::of(
                b"in_flight_greatest_at_ms",
                Some(u128::from(self.in_flight.at)),
            ),
            Figure::of(b"oldest_age_greatest_ms", Some(u128::from(oldest.number))),
            Figure::of(b"oldest_age_greatest_at_ms", Some(u128::from(oldest.at))),
        ]
    }

    // What is left of its messages, how long as many were in flight as may be, and its last
    // backlog.
    #[tactic(auto, unfolding(crate::specs::Figured::left_by))]
    fn left(&self, wanted: Wanted) -> [Figure; LEFT]
        ensures { result ≡ left_by wanted self.now }
    {
        let full = self.full.until_end(wanted.stretch, self.is_full());
        let (gone, since) = if self.has_backlog(wanted.backlog) {
            (None, self.backlogs.since)
        } else {
            (self.backlogs.gone, None)
        };
        [
            Figure::of(b"left", Some(u128::from(self.level.depth()))),
            Figure::of(b"left_in_flight", Some(u128::from(self.flying.count()))),
            Figure::of(b"quota_ms", Some(full)),
            Figure::of(b"backlog_gone_at_ms", gone.map(u128::from)),
            Figure::of(b"backlog_since_ms", since.map(u128::from)),
        ]
    }

    // Adds the lines of the figures of its ages, which are counted.
    fn write_ages(
        &self,
        ages: &CountedApart,
        wanted: Wanted,
        text: &mut Lines,
    ) -> Result<(), AllocError>
        requires { ages.now ≡ apart_by self.now }
        ensures { OnOk result (text.new ≡ text.old
            ++ lines (map (figure_fields self.now.asked.name) (queue_ages wanted self.now))) }
    {
        let of = self.asked.name.as_bytes();
        let all = ages.all().figures(wanted, AGE_NAMES);
        let new = ages.others().figures(wanted, NEW_AGE_NAMES);
        let moved = ages.moved().figures(wanted, MOVED_AGE_NAMES);
        add_figures(text, of, &all)?;
        add_figures(text, of, &new)?;
        add_figures(text, of, &moved)
    }

    // Adds the lines of the bounds of its ages, which are counted, with the messages that are left.
    fn write_bounds(
        &self,
        alloc: Global,
        counted: &CountedApart,
        wanted: Wanted,
        text: &mut Lines,
    ) -> Result<(), AllocError>
        requires { counted.now ≡ apart_by self.now }
        ensures { OnOk result (text.new ≡ text.old
            ++ lines (map (figure_fields self.now.asked.name) (bounds_by wanted self.now))) }
    {
        let of = self.asked.name.as_bytes();
        let at = wanted.stretch.last();
        let left = self.there.ages(alloc, at)?;
        let ages = counted.all();
        let all = ages.bounds(alloc, wanted, left.as_slice(), AGE_BOUNDS)?;
        let left = self.there.ages_apart(alloc, at, &self.moved, false)?;
        let ages = counted.others();
        let new = ages.bounds(alloc, wanted, left.as_slice(), NEW_AGE_BOUNDS)?;
        let left = self.there.ages_apart(alloc, at, &self.moved, true)?;
        let ages = counted.moved();
        let moved = ages.bounds(alloc, wanted, left.as_slice(), MOVED_AGE_BOUNDS)?;
        add_figures(text, of, &all)?;
        add_figures(text, of, &new)?;
        add_figures(text, of, &moved)
    }

    // Adds the lines of its figures that are neither counts nor ages.
    fn write_sizes(&self, wanted: Wanted, text: &mut Lines) -> Result<(), AllocError>
        ensures { OnOk result (text.new ≡ text.old
            ++ lines (map (figure_fields self.now.asked.name) (queue_sizes wanted self.now))) }
    {
        let of = self.asked.name.as_bytes();
        add_figures(text, of, &self.peaks(wanted.stretch))?;
        add_figures(text, of, &self.left(wanted))?;
        add_figures(text, of, &named_tries(self.tries))?;
        let often = named_often(&self.handled.handled, &self.handled.received);
        add_figures(text, of, &often)
    }

    /// Its name.
    pub(crate) fn name(&self) -> &[u8]
        ensures { result.now ≡ self.now.asked.name }
    {
        self.asked.name.as_bytes()
    }

    /// Adds the lines of its figures.
    ///
    /// # Errors
    ///
    /// `AllocError` if a growth is refused.
    pub(crate) fn write(
        &self,
        alloc: Global,
        wanted: Wanted,
        text: &mut Lines,
    ) -> Result<(), AllocError>
        ensures { OnOk result (text.new ≡ text.old
            ++ lines (map (figure_fields self.now.asked.name) (queue_numbers wanted self.now))) }
    {
        let of = self.asked.name.as_bytes();
        let counts = named_counts(alloc, &self.counts)?;
        add_figures(text, of, counts.as_slice())?;
        add_figures(text, of, &named_requests(self.polls.asked, &self.counts))?;
        self.write_sizes(wanted, text)?;
        let ages = self.ages.counted(alloc)?;
        self.write_ages(&ages, wanted, text)?;
        self.write_bounds(alloc, &ages, wanted, text)
    }
}
