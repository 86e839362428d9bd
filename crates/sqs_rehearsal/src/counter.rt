//! A report that counts rows during a run.
ghost use Rattle.std.specs.Prelude.{◌≡◌};
ghost use Rattle.sim_clock.specs.declared.refusal.Refusal.TheVariants.{Memory};

use sim_clock::Refusal;
use sim_report::Report;
use sim_windows::RowSink;
use sqs_message::Row;

/// Adds rows to a report, and keeps nothing else of them.
///
/// The only error is `Memory`. The report may then have some of the rows, and must not be used
/// again.
#[derive(Drop)]
pub struct Counter<'a> {
    /// The report of the rows so far.
    pub report: &'a mut Report,
}

impl RowSink<Row> for Counter<'_> {
    ghost use Rattle.sqs_rehearsal.specs.SinkLaws.{counted_both, counted_none};
    ghost use Rattle.sqs_rehearsal.specs.Sinks.{Counted};

    ghost ready = { λ _. Unit {0} };

    ghost took = { λ before rows after. Counted before rows after };

    ghost broke = { λ _ _ refusal _. refusal ≡ Memory };

    fn take(&mut self, rows: &[Row]) -> Result<(), Refusal> {
        self.report.add(rows)?;
        Ok(())
    }

    ghost unchanged = { λ counter. counted_none counter };

    ghost took_both = { λ a b c xs ys first second. counted_both a b c xs ys first second };

    ghost broke_later = { λ _ _ _ _ _ _ _ broke. broke };
}
