//! A log and a report that take rows during a run.
ghost use Rattle.std.specs.Prelude.{◌≡◌, ◌≤◌, false, flat_map, nat_le, IfErr, IfOk, OnOk};
ghost use Rattle.std.specs.List.{list_all};
ghost use Rattle.sim_records.specs.Writes.{Wrote};
ghost use Rattle.sqs_model.specs.Answers.{most_count};
ghost use Rattle.sqs_rehearsal.specs.Printed.{printed, printed_added, OfPrinted};
ghost use Rattle.sqs_rehearsal.specs.Sinks.{Recorded, StoppedAt};

use crate::printed::PrintedRow;
use crate::watch::Watch;
use sim_clock::Refusal;
use sim_records::{Names, Out, write_all, write_rows};
use sim_report::Report;
use sim_windows::RowSink;
use sqs_message::Row;
use sqs_model::MOST_COUNT;
use std::alloc::{AllocError, Global};

/// Writes rows to a writer as lines of the log, adds them to a report, and informs a watch of them.
/// It does not write the header of the log.
///
/// It returns `Memory` if a growth is refused, and `Write` if the writer fails. A prefix of the
/// lines is then written; the report may have some of the rows, and must not be used again.
#[derive(Drop)]
pub struct Recorder<'a, W: Out, P: Watch> {
    /// The allocator for lines before they are written.
    pub alloc: Global,
    /// The names of all agents, by number.
    pub names: &'a Names,
    /// The writer of the log. Rows are taken only while it has not failed.
    pub out: &'a mut W,
    /// The report of the rows so far.
    pub report: &'a mut Report,
    /// The watch that is informed of the rows.
    pub watch: &'a mut P,
    /// The horizon of the run, in milliseconds.
    pub horizon: u64,
}

impl<W: Out, P: Watch> RowSink<Row> for Recorder<'_, W, P> {
    ghost use Rattle.sqs_rehearsal.specs.SinkLaws.{recorded_both, recorded_none, stopped_later};
    ghost use Rattle.sqs_rehearsal.specs.Sinks.{Recorded, StoppedAt};

    ghost ready = { λ recorder. (W.state recorder.out.now).failed ≡ false };

    ghost took = { λ before rows after. Recorded W.state before rows after };

    ghost broke = { λ before rows refusal after. StoppedAt W.state before rows refusal after };

    #[tactic(auto, using(crate::proofs::Prefixes::all_are_prefix))]
    fn take(&mut self, rows: &[Row]) -> Result<(), Refusal> {
        write_rows(self.alloc, self.out, rows, self.names)?;
        self.report.add(rows)?;
        if let Some(last) = rows.last() {
            self.watch.came_to(last.key.at, self.horizon, rows.len());
        }
        Ok(())
    }

    ghost unchanged = { λ recorder. recorded_none W.state recorder };

    ghost took_both = { λ a b c xs ys first second. recorded_both W.state a b c xs ys first second };

    ghost broke_later = { λ a b c xs ys refusal first second. stopped_later W.state a b c xs ys refusal first second };
}

// The length that most lines do not exceed, in bytes.
const LINE: usize = 72;

// The lines of printed rows.
fn lines_of(alloc: Global, rows: &[PrintedRow]) -> Result<Vec<u8>, AllocError>
    ensures { IfOk result (λ text. text.items ≡ flat_map (λ p. p.line) rows.now) }
{
    let mut text = Vec::with_capacity(alloc, rows.len().saturating_mul(LINE))?;
    for row in rows {
        text.extend_from_slice(row.line())?;
    }
    Ok(text)
}

// Writes the lines of printed rows.
fn write_printed<W: Out>(alloc: Global, out: &mut W, rows: &[PrintedRow]) -> Result<(), Refusal>
    requires { (W.state out.old).failed ≡ false }
    ensures { Wrote (W.state out.old) (W.state out.new)
        (flat_map (λ p. p.line) rows.now) result }
{
    let text = lines_of(alloc, rows)?;
    write_all(out, text.as_slice())?;
    Ok(())
}

// Adds what printed rows say to a report.
fn count_printed(report: &mut Report, rows: &[PrintedRow]) -> Result<(), AllocError>
    ensures { OnOk result (report.new ≡ printed_added report.old rows.now) }
{
    for row in rows {
        report.add_fact(row.fact())?;
    }
    Ok(())
}

impl<W: Out, P: Watch> Recorder<'_, W, P> {
    // Writes the lines of printed rows, and adds what they say.
    fn take_printed(&mut self, rows: &[PrintedRow]) -> Result<(), Refusal>
        requires ready { (W.state self.old.out.now).failed ≡ false }
        ensures ready { OnOk result ((W.state self.new.out.now).failed ≡ false) }
        ensures took { OfPrinted self.old.names.now rows.now (λ made. OnOk result
            (Recorded W.state self.old made self.new)) }
        ensures broke { OfPrinted self.old.names.now rows.now (λ made. IfErr result
            (λ refusal. StoppedAt W.state self.old made refusal self.new)) }
    {
        write_printed(self.alloc, self.out, rows)?;
        count_printed(self.report, rows)?;
        if let Some(last) = rows.last() {
            self.watch.came_to(last.at(), self.horizon, rows.len());
        }
        Ok(())
    }
}

// Whether no printed row has a count past the limit.
fn are_printed_within(rows: &[PrintedRow]) -> bool
    ensures { result ≡ list_all (λ p. nat_le p.received most_count) rows.now }
{
    rows.iter().all(|row| row.received() <= MOST_COUNT)
}

// Printed rows are looked at, too: one with a count past 2^62 - 1 is refused with `CountLimit`.
impl<W: Out, P: Watch> RowSink<PrintedRow> for Recorder<'_, W, P> {
    ghost use Rattle.sqs_rehearsal.specs.Printed.{BrokePrinted, TookPrinted};
    ghost use Rattle.sqs_rehearsal.specs.PrintedLaws.{broke_printed_later, printed_both, printed_none};

    ghost ready = { λ recorder. (W.state recorder.out.now).failed ≡ false };

    ghost took = { λ before made after. TookPrinted W.state before made after };

    ghost broke = { λ before made refusal after. BrokePrinted W.state before made refusal after };

    fn take(&mut self, rows: &[PrintedRow]) -> Result<(), Refusal> {
        if !are_printed_within(rows) {
            return Err(Refusal::CountLimit);
        }
        self.take_printed(rows)
    }

    ghost unchanged = { λ recorder. printed_none W.state recorder };

    ghost took_both = { λ a b c xs ys first second. printed_both W.state a b c xs ys first second };

    ghost broke_later = { λ a b c xs ys refusal first second. broke_printed_later W.state a b c xs ys refusal first second };
}
