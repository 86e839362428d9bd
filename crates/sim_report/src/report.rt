//! The report of a run.
ghost use Rattle.std.specs.Prelude.{◌≡◌, ◌++◌, ℕ, List, [], false, option_map, IfOk, OnOk};
ghost use Rattle.sim_report.specs.Left.{lefts};
ghost use Rattle.sim_report.specs.Figured.{figures_after};
ghost use Rattle.sim_report.specs.Running.{rows_added};
ghost use Rattle.sim_report.specs.Reports.{Asked, OfFigures, OfLeft, OfReport, OfReports, begun_with, fact_added, running};
ghost use Rattle.sim_records.specs.Writes.{Wrote};
ghost use Rattle.sqs_message.specs.declared.row.Row.{Row};
ghost use Rattle.sqs_formats.specs.Comparison.{comparison};
ghost use Rattle.sqs_formats.specs.Report.{report_text};

use crate::columns::{QueueColumns, columns_of};
use crate::comparison::comparison_lines;
use crate::fact::Fact;
use crate::figures::Figures;
use crate::left::MessagesLeft;
use crate::queue::{QueueCounts, add_count, add_rows, fresh_queues};
use crate::writing::report_lines;
use sim_clock::Refusal;
use sim_records::{Out, write_all};
use sqs_message::{Row, Text};
use sqs_model::Finals;
use std::alloc::{AllocError, Global};
use std::marker::Model;

/// The counts of each queue over the rows so far, from which the report is written, and the figures
/// over these rows, if they are wanted. The rows themselves are not kept.
#[derive(Drop)]
pub struct Report {
    queues: Vec<QueueCounts>,
    figures: Option<Figures>,
}

impl Model for Report {
    ghost use Rattle.sim_report.specs.Reports.{Counts};

    ghost Value = { Counts };

    ghost view = { λ r. record { queues = r.queues.items; figures = r.figures } };
}

// Adds rows to the counts of queues and to figures. What a row says is made once for both. It is a
// call of its own, so that a run without figures does not pay for its frame.
#[inline(never)]
fn add_with_figures(
    queues: &mut [QueueCounts],
    figures: &mut Figures,
    rows: &[Row],
) -> Result<(), AllocError>
    ensures counted { OnOk result (queues.new ≡ rows_added queues.old rows.now) }
    ensures figured { OnOk result (figures.new ≡ figures_after rows.now figures.old) }
{
    for row in rows {
        let fact = Fact::of(row);
        add_count(queues, fact.count)?;
        figures.take(&fact)?;
    }
    Ok(())
}

// Adds rows to the counts of queues, and to figures, if there are figures.
fn add_to(
    queues: &mut [QueueCounts],
    figures: &mut Option<Figures>,
    rows: &[Row],
) -> Result<(), AllocError>
    ensures counted { OnOk result (queues.new ≡ rows_added queues.old rows.now) }
    ensures figured { OnOk result
        (figures.new ≡ option_map (figures_after rows.now) figures.old) }
{
    match figures {
        Some(figures) => add_with_figures(queues, figures, rows),
        None => add_rows(queues, rows),
    }
}

impl Report {
    /// The report of no rows, of the queues with these names, by number, with these figures, if
    /// figures are wanted.
    ///
    /// # Errors
    ///
    /// `AllocError` if a growth is refused.
    pub fn new(
        alloc: Global,
        names: Vec<Text>,
        figures: Option<Figures>,
    ) -> Result<Report, AllocError>
        ensures { IfOk result (λ r. r ≡ begun_with names.items figures) }
    {
        Ok(Report {
            queues: fresh_queues(alloc, names)?,
            figures,
        })
    }

    /// Adds rows to those before. A row of a queue whose number is past the last is not counted.
    ///
    /// # Errors
    ///
    /// `AllocError` if a growth is refused. The report may then have some of the rows, and must not
    /// be used again.
    pub fn add(&mut self, rows: &[Row]) -> Result<(), AllocError>
        ensures { (asked : Asked) (before : List Row) → self.old ≡ running asked before
            → OnOk result (self.new ≡ running asked (before ++ rows.now)) }
    {
        add_to(self.queues.as_mut_slice(), &mut self.figures, rows)?;
        Ok(())
    }

    /// Adds what another row says. A row of a queue whose number is past the last is not counted.
    ///
    /// # Errors
    ///
    /// Those of `add`.
    pub fn add_fact(&mut self, fact: &Fact) -> Result<(), AllocError>
        ensures { OnOk result (self.new ≡ fact_added self.old fact.now) }
    {
        add_count(self.queues.as_mut_slice(), fact.count)?;
        if let Some(figures) = &mut self.figures {
            figures.take(fact)?;
        }
        Ok(())
    }

    /// No messages that are left of its queues, to which those are added that are.
    ///
    /// # Errors
    ///
    /// `AllocError` if a growth is refused.
    pub fn none_left(&self, alloc: Global) -> Result<MessagesLeft, AllocError>
        ensures { IfOk result (λ left. left ≡ lefts self.now.queues []) }
    {
        MessagesLeft::none(alloc, self.queues.as_slice())
    }

    // How many messages of each queue are left at the end of a run.
    fn left(&self, alloc: Global, finals: &Finals) -> Result<MessagesLeft, AllocError>
        ensures { IfOk result (λ left. left ≡ lefts self.now.queues finals.now.messages) }
    {
        let mut left = self.none_left(alloc)?;
        left.add(finals.messages.as_slice())?;
        Ok(left)
    }

    /// Writes the report, given what is left at the end of the run.
    ///
    /// # Errors
    ///
    /// `Memory` if a growth is refused: nothing is written. `Write` if the writer fails: a prefix
    /// of the lines is written.
    pub fn write_report<W: Out>(
        &self,
        alloc: Global,
        out: &mut W,
        finals: &Finals,
    ) -> Result<(), Refusal>
        requires { (W.state out.old).failed ≡ false }
        ensures works { OnOk result ((W.state out.new).failed ≡ false) }
        ensures written { OfReport self.now finals.now
            (λ r. Wrote (W.state out.old) (W.state out.new) (report_text r) result) }
    {
        let left = self.left(alloc, finals)?;
        self.write_counted(alloc, out, &left)
    }

    /// Writes the report, given how many messages of each queue are left at the end of the run.
    ///
    /// # Errors
    ///
    /// `Memory` if a growth is refused: nothing is written. `Write` if the writer fails: a prefix
    /// of the lines is written.
    pub fn write_counted<W: Out>(
        &self,
        alloc: Global,
        out: &mut W,
        left: &MessagesLeft,
    ) -> Result<(), Refusal>
        requires { (W.state out.old).failed ≡ false }
        ensures works { OnOk result ((W.state out.new).failed ≡ false) }
        ensures written { OfLeft self.now left.now
            (λ r. Wrote (W.state out.old) (W.state out.new) (report_text r) result) }
    {
        let columns = self.columns(alloc, left)?;
        let text = report_lines(alloc, columns.as_slice())?;
        write_all(out, text.as_slice())?;
        Ok(())
    }

    /// Writes the figures, if they are wanted.
    ///
    /// # Errors
    ///
    /// `Memory` if a growth is refused: nothing is written. `Write` if the writer fails: a prefix
    /// of the lines is written.
    pub fn write_figures<W: Out>(&self, alloc: Global, out: &mut W) -> Result<(), Refusal>
        requires { (W.state out.old).failed ≡ false }
        ensures works { OnOk result ((W.state out.new).failed ≡ false) }
        ensures written { OfFigures self.now
            (λ text. Wrote (W.state out.old) (W.state out.new) text result) }
    {
        let Some(figures) = &self.figures else {
            return Ok(());
        };
        let text = figures.text(alloc)?;
        write_all(out, text.as_slice())?;
        Ok(())
    }

    // The columns of its queues, given how many messages of each are left.
    fn columns<'a>(
        &'a self,
        alloc: Global,
        left: &MessagesLeft,
    ) -> Result<Vec<QueueColumns<'a>>, AllocError>
        ensures { OfLeft self.now left.now (λ r. IfOk result (λ v. v.items ≡ r)) }
    {
        columns_of(alloc, self.queues.as_slice(), left.of_queues())
    }

    // The columns of its queues, given what is left at the end of the run.
    fn columns_at_end<'a>(
        &'a self,
        alloc: Global,
        finals: &Finals,
    ) -> Result<Vec<QueueColumns<'a>>, AllocError>
        ensures { OfReport self.now finals.now (λ r. IfOk result (λ v. v.items ≡ r)) }
    {
        let left = self.left(alloc, finals)?;
        self.columns(alloc, &left)
    }
}

/// Writes the comparison of two runs, each given by its report and by what was left at its end. It
/// has a line for each column of each queue that is in both, and a line for each queue that is in
/// one only.
///
/// # Errors
///
/// `Memory` if a growth is refused: nothing is written. `Write` if the writer fails: a prefix of
/// the lines is written.
pub fn compare<W: Out>(
    alloc: Global,
    out: &mut W,
    first: (&Report, &Finals),
    second: (&Report, &Finals),
) -> Result<(), Refusal>
    requires { (W.state out.old).failed ≡ false }
    ensures works { OnOk result ((W.state out.new).failed ≡ false) }
    ensures written { OfReports first.entry.0.now first.entry.1.now second.entry.0.now
        second.entry.1.now (λ a b. Wrote (W.state out.old) (W.state out.new)
        (comparison a b) result) }
{
    let before = first.0.columns_at_end(alloc, first.1)?;
    let after = second.0.columns_at_end(alloc, second.1)?;
    let text = comparison_lines(alloc, before.as_slice(), after.as_slice())?;
    write_all(out, text.as_slice())?;
    Ok(())
}
