//! The outcome of the whole run of a scenario.
ghost use Rattle.std.specs.Prelude.{◌≡◌, ◌≤◌, [], false, length, map, true, zip, IfErr, IfOk, None, OnOk};
ghost use Rattle.sim_records.specs.Writes.{WroteSeveral};
ghost use Rattle.sim_report.specs.Reports.{running};
ghost use Rattle.sqs_formats.specs.Comparison.{comparison};
ghost use Rattle.sqs_model.specs.Scenario.{edges};
ghost use Rattle.sqs_rehearsal.specs.Asked.{asked_of};
ghost use Rattle.sqs_rehearsal.specs.Wanted.{queue_asked, way_of};
ghost use Rattle.sqs_rehearsal.specs.Outcomes.{HasCounted, IsOutcomeOf, Stops, WroteComparison, no_figures};
ghost use Rattle.sqs_rehearsal.specs.Writers.{seen};

use crate::counter::Counter;
use crate::finals::finals_of;
use crate::running::run_alone;
use sim_clock::Refusal;
use sim_records::Out;
use sim_report::{Figures, QueueAsked, Report, Stretch, Wanted, Way};
use sim_scenario::{Scenario, edges};
use sim_site::Site;
use sqs_message::Text;
use sqs_model::Finals;
use sqs_redrive::QueueSettings;
use std::alloc::{AllocError, Global};

/// The outcome of the whole run of a scenario: the report of its rows, and the state of its queues,
/// transfers and move tasks at the end.
#[derive(Drop)]
pub struct Outcome {
    report: Report,
    finals: Finals,
}

/// Copies of texts. It fails if memory runs out.
pub fn copies(alloc: Global, texts: &[Text]) -> Result<Vec<Text>, AllocError>
    ensures { IfOk result (λ copies. copies.items ≡ texts.now) }
{
    let mut copies = Vec::with_capacity(alloc, texts.len())?;
    for text in texts {
        copies.push(text.copy(alloc)?)?;
    }
    Ok(copies)
}

// The queues with these names and settings, of which figures are wanted. It fails if memory runs
// out.
fn queues_asked(
    alloc: Global,
    names: &[Text],
    settings: &[QueueSettings],
) -> Result<Vec<QueueAsked>, AllocError>
    requires { length names.now ≡ length settings.now }
    ensures { IfOk result (λ v. v.items ≡ map queue_asked (zip names.now settings.now)) }
{
    let mut queues = Vec::with_capacity(alloc, settings.len())?;
    for place in 0..settings.len() {
        let name = names[place].copy(alloc)?;
        let queue = &settings[place];
        queues.push(QueueAsked {
            name,
            quota: queue.in_flight_limit,
        })?;
    }
    Ok(queues)
}

// The ways from queue to queue of a scenario. It fails if memory runs out.
fn ways_asked(alloc: Global, scenario: &Scenario) -> Result<Vec<Way>, AllocError>
    ensures { IfOk result (λ ways. ways.items ≡ map way_of (edges scenario.now)) }
{
    let edges = edges(alloc, scenario)?;
    edges
        .iter()
        .map(|edge| Way {
            from: edge.from,
            to: edge.to,
        })
        .collect(alloc)
}

/// The figures of no rows of a scenario over the part of a stretch that lies in its run. It fails if
/// memory runs out.
pub fn fresh_figures(
    alloc: Global,
    scenario: &Scenario,
    wanted: Wanted,
) -> Result<Figures, AllocError>
    ensures { IfOk result (λ figures. figures ≡ no_figures scenario.now wanted) }
{
    let queues = scenario.queues().len();
    let wanted = Wanted {
        stretch: Stretch {
            from: wanted.stretch.from,
            until: wanted
                .stretch
                .until
                .min(scenario.horizon().saturating_add(1)),
        },
        ..wanted
    };
    let of_queues = queues_asked(alloc, &scenario.names()[..queues], scenario.queues())?;
    let of_actors = copies(alloc, &scenario.names()[queues..])?;
    let ways = ways_asked(alloc, scenario)?;
    Figures::new(alloc, wanted, of_queues, of_actors, ways)
}

/// The report of no rows of a scenario, with figures over the part of a stretch that lies in its
/// run, if they are wanted. It fails if memory runs out.
pub fn fresh_report(
    alloc: Global,
    scenario: &Scenario,
    figures: Option<Wanted>,
) -> Result<Report, AllocError>
    ensures { IfOk result (λ report. report ≡ running (asked_of scenario.now figures) []) }
{
    let queues = scenario.queues().len();
    let figures = match figures {
        Some(wanted) => Some(fresh_figures(alloc, scenario, wanted)?),
        None => None,
    };
    let names = copies(alloc, &scenario.names()[..queues])?;
    Report::new(alloc, names, figures)
}

/// Makes a writer pass on what it has taken.
pub fn flush<W: Out>(out: &mut W) -> Result<(), Refusal>
    requires { (W.state out.old).failed ≡ false }
    ensures written { WroteSeveral (W.state out.old) (W.state out.new) [] result }
    ensures flushed { OnOk result ((W.state out.new).flushed ≡ true) }
{
    out.flush()?;
    Ok(())
}

// Runs a scenario to its horizon on this thread, and counts its rows.
fn run_counted(alloc: Global, scenario: Scenario, report: &mut Report) -> Result<Vec<Site>, Refusal>
    requires fresh { report.old ≡ running (asked_of scenario None) [] }
    ensures whole { IfOk result (λ sites. HasCounted scenario report.new sites.items) }
    ensures stops { IfErr result (Stops scenario) }
{
    let mut counter = Counter { report };
    run_alone(alloc, scenario, &mut counter)
}

impl Outcome {
    /// Runs a scenario to its horizon on this thread, event by event.
    ///
    /// # Errors
    ///
    /// `CountLimit` only if the one-list run takes a count past 2^62 - 1; `Memory` if a growth is
    /// refused.
    pub fn of(alloc: Global, scenario: Scenario) -> Result<Outcome, Refusal>
        ensures whole { IfOk result (IsOutcomeOf scenario) }
        ensures stops { IfErr result (Stops scenario) }
    {
        let mut report = fresh_report(alloc, &scenario, None)?;
        let sites = run_counted(alloc, scenario, &mut report)?;
        let finals = finals_of(alloc, sites.as_slice())?;
        Ok(Outcome { report, finals })
    }

    /// The state at the end.
    pub fn finals(&self) -> &Finals
        ensures { result.now ≡ self.now.finals }
    {
        &self.finals
    }
}

/// Writes the comparison of the reports of two outcomes, and flushes the writer.
///
/// # Errors
///
/// `Memory` if a growth is refused, `Write` if the writer fails: a prefix of the comparison is
/// written.
pub fn compare<W: Out>(
    alloc: Global,
    out: &mut W,
    first: &Outcome,
    second: &Outcome,
) -> Result<(), Refusal>
    requires { (W.state out.old).failed ≡ false }
    ensures written { WroteComparison first.now second.now (seen W.state out.old out.new) result }
    ensures flushed { OnOk result ((W.state out.new).flushed ≡ true) }
{
    sim_report::compare(
        alloc,
        out,
        (&first.report, &first.finals),
        (&second.report, &second.finals),
    )?;
    flush(out)
}
