//! The end of a run, as it is written: the state of its sites and its report. The messages that are
//! left are made into lines some at a time, so that no list of them all is held beside the sites.
ghost use Rattle.std.specs.Prelude.{◌≡◌, ◌≤◌, ◌++◌, [], false, true, flat_map, IfOk, length, OnOk};
ghost use Rattle.sqs_formats.specs.Finals.{finals_text};
ghost use Rattle.sqs_formats.specs.Output.{ending_of};
ghost use Rattle.sqs_formats.specs.Rows.{lines};
ghost use Rattle.sqs_model.specs.Finals.{final_message, finals_of, messages_at};
ghost use Rattle.sqs_rehearsal.specs.Endings.{ending_with};
ghost use Rattle.sqs_rehearsal.specs.Outcomes.{WroteEnd};
ghost use Rattle.sqs_rehearsal.specs.Left.{others_text, finals_in, message_part, Wrote, queue_text, sites_text};
ghost use Rattle.sim_report.specs.Reports.{OfFigures};
ghost use Rattle.sim_report.specs.Running.{CountsAll, CountsOn};
ghost use Rattle.sqs_rehearsal.specs.Writers.{seen};

use crate::finals::{final_message, tasks_of, transfers_of};
use crate::outcome::flush;
use sim_clock::Refusal;
use sim_records::{Names, Out, write_message_header, write_messages, write_transfers_and_tasks};
use sim_report::{MessagesLeft, Report};
use sim_site::Site;
use sqs_model::FinalMessage;
use sqs_queue::{Messages, Queue};
use std::alloc::{AllocError, Global};

// How many messages are made into lines at once.
const AT_ONCE: usize = 1024;

// The next of a queue's messages, at most `AT_ONCE`; none if none are left.
fn next_messages(
    alloc: Global,
    queue: &Queue,
    messages: &mut Messages<'_>,
) -> Result<Vec<FinalMessage>, AllocError>
    ensures next { IfOk result (λ ms. ms.items ++ finals_in queue.now messages.new
        ≡ finals_in queue.now messages.old) }
    ensures none { IfOk result (λ some. some.items ≡ [] → messages.new ≡ []) }
    ensures few { IfOk result (λ some. length some.items ≤ 1024) }
{
    let mut some = Vec::new(alloc);
    while some.len() < AT_ONCE {
        let Some(message) = messages.next() else {
            return Ok(some);
        };
        some.push(final_message(alloc, queue.site(), message)?)?;
    }
    Ok(some)
}

// Writes the lines of a queue's messages, and counts the messages.
fn write_queue<W: Out>(
    alloc: Global,
    out: &mut W,
    queue: &Queue,
    names: &Names,
    left: &mut MessagesLeft,
) -> Result<(), Refusal>
    requires { (W.state out.old).failed ≡ false }
    ensures written { Wrote (seen W.state out.old out.new) (queue_text names.now queue.now) result }
    ensures counted { CountsOn result left.old (finals_in queue.now queue.now.records) left.new }
{
    let mut messages = queue.view();
    loop {
        let some = next_messages(alloc, queue, &mut messages)?;
        if some.is_empty() {
            return Ok(());
        }
        write_messages(alloc, out, some.as_slice(), names)?;
        left.add(some.as_slice())?;
    }
}

// Writes the lines of the messages of all sites, and counts the messages.
fn write_queues<W: Out>(
    alloc: Global,
    out: &mut W,
    sites: &[Site],
    names: &Names,
    left: &mut MessagesLeft,
) -> Result<(), Refusal>
    requires { (W.state out.old).failed ≡ false }
    ensures written { Wrote (seen W.state out.old out.new) (sites_text names.now sites.now) result }
    ensures counted { CountsAll result left.old (flat_map messages_at sites.now) left.new }
{
    for site in sites {
        write_queue(alloc, out, site.queue(), names, left)?;
    }
    Ok(())
}

// Writes the messages of all sites under their header, and counts them.
fn write_message_part<W: Out>(
    alloc: Global,
    out: &mut W,
    sites: &[Site],
    names: &Names,
    left: &mut MessagesLeft,
) -> Result<(), Refusal>
    requires { (W.state out.old).failed ≡ false }
    ensures written { Wrote (seen W.state out.old out.new) (message_part names.now
        (finals_of sites.now)) result }
    ensures counted { CountsAll result left.old (finals_of sites.now).messages left.new }
{
    write_message_header(alloc, out)?;
    write_queues(alloc, out, sites, names, left)
}

// Writes the transfers under way to all sites, and their tasks, each part under its header.
#[tactic(auto, unfolding(sqs_model::specs::Finals::finals_of))]
fn write_other_parts<W: Out>(
    alloc: Global,
    out: &mut W,
    sites: &[Site],
    names: &Names,
) -> Result<(), Refusal>
    requires { (W.state out.old).failed ≡ false }
    ensures { Wrote (seen W.state out.old out.new) (others_text names.now
        (finals_of sites.now)) result }
{
    let transfers = transfers_of(alloc, sites)?;
    let tasks = tasks_of(alloc, sites)?;
    write_transfers_and_tasks(alloc, out, transfers.as_slice(), tasks.as_slice(), names)
}

// Writes the state of all sites, and counts the messages that are left.
fn write_state<W: Out>(
    alloc: Global,
    out: &mut W,
    sites: &[Site],
    names: &Names,
    left: &mut MessagesLeft,
) -> Result<(), Refusal>
    requires { (W.state out.old).failed ≡ false }
    ensures written { Wrote (seen W.state out.old out.new) (finals_text names.now
        (finals_of sites.now)) result }
    ensures counted { CountsAll result left.old (finals_of sites.now).messages left.new }
{
    write_message_part(alloc, out, sites, names, left)?;
    write_other_parts(alloc, out, sites, names)
}

// Writes the state of a run's sites and then its report.
fn write_left<W: Out>(
    alloc: Global,
    out: &mut W,
    sites: &[Site],
    names: &Names,
    report: &Report,
) -> Result<(), Refusal>
    requires { (W.state out.old).failed ≡ false }
    ensures works { OnOk result ((W.state out.new).failed ≡ false) }
    ensures written { WroteEnd (λ s _ r. ending_of s r) names.now report.now sites.now
        (seen W.state out.old out.new) result }
{
    let mut left = report.none_left(alloc)?;
    write_state(alloc, out, sites, names, &mut left)?;
    report.write_counted(alloc, out, &left)
}

// Writes the figures, if they are wanted, and flushes the writer.
fn finish<W: Out>(alloc: Global, out: &mut W, report: &Report) -> Result<(), Refusal>
    requires { (W.state out.old).failed ≡ false }
    ensures written { OfFigures report.now (λ text. Wrote
        (seen W.state out.old out.new) text result) }
    ensures flushed { OnOk result ((W.state out.new).flushed ≡ true) }
{
    report.write_figures(alloc, out)?;
    flush(out)
}

/// Writes the state of a run's sites at its end, then its report, and then its figures, if they are
/// wanted, and flushes the writer.
/// `names` has the names of all agents.
///
/// # Errors
///
/// `Memory` if a growth is refused, `Write` if the writer fails: a prefix of these is written.
pub fn write_ending<W: Out>(
    alloc: Global,
    out: &mut W,
    sites: &[Site],
    names: &Names,
    report: &Report,
) -> Result<(), Refusal>
    requires { (W.state out.old).failed ≡ false }
    ensures written { WroteEnd ending_with names.now report.now sites.now
        (seen W.state out.old out.new) result }
    ensures flushed { OnOk result ((W.state out.new).flushed ≡ true) }
{
    write_left(alloc, out, sites, names, report)?;
    finish(alloc, out, report)
}
