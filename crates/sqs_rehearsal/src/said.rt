//! What a comparison says of the queues that no difference between two scenarios reaches.
ghost use Rattle.std.specs.Prelude.{◌≡◌, ◌++◌, IfOk, OnOk, flat_map};
ghost use Rattle.std.specs.List.{enumerate_from};
ghost use Rattle.sim_scenario.specs.Ranges.{IsInRange};
ghost use Rattle.sqs_formats.specs.Output.{queue_names};
ghost use Rattle.sqs_formats.specs.Rows.{line, lines};
ghost use Rattle.sqs_rehearsal.specs.Said.{SaysReach, has_name, is_name_of, reach_line, said_of};

use crate::reach::queues_out_of_reach;
use sim_records::Lines;
use sim_scenario::Scenario;
use sqs_message::Text;
use std::alloc::{AllocError, Global};

// The names of the queues of a scenario.
fn queue_names(scenario: &Scenario) -> &[Text]
    ensures names { result.now ≡ queue_names scenario.now }
    ensures range { IsInRange scenario.now }
{
    &scenario.names()[..scenario.queues().len()]
}

// Whether any of some queues has a name.
fn is_name_of(names: &[Text], name: &Text) -> bool
    ensures { result ≡ is_name_of names.now name.now }
{
    names.contains(name)
}

// Whether the queue of a number has a name.
fn has_name(names: &[Text], number: usize, name: &Text) -> bool
    ensures { result ≡ has_name names.now number name.now }
{
    match names.get(number) {
        Some(known) => known == name,
        None => false,
    }
}

// Adds the line of a queue: whether it cannot differ.
fn add_line(text: &mut Lines, name: &Text, same: bool) -> Result<(), AllocError>
    ensures { OnOk result (text.new ≡ text.old ++ line (reach_line name.now same)) }
{
    let said = if same {
        b"same".as_slice()
    } else {
        b"may-differ".as_slice()
    };
    text.add(&[b"reach".as_slice(), name.as_bytes(), said])
}

// Adds what is said of a queue.
fn add_queue(
    text: &mut Lines,
    number: usize,
    name: &Text,
    others: &[Text],
    marks: &[bool],
) -> Result<(), AllocError>
    ensures { OnOk result
        (text.new ≡ text.old ++ lines (said_of others.now marks.now (number, name.now))) }
{
    if !is_name_of(others, name) {
        return Ok(());
    }
    let marked = marks.get(number).copied().unwrap_or(false);
    add_line(text, name, marked && has_name(others, number, name))
}

// What is said of all queues of a scenario, by the marks of those that no difference from another
// one reaches.
fn said_text(
    alloc: Global,
    names: &[Text],
    others: &[Text],
    marks: &[bool],
) -> Result<Vec<u8>, AllocError>
    ensures { IfOk result (λ text. text.items
        ≡ lines (flat_map (said_of others.now marks.now) (enumerate_from 0 names.now))) }
{
    let mut text = Lines::new(alloc);
    for (number, name) in names.iter().enumerate() {
        add_queue(&mut text, number, name, others, marks)?;
    }
    text.into_bytes()
}

/// The lines that say which queues cannot differ between the runs of two scenarios: one for each
/// queue of the first that the second has by name too, in the order of the first.
///
/// # Errors
///
/// `AllocError` if memory runs out.
pub fn reach_text(alloc: Global, first: &Scenario, second: &Scenario) -> Result<Vec<u8>, AllocError>
    ensures { IfOk result (λ text. SaysReach first.now second.now text.items) }
{
    let marks = queues_out_of_reach(alloc, first, second)?;
    said_text(
        alloc,
        queue_names(first),
        queue_names(second),
        marks.as_slice(),
    )
}
