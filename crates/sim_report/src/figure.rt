//! Figures with their names.
ghost use Rattle.std.specs.Prelude.{◌≡◌, ◌<◌, ◌^◌, ◌++◌, IfOk, OnOk, get_or, map};
ghost use Rattle.sqs_formats.specs.Rows.{line, lines};
ghost use Rattle.sim_report.specs.Figures.{count_names, figure_fields, named_counts, named_requests, named_services};

use crate::stretch::Stretch;
use sim_records::Lines;
use std::alloc::{AllocError, Global};
use std::marker::Model;

/// The number of counts.
pub(crate) const COUNTS: usize = 27;

/// The number of figures of requests.
pub(crate) const REQUESTS: usize = 8;

/// The number of figures of services.
pub(crate) const SERVICES: usize = 4;

/// A figure: its name and its number, if there is one.
#[derive(Drop)]
pub(crate) struct Figure {
    pub(crate) name: &'static [u8],
    pub(crate) value: Option<u128>,
}

impl Model for Figure {
    ghost use Rattle.sim_report.specs.Figures.{Figure};

    ghost Value = { Figure };

    ghost view = { λ f. (f.name.now, f.value) };
}

impl Figure {
    /// A figure with this name.
    pub(crate) fn of(name: &'static [u8], value: Option<u128>) -> Figure
        ensures { result ≡ (name.entry.now, value) }
    {
        Figure { name, value }
    }
}

// The names of the counts.
#[tactic(auto, unfolding(crate::specs::Figures::count_names))]
fn count_names() -> [&'static [u8]; COUNTS]
    ensures { map (λ n. n.now) result ≡ count_names }
{
    [
        b"sent",
        b"sent_again",
        b"came_by_forward",
        b"came_by_redrive",
        b"came_by_move",
        b"forwarded_again",
        b"receives",
        b"waits",
        b"empty_receives",
        b"deleted",
        b"deletes_by_older_receipt",
        b"deletes_of_gone",
        b"changes",
        b"failed_services",
        b"forwarded",
        b"dead_lettered",
        b"moved_away",
        b"lost_by_expiry",
        b"refused_sends",
        b"refused_receives",
        b"refused_deletes",
        b"refused_changes",
        b"starts",
        b"cancels",
        b"refused_starts",
        b"refused_cancels",
        b"copies_changed",
    ]
}

/// The counts by their names.
///
/// # Errors
///
/// `AllocError` if a growth is refused.
pub(crate) fn named_counts(alloc: Global, counts: &[u64; COUNTS]) -> Result<Vec<Figure>, AllocError>
    ensures { IfOk result (λ v. v.items ≡ named_counts counts.now) }
{
    let names = count_names();
    let mut figures = Vec::with_capacity(alloc, COUNTS)?;
    for place in 0..COUNTS {
        figures.push(Figure::of(names[place], Some(u128::from(counts[place]))))?;
    }
    Ok(figures)
}

// The count in a place.
fn at(counts: &[u64; COUNTS], place: usize) -> u128
    requires { place < 27 }
    ensures { result ≡ get_or counts.now place 0 }
{
    u128::from(counts[place])
}

/// The requests by the actions of SQS, from the counts and from how many receives were asked for.
#[tactic(auto, unfolding(crate::specs::Figures::named_requests))]
pub(crate) fn named_requests(receives: u64, counts: &[u64; COUNTS]) -> [Figure; REQUESTS]
    ensures { result ≡ named_requests receives counts.now }
{
    let sends = at(counts, 0) + at(counts, 1) + at(counts, 2) + at(counts, 5) + at(counts, 18);
    let receives = u128::from(receives);
    let deletes = at(counts, 9) + at(counts, 10) + at(counts, 11) + at(counts, 20);
    let changes = at(counts, 12) + at(counts, 21);
    let starts = at(counts, 22) + at(counts, 24);
    let cancels = at(counts, 23) + at(counts, 25);
    let of_messages = at(counts, 18) + at(counts, 19) + at(counts, 20) + at(counts, 21);
    let refused = of_messages + at(counts, 24) + at(counts, 25);
    let all = sends + receives + deletes + changes + starts + cancels;
    [
        Figure::of(b"SendMessage", Some(sends)),
        Figure::of(b"ReceiveMessage", Some(receives)),
        Figure::of(b"DeleteMessage", Some(deletes)),
        Figure::of(b"ChangeMessageVisibility", Some(changes)),
        Figure::of(b"StartMessageMoveTask", Some(starts)),
        Figure::of(b"CancelMessageMoveTask", Some(cancels)),
        Figure::of(b"requests", Some(all)),
        Figure::of(b"refused_requests", Some(refused)),
    ]
}

/// The services that ended by these counts, how many receives gave messages, and how long an actor
/// was busy.
#[tactic(auto, unfolding(crate::specs::Figures::named_services))]
pub(crate) fn named_services(
    stretch: Stretch,
    counts: &[u64; COUNTS],
    batches: u64,
    busy: u128,
) -> [Figure; SERVICES]
    requires { busy < 2 ^ 65 }
    ensures { result ≡ named_services stretch counts.now batches busy }
{
    let settled = at(counts, 9) + at(counts, 10) + at(counts, 11) + at(counts, 20);
    [
        Figure::of(b"services", Some(settled + at(counts, 13))),
        Figure::of(b"batches", Some(u128::from(batches))),
        Figure::of(b"busy_ms", Some(busy)),
        Figure::of(b"busy_permille", stretch.permille(busy)),
    ]
}

// Adds the line of a figure, with this name, of the queue or actor with that name.
fn add_figure(
    text: &mut Lines,
    of: &[u8],
    name: &[u8],
    value: Option<u128>,
) -> Result<(), AllocError>
    ensures { OnOk result (text.new ≡ text.old ++ line (figure_fields of.now (name.now, value))) }
{
    text.add_numbers(&[b"figure", of, name], &[value])
}

/// Adds the lines of figures of the queue or actor with this name.
///
/// # Errors
///
/// `AllocError` if a growth is refused.
pub(crate) fn add_figures(text: &mut Lines, of: &[u8], figures: &[Figure]) -> Result<(), AllocError>
    ensures { OnOk result (text.new
        ≡ text.old ++ lines (map (figure_fields of.now) figures.now)) }
{
    for figure in figures {
        add_figure(text, of, figure.name, figure.value)?;
    }
    Ok(())
}
