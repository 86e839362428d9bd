//! The split of a rehearsal, from its command line.
ghost use Rattle.std.specs.Prelude.{◌==◌, ◌≡◌, [], IfOk, map, unwrap_or};
ghost use Rattle.std.specs.List.{slice_split};
ghost use Rattle.sqs_shell.specs.Splits.{has_option, map_of, number_of, numbers_of, split_of, wanted_by, wanted_of};

use sim_report::{Stretch, Wanted};
use sqs_command_line::{RunLine, WantedLine};
use sqs_rehearsal::Options;
use std::alloc::{AllocError, Global};

// The number in a text.
fn number(text: &str) -> Option<u32>
    ensures { result ≡ number_of text.now }
{
    text.parse::<u32>().ok()
}

// The numbers in texts; none if one of them has no number.
fn numbers(alloc: Global, texts: &[&str]) -> Result<Vec<u32>, AllocError>
    ensures { IfOk result (λ v. v.items ≡ unwrap_or (numbers_of (map (λ t. t.now) texts.now)) []) }
{
    let mut numbers = Vec::new(alloc);
    for text in texts {
        match number(text) {
            Some(number) => numbers.push(number)?,
            None => return Ok(Vec::new(alloc)),
        }
    }
    Ok(numbers)
}

// The texts between the commas of a list.
fn pieces<'a>(alloc: Global, list: &'a str) -> Result<Vec<&'a str>, AllocError>
    ensures { IfOk result
        (λ v. map (λ t. t.now) v.items ≡ slice_split (λ b. b == 44) list.entry.now) }
{
    list.split(',').collect(alloc)
}

// The partition of each queue, from a list such as `0,1,0`; none if it can't be read.
fn partitions(alloc: Global, list: &str) -> Result<Vec<u32>, AllocError>
    ensures { IfOk result (λ v. v.items ≡ map_of list.now) }
{
    let pieces = pieces(alloc, list)?;
    numbers(alloc, pieces.as_slice())
}

// So many messages that are there and not in flight are no backlog, unless a line says otherwise.
const BACKLOG: u64 = 10;

// So long is a window of figures unless a line says otherwise, in milliseconds.
const WINDOW: u64 = 300_000;

/// What a line wants of figures: from `from`, else from the beginning, to `to`, else to the end.
pub fn wanted_by(asked: WantedLine) -> Wanted
    ensures { result ≡ wanted_by asked }
{
    let stretch = Stretch {
        from: asked.from.unwrap_or(0),
        until: asked.to.unwrap_or(u64::MAX).saturating_add(1),
    };
    Wanted {
        stretch,
        backlog: asked.backlog.unwrap_or(BACKLOG),
        window: asked.window_figures.unwrap_or(WINDOW),
    }
}

// Whether a line has an option of figures.
fn has_option(asked: WantedLine) -> bool
    ensures { result ≡ has_option asked }
{
    let has_stretch = asked.from.is_some() || asked.to.is_some();
    has_stretch || asked.backlog.is_some() || asked.window_figures.is_some()
}

// What a rehearsal wants of figures, if it wants them; each option of them asks for them, too.
fn wanted(asked: RunLine<'_>) -> Option<Wanted>
    ensures { result ≡ wanted_of asked.entry }
{
    if asked.figures || has_option(asked.wanted) {
        Some(wanted_by(asked.wanted))
    } else {
        None
    }
}

/// The split, and the figures, that a line asks for.
pub fn split(alloc: Global, asked: RunLine<'_>) -> Result<Options, AllocError>
    ensures { IfOk result (λ s. s ≡ split_of asked.entry) }
{
    let map = match asked.map {
        None => None,
        Some(list) => Some(partitions(alloc, list)?),
    };
    Ok(Options {
        window: asked.window,
        parts: asked.parts,
        map,
        workers: asked.workers.unwrap_or(1),
        figures: wanted(asked),
    })
}
