//! The queues with their running counts.
ghost use Rattle.std.specs.Prelude.{◌≡◌, IfOk, OnOk, map};
ghost use Rattle.sim_report.specs.Running.{fresh, count_added, rows_added};

use crate::column::RowCount;
use crate::tally::Tally;
use sqs_message::{Row, Text};
use std::alloc::{AllocError, Global};

/// A queue's name and its running counts.
#[derive(Drop)]
pub(crate) struct QueueCounts {
    pub(crate) name: Text,
    pub(crate) tally: Tally,
}

// The queues with these names, without rows.
pub(crate) fn fresh_queues(alloc: Global, names: Vec<Text>) -> Result<Vec<QueueCounts>, AllocError>
    ensures { IfOk result (λ v. v.items ≡ map fresh names.items) }
{
    let mut queues = Vec::with_capacity(alloc, names.len())?;
    for name in names {
        let tally = Tally::new(alloc);
        queues.push(QueueCounts { name, tally })?;
    }
    Ok(queues)
}

// Counts what a row counts at its queue, if that is one of these.
#[inline(always)]
pub(crate) fn add_count(queues: &mut [QueueCounts], count: RowCount) -> Result<(), AllocError>
    ensures { OnOk result (queues.new ≡ count_added queues.old count) }
{
    let place = count.queue as usize;
    if place < queues.len() {
        queues[place].tally.count(count)?;
    }
    Ok(())
}

// Counts rows, one after another.
pub(crate) fn add_rows(queues: &mut [QueueCounts], rows: &[Row]) -> Result<(), AllocError>
    ensures { OnOk result (queues.new ≡ rows_added queues.old rows.now) }
{
    for row in rows {
        add_count(queues, RowCount::of(row))?;
    }
    Ok(())
}
