//! The columns of queues.
ghost use Rattle.std.specs.Prelude.{◌≡◌, List, IfOk, find, map};
ghost use Rattle.std.specs.Option.{option_map};
ghost use Rattle.sqs_formats.specs.Report.{columns};
ghost use Rattle.sqs_formats.specs.Comparison.{named};
ghost use Rattle.sqs_model.specs.declared.finals.FinalMessage.{FinalMessage};
ghost use Rattle.sim_report.specs.Left.{lefts};
ghost use Rattle.sim_report.specs.Running.{columns_of_all};

use crate::left::{Left, NONE};
use crate::queue::QueueCounts;
use std::alloc::{AllocError, Global};
use std::marker::Model;

/// The number of columns.
pub(crate) const COLUMNS: usize = 27;

/// A queue's name and its columns, of which some are empty.
#[derive(Drop)]
pub(crate) struct QueueColumns<'a> {
    pub(crate) name: &'a [u8],
    pub(crate) columns: Vec<Option<u128>>,
}

impl<'a> Model for QueueColumns<'a> {
    ghost use Rattle.sqs_formats.specs.Report.{Column};

    ghost Value = { Column };

    ghost view = { λ q. (q.name.now, q.columns.items) };
}

// The names of the columns.
pub(crate) fn column_names() -> [&'static [u8]; COLUMNS]
    ensures { map (λ n. n.now) result ≡ columns }
{
    [
        b"sends",
        b"repeats",
        b"receives",
        b"empties",
        b"deletes",
        b"expiries",
        b"redrives",
        b"moves",
        b"arrivals",
        b"OverLimit",
        b"MessageNotInflight",
        b"ReceiptHandleIsInvalid",
        b"BadTimeout",
        b"MissingGroup",
        b"MissingDeduplication",
        b"BadDelay",
        b"TaskRunning",
        b"NoTask",
        b"depth_max",
        b"visible",
        b"in_flight",
        b"delayed",
        b"age_sum",
        b"age_max",
        b"age_p50",
        b"age_p95",
        b"age_p99",
    ]
}

// The columns of queues, given how many messages are left of each.
pub(crate) fn columns_of<'a>(
    alloc: Global,
    queues: &'a [QueueCounts],
    left: &[Left],
) -> Result<Vec<QueueColumns<'a>>, AllocError>
    ensures { (messages : List FinalMessage) → left.now ≡ lefts queues.now messages
        → IfOk result (λ v. v.items ≡ columns_of_all queues.now messages) }
{
    let mut all = Vec::with_capacity(alloc, queues.len())?;
    for (place, queue) in queues.iter().enumerate() {
        let left = left.get(place).copied().unwrap_or(NONE);
        let columns = queue.tally.columns(alloc, left)?;
        let name = queue.name.as_bytes();
        all.push(QueueColumns { name, columns })?;
    }
    Ok(all)
}

// The first of these queues with a name.
pub(crate) fn named<'a, 'b>(
    name: &[u8],
    report: &'b [QueueColumns<'a>],
) -> Option<&'b QueueColumns<'a>>
    ensures { option_map (λ q. q.now) result ≡ named name.now report.now }
{
    report.iter().find(|queue| queue.name == name)
}
