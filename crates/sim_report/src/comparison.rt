//! The comparison of two reports.
ghost use Rattle.std.specs.Prelude.{◌≡◌, ◌++◌, IfOk, OnOk, flat_map, map};
ghost use Rattle.sim_report.specs.Compared.{new_lines, only_line};
ghost use Rattle.sqs_formats.specs.Comparison.{column_line, compared, comparison, difference_if, named};
ghost use Rattle.sqs_formats.specs.Report.{columns};
ghost use Rattle.sqs_formats.specs.Rows.{line, lines};
ghost use Rattle.std.specs.List.{zip};
ghost use Rattle.std.specs.Option.{option_map};

use crate::columns::{QueueColumns, column_names, named};
use crate::number::NumberText;
use sim_records::Lines;
use std::alloc::{AllocError, Global};

// Adds the line of a column of a queue.
fn add_column(
    text: &mut Lines,
    queue: &[u8],
    column: &[u8],
    first: Option<u128>,
    second: Option<u128>,
) -> Result<(), AllocError>
    ensures { OnOk result
        (text.new ≡ text.old ++ line (column_line queue.now (column.now, (first, second)))) }
{
    let before = NumberText::new(first);
    let after = NumberText::new(second);
    let difference = NumberText::difference(first, second);
    let fields = [
        b"compare".as_slice(),
        queue,
        column,
        before.as_bytes(),
        after.as_bytes(),
        difference.as_bytes(),
    ];
    text.add(&fields)
}

// Adds the line of a queue that is in one report only: how often it is in the first and in the
// second, and the difference.
fn add_only(text: &mut Lines, queue: &[u8], counts: [&[u8]; 3]) -> Result<(), AllocError>
    ensures { OnOk result
        (text.new ≡ text.old ++ line (only_line queue.now (map (λ n. n.now) counts.entry))) }
{
    let [first, second, difference] = counts;
    let fields = [
        b"compare".as_slice(),
        queue,
        b"only",
        first,
        second,
        difference,
    ];
    text.add(&fields)
}

// Adds the lines of the columns of a queue.
fn add_columns(
    text: &mut Lines,
    queue: &[u8],
    first: &[Option<u128>],
    second: &[Option<u128>],
) -> Result<(), AllocError>
    ensures { OnOk result (text.new
        ≡ text.old
        ++ lines (map (column_line queue.now) (zip columns (zip first.now second.now)))) }
{
    let names = column_names();
    let count = names.len().min(first.len()).min(second.len());
    for place in 0..count {
        add_column(text, queue, names[place], first[place], second[place])?;
    }
    Ok(())
}

// Adds the lines of a queue of the first report, with the same queue of the second.
fn add_compared(
    text: &mut Lines,
    first: &QueueColumns,
    second: Option<&QueueColumns>,
) -> Result<(), AllocError>
    ensures { OnOk result
        (text.new ≡ text.old ++ lines (compared first.now (option_map (λ q. q.now) second.entry))) }
{
    match second {
        Some(second) => {
            let (first_columns, second_columns) = (&first.columns, &second.columns);
            add_columns(text, first.name, first_columns, second_columns)
        }
        None => add_only(text, first.name, [b"1", b"0", b"-1"]),
    }
}

// Adds the line of a queue of the second report, if the first one does not have it.
fn add_new(
    text: &mut Lines,
    second: &QueueColumns,
    first: &[QueueColumns],
) -> Result<(), AllocError>
    ensures { OnOk result (text.new ≡ text.old ++ lines (new_lines first.now second.now)) }
{
    if named(second.name, first).is_none() {
        add_only(text, second.name, [b"0", b"1", b"1"])?;
    }
    Ok(())
}

// Adds the lines of the queues of the first report, in order.
fn add_first(
    text: &mut Lines,
    first: &[QueueColumns],
    second: &[QueueColumns],
) -> Result<(), AllocError>
    ensures { OnOk result (text.new
        ≡ text.old ++ lines (flat_map (λ q. compared q (named q.0 second.now)) first.now)) }
{
    for queue in first {
        add_compared(text, queue, named(queue.name, second))?;
    }
    Ok(())
}

// Adds the lines of the queues of the second report that the first one does not have, in order.
fn add_second(
    text: &mut Lines,
    first: &[QueueColumns],
    second: &[QueueColumns],
) -> Result<(), AllocError>
    ensures { OnOk result
        (text.new ≡ text.old ++ lines (flat_map (new_lines first.now) second.now)) }
{
    for queue in second {
        add_new(text, queue, first)?;
    }
    Ok(())
}

// The lines of the comparison of two reports.
pub(crate) fn comparison_lines(
    alloc: Global,
    first: &[QueueColumns],
    second: &[QueueColumns],
) -> Result<Vec<u8>, AllocError>
    ensures { IfOk result (λ v. v.items ≡ comparison first.now second.now) }
{
    let mut text = Lines::new(alloc);
    add_first(&mut text, first, second)?;
    add_second(&mut text, first, second)?;
    text.into_bytes()
}
