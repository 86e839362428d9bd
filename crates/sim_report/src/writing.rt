//! The lines of the report.
ghost use Rattle.std.specs.Prelude.{◌≡◌, ◌∷◌, ◌++◌, codes, IfOk, OnOk, map};
ghost use Rattle.sqs_formats.specs.Rows.{line};
ghost use Rattle.sqs_formats.specs.Report.{columns, report_fields, report_text};

use crate::columns::{QueueColumns, column_names};
use sim_records::Lines;
use std::alloc::{AllocError, Global};

// The fields of the header.
fn header_fields(alloc: Global) -> Result<Vec<&'static [u8]>, AllocError>
    ensures { IfOk result
        (λ v. map (λ f. f.now) v.items ≡ codes "report" ∷ codes "queue" ∷ columns) }
{
    let mut fields: Vec<&'static [u8]> = Vec::new(alloc);
    fields.push(b"report")?;
    fields.push(b"queue")?;
    for name in column_names() {
        fields.push(name)?;
    }
    Ok(fields)
}

// Adds the header of the report.
fn add_header(alloc: Global, text: &mut Lines) -> Result<(), AllocError>
    ensures { OnOk result (text.new ≡ text.old ++ line (codes "report" ∷ codes "queue" ∷ columns)) }
{
    let fields = header_fields(alloc)?;
    text.add(fields.as_slice())
}

// Adds the line of a queue.
fn add_queue(text: &mut Lines, queue: &QueueColumns) -> Result<(), AllocError>
    ensures { OnOk result (text.new ≡ text.old ++ line (report_fields queue.now)) }
{
    text.add_numbers(&[b"report", queue.name], queue.columns.as_slice())
}

// The lines of a report: its header, and then those of the queues, in order.
pub(crate) fn report_lines(alloc: Global, report: &[QueueColumns]) -> Result<Vec<u8>, AllocError>
    ensures { IfOk result (λ v. v.items ≡ report_text report.now) }
{
    let mut text = Lines::new(alloc);
    add_header(alloc, &mut text)?;
    for queue in report {
        add_queue(&mut text, queue)?;
    }
    text.into_bytes()
}
