//! The log: its header, and a line for each row.
ghost use Rattle.std.specs.Prelude.{◌≡◌, ◌++◌, false, [], map};
ghost use Rattle.sqs_formats.specs.Rows.{line, lines, log_header, row_fields};
ghost use Rattle.sim_records.specs.Writes.{Wrote, WroteSeveral};

use crate::columns::{add_answer, add_detail, add_kind, add_message, add_name, add_receipt};
use crate::line::Line;
use crate::lines::write_record;
use crate::names::Names;
use crate::record::{Record, write_at_once, write_records};
use crate::sink::Out;
use sim_clock::Refusal;
use sqs_message::Row;
use std::alloc::{AllocError, Global};
use std::slice::from_ref;

/// Writes the header of the log.
///
/// # Errors
///
/// `Memory` if a growth is refused: nothing is written. `Write` if the writer fails: a prefix of
/// the line is written.
pub fn write_header<W: Out>(alloc: Global, out: &mut W) -> Result<(), Refusal>
    requires { (W.state out.old).failed ≡ false }
    ensures { Wrote (W.state out.old) (W.state out.new) (line log_header) result }
{
    let fields: [&[u8]; 8] = [
        b"at", b"queue", b"agent", b"call", b"answer", b"message", b"receipt", b"detail",
    ];
    write_record(alloc, out, &fields)
}

impl Record for Row {
    ghost use Rattle.sqs_formats.specs.Rows.{row_fields};

    ghost columns = { λ names row. row_fields names row };

    fn add_to(&self, line: &mut Line, names: &Names) -> Result<(), AllocError> {
        add_detail(line, &self.detail, names)?;
        add_receipt(line, &self.receipt)?;
        add_message(line, self.message)?;
        add_answer(line, self.answer)?;
        add_kind(line, self.kind)?;
        add_name(line, names, self.agent)?;
        add_name(line, names, self.queue)?;
        line.number(self.key.at)
    }

    #[inline(always)]
    fn add_whole(&self, text: &mut Line, names: &Names) -> Result<bool, AllocError> {
        text.row(self, names)
    }
}

/// Writes the line of a row.
///
/// # Errors
///
/// `Memory` if a growth is refused: nothing is written. `Write` if the writer fails: a prefix of
/// the line is written.
pub fn write_row<W: Out>(
    alloc: Global,
    out: &mut W,
    row: &Row,
    names: &Names,
) -> Result<(), Refusal>
    requires { (W.state out.old).failed ≡ false }
    ensures { Wrote (W.state out.old) (W.state out.new)
        (line (row_fields names.now row.now)) result }
{
    write_at_once(&mut Line::new(alloc), out, from_ref(row), names)
}

/// Writes the lines of several rows, in order. Together with `write_header` it makes the log.
///
/// # Errors
///
/// `Memory` if a growth is refused, `Write` if the writer fails. A prefix of the lines is then
/// written.
pub fn write_rows<W: Out>(
    alloc: Global,
    out: &mut W,
    rows: &[Row],
    names: &Names,
) -> Result<(), Refusal>
    requires { (W.state out.old).failed ≡ false }
    ensures { WroteSeveral (W.state out.old) (W.state out.new)
        (lines (map (row_fields names.now) rows.now)) result }
{
    write_records(alloc, out, rows, names)
}
