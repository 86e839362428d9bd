//! Records that have lines, and the lines of several.
ghost use Rattle.std.specs.Prelude.{◌≡◌, ◌++◌, ℕ, List, [], false, if◌then◌else◌, IfOk, OnOk, map};
ghost use Rattle.sqs_formats.specs.Rows.{line, lines};
ghost use Rattle.sim_records.specs.Lines.{with_fields};
ghost use Rattle.sim_records.specs.Writes.{Wrote, WroteSeveral};

use crate::line::Line;
use crate::names::Names;
use crate::sink::{Out, write_all};
use sim_clock::Refusal;
use std::alloc::{AllocError, Global};

/// The number of lines that are made before they are written. Their text is cleared once and then
/// used for the next ones.
const AT_ONCE: usize = 16;

/// The length that most lines do not exceed, in bytes, so that their text seldom grows.
const LINE: usize = 96;

/// A record that has a line.
pub(crate) trait Record {
    // The fields of its line, given the names of agents.
    ghost columns: { List (List ℕ) → Self → List (List ℕ) };

    /// Adds its fields to a line.
    fn add_to(&self, line: &mut Line, names: &Names) -> Result<(), AllocError>
        ensures { OnOk result (line.new ≡ with_fields line.old (columns names.now self.now)) };

    /// Adds its line before others at once, if it can. Returns whether it did.
    fn add_whole(&self, text: &mut Line, names: &Names) -> Result<bool, AllocError>
        ensures { IfOk result (λ done. text.new
            ≡ if done then line (columns names.now self.now) ++ text.old else text.old) };
}

// Adds the line of a record before others, field by field.
#[inline(never)]
fn add_by_fields<T: Record>(item: &T, text: &mut Line, names: &Names) -> Result<(), AllocError>
    ensures { OnOk result (text.new ≡ line (T.columns names.now item.now) ++ text.old) }
{
    let behind = text.len();
    text.begin()?;
    item.add_to(text, names)?;
    text.end(behind)
}

// Makes the lines of some records in an empty text. The last one is made first.
pub(crate) fn make_lines<T: Record>(
    text: &mut Line,
    records: &[T],
    names: &Names,
) -> Result<(), AllocError>
    requires { text.old ≡ [] }
    ensures { OnOk result (text.new ≡ lines (map (T.columns names.now) records.now)) }
{
    let mut left = records.len();
    while left > 0 {
        left -= 1;
        let next = &records[left];
        if !next.add_whole(text, names)? {
            add_by_fields(next, text, names)?;
        }
    }
    Ok(())
}

// Writes the lines of several records at once. They are made in the memory of a text.
pub(crate) fn write_at_once<W: Out, T: Record>(
    text: &mut Line,
    out: &mut W,
    records: &[T],
    names: &Names,
) -> Result<(), Refusal>
    requires { (W.state out.old).failed ≡ false }
    ensures { Wrote (W.state out.old) (W.state out.new)
        (lines (map (T.columns names.now) records.now)) result }
{
    text.clear(records.len().saturating_mul(LINE))?;
    make_lines(text, records, names)?;
    write_all(out, text.as_slice())?;
    Ok(())
}

// Writes the lines of all records, in order, `AT_ONCE` at a time.
pub(crate) fn write_records<W: Out, T: Record>(
    alloc: Global,
    out: &mut W,
    records: &[T],
    names: &Names,
) -> Result<(), Refusal>
    requires { (W.state out.old).failed ≡ false }
    ensures { WroteSeveral (W.state out.old) (W.state out.new)
        (lines (map (T.columns names.now) records.now)) result }
{
    let mut text = Line::new(alloc);
    let mut rest = records;
    while !rest.is_empty() {
        let (next, others) = rest.split_at(rest.len().min(AT_ONCE));
        write_at_once(&mut text, out, next, names)?;
        rest = others;
    }
    Ok(())
}
