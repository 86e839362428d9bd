//! Records as lines of CSV.
ghost use Rattle.std.specs.Prelude.{◌≡◌, ◌++◌, ◌∷◌, [], false, IfOk, OnOk, Some, map};
ghost use Rattle.std.specs.Fmt.{decimal};
ghost use Rattle.sqs_formats.specs.Rows.{line, text_if};
ghost use Rattle.sim_records.specs.Lines.{with_fields};
ghost use Rattle.sim_records.specs.Writes.{Wrote};

use crate::line::Line;
use crate::sink::{Out, write_all};
use sim_clock::Refusal;
use std::alloc::{AllocError, Global};
use std::marker::Model;

/// Lines of CSV, made one after another. Contracts see it as their bytes.
///
/// After a growth was refused it holds nothing and accepts nothing.
#[derive(Drop)]
pub struct Lines {
    text: Option<Vec<u8>>,
    // The next line.
    line: Line,
}

impl Model for Lines {
    ghost use Rattle.std.specs.Prelude.{List, [], ℕ, option_map, unwrap_or};

    ghost Value = { List ℕ };

    ghost view = { λ l. unwrap_or (option_map (λ v. v.items) l.text) [] };
}

// Puts these fields before those of a line, the last one first.
fn put_fields(text: &mut Line, fields: &[&[u8]]) -> Result<(), AllocError>
    ensures { OnOk result (text.new ≡ with_fields text.old (map (λ f. f.now) fields.now)) }
{
    let mut left = fields.len();
    while left > 0 {
        left -= 1;
        text.bytes(fields[left])?;
    }
    Ok(())
}

// Puts these numbers before the fields of a line, the last one first.
fn put_numbers(text: &mut Line, numbers: &[Option<u128>]) -> Result<(), AllocError>
    ensures { OnOk result (text.new ≡ with_fields text.old (map (text_if decimal) numbers.now)) }
{
    let mut left = numbers.len();
    while left > 0 {
        left -= 1;
        text.number_if(numbers[left])?;
    }
    Ok(())
}

// Makes a line that has these fields, followed by these numbers.
fn make_line(text: &mut Line, fields: &[&[u8]], numbers: &[Option<u128>]) -> Result<(), AllocError>
    ensures { OnOk result
        (text.new ≡ line (map (λ f. f.now) fields.now ++ map (text_if decimal) numbers.now)) }
{
    text.clear(0)?;
    text.begin()?;
    put_numbers(text, numbers)?;
    put_fields(text, fields)?;
    text.end(0)
}

impl Lines {
    /// No lines.
    pub fn new(alloc: Global) -> Lines
        ensures { result ≡ [] }
    {
        Lines {
            text: Some(Vec::new(alloc)),
            line: Line::new(alloc),
        }
    }

    /// Adds the line of a record, with quotes if a field needs them.
    ///
    /// # Errors
    ///
    /// `AllocError` if a growth is refused, now or before.
    pub fn add(&mut self, fields: &[&[u8]]) -> Result<(), AllocError>
        ensures { OnOk result (self.new ≡ self.old ++ line (map (λ f. f.now) fields.now)) }
    {
        self.add_numbers(fields, &[])
    }

    /// Adds the line of a record. It has these fields, with quotes if one needs them, followed by
    /// these numbers in decimal, each empty if there is none.
    ///
    /// # Errors
    ///
    /// `AllocError` if a growth is refused, now or before.
    pub fn add_numbers(
        &mut self,
        fields: &[&[u8]],
        numbers: &[Option<u128>],
    ) -> Result<(), AllocError>
        ensures { OnOk result (self.new
            ≡ self.old ++ line (map (λ f. f.now) fields.now ++ map (text_if decimal) numbers.now)) }
    {
        let Some(mut text) = self.text.take() else {
            return Err(AllocError);
        };
        make_line(&mut self.line, fields, numbers)?;
        text.extend_from_slice(self.line.as_slice())?;
        self.text = Some(text);
        Ok(())
    }

    /// The bytes of the lines.
    ///
    /// # Errors
    ///
    /// `AllocError` if a growth is refused, now or before.
    pub fn into_bytes(self) -> Result<Vec<u8>, AllocError>
        ensures { IfOk result (λ v. v.items ≡ self) }
    {
        self.text.ok_or(AllocError)
    }
}

// The line of a record.
fn line_of(alloc: Global, fields: &[&[u8]]) -> Result<Vec<u8>, AllocError>
    ensures { IfOk result (λ v. v.items ≡ line (map (λ f. f.now) fields.now)) }
{
    let mut lines = Lines::new(alloc);
    lines.add(fields)?;
    lines.into_bytes()
}

// Writes a record as a line.
pub(crate) fn write_record<W: Out>(
    alloc: Global,
    out: &mut W,
    fields: &[&[u8]],
) -> Result<(), Refusal>
    requires { (W.state out.old).failed ≡ false }
    ensures { Wrote (W.state out.old) (W.state out.new)
        (line (map (λ f. f.now) fields.now)) result }
{
    let line = line_of(alloc, fields)?;
    write_all(out, line.as_slice())?;
    Ok(())
}
