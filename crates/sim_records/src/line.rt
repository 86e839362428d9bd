//! A line of CSV, made from its end backwards.
ghost use Rattle.std.specs.Prelude.{◌≡◌, ◌≤◌, ◌<◌, ◌++◌, ◌∷◌, ◌-◌, List, [], ℕ, IfOk, OnOk, codes, drop, false, if◌then◌else◌, length};
ghost use Rattle.std.specs.Fmt.{decimal};
ghost use Rattle.csv.specs.Machine.{line_feed};
ghost use Rattle.csv.specs.Writing.{comma, default_writer, field_text, needs_byte};
ghost use Rattle.hex.specs.Hex.{encode_lower};
ghost use Rattle.sim_records.specs.Lines.{IsPlain, with_field, with_fields};
ghost use Rattle.sqs_formats.specs.Rows.{line, row_fields, text_if};
ghost use Rattle.sqs_message.specs.Ids.{id_text, origin_text, receipt_text};

use crate::before::{NUMBER, put_field, room_before};
use crate::fields::{
    NUMBERS, counts_before, digest_before, number_before, numbered_before, pair_before,
    receipt_before, word_before,
};
use crate::names::Names;
use crate::quotes::needs_quotes;
use crate::row_line::{ROW, put_row};
use crate::word::{DIGEST, WORD, Word};
use csv::Writer;
use itoa::Integer;
use sqs_message::{MessageId, Origin, Receipt, Row};
use std::alloc::{AllocError, Global};
use std::marker::Model;

// The greatest length of a number of 128 bits with a sign.
const WIDE_NUMBER: usize = 40;

// The text of a field as `csv` writes it, in quotes if it needs them.
fn text_by_csv(alloc: Global, field: &[u8]) -> Result<Vec<u8>, AllocError>
    ensures { IfOk result (λ v. v.items ≡ field_text default_writer field.now) }
{
    let mut writer = Writer::from_writer(Vec::new(alloc));
    if writer.write_field(field).is_err() {
        return Err(AllocError);
    }
    match writer.into_inner() {
        Ok(text) => Ok(text),
        Err(_) => Err(AllocError),
    }
}

/// Lines of CSV, made from their end backwards: the last line first, and its last field first.
/// Contracts see their bytes so far, with a comma before each field. A field that needs no quotes
/// is copied as it is; `csv` writes the others.
///
/// If a growth is refused, the line stays as it was.
#[derive(Drop)]
pub(crate) struct Line {
    // The lines are at its end, from `start` on. Before them is room.
    text: Vec<u8>,
    start: usize,
}

impl Model for Line {
    ghost use Rattle.std.specs.Prelude.{List, ℕ, ◌≤◌, drop};
    ghost use Rattle.std.specs.Vec.{vec_len};

    ghost Value = { List ℕ };

    ghost view = { λ l. drop l.start l.text.items };

    ghost invariant = { λ l. l.start ≤ vec_len l.text };
}

impl Line {
    /// No line.
    pub(crate) fn new(alloc: Global) -> Line
        ensures { result ≡ [] }
    {
        Line {
            text: Vec::new(alloc),
            start: 0,
        }
    }

    /// Removes all lines, and makes room for `bytes` bytes.
    pub(crate) fn clear(&mut self, bytes: usize) -> Result<(), AllocError>
        ensures { OnOk result (self.new ≡ []) }
    {
        let start = self.text.len();
        self.start = room_before(&mut self.text, start, bytes)?;
        Ok(())
    }

    /// The bytes so far.
    #[inline(always)]
    pub(crate) fn as_slice(&self) -> &[u8]
        ensures { result.now ≡ self.now }
    {
        &self.text[self.start..]
    }

    /// The number of bytes so far.
    #[inline(always)]
    pub(crate) fn len(&self) -> usize
        ensures { result ≡ length self.now }
    {
        self.text.len() - self.start
    }

    /// Begins a line without fields before the others.
    #[inline(always)]
    pub(crate) fn begin(&mut self) -> Result<(), AllocError>
        ensures { OnOk result (self.new ≡ line_feed ∷ self.old) }
    {
        let end = room_before(&mut self.text, self.start, 1)?;
        self.text[end - 1] = b'\n';
        self.start = end - 1;
        Ok(())
    }

    /// The line of a row before the others, if none of its fields needs quotes. Returns whether there
    /// is one.
    #[inline(always)]
    pub(crate) fn row(&mut self, row: &Row, names: &Names) -> Result<bool, AllocError>
        ensures { IfOk result (λ done. self.new
            ≡ if done then line (row_fields names.now row.now) ++ self.old else self.old) }
    {
        let end = room_before(&mut self.text, self.start, ROW)?;
        self.start = end;
        match put_row(&mut self.text, end, row, names) {
            Some(start) => {
                self.start = start;
                Ok(true)
            }
            None => Ok(false),
        }
    }

    /// A field that needs no quotes.
    #[inline(always)]
    #[tactic(auto, using(crate::proofs::Plain::field_plain))]
    pub(crate) fn plain(&mut self, field: &[u8]) -> Result<(), AllocError>
        requires { IsPlain field.now }
        ensures { OnOk result (self.new ≡ with_field self.old field.now) }
    {
        self.put(field)
    }

    /// A word that needs no quotes.
    #[inline(always)]
    pub(crate) fn word(&mut self, word: Word) -> Result<(), AllocError>
        requires { IsPlain word }
        ensures { OnOk result (self.new ≡ with_field self.old word.entry) }
    {
        let end = room_before(&mut self.text, self.start, WORD + 1)?;
        self.start = word_before(&mut self.text, end, word);
        Ok(())
    }

    // The text of a field with a comma before it.
    #[inline(always)]
    fn put(&mut self, text: &[u8]) -> Result<(), AllocError>
        ensures { OnOk result (self.new ≡ comma ∷ (text.now ++ self.old)) }
    {
        let end = room_before(&mut self.text, self.start, text.len() + 1)?;
        self.start = put_field(&mut self.text, end, text);
        Ok(())
    }

    // A field of any bytes, as `csv` writes it. It is apart from the other fields, which are a
    // hundred times as frequent.
    #[cold]
    #[inline(never)]
    fn quoted(&mut self, field: &[u8]) -> Result<(), AllocError>
        ensures { OnOk result (self.new ≡ with_field self.old field.now) }
    {
        let text = text_by_csv(*self.text.allocator(), field)?;
        self.put(&text)
    }

    /// A field of these bytes.
    pub(crate) fn bytes(&mut self, bytes: &[u8]) -> Result<(), AllocError>
        ensures { OnOk result (self.new ≡ with_field self.old bytes.now) }
    {
        if needs_quotes(bytes) {
            self.quoted(bytes)
        } else {
            self.plain(bytes)
        }
    }

    /// A number in decimal.
    #[inline(always)]
    pub(crate) fn number(&mut self, number: u64) -> Result<(), AllocError>
        ensures { OnOk result (self.new ≡ with_field self.old (decimal number)) }
    {
        let end = room_before(&mut self.text, self.start, NUMBER)?;
        self.start = number_before(&mut self.text, end, number);
        Ok(())
    }

    // A number of any size in decimal. It is apart from numbers of 64 bits, which nearly all are.
    #[cold]
    #[inline(never)]
    fn wide_number(&mut self, number: u128) -> Result<(), AllocError>
        ensures { OnOk result (self.new ≡ with_field self.old (decimal number)) }
    {
        let mut text = [0; WIDE_NUMBER];
        let start = number.write(&mut text);
        self.bytes(&text[start..])
    }

    /// A number in decimal; no bytes if there is none.
    #[inline(always)]
    pub(crate) fn number_if(&mut self, number: Option<u128>) -> Result<(), AllocError>
        ensures { OnOk result (self.new ≡ with_field self.old (text_if decimal number)) }
    {
        match number {
            None => self.plain(b""),
            Some(wide) => match u64::try_from(wide) {
                Ok(number) => self.number(number),
                Err(_) => self.wide_number(wide),
            },
        }
    }

    // A mark and two numbers, for example `m-0-12`.
    #[inline(always)]
    fn numbered(&mut self, mark: u8, site: u32, number: u64) -> Result<(), AllocError>
        requires { needs_byte default_writer mark ≡ false }
        ensures { OnOk result (self.new
            ≡ with_field self.old
            (mark ∷ (codes "-" ++ (decimal site ++ (codes "-" ++ decimal number))))) }
    {
        let end = room_before(&mut self.text, self.start, NUMBERS)?;
        self.start = numbered_before(&mut self.text, end, mark, site, number);
        Ok(())
    }

    /// The id of a message, for example `m-0-12`.
    #[inline(always)]
    pub(crate) fn id(&mut self, id: MessageId) -> Result<(), AllocError>
        ensures { OnOk result (self.new ≡ with_field self.old (id_text id)) }
    {
        self.numbered(b'm', id.site, id.number)
    }

    /// The origin of a message, for example `o-0-12`.
    #[inline(always)]
    pub(crate) fn origin(&mut self, origin: Origin) -> Result<(), AllocError>
        ensures { OnOk result (self.new ≡ with_field self.old (origin_text origin)) }
    {
        self.numbered(b'o', origin.site, origin.number)
    }

    /// A receipt handle, for example `r-0-12-1`.
    #[inline(always)]
    pub(crate) fn receipt(&mut self, receipt: Receipt) -> Result<(), AllocError>
        ensures { OnOk result (self.new ≡ with_field self.old (receipt_text receipt)) }
    {
        let end = room_before(&mut self.text, self.start, NUMBERS)?;
        self.start = receipt_before(&mut self.text, end, receipt);
        Ok(())
    }

    /// An MD5 digest, in lower-case hex.
    #[inline(always)]
    pub(crate) fn digest(&mut self, md5: &[u8; 16]) -> Result<(), AllocError>
        ensures { OnOk result (self.new ≡ with_field self.old (encode_lower md5.now)) }
    {
        let end = room_before(&mut self.text, self.start, DIGEST + 1)?;
        self.start = digest_before(&mut self.text, end, md5);
        Ok(())
    }

    /// Two numbers in decimal with a slash between them, for example `1/4`.
    pub(crate) fn pair(&mut self, first: u64, second: u64) -> Result<(), AllocError>
        ensures { OnOk result (self.new
            ≡ with_field self.old (decimal first ++ (codes "/" ++ decimal second))) }
    {
        let end = room_before(&mut self.text, self.start, NUMBERS)?;
        self.start = pair_before(&mut self.text, end, first, second);
        Ok(())
    }

    /// Three numbers in decimal with slashes between them, for example `2/1/0`.
    pub(crate) fn counts(&mut self, first: u64, second: u64, third: u64) -> Result<(), AllocError>
        ensures { OnOk result (self.new
            ≡ with_field self.old ((decimal first
            ++ (codes "/" ++ (decimal second ++ (codes "/" ++ decimal third)))))) }
    {
        let end = room_before(&mut self.text, self.start, NUMBERS)?;
        self.start = counts_before(&mut self.text, end, first, second, third);
        Ok(())
    }

    /// Ends the line before the last `behind` bytes: removes the comma before its first field. A
    /// record without any bytes becomes two quotes.
    #[inline(always)]
    pub(crate) fn end(&mut self, behind: usize) -> Result<(), AllocError>
        requires { behind ≤ length self.old }
        ensures { (rest : List ℕ) (fields : List (List ℕ))
            → self.old ≡ with_fields (line_feed ∷ rest) fields → behind ≡ length rest
            → OnOk result (self.new ≡ line fields ++ rest) }
    {
        if self.len() - behind < 3 {
            self.blank(behind)?;
        }
        self.start += 1;
        Ok(())
    }

    // Makes the line before the last `behind` bytes two quotes.
    #[cold]
    #[inline(never)]
    fn blank(&mut self, behind: usize) -> Result<(), AllocError>
        requires { behind ≤ length self.old }
        ensures { OnOk result
            (self.new ≡ comma ∷ (codes "\"\"\n" ++ drop (length self.old - behind) self.old)) }
    {
        self.start = self.text.len() - behind;
        self.put(b"\"\"\n")
    }
}
