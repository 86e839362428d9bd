//! Text that is put before the text in a buffer.
ghost use Rattle.std.specs.Prelude.{◌≡◌, ◌≤◌, ◌<◌, ◌+◌, ◌++◌, ◌∷◌, IfOk, OnErr, drop, length};
ghost use Rattle.std.specs.Fmt.{decimal};
ghost use Rattle.std.specs.Vec.{vec_len};
ghost use Rattle.csv.specs.Writing.{comma};

use itoa::write_digits;
use std::alloc::AllocError;

/// The greatest length of a number with a mark before it.
pub(crate) const NUMBER: usize = 21;

// The room of a line at first, in bytes: most lines are shorter.
const ROOM: usize = 256;

// Moves the text in a buffer to the end of one that is at least twice as long, with room for
// `bytes` bytes before it. Returns where the text that began at `start` begins then. It is apart
// from `room_before` because it is rare.
#[cold]
#[inline(never)]
fn grow_before(text: &mut Vec<u8>, start: usize, bytes: usize) -> Result<usize, AllocError>
    requires within { start ≤ vec_len text.old }
    ensures same { IfOk result (λ at. drop at text.new.items ≡ drop start text.old.items) }
    ensures within { IfOk result (λ at. at ≤ vec_len text.new) }
    ensures room { IfOk result (λ at. bytes ≤ at) }
    ensures refused { OnErr result (text.new ≡ text.old) }
{
    let more = text.len().saturating_add(bytes).max(ROOM);
    let mut longer = Vec::from_elem(*text.allocator(), 0, more)?;
    longer.extend_from_slice(text)?;
    *text = longer;
    Ok(more + start)
}

/// Makes room for `bytes` bytes before the text that begins at `start`. Returns where that text
/// begins then.
#[inline(always)]
pub(crate) fn room_before(
    text: &mut Vec<u8>,
    start: usize,
    bytes: usize,
) -> Result<usize, AllocError>
    requires within { start ≤ vec_len text.old }
    ensures same { IfOk result (λ at. drop at text.new.items ≡ drop start text.old.items) }
    ensures within { IfOk result (λ at. at ≤ vec_len text.new) }
    ensures room { IfOk result (λ at. bytes ≤ at) }
    ensures refused { OnErr result (text.new ≡ text.old) }
{
    if bytes <= start {
        Ok(start)
    } else {
        grow_before(text, start, bytes)
    }
}

/// Puts a comma and a field before the text that begins at `end`. Returns where they begin.
#[inline(always)]
pub(crate) fn put_field(text: &mut [u8], end: usize, field: &[u8]) -> usize
    requires room { length field.now < end }
    requires within { end ≤ length text.old }
    ensures written { drop result text.new ≡ comma ∷ (field.now ++ drop end text.old) }
    ensures before { result + length field.now + 1 ≡ end }
{
    let start = end - field.len();
    text[start..end].copy_from_slice(field);
    text[start - 1] = b',';
    start - 1
}

/// Puts a mark and a number in decimal before the text that begins at `end`. Returns where they
/// begin.
#[inline(always)]
pub(crate) fn put_before(text: &mut [u8], end: usize, mark: u8, number: u64) -> usize
    requires room { NUMBER ≤ end }
    requires within { end ≤ length text.old }
    ensures written { drop result text.new ≡ mark ∷ (decimal number ++ drop end text.old) }
    ensures long { result + 1 + length (decimal number) ≡ end }
    ensures most { end ≤ result + NUMBER }
    ensures before { result < end }
{
    let start = write_digits(number, text, end) - 1;
    text[start] = mark;
    start
}
