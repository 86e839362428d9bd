//! Fields that need no quotes, each put before the text in a buffer that has room for it. Each call
//! returns where the field begins, with its comma.
ghost use Rattle.std.specs.Prelude.{◌≡◌, ◌≤◌, ◌<◌, ◌+◌, ◌*◌, ◌++◌, ◌∷◌, codes, drop, false, length, []};
ghost use Rattle.std.specs.Fmt.{decimal};
ghost use Rattle.csv.specs.Writing.{default_writer, needs_byte};
ghost use Rattle.hex.specs.Hex.{encode_lower};
ghost use Rattle.sim_records.specs.Lines.{IsPlain, dashed, with_field};
ghost use Rattle.sqs_message.specs.Ids.{receipt_text};

use crate::before::{NUMBER, put_before, put_field};
use crate::word::{DIGEST, WORD, Word, put_digest, put_word};
use sqs_message::Receipt;

/// The greatest length of a field of up to three numbers with marks before them, one more mark and
/// a comma.
pub(crate) const NUMBERS: usize = 3 * NUMBER + 2;

/// A word that needs no quotes.
#[inline(always)]
#[tactic(auto, using(crate::proofs::Plain::field_plain))]
pub(crate) fn word_before(text: &mut [u8], end: usize, word: Word) -> usize
    requires plain { IsPlain word }
    requires room { WORD < end }
    requires within { end ≤ length text.old }
    ensures written { drop result text.new ≡ with_field (drop end text.old) word.entry }
    ensures most { end ≤ result + (WORD + 1) }
    ensures before { result < end }
{
    put_word(text, end, word)
}

/// No bytes.
#[inline(always)]
pub(crate) fn nothing_before(text: &mut [u8], end: usize) -> usize
    requires room { 0 < end }
    requires within { end ≤ length text.old }
    ensures written { drop result text.new ≡ with_field (drop end text.old) [] }
    ensures most { end ≤ result + 1 }
    ensures before { result < end }
{
    put_field(text, end, b"")
}

/// A number in decimal.
#[inline(always)]
pub(crate) fn number_before(text: &mut [u8], end: usize, number: u64) -> usize
    requires room { NUMBER ≤ end }
    requires within { end ≤ length text.old }
    ensures written { drop result text.new ≡ with_field (drop end text.old) (decimal number) }
    ensures most { end ≤ result + NUMBER }
    ensures before { result < end }
{
    put_before(text, end, b',', number)
}

/// A mark and two numbers, for example `m-0-12`.
#[inline(always)]
pub(crate) fn numbered_before(
    text: &mut [u8],
    end: usize,
    mark: u8,
    site: u32,
    number: u64,
) -> usize
    requires mark { needs_byte default_writer mark ≡ false }
    requires room { NUMBERS ≤ end }
    requires within { end ≤ length text.old }
    ensures written { drop result text.new
        ≡ with_field (drop end text.old)
        (mark ∷ (codes "-" ++ (decimal site ++ (codes "-" ++ decimal number)))) }
    ensures most { end ≤ result + NUMBERS }
    ensures before { result < end }
{
    let second = put_before(text, end, b'-', number);
    let first = put_before(text, second, b'-', u64::from(site));
    put_field(text, first, &[mark])
}

/// The numbers of a receipt with a dash before each, for example `-0-12-1`. It returns where they
/// begin, and where the last begins.
#[inline(always)]
pub(crate) fn dashed_before(text: &mut [u8], end: usize, receipt: Receipt) -> (usize, usize)
    requires room { NUMBERS ≤ end }
    requires within { end ≤ length text.old }
    ensures written { drop result.0 text.new
        ≡ dashed receipt.site receipt.number
        ++ (codes "-" ++ (decimal receipt.count ++ drop end text.old)) }
    ensures long { result.0 + length (dashed receipt.site receipt.number) ≡ result.1 }
    ensures most { end ≤ result.0 + 3 * NUMBER }
    ensures before { result.0 < end }
    ensures last { result.1 < end }
{
    let third = put_before(text, end, b'-', receipt.count);
    let second = put_before(text, third, b'-', receipt.number);
    let first = put_before(text, second, b'-', u64::from(receipt.site));
    (first, third)
}

/// A receipt handle, for example `r-0-12-1`.
#[inline(always)]
pub(crate) fn receipt_before(text: &mut [u8], end: usize, receipt: Receipt) -> usize
    requires room { NUMBERS ≤ end }
    requires within { end ≤ length text.old }
    ensures written { drop result text.new ≡ with_field (drop end text.old) (receipt_text receipt) }
    ensures most { end ≤ result + NUMBERS }
    ensures before { result < end }
{
    let (first, _) = dashed_before(text, end, receipt);
    put_field(text, first, b"r")
}

/// An MD5 digest, in lower-case hex.
#[inline(always)]
pub(crate) fn digest_before(text: &mut [u8], end: usize, md5: &[u8; 16]) -> usize
    requires room { DIGEST < end }
    requires within { end ≤ length text.old }
    ensures written { drop result text.new ≡ with_field (drop end text.old) (encode_lower md5.now) }
    ensures most { end ≤ result + (DIGEST + 1) }
    ensures before { result < end }
{
    put_digest(text, end, md5)
}

/// Two numbers in decimal with a slash between them, for example `1/4`.
pub(crate) fn pair_before(text: &mut [u8], end: usize, first: u64, second: u64) -> usize
    requires room { NUMBERS ≤ end }
    requires within { end ≤ length text.old }
    ensures written { drop result text.new
        ≡ with_field (drop end text.old) (decimal first ++ (codes "/" ++ decimal second)) }
    ensures most { end ≤ result + NUMBERS }
    ensures before { result < end }
{
    let second = put_before(text, end, b'/', second);
    put_before(text, second, b',', first)
}

/// Three numbers in decimal with slashes between them, for example `2/1/0`.
pub(crate) fn counts_before(
    text: &mut [u8],
    end: usize,
    first: u64,
    second: u64,
    third: u64,
) -> usize
    requires room { NUMBERS ≤ end }
    requires within { end ≤ length text.old }
    ensures written { drop result text.new
        ≡ with_field (drop end text.old)
        (decimal first ++ (codes "/" ++ (decimal second ++ (codes "/" ++ decimal third)))) }
    ensures most { end ≤ result + NUMBERS }
    ensures before { result < end }
{
    let third = put_before(text, end, b'/', third);
    let second = put_before(text, third, b'/', second);
    put_before(text, second, b',', first)
}
