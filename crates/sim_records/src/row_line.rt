//! The line of a row none of whose fields needs quotes, put at once before the text in a buffer.
ghost use Rattle.std.specs.Prelude.{◌≡◌, ◌≤◌, ◌<◌, ◌+◌, ◌*◌, ◌++◌, ◌∷◌, [], IfSome, MatchOption, Some, true, drop, length};
ghost use Rattle.std.specs.Fmt.{decimal};
ghost use Rattle.sim_records.specs.Lines.{IsPlain, with_field, with_fields};
ghost use Rattle.sqs_formats.specs.Rows.{detail_text, kind_text, line, row_fields, row_receipt, text_if};
ghost use Rattle.sqs_message.specs.Ids.{id_text, receipt_text};

use crate::before::{NUMBER, put_field};
use crate::columns::{answer_word, kind_word};
use crate::fields::{
    NUMBERS, counts_before, dashed_before, digest_before, nothing_before, number_before,
    numbered_before, word_before,
};
use crate::names::Names;
use crate::word::{WORD, Word, put_again};
use itoa::write_digits;
use sqs_message::{Detail, HandleForm, MessageId, Receipt, Row, RowReceipt};

/// The greatest length of the line of a row without quotes: its end, four words, three fields of
/// numbers, and the moment.
pub(crate) const ROW: usize = 1 + 4 * (WORD + 1) + 3 * NUMBERS + NUMBER;

// The receipt of the receipt column, if there is one; none if the column has another text.
#[inline(always)]
fn plain_receipt(receipt: &RowReceipt) -> Option<Option<Receipt>>
    ensures { IfSome result (λ r. text_if receipt_text r ≡ row_receipt receipt.now) }
{
    match receipt {
        RowReceipt::Absent => Some(None),
        RowReceipt::Made(receipt) => Some(Some(*receipt)),
        RowReceipt::Given(handle) => match handle.form() {
            HandleForm::Made(receipt) => Some(Some(*receipt)),
            HandleForm::Text(_) => None,
        },
    }
}

// The detail column. It returns where the column begins; none, and no change, if it is a name that
// is not kept as a word, or numbers of copies, which are rare.
#[inline(always)]
fn put_detail(text: &mut [u8], end: usize, detail: &Detail, names: &Names) -> Option<usize>
    requires room { NUMBERS ≤ end }
    requires within { end ≤ length text.old }
    ensures written { MatchOption result (text.new ≡ text.old)
        (λ start. drop start text.new
        ≡ with_field (drop end text.old) (detail_text names.now detail.now)) }
    ensures most { IfSome result (λ start. end ≤ start + NUMBERS) }
    ensures before { IfSome result (λ start. start < end) }
{
    match detail {
        Detail::Absent => Some(nothing_before(text, end)),
        Detail::Digest(md5) => Some(digest_before(text, end, md5)),
        Detail::From(origin) => Some(numbered_before(text, end, b'o', origin.site, origin.number)),
        Detail::Age(number) | Detail::Timeout(number) | Detail::Moved(number) => {
            Some(number_before(text, end, *number))
        }
        Detail::Queue(number) | Detail::Task(number) => {
            let word = names.word(*number)?;
            Some(word_before(text, end, word))
        }
        Detail::Copies { .. } => None,
        Detail::Counts {
            visible,
            in_flight,
            delayed,
        } => Some(counts_before(text, end, *visible, *in_flight, *delayed)),
    }
}

// The message column.
#[inline(always)]
fn put_message(text: &mut [u8], end: usize, message: Option<MessageId>) -> usize
    requires room { NUMBERS ≤ end }
    requires within { end ≤ length text.old }
    ensures written { drop result text.new
        ≡ with_field (drop end text.old) (text_if id_text message) }
    ensures most { end ≤ result + NUMBERS }
    ensures before { result < end }
{
    match message {
        Some(id) => numbered_before(text, end, b'm', id.site, id.number),
        None => nothing_before(text, end),
    }
}

// Whether a message is the one that a receipt names.
fn is_named(message: Option<MessageId>, receipt: Receipt) -> bool
    ensures { result ≡ true
        → message ≡ Some (record { site = receipt.site; number = receipt.number }) }
{
    match message {
        Some(id) => id.site == receipt.site && id.number == receipt.number,
        None => false,
    }
}

// The message column and the receipt column. Nearly always both have the same numbers, which are
// then copied.
#[inline(always)]
fn put_received(text: &mut [u8], end: usize, message: Option<MessageId>, receipt: Receipt) -> usize
    requires room { 2 * NUMBERS ≤ end }
    requires within { end ≤ length text.old }
    ensures written { drop result text.new
        ≡ with_field (with_field (drop end text.old) (receipt_text receipt))
        (text_if id_text message) }
    ensures most { end ≤ result + 2 * NUMBERS }
    ensures before { result < end }
{
    let (first, counted) = dashed_before(text, end, receipt);
    let received = put_field(text, first, b"r");
    if is_named(message, receipt) && counted - first <= WORD {
        let numbered = put_again(text, received, first, counted - first);
        return put_field(text, numbered, b"m");
    }
    put_message(text, received, message)
}

// The message column, and the receipt column if there is a receipt.
#[inline(always)]
fn put_ids(
    text: &mut [u8],
    end: usize,
    message: Option<MessageId>,
    receipt: Option<Receipt>,
) -> usize
    requires room { 2 * NUMBERS ≤ end }
    requires within { end ≤ length text.old }
    ensures written { drop result text.new
        ≡ with_field (with_field (drop end text.old) (text_if receipt_text receipt))
        (text_if id_text message) }
    ensures most { end ≤ result + 2 * NUMBERS }
    ensures before { result < end }
{
    match receipt {
        Some(receipt) => put_received(text, end, message, receipt),
        None => {
            let received = nothing_before(text, end);
            put_message(text, received, message)
        }
    }
}

// The columns from the moment to the answer, without a comma before the first.
#[inline(always)]
fn put_call(text: &mut [u8], end: usize, row: &Row, queue: Word, agent: Word, answer: Word) -> usize
    requires plain { IsPlain queue × IsPlain agent × IsPlain answer }
    requires room { 4 * (WORD + 1) + NUMBER ≤ end }
    requires within { end ≤ length text.old }
    ensures written { drop result text.new
        ≡ decimal row.now.key.at ++ with_fields (drop end text.old)
        (queue.entry ∷ agent.entry ∷ kind_text row.now.kind ∷ answer.entry ∷ []) }
    ensures at { IsPlain (decimal row.now.key.at) }
    ensures before { result < end }
{
    let answered = word_before(text, end, answer);
    let called = word_before(text, answered, kind_word(row.kind));
    let acted = word_before(text, called, agent);
    let queued = word_before(text, acted, queue);
    write_digits(row.key.at, text, queued)
}

/// Puts the line of a row before the text that begins at `end`. It returns where the line begins;
/// none if a field may need quotes: the text that begins at `end` is as it was then.
#[inline(always)]
pub(crate) fn put_row(text: &mut [u8], end: usize, row: &Row, names: &Names) -> Option<usize>
    requires room { ROW ≤ end }
    requires within { end ≤ length text.old }
    ensures written { MatchOption result (drop end text.new ≡ drop end text.old)
        (λ start. drop start text.new ≡ line (row_fields names.now row.now) ++ drop end text.old) }
    ensures before { IfSome result (λ start. start < end) }
{
    let Some(queue) = names.word(row.queue) else {
        return None;
    };
    let Some(agent) = names.word(row.agent) else {
        return None;
    };
    let Ok(answer) = answer_word(row.answer) else {
        return None;
    };
    let Some(receipt) = plain_receipt(&row.receipt) else {
        return None;
    };
    text[end - 1] = b'\n';
    let Some(detailed) = put_detail(text, end - 1, &row.detail, names) else {
        return None;
    };
    let named = put_ids(text, detailed, row.message, receipt);
    Some(put_call(text, named, row, queue, agent, answer))
}
