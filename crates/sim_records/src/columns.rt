//! The columns of a row of the log.
ghost use Rattle.std.specs.Prelude.{◌≡◌, ◌++◌, ◌∷◌, [], MatchResult, OnOk};
ghost use Rattle.sim_clock.specs.Refusals.{refusal_name};
ghost use Rattle.sim_records.specs.Lines.{IsPlain, with_field};
ghost use Rattle.sqs_formats.specs.Rows.{answer_text, detail_text, kind_text, name_at, row_receipt, text_if};
ghost use Rattle.sqs_message.specs.Ids.{id_text};

use crate::line::Line;
use crate::names::Names;
use crate::word::Word;
use sim_clock::Refusal;
use sqs_message::{Detail, HandleForm, MessageId, RowAnswer, RowKind, RowReceipt};
use std::alloc::AllocError;

// The name of a row's kind.
#[inline(always)]
pub(crate) fn kind_word(kind: RowKind) -> Word<'static>
    ensures name { result ≡ kind_text kind }
    ensures plain { IsPlain result }
{
    match kind {
        RowKind::Send => Word::new(b"            send", 4),
        RowKind::Receive => Word::new(b"         receive", 7),
        RowKind::Delete => Word::new(b"          delete", 6),
        RowKind::Change => Word::new(b"          change", 6),
        RowKind::Fail => Word::new(b"            fail", 4),
        RowKind::Forward => Word::new(b"         forward", 7),
        RowKind::Start => Word::new(b"           start", 5),
        RowKind::Cancel => Word::new(b"          cancel", 6),
        RowKind::Release => Word::new(b"         release", 7),
        RowKind::Redrive => Word::new(b"         redrive", 7),
        RowKind::Move => Word::new(b"            move", 4),
        RowKind::Arrive => Word::new(b"          arrive", 6),
        RowKind::Expire => Word::new(b"          expire", 6),
        RowKind::Task => Word::new(b"            task", 4),
        RowKind::Scale => Word::new(b"           scale", 5),
        RowKind::Sample => Word::new(b"          sample", 6),
    }
}

// The call column: the name of the row's kind.
#[inline(always)]
pub(crate) fn add_kind(line: &mut Line, kind: RowKind) -> Result<(), AllocError>
    ensures { OnOk result (line.new ≡ with_field line.old (kind_text kind)) }
{
    line.word(kind_word(kind))
}

// The name of an outcome. A refusal has a name of its own, which may be longer than a word.
#[inline(always)]
pub(crate) fn answer_word(answer: RowAnswer) -> Result<Word<'static>, Refusal>
    ensures { MatchResult result (λ w. (w ≡ answer_text answer) × IsPlain w)
        (λ r. refusal_name r ≡ answer_text answer) }
{
    let name = match answer {
        RowAnswer::New => Word::new(b"             new", 3),
        RowAnswer::Repeat => Word::new(b"          repeat", 6),
        RowAnswer::Ok => Word::new(b"              ok", 2),
        RowAnswer::Wait => Word::new(b"            wait", 4),
        RowAnswer::Empty => Word::new(b"           empty", 5),
        RowAnswer::Deleted => Word::new(b"         deleted", 7),
        RowAnswer::Kept => Word::new(b"            kept", 4),
        RowAnswer::Gone => Word::new(b"            gone", 4),
        RowAnswer::Out => Word::new(b"             out", 3),
        RowAnswer::Visible => Word::new(b"         visible", 7),
        RowAnswer::Expired => Word::new(b"         expired", 7),
        RowAnswer::Completed => Word::new(b"       Completed", 9),
        RowAnswer::Failed => Word::new(b"          Failed", 6),
        RowAnswer::Refused(refusal) => return Err(refusal),
    };
    Ok(name)
}

// The answer column: the name of the outcome.
pub(crate) fn add_answer(line: &mut Line, answer: RowAnswer) -> Result<(), AllocError>
    ensures { OnOk result (line.new ≡ with_field line.old (answer_text answer)) }
{
    match answer_word(answer) {
        Ok(word) => line.word(word),
        Err(refusal) => line.plain(refusal.name().as_bytes()),
    }
}

// The column of a name that is not kept as a word. It is apart from `add_name` because most names
// are kept as words.
#[inline(never)]
#[tactic(auto, using(crate::proofs::Plain::name_plain))]
fn add_other_name(line: &mut Line, names: &Names, number: u32) -> Result<(), AllocError>
    ensures { OnOk result (line.new ≡ with_field line.old (name_at names.now number)) }
{
    let name = names.name(number);
    if names.are_plain() {
        line.plain(name)
    } else {
        line.bytes(name)
    }
}

// The column of an agent's name; empty if no agent has the number.
#[inline(always)]
pub(crate) fn add_name(line: &mut Line, names: &Names, number: u32) -> Result<(), AllocError>
    ensures { OnOk result (line.new ≡ with_field line.old (name_at names.now number)) }
{
    match names.word(number) {
        Some(word) => line.word(word),
        None => add_other_name(line, names, number),
    }
}

// The message column: the message's id, if there is one.
pub(crate) fn add_message(line: &mut Line, message: Option<MessageId>) -> Result<(), AllocError>
    ensures { OnOk result (line.new ≡ with_field line.old (text_if id_text message)) }
{
    match message {
        Some(id) => line.id(id),
        None => line.plain(b""),
    }
}

// The receipt column: the receipt that was made, or the text that was given.
pub(crate) fn add_receipt(line: &mut Line, receipt: &RowReceipt) -> Result<(), AllocError>
    ensures { OnOk result (line.new ≡ with_field line.old (row_receipt receipt.now)) }
{
    match receipt {
        RowReceipt::Absent => line.plain(b""),
        RowReceipt::Made(receipt) => line.receipt(*receipt),
        RowReceipt::Given(handle) => match handle.form() {
            HandleForm::Made(receipt) => line.receipt(*receipt),
            HandleForm::Text(text) => line.bytes(text.as_bytes()),
        },
    }
}

// The detail column.
pub(crate) fn add_detail(line: &mut Line, detail: &Detail, names: &Names) -> Result<(), AllocError>
    ensures { OnOk result (line.new ≡ with_field line.old (detail_text names.now detail.now)) }
{
    match detail {
        Detail::Absent => line.plain(b""),
        Detail::Digest(md5) => line.digest(md5),
        Detail::From(origin) => line.origin(*origin),
        Detail::Age(number) | Detail::Timeout(number) | Detail::Moved(number) => {
            line.number(*number)
        }
        Detail::Queue(number) | Detail::Task(number) => add_name(line, names, *number),
        Detail::Copies { from, to } => line.pair(*from as u64, *to as u64),
        Detail::Counts {
            visible,
            in_flight,
            delayed,
        } => line.counts(*visible, *in_flight, *delayed),
    }
}
