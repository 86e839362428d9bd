//! What the fields of a row have. No contract says what is read here: a row is printed again, and
//! counts only if it is the same line.
use crate::columns::{DetailForm, ReceiptForm};
use hex::FromHex;
use indexmap::IndexMap;
use sqs_message::{Detail, MessageId, Origin, Receipt, ReceiptHandle, RowReceipt, Text};
use std::alloc::{AllocError, Global};

/// The numbers of agents, by their names.
pub(crate) type Numbers = IndexMap<Vec<u8>, u32>;

/// The number of the agent with a name.
pub(crate) fn agent(numbers: &Numbers, name: &str) -> Option<u32> {
    numbers.get(name.as_bytes()).copied()
}

/// A number in decimal.
pub(crate) fn number(text: &str) -> Option<u64> {
    text.parse::<u64>().ok()
}

// The two numbers behind a mark: of a queue, and of a message in it.
fn numbers_after(mark: &str, text: &str) -> Option<(u32, u64)> {
    let (site, message) = text.strip_prefix(mark)?.split_once('-')?;
    Some((site.parse::<u32>().ok()?, number(message)?))
}

/// The message in its column, if there is to be one.
pub(crate) fn message(is_there: bool, text: &str) -> Option<Option<MessageId>> {
    if !is_there {
        return Some(None);
    }
    let (site, number) = numbers_after("m-", text)?;
    Some(Some(MessageId { site, number }))
}

// Two numbers with a slash between them.
fn copies(text: &str) -> Option<Detail> {
    let (from, to) = text.split_once('/')?;
    Some(Detail::Copies {
        from: from.parse::<u32>().ok()?,
        to: to.parse::<u32>().ok()?,
    })
}

// Three numbers with slashes between them.
fn counts(text: &str) -> Option<Detail> {
    let (visible, rest) = text.split_once('/')?;
    let (in_flight, delayed) = rest.split_once('/')?;
    Some(Detail::Counts {
        visible: number(visible)?,
        in_flight: number(in_flight)?,
        delayed: number(delayed)?,
    })
}

/// The detail in its column.
pub(crate) fn detail(form: DetailForm, text: &str, numbers: &Numbers) -> Option<Detail> {
    let detail = match form {
        DetailForm::Absent => Detail::Absent,
        DetailForm::Digest => Detail::Digest(<[u8; 16] as FromHex>::from_hex(text).ok()?),
        DetailForm::From => {
            let (site, number) = numbers_after("o-", text)?;
            Detail::From(Origin { site, number })
        }
        DetailForm::Age => Detail::Age(number(text)?),
        DetailForm::Timeout => Detail::Timeout(number(text)?),
        DetailForm::Queue => Detail::Queue(agent(numbers, text)?),
        DetailForm::Task => Detail::Task(agent(numbers, text)?),
        DetailForm::Moved => Detail::Moved(number(text)?),
        DetailForm::Copies => copies(text)?,
        DetailForm::Counts => counts(text)?,
    };
    Some(detail)
}

// The handle that a call gave.
fn handle(alloc: Global, text: &str) -> Result<ReceiptHandle, AllocError> {
    match Receipt::read(text) {
        Some(receipt) => Ok(ReceiptHandle::from(receipt)),
        None => {
            let bytes = text.as_bytes().to_vec(alloc)?;
            Ok(ReceiptHandle::from(Text::new(bytes)))
        }
    }
}

/// The receipt in its column.
pub(crate) fn receipt(
    alloc: Global,
    form: ReceiptForm,
    text: &str,
) -> Result<Option<RowReceipt>, AllocError> {
    let receipt = match form {
        ReceiptForm::Absent => RowReceipt::Absent,
        ReceiptForm::Made => match Receipt::read(text) {
            Some(receipt) => RowReceipt::Made(receipt),
            None => return Ok(None),
        },
        ReceiptForm::Given => RowReceipt::Given(handle(alloc, text)?),
    };
    Ok(Some(receipt))
}
