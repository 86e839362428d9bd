//! The fields of a line, and the row that they give. No contract says which one it is: a row is
//! printed again, and counts only if it is the same line.
use crate::answers::{answer_named, kind_named};
use crate::columns::{Columns, ReceiptForm};
use crate::lines::has_quote;
use crate::parts::{Numbers, agent, detail, message, number, receipt};
use csv::{ErrorKind, ReaderBuilder, StringRecord};
use sim_clock::{Class, Key};
use sqs_message::{Row, RowReceipt};
use std::alloc::{AllocError, Global};
use std::str;

// The fields of a row, by their names.
#[derive(Drop)]
struct Fields<'a> {
    at: &'a str,
    queue: &'a str,
    agent: &'a str,
    call: &'a str,
    answer: &'a str,
    message: &'a str,
    receipt: &'a str,
    detail: &'a str,
}

// The number of commas between the fields of a row.
const COMMAS: usize = 7;

// The places of the commas between the fields of a line without quotes, if there are so many.
fn commas(line: &str) -> Option<[usize; COMMAS]> {
    let mut places = [0; COMMAS];
    let mut found = 0;
    for (place, byte) in line.as_bytes().iter().enumerate() {
        if *byte == b',' && found < COMMAS {
            places[found] = place;
            found += 1;
        }
        if found >= COMMAS {
            return Some(places);
        }
    }
    None
}

// What stands between two commas of a line, or behind the last one.
#[inline(always)]
fn between(line: &str, comma: usize, end: usize) -> Option<&str> {
    line.get(comma.wrapping_add(1)..end)
}

// The fields of a line without quotes.
fn split(line: &str) -> Option<Fields<'_>> {
    let [first, second, third, fourth, fifth, sixth, last] = commas(line)?;
    Some(Fields {
        at: line.get(..first)?,
        queue: between(line, first, second)?,
        agent: between(line, second, third)?,
        call: between(line, third, fourth)?,
        answer: between(line, fourth, fifth)?,
        message: between(line, fifth, sixth)?,
        receipt: between(line, sixth, last)?,
        detail: between(line, last, line.len())?,
    })
}

// The fields of a record.
fn fields_of(record: &StringRecord) -> Option<Fields<'_>> {
    Some(Fields {
        at: record.get(0)?,
        queue: record.get(1)?,
        agent: record.get(2)?,
        call: record.get(3)?,
        answer: record.get(4)?,
        message: record.get(5)?,
        receipt: record.get(6)?,
        detail: record.get(7)?,
    })
}

// The record of a line with quotes. A slice is read without an error of its own.
fn record_of(alloc: Global, line: &str) -> Result<StringRecord, AllocError> {
    let mut record = StringRecord::new(alloc);
    let mut reader = ReaderBuilder::new()
        .has_headers(false)
        .from_reader(alloc, line.as_bytes());
    match reader.read_record(&mut record) {
        Ok(_) => Ok(record),
        Err(error) => match error.into_kind() {
            ErrorKind::OutOfMemory | ErrorKind::Io(_) => Err(AllocError),
            _ => Ok(StringRecord::new(alloc)),
        },
    }
}

// The row of some fields but for its receipt, and the form of that.
fn without_receipt(fields: &Fields<'_>, numbers: &Numbers) -> Option<(Row, ReceiptForm)> {
    let kind = kind_named(fields.call)?;
    let answer = answer_named(fields.answer)?;
    let columns = Columns::by(kind, answer)?;
    let agent_number = agent(numbers, fields.agent)?;
    let row = Row {
        key: Key {
            at: number(fields.at)?,
            agent: agent_number,
            class: Class::Wake,
            number: 0,
        },
        queue: agent(numbers, fields.queue)?,
        agent: agent_number,
        kind,
        answer,
        message: message(columns.message, fields.message)?,
        receipt: RowReceipt::Absent,
        detail: detail(columns.detail, fields.detail, numbers)?,
    };
    Some((row, columns.receipt))
}

// The row of some fields.
fn row_of_fields(
    alloc: Global,
    fields: &Fields<'_>,
    numbers: &Numbers,
) -> Result<Option<Row>, AllocError> {
    let Some((mut row, form)) = without_receipt(fields, numbers) else {
        return Ok(None);
    };
    let Some(receipt) = receipt(alloc, form, fields.receipt)? else {
        return Ok(None);
    };
    row.receipt = receipt;
    Ok(Some(row))
}

// The row that the fields of a line with quotes give, if they give one. It is a call of its own,
// since it is rare and takes much of the stack.
#[cold]
#[inline(never)]
fn quoted_row(alloc: Global, line: &str, numbers: &Numbers) -> Result<Option<Row>, AllocError> {
    let record = record_of(alloc, line)?;
    match fields_of(&record) {
        Some(fields) => row_of_fields(alloc, &fields, numbers),
        None => Ok(None),
    }
}

/// The row that the fields of a line give, if they give one.
pub(crate) fn row_of(
    alloc: Global,
    line: &[u8],
    numbers: &Numbers,
) -> Result<Option<Row>, AllocError> {
    let Ok(text) = str::from_utf8(line) else {
        return Ok(None);
    };
    if has_quote(line) {
        return quoted_row(alloc, text, numbers);
    }
    match split(text.strip_suffix('\n').unwrap_or(text)) {
        Some(fields) => row_of_fields(alloc, &fields, numbers),
        None => Ok(None),
    }
}
