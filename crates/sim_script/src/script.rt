//! The reader of a script: from a text in CSV it makes the calls of its records, or returns the
//! first fault.
ghost use Rattle.std.specs.Prelude.{◌≡◌, ◌≤◌, ◌+◌, ◌*◌, IfOk, length, map};
ghost use Rattle.std.specs.Str.{is_utf8};
ghost use Rattle.sqs_formats.specs.Script.{after_header, call_at, call_of, calls_from, calls_of, script, waits};
ghost use Rattle.sim_script.specs.declared.script.ScriptError.TheVariants as errors;
ghost use Rattle.csv.specs.Reading.{default_config, records, strip_bom};
ghost use Rattle.csv.specs.Records.{fields_of};
ghost use Rattle.sim_script.specs.ScriptGives.{Gives};

use crate::records::{is_header, script_call};
use csv::{ByteRecord, ErrorKind, ReaderBuilder};
use sim_clock::Refusal;
use sqs_formats::{Home, ScriptFault};
use sqs_message::{Call, ScriptCall};
use std::alloc::{AllocError, AllocFailed, Global};

/// Why a script could not be read.
#[derive(Drop)]
pub enum ScriptError {
    /// A growth was refused.
    Memory,
    /// The first fault of the text.
    Fault(ScriptFault),
}

impl From<AllocError> for ScriptError {
    ghost from_gives = { λ _ e. e ≡ errors.Memory };

    fn from(_refused: AllocError) -> Self {
        ScriptError::Memory
    }
}

impl<T: Drop> From<AllocFailed<T>> for ScriptError {
    ghost from_gives = { λ _ e. e ≡ errors.Memory };

    fn from(_refused: AllocFailed<T>) -> Self {
        ScriptError::Memory
    }
}

/// Every record of a text, without a byte order mark and with no row taken for a header. Records
/// may have any number of fields, and bytes need not be text. A slice is read without an error of
/// its own. So only memory can fail.
fn all_rows(alloc: Global, text: &[u8]) -> Result<Vec<ByteRecord>, AllocError>
    ensures { IfOk result
        (λ v. map fields_of v.items ≡ records default_config (strip_bom text.now)) }
{
    let rdr = ReaderBuilder::new()
        .has_headers(false)
        .flexible(true)
        .from_reader(alloc, text);
    let mut rows = Vec::new(alloc);
    for row in rdr.into_byte_records() {
        match row {
            Ok(row) => rows.push(row)?,
            Err(error) => match error.into_kind() {
                ErrorKind::OutOfMemory | ErrorKind::Io(_) => return Err(AllocError),
                _ => unreachable!(),
            },
        }
    }
    Ok(rows)
}

/// A fault at a record of a number, or of the whole script.
fn fault(refusal: Refusal, number: Option<u32>) -> ScriptError
    ensures { result ≡ errors.Fault (record { refusal = refusal; number = number }) }
{
    ScriptError::Fault(ScriptFault { refusal, number })
}

/// The call in a row, if its time is not too early.
fn next_call(
    alloc: Global,
    home: &Home,
    row: &ByteRecord,
    number: usize,
    free: u64,
) -> Result<ScriptCall, ScriptError>
    requires { number ≤ 200000 }
    ensures { Gives (λ c. c) result
        (call_at number free (call_of home.now (fields_of row.now))) }
{
    script_call(alloc, home, row)?
        .filter(|call| free <= call.at)
        .ok_or(fault(Refusal::BadScript, Some(number as u32)))
}

/// The earliest time of the call after this one.
fn free_after(call: &ScriptCall) -> u64
    requires at { call.now.at ≤ 4294967295 }
    requires most { waits call.now.call ≤ 4294967295 }
    ensures { result ≡ call.now.at + 1000 * waits call.now.call + 1 }
{
    let waits = match &call.call {
        Call::Receive { wait, .. } => *wait,
        _ => 0,
    };
    call.at + 1000 * waits + 1
}

/// The calls of the rows after the header.
fn calls(alloc: Global, home: &Home, rows: &[ByteRecord]) -> Result<Vec<ScriptCall>, ScriptError>
    requires { length rows.now ≤ 100001 }
    ensures { Gives (λ v. v.items) result (calls_from home.now 2 0 (map fields_of rows.now)) }
{
    let mut calls = Vec::new(alloc);
    let mut free = 0;
    for (i, row) in rows.iter().enumerate() {
        let call = next_call(alloc, home, row, i + 2, free)?;
        free = free_after(&call);
        calls.push(call)?;
    }
    Ok(calls)
}

/// The calls of the rows, the first of which is the header.
#[tactic(auto, unfolding(sqs_formats::specs::Reading::and_then))]
fn calls_after_header(
    alloc: Global,
    home: &Home,
    rows: &[ByteRecord],
) -> Result<Vec<ScriptCall>, ScriptError>
    requires { length rows.now ≤ 100001 }
    ensures { Gives (λ v. v.items) result (after_header home.now (map fields_of rows.now)) }
{
    match rows {
        [] => Err(fault(Refusal::BadScript, Some(1))),
        [names, rest @ ..] => {
            if !is_header(names) {
                return Err(fault(Refusal::BadScript, Some(1)));
            }
            calls(alloc, home, rest)
        }
    }
}

/// Whether bytes are text.
fn is_text(bytes: &[u8]) -> bool
    ensures { result ≡ is_utf8 bytes.now }
{
    match std::str::from_utf8(bytes) {
        Ok(_) => true,
        Err(_) => false,
    }
}

/// The calls of all rows of a text.
#[tactic(auto, unfolding(sqs_formats::specs::Reading::and_then))]
fn calls_of_rows(
    alloc: Global,
    home: &Home,
    text: &[u8],
    rows: &[ByteRecord],
) -> Result<Vec<ScriptCall>, ScriptError>
    ensures { Gives (λ v. v.items) result
        (calls_of home.now text.now (map fields_of rows.now)) }
{
    if rows.len() > 100_001 {
        return Err(fault(Refusal::TooMany, None));
    }
    if !is_text(text) {
        return Err(fault(Refusal::BadScript, None));
    }
    calls_after_header(alloc, home, rows)
}

/// The calls of a script's text, for the actor's queue.
///
/// # Errors
///
/// The first fault of the text. It is `TooMany` if the text has more than 16 MiB or 100,001
/// records. It is `BadScript` at the first record that states no call, or that states a call before
/// the previous one has ended. `Memory` if a growth is refused.
#[tactic(auto, unfolding(sqs_formats::specs::Script::script, sqs_formats::specs::Reading::and_then))]
pub fn read_script(alloc: Global, text: &[u8], home: &Home) -> Result<Vec<ScriptCall>, ScriptError>
    ensures { Gives (λ v. v.items) result (script home.now text.now) }
{
    if text.len() > 16_777_216 {
        return Err(fault(Refusal::TooMany, None));
    }
    let rows = all_rows(alloc, text)?;
    calls_of_rows(alloc, home, text, rows.as_slice())
}
