//! The records of a script: each states one call.
ghost use Rattle.std.specs.Prelude.{◌≡◌, [], false, map, IfOk, get_or, nat_le};
ghost use Rattle.std.specs.List.{list_all};
ghost use Rattle.csv.specs.Records.{fields_of};
ghost use Rattle.sqs_formats.specs.Script.{digits_value, is_number, is_number_from, only_if, call_in, call_of, change_call, delete_call, given, header, is_body, is_printed, is_token, may, number, receive_call, same_fields, send_call, task_named};
ghost use Rattle.sqs_message.specs.declared.calls.Call.TheVariants.{Cancel, Start};
ghost use Rattle.sim_script.specs.ScriptGives.{called_task, fields_at, is_grouped, is_receive, is_send, record_view, task_call_in};

use csv::ByteRecord;
use sqs_formats::Home;
use sqs_message::{Call, ScriptCall, Text};
use std::alloc::{AllocError, Global};

/// The fields of a record, by their names.
#[derive(Drop)]
pub(crate) struct Record<'a> {
    at: &'a [u8],
    call: &'a [u8],
    body: &'a [u8],
    group: &'a [u8],
    id: &'a [u8],
    delay: &'a [u8],
    receipt: &'a [u8],
    max: &'a [u8],
    wait: &'a [u8],
    timeout: &'a [u8],
    task: &'a [u8],
}

/// A field of a row, or none.
fn field(row: &ByteRecord, place: usize) -> &[u8]
    ensures { result.now ≡ get_or (fields_of row.now) place [] }
{
    match row.get(place) {
        Some(field) => field,
        None => &[],
    }
}

/// The fields of a row, if it has eleven.
fn record_of(row: &ByteRecord) -> Record<'_>
    ensures { record_view result ≡ fields_at (fields_of row.now) }
{
    Record {
        at: field(row, 0),
        call: field(row, 1),
        body: field(row, 2),
        group: field(row, 3),
        id: field(row, 4),
        delay: field(row, 5),
        receipt: field(row, 6),
        max: field(row, 7),
        wait: field(row, 8),
        timeout: field(row, 9),
        task: field(row, 10),
    }
}

/// The value of some digits, if it has at most 32 bits.
fn digits_value(field: &[u8]) -> Option<u64>
    ensures { result
        ≡ only_if (nat_le (digits_value field.now) 4294967295) (digits_value field.now) }
{
    let mut value: u64 = 0;
    for byte in field {
        value = 10 * value + byte.saturating_sub(48) as u64;
        if value > 4_294_967_295 {
            return None;
        }
    }
    Some(value)
}

/// The number in a field, in decimal without a leading zero.
fn number(alloc: Global, field: &[u8]) -> Result<Option<u64>, AllocError>
    ensures { IfOk result (λ n. n ≡ number field.now) }
{
    match digits_value(field) {
        None => Ok(None),
        Some(value) => {
            let text = format!(in alloc; "{value}")?;
            if text.as_bytes() == field {
                Ok(Some(value))
            } else {
                Ok(None)
            }
        }
    }
}

/// Whether a field is empty, or a number.
fn may_be_number(field: &[u8], value: Option<u64>) -> bool
    requires { value ≡ number field.now }
    ensures { result ≡ may is_number field.now }
{
    field.is_empty() || value.is_some()
}

/// Whether a field is empty, or a number from `low` to `high`.
fn may_be_within(field: &[u8], value: Option<u64>, low: u64, high: u64) -> bool
    requires { value ≡ number field.now }
    ensures { result ≡ may (is_number_from low high) field.now }
{
    if field.is_empty() {
        return true;
    }
    match value {
        None => false,
        Some(n) => low <= n && n <= high,
    }
}

/// Whether all bytes are printable ASCII and no spaces.
fn are_printed(bytes: &[u8]) -> bool
    ensures { result ≡ list_all is_printed bytes.now }
{
    bytes.iter().all(|byte| 33 <= *byte && *byte <= 126)
}

/// Whether a field is an id, a group or a receipt.
pub fn is_token(most: usize, field: &[u8]) -> bool
    ensures { result ≡ is_token most field.now }
{
    let length = field.len();
    1 <= length && length <= most && are_printed(field)
}

/// Whether a field is empty, or an id or a group.
fn may_be_token(field: &[u8]) -> bool
    ensures { result ≡ may (is_token 128) field.now }
{
    field.is_empty() || is_token(128, field)
}

/// Whether a field is a body.
fn is_body(field: &[u8]) -> bool
    ensures { result ≡ is_body field.now }
{
    let length = field.len();
    1 <= length && length <= 1024
}

/// Whether fields are empty.
fn are_empty(fields: &[&[u8]]) -> bool
    ensures { result ≡ list_all (λ f. may (λ s. false) f.now) fields.now }
{
    fields.iter().all(|field| field.is_empty())
}

/// A field as a text.
fn text(alloc: Global, field: &[u8]) -> Result<Text, AllocError>
    ensures { IfOk result (λ t. t ≡ field.now) }
{
    Ok(Text::new(field.to_vec(alloc)?))
}

/// A field as a text, unless it is empty.
fn given(alloc: Global, field: &[u8]) -> Result<Option<Text>, AllocError>
    ensures { IfOk result (λ t. t ≡ given field.now) }
{
    if field.is_empty() {
        return Ok(None);
    }
    let text = text(alloc, field)?;
    Ok(Some(text))
}

/// Whether the group and the id of a send are allowed at its queue.
fn is_grouped(home: &Home, row: &Record<'_>) -> bool
    ensures { result ≡ is_grouped home.now (record_view row.now) }
{
    if home.is_fifo {
        may_be_token(row.group) && may_be_token(row.id)
    } else {
        are_empty(&[row.group, row.id])
    }
}

/// Whether the fields of a send are allowed.
fn is_send(home: &Home, row: &Record<'_>, delay: Option<u64>) -> bool
    requires { delay ≡ number row.now.delay.now }
    ensures { result ≡ is_send home.now (record_view row.now) }
{
    let others = [row.receipt, row.max, row.wait, row.timeout, row.task];
    is_body(row.body)
        && may_be_number(row.delay, delay)
        && are_empty(&others)
        && is_grouped(home, row)
}

/// The send that a record states.
fn send(alloc: Global, home: &Home, row: &Record<'_>) -> Result<Option<Call>, AllocError>
    ensures { IfOk result (λ c. c ≡ send_call home.now (record_view row.now)) }
{
    let delay = number(alloc, row.delay)?;
    if !is_send(home, row, delay) {
        return Ok(None);
    }
    let body = text(alloc, row.body)?;
    let group = given(alloc, row.group)?;
    let id = given(alloc, row.id)?;
    Ok(Some(Call::Send {
        body,
        delay,
        group,
        id,
    }))
}

/// Whether the fields of a receive are allowed.
fn is_receive(row: &Record<'_>, max: Option<u64>, wait: Option<u64>, timeout: Option<u64>) -> bool
    requires max { max ≡ number row.now.max.now }
    requires wait { wait ≡ number row.now.wait.now }
    requires timeout { timeout ≡ number row.now.timeout.now }
    ensures { result ≡ is_receive (record_view row.now) }
{
    let others = [
        row.body,
        row.group,
        row.id,
        row.delay,
        row.receipt,
        row.task,
    ];
    may_be_within(row.max, max, 1, 10)
        && may_be_within(row.wait, wait, 0, 20)
        && may_be_number(row.timeout, timeout)
        && are_empty(&others)
}

/// The receive that a record states.
fn receive(alloc: Global, row: &Record<'_>) -> Result<Option<Call>, AllocError>
    ensures { IfOk result (λ c. c ≡ receive_call (record_view row.now)) }
{
    let max = number(alloc, row.max)?;
    let wait = number(alloc, row.wait)?;
    let timeout = number(alloc, row.timeout)?;
    if !is_receive(row, max, wait, timeout) {
        return Ok(None);
    }
    Ok(Some(Call::Receive {
        max: max.unwrap_or(1),
        wait: wait.unwrap_or(0),
        timeout,
    }))
}

/// The delete that a record states.
fn delete(alloc: Global, row: &Record<'_>) -> Result<Option<Call>, AllocError>
    ensures { IfOk result (λ c. c ≡ delete_call (record_view row.now)) }
{
    let others = [
        row.body,
        row.group,
        row.id,
        row.delay,
        row.max,
        row.wait,
        row.timeout,
        row.task,
    ];
    if is_token(100, row.receipt) && are_empty(&others) {
        let receipt = text(alloc, row.receipt)?;
        return Ok(Some(Call::Delete { receipt }));
    }
    Ok(None)
}

/// The change of visibility that a record states.
fn change(alloc: Global, row: &Record<'_>) -> Result<Option<Call>, AllocError>
    ensures { IfOk result (λ c. c ≡ change_call (record_view row.now)) }
{
    let others = [
        row.body, row.group, row.id, row.delay, row.max, row.wait, row.task,
    ];
    match number(alloc, row.timeout)? {
        None => Ok(None),
        Some(timeout) => {
            if is_token(100, row.receipt) && are_empty(&others) {
                let receipt = text(alloc, row.receipt)?;
                return Ok(Some(Call::Change { receipt, timeout }));
            }
            Ok(None)
        }
    }
}

/// The number of the task with a name.
fn task_named(home: &Home, name: &[u8]) -> Option<u32>
    ensures { result ≡ task_named home.now name.now }
{
    match home
        .tasks
        .as_slice()
        .iter()
        .find(|task| task.name.as_bytes() == name)
    {
        None => None,
        Some(task) => Some(task.number),
    }
}

/// The task that a start or a cancel names.
fn named_task(home: &Home, row: &Record<'_>) -> Option<u32>
    ensures { result ≡ called_task home.now (record_view row.now) }
{
    let others = [
        row.body,
        row.group,
        row.id,
        row.delay,
        row.receipt,
        row.max,
        row.wait,
        row.timeout,
    ];
    if row.task.is_empty() || !are_empty(&others) {
        return None;
    }
    task_named(home, row.task)
}

/// The call of a task that a record states.
fn task_call_of(home: &Home, row: &Record<'_>) -> Option<Call>
    ensures { result ≡ task_call_in home.now (record_view row.now) }
{
    if row.call == b"start".as_slice() {
        return named_task(home, row).map(|task| Call::Start { task });
    }
    if row.call == b"cancel".as_slice() {
        return named_task(home, row).map(|task| Call::Cancel { task });
    }
    None
}

/// The call that a record states.
fn call(alloc: Global, home: &Home, row: &Record<'_>) -> Result<Option<Call>, AllocError>
    ensures { IfOk result (λ c. c ≡ call_in home.now (record_view row.now)) }
{
    if row.call == b"send".as_slice() {
        return send(alloc, home, row);
    }
    if row.call == b"receive".as_slice() {
        return receive(alloc, row);
    }
    if row.call == b"delete".as_slice() {
        return delete(alloc, row);
    }
    if row.call == b"change".as_slice() {
        return change(alloc, row);
    }
    Ok(task_call_of(home, row))
}

/// The call that a row states, with its time.
pub(crate) fn script_call(
    alloc: Global,
    home: &Home,
    row: &ByteRecord,
) -> Result<Option<ScriptCall>, AllocError>
    ensures { IfOk result (λ c. c ≡ call_of home.now (fields_of row.now)) }
{
    if row.len() != 11 {
        return Ok(None);
    }
    let fields = record_of(row);
    let at = match number(alloc, fields.at)? {
        None => return Ok(None),
        Some(at) => at,
    };
    match call(alloc, home, &fields)? {
        None => Ok(None),
        Some(call) => Ok(Some(ScriptCall { at, call })),
    }
}

/// Whether a row has these fields.
fn has_fields(row: &ByteRecord, names: &[&[u8]]) -> bool
    ensures { result ≡ same_fields (fields_of row.now) (map (λ n. n.now) names.now) }
{
    if row.len() != names.len() {
        return false;
    }
    for i in 0..names.len() {
        if field(row, i) != names[i] {
            return false;
        }
    }
    true
}

/// Whether a row is the header of a script.
pub(crate) fn is_header(row: &ByteRecord) -> bool
    ensures { result ≡ same_fields (fields_of row.now) header }
{
    let names: [&[u8]; 11] = [
        b"at", b"call", b"body", b"group", b"id", b"delay", b"receipt", b"max", b"wait",
        b"timeout", b"task",
    ];
    has_fields(row, &names)
}
