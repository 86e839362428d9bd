//! The state at the end of a run: messages, transfers and tasks, each part under its header.
ghost use Rattle.std.specs.Prelude.{◌≡◌, ◌∷◌, ◌++◌, [], false, OnOk, map};
ghost use Rattle.std.specs.Fmt.{decimal};
ghost use Rattle.sqs_message.specs.Ids.{origin_text};
ghost use Rattle.sim_records.specs.Lines.{IsPlain, with_field};
ghost use Rattle.sqs_formats.specs.Rows.{line, lines, text_if};
ghost use Rattle.sqs_formats.specs.Finals.{finals_text, message_fields, message_header, place_text, status_text, task_fields, task_header, transfer_fields, transfer_header, transfer_kind_text};
ghost use Rattle.sim_records.specs.Writes.{Wrote, WroteSeveral};

use crate::columns::add_name;
use crate::line::Line;
use crate::lines::write_record;
use crate::names::Names;
use crate::record::{Record, write_records};
use crate::sink::Out;
use sim_clock::Refusal;
use sqs_message::{Origin, Place, Text};
use sqs_model::{FinalMessage, FinalTask, FinalTransfer, Finals, TransferKind};
use sqs_redrive::TaskStatus;
use std::alloc::{AllocError, Global};

// The name of a message's state.
fn place_name(place: Place) -> &'static str
    ensures name { result.now ≡ place_text place }
    ensures plain { IsPlain result.now }
{
    match place {
        Place::Delayed => "delayed",
        Place::Visible => "visible",
        Place::InFlight => "inflight",
    }
}

// The name of a kind of transfer.
fn transfer_kind_name(kind: TransferKind) -> &'static str
    ensures name { result.now ≡ transfer_kind_text kind }
    ensures plain { IsPlain result.now }
{
    match kind {
        TransferKind::Redrive => "redrive",
        TransferKind::Move => "move",
        TransferKind::Forward => "forward",
    }
}

// The name of a task's state.
fn status_name(status: TaskStatus) -> &'static str
    ensures name { result.now ≡ status_text status }
    ensures plain { IsPlain result.now }
{
    match status {
        TaskStatus::Idle => "Idle",
        TaskStatus::Running => "Running",
        TaskStatus::Completed => "Completed",
        TaskStatus::Cancelled => "Cancelled",
        TaskStatus::Failed => "Failed",
    }
}

// A number in decimal, if there is one.
fn add_number(line: &mut Line, number: Option<u64>) -> Result<(), AllocError>
    ensures { OnOk result (line.new ≡ with_field line.old (text_if decimal number)) }
{
    match number {
        Some(number) => line.number(number),
        None => line.plain(b""),
    }
}

// The text of an origin, if there is one.
fn add_origin(line: &mut Line, origin: Option<Origin>) -> Result<(), AllocError>
    ensures { OnOk result (line.new ≡ with_field line.old (text_if origin_text origin)) }
{
    match origin {
        Some(origin) => line.origin(origin),
        None => line.plain(b""),
    }
}

// A group, if there is one.
fn add_group(line: &mut Line, group: &Option<Text>) -> Result<(), AllocError>
    ensures { OnOk result (line.new ≡ with_field line.old (text_if (λ g. g) group.now)) }
{
    match group {
        Some(group) => line.bytes(group.as_bytes()),
        None => line.plain(b""),
    }
}

const MESSAGE_HEADER: &[&[u8]] = &[
    b"final",
    b"queue",
    b"message",
    b"origin",
    b"place",
    b"due",
    b"enqueued",
    b"receives",
    b"group",
    b"md5",
];

impl Record for FinalMessage {
    ghost use Rattle.sqs_formats.specs.Finals.{message_fields};

    ghost columns = { λ names message. message_fields names message };

    fn add_to(&self, line: &mut Line, names: &Names) -> Result<(), AllocError> {
        line.digest(&self.md5)?;
        add_group(line, &self.group)?;
        line.number(self.receives)?;
        line.number(self.enqueued)?;
        add_number(line, self.due)?;
        line.plain(place_name(self.place).as_bytes())?;
        line.origin(self.origin)?;
        line.id(self.id)?;
        add_name(line, names, self.id.site)?;
        line.plain(b"final")
    }

    fn add_whole(&self, _: &mut Line, _: &Names) -> Result<bool, AllocError> {
        Ok(false)
    }
}

const TRANSFER_HEADER: &[&[u8]] = &[
    b"transfer",
    b"from",
    b"to",
    b"kind",
    b"due",
    b"number",
    b"message",
    b"origin",
    b"md5",
];

impl Record for FinalTransfer {
    ghost use Rattle.sqs_formats.specs.Finals.{transfer_fields};

    ghost columns = { λ names transfer. transfer_fields names transfer };

    fn add_to(&self, line: &mut Line, names: &Names) -> Result<(), AllocError> {
        line.digest(&self.md5)?;
        add_origin(line, self.origin)?;
        line.id(self.message)?;
        line.number(self.number)?;
        line.number(self.due)?;
        line.plain(transfer_kind_name(self.kind).as_bytes())?;
        add_name(line, names, self.to)?;
        add_name(line, names, self.from)?;
        line.plain(b"transfer")
    }

    fn add_whole(&self, _: &mut Line, _: &Names) -> Result<bool, AllocError> {
        Ok(false)
    }
}

const TASK_HEADER: &[&[u8]] = &[b"task", b"name", b"status", b"moved"];

impl Record for FinalTask {
    ghost use Rattle.sqs_formats.specs.Finals.{task_fields};

    ghost columns = { λ names task. task_fields names task };

    fn add_to(&self, line: &mut Line, names: &Names) -> Result<(), AllocError> {
        line.number(self.moved)?;
        line.plain(status_name(self.status).as_bytes())?;
        add_name(line, names, self.task)?;
        line.plain(b"task")
    }

    fn add_whole(&self, _: &mut Line, _: &Names) -> Result<bool, AllocError> {
        Ok(false)
    }
}

// Writes a header, and the lines of records under it.
fn write_part<W: Out, T: Record>(
    alloc: Global,
    out: &mut W,
    header: &[&[u8]],
    records: &[T],
    names: &Names,
) -> Result<(), Refusal>
    requires { (W.state out.old).failed ≡ false }
    ensures { WroteSeveral (W.state out.old) (W.state out.new)
        (lines (map (λ f. f.now) header.now ∷ map (T.columns names.now) records.now)) result }
{
    write_record(alloc, out, header)?;
    write_records(alloc, out, records, names)
}

/// Writes the header of the messages that are left at the end of a run. Their lines follow it, by
/// `write_messages`.
///
/// # Errors
///
/// `Memory` if a growth is refused: nothing is written. `Write` if the writer fails: a prefix of the
/// line is written.
pub fn write_message_header<W: Out>(alloc: Global, out: &mut W) -> Result<(), Refusal>
    requires { (W.state out.old).failed ≡ false }
    ensures { Wrote (W.state out.old) (W.state out.new) (line message_header)
        result }
{
    write_record(alloc, out, MESSAGE_HEADER)
}

/// Writes the lines of messages that are left at the end of a run, in order.
///
/// # Errors
///
/// `Memory` if a growth is refused, `Write` if the writer fails. A prefix of the lines is then
/// written.
pub fn write_messages<W: Out>(
    alloc: Global,
    out: &mut W,
    messages: &[FinalMessage],
    names: &Names,
) -> Result<(), Refusal>
    requires { (W.state out.old).failed ≡ false }
    ensures { WroteSeveral (W.state out.old) (W.state out.new)
        (lines (map (message_fields names.now) messages.now)) result }
{
    write_records(alloc, out, messages, names)
}

/// Writes the transfers that are left at the end of a run, and then the tasks, each part under its
/// header.
///
/// # Errors
///
/// `Memory` if a growth is refused, `Write` if the writer fails. A prefix of the lines is then
/// written.
pub fn write_transfers_and_tasks<W: Out>(
    alloc: Global,
    out: &mut W,
    transfers: &[FinalTransfer],
    tasks: &[FinalTask],
    names: &Names,
) -> Result<(), Refusal>
    requires { (W.state out.old).failed ≡ false }
    ensures { WroteSeveral (W.state out.old) (W.state out.new)
        (lines ((transfer_header ∷ map (transfer_fields names.now) transfers.now)
        ++ (task_header ∷ map (task_fields names.now) tasks.now))) result }
{
    write_part(alloc, out, TRANSFER_HEADER, transfers, names)?;
    write_part(alloc, out, TASK_HEADER, tasks, names)
}

/// Writes the state at the end of a run: the messages, the transfers and the tasks, each part under
/// its header.
///
/// # Errors
///
/// `Memory` if a growth is refused, `Write` if the writer fails. A prefix of the lines is then
/// written.
pub fn write_finals<W: Out>(
    alloc: Global,
    out: &mut W,
    finals: &Finals,
    names: &Names,
) -> Result<(), Refusal>
    requires { (W.state out.old).failed ≡ false }
    ensures { WroteSeveral (W.state out.old) (W.state out.new)
        (finals_text names.now finals.now) result }
{
    let messages = finals.messages.as_slice();
    write_part(alloc, out, MESSAGE_HEADER, messages, names)?;
    let transfers = finals.transfers.as_slice();
    let tasks = finals.tasks.as_slice();
    write_transfers_and_tasks(alloc, out, transfers, tasks, names)
}
