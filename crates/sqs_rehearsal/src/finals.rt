//! The state of sites at the end of a run.
ghost use Rattle.std.specs.Prelude.{◌≡◌, ◌++◌, IfOk, OnOk, flat_map, map};
ghost use Rattle.std.specs.Ordering.{is_lt};
ghost use Rattle.sim_clock.specs.Order.{key_cmp};
ghost use Rattle.sqs_model.specs.Finals.{final_message, final_task, final_transfer, finals_of as the_finals_of, in_key_order, in_number_order, messages_at};
ghost use Rattle.sqs_model.specs.Queue.{Queue as TheQueue};
ghost use Rattle.sqs_rehearsal.specs.Left.{keyed, keyed_at, tasks_at};

use sim_clock::Key;
use sim_site::{Site, Task, Transfers};
use sqs_message::{Message, MessageId, Text};
use sqs_model::{
    FinalMessage, FinalMessages, FinalTask, FinalTasks, FinalTransfer, FinalTransfers, Finals,
    TransferKind,
};
use sqs_queue::Queue;
use sqs_redrive::{Load, Outbound};
use std::alloc::{AllocError, Global};
use std::cmp::Ordering;

// A message of a queue.
pub(crate) fn final_message(
    alloc: Global,
    site: u32,
    message: &Message,
) -> Result<FinalMessage, AllocError>
    ensures { (q : TheQueue) → q.site ≡ site → IfOk result (λ m. m ≡ final_message q message.now) }
{
    let group = Text::copy_of(alloc, message.group.as_ref())?;
    Ok(FinalMessage {
        id: MessageId {
            site,
            number: message.number,
        },
        origin: message.origin,
        place: message.place,
        due: message.release,
        enqueued: message.enqueued,
        receives: message.receives,
        group,
        md5: message.body.md5(),
    })
}

// Adds the messages of a queue.
fn add_messages(
    alloc: Global,
    messages: &mut Vec<FinalMessage>,
    queue: &Queue,
) -> Result<(), AllocError>
    ensures { OnOk result (messages.new.items
        ≡ messages.old.items ++ map (final_message queue.now) queue.now.records) }
{
    for message in queue.view() {
        messages.push(final_message(alloc, queue.site(), message)?)?;
    }
    Ok(())
}

// The messages of all queues, in order of arrival in each.
fn messages_of(alloc: Global, sites: &[Site]) -> Result<Vec<FinalMessage>, AllocError>
    ensures { IfOk result (λ m. m.items ≡ flat_map messages_at sites.now) }
{
    let mut messages = Vec::new(alloc);
    for site in sites {
        add_messages(alloc, &mut messages, site.queue())?;
    }
    Ok(messages)
}

// A transfer under way.
fn final_transfer(transfer: &Outbound) -> FinalTransfer
    ensures { result ≡ final_transfer transfer.now }
{
    let (kind, message, origin, body) = match &transfer.load {
        Load::Redrive {
            id,
            origin,
            body,
            ..
        } => (TransferKind::Redrive, *id, Some(*origin), body),
        Load::Move {
            id,
            origin,
            body,
            ..
        } => (TransferKind::Move, *id, Some(*origin), body),
        Load::Forward { id, body, .. } => (TransferKind::Forward, *id, None, body),
    };
    FinalTransfer {
        from: transfer.from,
        to: transfer.to,
        kind,
        due: transfer.at,
        number: transfer.number,
        message,
        origin,
        md5: body.md5(),
    }
}

// Adds transfers, each with its key.
fn add_transfers(
    list: &mut Vec<(Key, FinalTransfer)>,
    transfers: Transfers<'_>,
) -> Result<(), AllocError>
    ensures { OnOk result (list.new.items ≡ list.old.items ++ map keyed transfers.entry) }
{
    for transfer in transfers {
        list.push((transfer.key(), final_transfer(transfer)))?;
    }
    Ok(())
}

// The transfers under way to all sites, each with its key.
fn keyed_transfers(alloc: Global, sites: &[Site]) -> Result<Vec<(Key, FinalTransfer)>, AllocError>
    ensures { IfOk result (λ t. t.items ≡ flat_map keyed_at sites.now) }
{
    let mut transfers = Vec::new(alloc);
    for site in sites {
        add_transfers(&mut transfers, site.arriving())?;
    }
    Ok(transfers)
}

// The order of two keys.
fn order(first: Key, second: Key) -> Ordering
    ensures { is_lt result ≡ is_lt (key_cmp first second) }
{
    first.cmp(&second)
}

// Transfers without their keys.
fn without_keys(
    alloc: Global,
    keyed: Vec<(Key, FinalTransfer)>,
) -> Result<Vec<FinalTransfer>, AllocError>
    ensures { IfOk result (λ t. t.items ≡ map (λ p. p.1) keyed.items) }
{
    let mut transfers = Vec::with_capacity(alloc, keyed.len())?;
    for pair in keyed {
        transfers.push(pair.1)?;
    }
    Ok(transfers)
}

// The transfers under way to all sites, in the order of their keys.
pub(crate) fn transfers_of(alloc: Global, sites: &[Site]) -> Result<Vec<FinalTransfer>, AllocError>
    ensures { IfOk result
        (λ t. t.items ≡ map final_transfer (in_key_order (flat_map (λ s. s.arriving) sites.now))) }
{
    let mut keyed = keyed_transfers(alloc, sites)?;
    keyed.reverse();
    keyed.sort_by(|first, second| order(first.0, second.0))?;
    without_keys(alloc, keyed)
}

// A move task.
fn final_task(task: &Task) -> FinalTask
    ensures { result ≡ final_task task.now }
{
    FinalTask {
        task: task.number(),
        status: task.status(),
        moved: task.moved(),
    }
}

// Adds the move tasks of a site.
fn add_tasks(list: &mut Vec<FinalTask>, tasks: &[Task]) -> Result<(), AllocError>
    ensures { OnOk result (list.new.items ≡ list.old.items ++ map final_task tasks.now) }
{
    for task in tasks {
        list.push(final_task(task))?;
    }
    Ok(())
}

// The move tasks of all sites.
fn site_tasks(alloc: Global, sites: &[Site]) -> Result<Vec<FinalTask>, AllocError>
    ensures { IfOk result (λ t. t.items ≡ flat_map tasks_at sites.now) }
{
    let mut tasks = Vec::new(alloc);
    for site in sites {
        add_tasks(&mut tasks, site.tasks())?;
    }
    Ok(tasks)
}

// The move tasks of all sites, by number.
pub(crate) fn tasks_of(alloc: Global, sites: &[Site]) -> Result<Vec<FinalTask>, AllocError>
    ensures { IfOk result
        (λ t. t.items ≡ map final_task (in_number_order (flat_map (λ s. s.core.tasks) sites.now))) }
{
    let mut tasks = site_tasks(alloc, sites)?;
    tasks.reverse();
    tasks.sort_by_key(|task| task.task)?;
    Ok(tasks)
}

/// The state of a run's sites at its end: the messages of each queue, the transfers under way in
/// the order of their keys, and the move tasks by number.
///
/// # Errors
///
/// `AllocError` if a growth is refused.
#[tactic(auto, unfolding(sqs_model::specs::Finals::finals_of))]
pub fn finals_of(alloc: Global, sites: &[Site]) -> Result<Finals, AllocError>
    ensures { IfOk result (λ finals. finals ≡ the_finals_of sites.now) }
{
    let messages = messages_of(alloc, sites)?;
    let transfers = transfers_of(alloc, sites)?;
    let tasks = tasks_of(alloc, sites)?;
    Ok(Finals {
        messages: FinalMessages::new(messages),
        transfers: FinalTransfers::new(transfers),
        tasks: FinalTasks::new(tasks),
    })
}
