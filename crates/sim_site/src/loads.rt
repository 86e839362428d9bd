//! Loads of transfers.
ghost use Rattle.std.specs.Prelude.{◌≡◌, IfOk, Option, option_copied};

use sqs_message::Text;
use sqs_redrive::Load;
use std::alloc::{AllocError, Global};

// A load with the same values.
fn copied_load(alloc: Global, load: &Load) -> Result<Load, AllocError>
    ensures { IfOk result (λ copy. copy ≡ load.now) }
{
    Ok(match load {
        Load::Redrive {
            id,
            origin,
            body,
            group,
            enqueued,
        } => Load::Redrive {
            id: *id,
            origin: *origin,
            body: body.copy()?,
            group: Text::copy_of(alloc, group.as_ref())?,
            enqueued: *enqueued,
        },
        Load::Move {
            id,
            origin,
            body,
            group,
        } => Load::Move {
            id: *id,
            origin: *origin,
            body: body.copy()?,
            group: Text::copy_of(alloc, group.as_ref())?,
        },
        Load::Forward { id, body, group } => Load::Forward {
            id: *id,
            body: body.copy()?,
            group: Text::copy_of(alloc, group.as_ref())?,
        },
    })
}

/// A load with the same values, if there is one. It fails only if memory runs out.
pub fn copied(alloc: Global, load: Option<&Load>) -> Result<Option<Load>, AllocError>
    ensures { IfOk result (λ copy. copy ≡ option_copied load.entry) }
{
    match load {
        None => Ok(None),
        Some(load) => Ok(Some(copied_load(alloc, load)?)),
    }
}
