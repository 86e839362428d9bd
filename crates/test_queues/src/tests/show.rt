//! The texts of answers.
use sim_clock::{Class, Key, Refusal};
use sqs_message::{Body, Message, MessageId, Origin, Receipt};
use sqs_queue::{Counts, is_out, may_be_received};
use sqs_redrive::{Deleted, Got, Load, Rest, Sent};
use std::alloc::AllocError;
use std::fmt::Write;

// Whether there was memory for the text.
pub type Shown = Result<(), AllocError>;

pub fn refused(out: &mut String, refusal: Refusal) -> Shown {
    out.push_str(refusal.name())
}

// A word and a number.
pub fn named(out: &mut String, name: &str, number: u64) -> Shown {
    write!(out, "{name}{number}")
}

fn id(out: &mut String, id: MessageId) -> Shown {
    named(out, "m-", u64::from(id.site))?;
    named(out, "-", id.number)
}

fn origin(out: &mut String, origin: Origin) -> Shown {
    named(out, " o-", u64::from(origin.site))?;
    named(out, "-", origin.number)
}

fn receipt(out: &mut String, receipt: Receipt) -> Shown {
    named(out, " r-", u64::from(receipt.site))?;
    named(out, "-", receipt.number)?;
    named(out, "-", receipt.count)
}

// A space and the bytes of a body, which tables have in ASCII.
fn text(out: &mut String, body: &Body) -> Shown {
    out.push(' ')?;
    let body = body.text(*out.allocator())?;
    for byte in body.as_bytes() {
        out.push(char::from(*byte))?;
    }
    Ok(())
}

pub fn sent(out: &mut String, sent: Sent) -> Shown {
    let (word, made) = match sent {
        Sent::New(id) => ("new ", id),
        Sent::Repeat(id) => ("repeat ", id),
    };
    out.push_str(word)?;
    id(out, made)
}

pub fn deleted(out: &mut String, deleted: Deleted) -> Shown {
    match deleted {
        Deleted::Removed(age) => named(out, "removed at ", age),
        Deleted::Kept => out.push_str("kept"),
        Deleted::Gone => out.push_str("gone"),
    }
}

// The text before the next item of a list.
fn comma(out: &mut String) -> Shown {
    if out.is_empty() {
        Ok(())
    } else {
        out.push_str(", ")
    }
}

// The text of a list without items.
pub fn or_none(out: &mut String) -> Shown {
    if out.is_empty() {
        out.push_str("none")
    } else {
        Ok(())
    }
}

pub fn batch(out: &mut String, batch: &[Got]) -> Shown {
    for got in batch {
        comma(out)?;
        one_got(out, got)?;
    }
    or_none(out)
}

fn one_got(out: &mut String, got: &Got) -> Shown {
    id(out, got.id)?;
    receipt(out, got.receipt)?;
    text(out, &got.body)?;
    match got.left.load() {
        None => Ok(()),
        Some(load) => {
            out.push_str(" leaves as ")?;
            loaded(out, load)
        }
    }
}

fn moved(out: &mut String, name: &str, made: MessageId, from: Origin, body: &Body) -> Shown {
    out.push_str(name)?;
    id(out, made)?;
    origin(out, from)?;
    text(out, body)
}

pub fn loaded(out: &mut String, load: &Load) -> Shown {
    match load {
        Load::Redrive {
            id,
            origin,
            body,
            enqueued,
            ..
        } => {
            moved(out, "redrive ", *id, *origin, body)?;
            named(out, " enqueued=", *enqueued)
        }
        Load::Move {
            id,
            origin,
            body,
            ..
        } => moved(out, "move ", *id, *origin, body),
        Load::Forward { .. } => out.push_str("forward"),
    }
}

// The state of a message.
fn place(message: &Message) -> &'static str {
    if may_be_received(message) {
        " visible"
    } else if is_out(message) {
        " in flight"
    } else {
        " delayed"
    }
}

fn numbered(out: &mut String, message: &Message) -> Shown {
    named(out, "", message.number)?;
    out.push_str(place(message))?;
    text(out, &message.body)?;
    origin(out, message.origin)
}

pub fn message(out: &mut String, message: &Message) -> Shown {
    comma(out)?;
    numbered(out, message)?;
    named(out, " enqueued=", message.enqueued)?;
    if let Some(at) = message.release {
        named(out, " release=", at)?;
    }
    if let Some(site) = message.source {
        named(out, " source=", u64::from(site))?;
    }
    Ok(())
}

// What happens to a message that comes back.
pub fn returned(out: &mut String, load: &Option<Load>) -> Shown {
    match load {
        None => out.push_str("stays"),
        Some(load) => {
            out.push_str("leaves as ")?;
            loaded(out, load)
        }
    }
}

pub fn key(out: &mut String, key: Key) -> Shown {
    let class = match key.class {
        Class::Expiry => "expiry of ",
        Class::Release => "release of ",
        _ => "another ",
    };
    named(out, class, key.number)?;
    named(out, " at=", key.at)?;
    named(out, " agent=", u64::from(key.agent))
}

pub fn counts(out: &mut String, counts: Counts) -> Shown {
    named(out, "visible=", counts.visible)?;
    named(out, " in_flight=", counts.in_flight)?;
    named(out, " delayed=", counts.delayed)
}

pub fn rest(rest: Rest) -> &'static str {
    match rest {
        Rest::Empty => "empty",
        Rest::More => "more",
        Rest::NoSource => "no source",
    }
}
