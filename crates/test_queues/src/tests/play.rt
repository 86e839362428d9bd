//! Plays tables of calls. A line is a call, `-> ` and its answer; one that begins with `#` is a
//! comment on what follows.
use crate::tests::calls::{Asked, Calls, Given};
use crate::tests::show::Shown;
use crate::tests::{forms, show, words};
use sqs_message::{Body, MessageId, Origin};
use sqs_redrive::Load;
use std::alloc::{AllocError, Global};
use std::process::Abort;
use std::test::Fail;

// Makes the calls of a table at a queue, and compares the answers.
pub fn play<Q: Calls + Drop>(
    rt: &impl Abort,
    alloc: Global,
    mut queue: Q,
    table: &str,
) -> Result<(), Fail> {
    play_on(rt, alloc, &mut queue, table)
}

// Makes further calls at a queue.
pub fn play_on<Q: Calls>(
    rt: &impl Abort,
    alloc: Global,
    queue: &mut Q,
    table: &str,
) -> Result<(), Fail> {
    for line in table.lines() {
        if !line.is_empty() && !line.starts_with('#') {
            try_line(rt, alloc, queue, line)?;
        }
    }
    Ok(())
}

// A line without an answer expects one that no call returns.
fn try_line<Q: Calls>(
    rt: &impl Abort,
    alloc: Global,
    queue: &mut Q,
    line: &str,
) -> Result<(), AllocError> {
    let (call, wanted) = line.split_once("-> ").unwrap_or((line, "an answer"));
    let mut out = String::new(alloc);
    let shown = answer(alloc, &mut out, queue, call);
    assert_eq!(rt; out.as_str(), wanted, "{call}");
    shown
}

fn answer<Q: Calls>(alloc: Global, out: &mut String, queue: &mut Q, call: &str) -> Shown {
    if !forms::is_call(call) {
        return out.push_str("no such call");
    }
    match words::call(call) {
        "send" => send(alloc, out, queue, call),
        "receive" => receive(out, queue, call),
        "look" => look(out, queue, call),
        "delete" => delete(out, queue, call),
        "change" => change(out, queue, call),
        "release" => release(out, queue, call),
        "expire" => expire(out, queue, call),
        "redrive" => arrive(out, queue, call, redrive(alloc, call)?),
        "move" => arrive(out, queue, call, move_in(alloc, call)?),
        "forward" => arrive(out, queue, call, forward(alloc, call)?),
        "step" => step(out, queue, call),
        name => tell(out, queue, name),
    }
}

// What a queue reports of itself.
fn tell<Q: Calls>(out: &mut String, queue: &Q, name: &str) -> Shown {
    match name {
        "site" => show::named(out, "", u64::from(queue.site())),
        "retention" => show::named(out, "", queue.retention()),
        "messages" => messages(out, queue),
        "counts" => show::counts(out, queue.counts()),
        "due" => due(out, queue),
        "available" => out.push_str(if queue.has_available() { "yes" } else { "no" }),
        _ => out.push_str("no such call"),
    }
}

fn messages<Q: Calls>(out: &mut String, queue: &Q) -> Shown {
    for message in queue.view() {
        show::message(out, message)?;
    }
    show::or_none(out)
}

fn due<Q: Calls>(out: &mut String, queue: &Q) -> Shown {
    match queue.least_due() {
        None => out.push_str("none"),
        Some(key) => show::key(out, key),
    }
}

fn body(alloc: Global, call: &str) -> Result<Body, AllocError> {
    Body::new(alloc, words::text(alloc, call, "body"))
}

fn given(alloc: Global, call: &str) -> Result<Given, AllocError> {
    Ok(Given {
        body: body(alloc, call)?,
        group: words::text_if(alloc, call, "group"),
        id: words::text_if(alloc, call, "id"),
        delay: words::number_if(call, "delay"),
    })
}

fn send<Q: Calls>(alloc: Global, out: &mut String, queue: &mut Q, call: &str) -> Shown {
    match queue.send(words::small(call, "at"), given(alloc, call)?) {
        Ok(sent) => show::sent(out, sent),
        Err(refusal) => show::refused(out, refusal),
    }
}

// The hosts that a receive sees, if they are given.
fn hosts(call: &str) -> Option<u16> {
    match words::number_if(call, "hosts") {
        None => None,
        Some(hosts) => Some(u16::try_from(hosts).unwrap_or(u16::MAX)),
    }
}

fn asked(call: &str) -> Asked {
    Asked {
        max: words::number(call, "max"),
        timeout: words::number_if(call, "timeout"),
        hosts: hosts(call),
        short: words::number(call, "short") == 1,
    }
}

fn receive<Q: Calls>(out: &mut String, queue: &mut Q, call: &str) -> Shown {
    match queue.receive(words::small(call, "at"), asked(call)) {
        Ok(batch) => show::batch(out, &batch),
        Err(refusal) => show::refused(out, refusal),
    }
}

// A receive, and how many messages the newest one without an error read to choose what it gave.
fn look<Q: Calls>(out: &mut String, queue: &mut Q, call: &str) -> Shown {
    receive(out, queue, call)?;
    match queue.looked() {
        Ok(looked) => show::named(out, ", read=", looked),
        Err(refusal) => show::refused(out, refusal),
    }
}

fn delete<Q: Calls>(out: &mut String, queue: &mut Q, call: &str) -> Shown {
    match queue.delete(words::small(call, "at"), &words::receipt(call)) {
        Ok(deleted) => show::deleted(out, deleted),
        Err(refusal) => show::refused(out, refusal),
    }
}

fn change<Q: Calls>(out: &mut String, queue: &mut Q, call: &str) -> Shown {
    let (now, seconds) = (words::small(call, "at"), words::number(call, "seconds"));
    match queue.change(now, &words::receipt(call), seconds) {
        Ok(load) => show::returned(out, &load),
        Err(refusal) => show::refused(out, refusal),
    }
}

fn release<Q: Calls>(out: &mut String, queue: &mut Q, call: &str) -> Shown {
    match queue.release(words::number(call, "number")) {
        Ok(load) => show::returned(out, &load),
        Err(refusal) => show::refused(out, refusal),
    }
}

fn expire<Q: Calls>(out: &mut String, queue: &mut Q, call: &str) -> Shown {
    let age = queue.expire(words::small(call, "at"), words::number(call, "number"));
    show::named(out, "", age)
}

// The transfers, all of message 8 of queue 3, first accepted as message 2 of queue 1.

const MOVED: MessageId = MessageId { site: 3, number: 8 };

const ORIGIN: Origin = Origin { site: 1, number: 2 };

fn redrive(alloc: Global, call: &str) -> Result<Load, AllocError> {
    Ok(Load::Redrive {
        id: MOVED,
        origin: ORIGIN,
        body: body(alloc, call)?,
        group: words::text_if(alloc, call, "group"),
        enqueued: words::number(call, "enqueued"),
    })
}

fn move_in(alloc: Global, call: &str) -> Result<Load, AllocError> {
    Ok(Load::Move {
        id: MOVED,
        origin: ORIGIN,
        body: body(alloc, call)?,
        group: words::text_if(alloc, call, "group"),
    })
}

fn forward(alloc: Global, call: &str) -> Result<Load, AllocError> {
    Ok(Load::Forward {
        id: MOVED,
        body: body(alloc, call)?,
        group: words::text_if(alloc, call, "group"),
    })
}

fn arrive<Q: Calls>(out: &mut String, queue: &mut Q, call: &str, load: Load) -> Shown {
    match queue.arrive(words::small(call, "at"), load) {
        Ok((sent, expired)) => {
            show::sent(out, sent)?;
            out.push_str(if expired { ", expired" } else { "" })
        }
        Err(refusal) => show::refused(out, refusal),
    }
}

// The queue to which a step's messages go, if one is given.
fn to(call: &str) -> Option<u32> {
    match words::word(call, "to") {
        None => None,
        Some(_) => Some(words::small(call, "to")),
    }
}

// A step of a move task: what goes to which queue, and what is left.
fn step<Q: Calls>(out: &mut String, queue: &mut Q, call: &str) -> Shown {
    match queue.take_movable(words::number(call, "max"), to(call)) {
        Ok((loads, rest)) => {
            moved(out, loads.as_slice())?;
            out.push_str(show::rest(rest))
        }
        Err(refusal) => show::refused(out, refusal),
    }
}

fn moved(out: &mut String, loads: &[(u32, Load)]) -> Shown {
    for (queue, load) in loads {
        show::loaded(out, load)?;
        show::named(out, " to ", u64::from(*queue))?;
        out.push_str(", ")?;
    }
    Ok(())
}
