//! A table for each kind of `Queue`, with answers worked out by hand. Its messages are of one group.
ghost use Rattle.sqs_model.specs.Valid.{IsKind, IsQueueSettings};

use crate::tests::play::play_on;
use crate::tests::sends_first::SendsFirst;
use sqs_queue::Queue;
use sqs_redrive::{Kind, QueueSettings, Scope};
use std::alloc::Global;
use std::process::Abort;
use std::test::Fail;

// 30 seconds of visibility, a minute of retention, and room for three.
fn settings(kind: Kind) -> QueueSettings
    requires { IsKind kind }
    ensures { IsQueueSettings result }
{
    QueueSettings {
        kind,
        visibility: 30000,
        delay: 0,
        retention: 60000,
        in_flight_limit: 3,
        policy: None,
    }
}

// Three messages, of which one is received.
const FIRST: &str = "
send at=0 body=a group=x id=i -> new m-7-0
send at=0 body=b group=x id=j -> new m-7-1
move at=1 body=c group=x -> new m-7-2
site -> 7
retention -> 60000
messages -> 0 visible a o-7-0 enqueued=0, 1 visible b o-7-1 enqueued=0, 2 visible c o-1-2 enqueued=1
counts -> visible=3 in_flight=0 delayed=0
due -> expiry of 0 at=60000 agent=7
available -> yes
receive at=5 max=1 -> m-7-0 r-7-0-1 a
";

// It is received again.
const AGAIN: &str = "
release number=0 -> stays
receive at=6 max=1 -> m-7-0 r-7-0-2 a
";

// It leaves by its newest receipt, and so do the others.
const LAST: &str = "
change at=7 by=r-7-0-2 seconds=60 -> stays
delete at=8 by=r-7-0-2 -> removed at 8
expire at=9 number=1 -> 9
step max=9 to=4 -> move m-7-2 o-1-2 c to 4, empty
available -> no
";

// Plays these tables at a new queue of a kind. It says whether it has more to give while one is in
// flight, and what it answers to a delete by the older receipt.
fn play_new(rt: &impl Abort, alloc: Global, kind: Kind, more: &str, older: &str) -> Result<(), Fail>
    requires { IsKind kind }
{
    let mut queue = SendsFirst::new(Queue::new(alloc, 7, settings(kind)));
    for &table in &[FIRST, more, AGAIN, older, LAST] {
        play_on(rt, alloc, &mut queue, table)?;
    }
    Ok(())
}

#[test]
fn calls_a_standard_queue(rt: HostRuntime) -> Result<(), Fail> {
    let kind = Kind::Standard {
        hosts: 2,
        sampled: 1,
    };
    let older = "delete at=7 by=r-7-0-1 -> kept";
    play_new(&rt, rt.alloc(), kind, "available -> yes", older)
}

// The others wait for the first.
#[test]
fn calls_a_fifo_queue(rt: HostRuntime) -> Result<(), Fail> {
    let kind = Kind::Fifo {
        content_dedup: false,
        scope: Scope::Queue,
    };
    let older = "delete at=7 by=r-7-0-1 -> ReceiptHandleIsInvalid";
    play_new(&rt, rt.alloc(), kind, "available -> no", older)
}
