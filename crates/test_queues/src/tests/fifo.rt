//! Tables of a FIFO queue, with answers worked out by hand. It has the number 7 and 30 seconds of
//! visibility.
ghost use Rattle.sqs_queue.specs.Kinds.{IsFifoSettings};

use crate::tests::in_order::InOrder;
use crate::tests::play::play;
use sqs_fifo::FifoQueue;
use sqs_redrive::{Kind, Latency, Policy, QueueSettings, Scope};
use std::alloc::Global;
use std::process::Abort;
use std::test::Fail;

// Bodies replace ids, which count in each group separately; a minute of retention, room for three,
// and a dead-letter queue after two receives.
fn settings() -> QueueSettings
    ensures { IsFifoSettings result }
{
    QueueSettings {
        kind: Kind::Fifo {
            content_dedup: true,
            scope: Scope::Group,
        },
        visibility: 30000,
        delay: 0,
        retention: 60000,
        in_flight_limit: 3,
        policy: Some(Policy {
            dead_letter: 9,
            max_receives: 2,
            latency: Latency {
                least: 1,
                greatest: 1,
            },
        }),
    }
}

// Ids count in the whole queue, and bodies do not replace them; room for all, and no dead-letter
// queue.
pub fn plain() -> QueueSettings
    ensures { IsFifoSettings result }
{
    QueueSettings {
        kind: Kind::Fifo {
            content_dedup: false,
            scope: Scope::Queue,
        },
        visibility: 30000,
        delay: 0,
        retention: 345600000,
        in_flight_limit: 120000,
        policy: None,
    }
}

// The same, but what is sent waits for 5 seconds. What is moved in is visible at once.
fn delaying() -> QueueSettings
    ensures { IsFifoSettings result }
{
    QueueSettings {
        delay: 5000,
        retention: 60000,
        ..plain()
    }
}

// Plays a table at a new queue.
fn play_new(rt: &impl Abort, alloc: Global, table: &str) -> Result<(), Fail> {
    let queue = FifoQueue::new(alloc, 7, settings());
    play(rt, alloc, InOrder::new(queue), table)
}

// Plays a table at a new queue with the plain settings.
fn play_plain(rt: &impl Abort, alloc: Global, table: &str) -> Result<(), Fail> {
    let queue = FifoQueue::new(alloc, 7, plain());
    play(rt, alloc, InOrder::new(queue), table)
}

// Plays a table at a new queue that delays what is sent.
fn play_delaying(rt: &impl Abort, alloc: Global, table: &str) -> Result<(), Fail> {
    let queue = FifoQueue::new(alloc, 7, delaying());
    play(rt, alloc, InOrder::new(queue), table)
}

// Plays a table at queue 0, which has one number left.
fn play_last(rt: &impl Abort, alloc: Global, table: &str) -> Result<(), Fail> {
    let queue = FifoQueue::opened_at(alloc, 0, settings(), 4611686018427387902);
    play(rt, alloc, InOrder::new(queue), table)
}

#[test]
fn has_nothing_at_first(rt: HostRuntime) -> Result<(), Fail> {
    let table = "
site -> 7
retention -> 60000
messages -> none
counts -> visible=0 in_flight=0 delayed=0
due -> none
available -> no
look at=0 max=10 -> none, read=0
# No number was given yet.
delete at=0 by=r-7-0-1 -> ReceiptHandleIsInvalid
release number=0 -> stays
expire at=0 number=0 -> 0
step max=10 -> empty
";
    play_new(&rt, rt.alloc(), table)
}

#[test]
fn sends_once(rt: HostRuntime) -> Result<(), Fail> {
    let table = "
send at=0      body=a group=x -> new m-7-0
send at=1      body=a group=y -> new m-7-1
send at=299999 body=a group=x -> repeat m-7-0
send at=300000 body=a group=x -> new m-7-2
send at=300000 body=a delay=1 -> BadDelay
messages -> 0 visible a o-7-0 enqueued=0, 1 visible a o-7-1 enqueued=1, \
2 visible a o-7-2 enqueued=300000
counts -> visible=3 in_flight=0 delayed=0
due -> expiry of 0 at=60000 agent=7
available -> yes
expire at=60000 number=0 -> 60000
expire at=60000 number=0 -> 0
";
    play_new(&rt, rt.alloc(), table)
}

#[test]
fn gives_group_by_group(rt: HostRuntime) -> Result<(), Fail> {
    let table = "
send at=0 body=a group=x -> new m-7-0
send at=0 body=b group=y -> new m-7-1
send at=0 body=c group=x -> new m-7-2
send at=0 body=c group=y -> new m-7-3
receive at=5 max=2 -> m-7-0 r-7-0-1 a, m-7-2 r-7-2-1 c
receive at=5 max=9 -> m-7-1 r-7-1-1 b
receive at=5 max=9 -> none
delete at=6 by=r-7-0-1 -> removed at 6
delete at=6 by=r-7-0-1 -> gone
change at=6 by=r-7-1-1 seconds=0 -> stays
delete at=6 by=r-7-1-1 -> ReceiptHandleIsInvalid
release number=2 -> stays
# Each that comes back with two receives leaves at once.
receive at=7 max=9 timeout=0 -> m-7-1 r-7-1-2 b leaves as redrive m-7-1 o-7-1 b enqueued=0, \
m-7-3 r-7-3-1 c, m-7-2 r-7-2-2 c leaves as redrive m-7-2 o-7-2 c enqueued=0
messages -> 3 visible c o-7-3 enqueued=0
";
    play_new(&rt, rt.alloc(), table)
}

#[test]
fn tells_how_many_it_read(rt: HostRuntime) -> Result<(), Fail> {
    let table = "
send at=0 body=a group=x -> new m-7-0
send at=0 body=b group=x -> new m-7-1
send at=0 body=c group=x -> new m-7-2
# No message is delayed, so it reads the two that it gives, and not the third.
look at=5 max=2 -> m-7-0 r-7-0-1 a, m-7-1 r-7-1-1 b, read=2
# One that is refused reads none, and leaves the count as it was.
look at=5 max=2 timeout=43201 -> BadTimeout, read=2
# The group has two in flight.
look at=5 max=2 -> none, read=0
";
    play_new(&rt, rt.alloc(), table)
}

// The first message of a group stays, while those after it leave and others come.

#[test]
fn keeps_its_first_message(rt: HostRuntime) -> Result<(), Fail> {
    let table = "
move at=1 body=a group=x -> new m-7-0
move at=1 body=b group=x -> new m-7-1
move at=1 body=c group=x -> new m-7-2
move at=1 body=d group=x -> new m-7-3
move at=1 body=e group=x -> new m-7-4
move at=1 body=f group=x -> new m-7-5
move at=1 body=g group=x -> new m-7-6
move at=1 body=h group=x -> new m-7-7
receive at=2 max=10 -> m-7-0 r-7-0-1 a, m-7-1 r-7-1-1 b, m-7-2 r-7-2-1 c, m-7-3 r-7-3-1 d, \
m-7-4 r-7-4-1 e, m-7-5 r-7-5-1 f, m-7-6 r-7-6-1 g, m-7-7 r-7-7-1 h
delete at=3 by=r-7-1-1 -> removed at 2
delete at=3 by=r-7-2-1 -> removed at 2
delete at=3 by=r-7-3-1 -> removed at 2
delete at=3 by=r-7-4-1 -> removed at 2
delete at=3 by=r-7-5-1 -> removed at 2
delete at=3 by=r-7-6-1 -> removed at 2
delete at=3 by=r-7-7-1 -> removed at 2
change at=4 by=r-7-0-1 seconds=0 -> stays
move at=5 body=i group=x -> new m-7-8
move at=5 body=j group=x -> new m-7-9
look at=6 max=10 timeout=0 -> m-7-0 r-7-0-2 a, m-7-8 r-7-8-1 i, m-7-9 r-7-9-1 j, read=3
counts -> visible=3 in_flight=0 delayed=0
";
    play_plain(&rt, rt.alloc(), table)
}

// Group `x` has 0, 2, 3, which is delayed, and 4, group `y` has 1 and 6, and 5 has no group. With a
// timeout of 0 the messages that were given come back at once.

#[test]
fn chooses_group_by_group(rt: HostRuntime) -> Result<(), Fail> {
    let table = "
move at=1 body=a group=x      -> new m-7-0
move at=2 body=b group=y      -> new m-7-1
move at=3 body=c group=x      -> new m-7-2
send at=4 body=d group=x id=i -> new m-7-3
move at=5 body=e group=x      -> new m-7-4
move at=6 body=f              -> new m-7-5
move at=7 body=g group=y      -> new m-7-6
counts -> visible=6 in_flight=0 delayed=1
due -> release of 3 at=5004 agent=7
available -> yes
messages -> 0 visible a o-1-2 enqueued=1, 1 visible b o-1-2 enqueued=2, \
2 visible c o-1-2 enqueued=3, 3 delayed d o-7-3 enqueued=4 release=5004, \
4 visible e o-1-2 enqueued=5, 5 visible f o-1-2 enqueued=6, 6 visible g o-1-2 enqueued=7
# The delayed message 3 is read, and 4 after it is not given.
look at=8 max=10 timeout=0 -> m-7-0 r-7-0-1 a, m-7-2 r-7-2-1 c, m-7-1 r-7-1-1 b, m-7-6 r-7-6-1 g, \
m-7-5 r-7-5-1 f, read=6
look at=8 max=3 timeout=0 -> m-7-0 r-7-0-2 a, m-7-2 r-7-2-2 c, m-7-1 r-7-1-2 b, read=4
look at=8 max=2 timeout=0 -> m-7-0 r-7-0-3 a, m-7-2 r-7-2-3 c, read=2
look at=8 max=0 timeout=0 -> none, read=0
";
    play_delaying(&rt, rt.alloc(), table)
}

#[test]
fn holds_a_group_back(rt: HostRuntime) -> Result<(), Fail> {
    let table = "
move at=1 body=a group=x      -> new m-7-0
move at=2 body=b group=y      -> new m-7-1
move at=3 body=c group=x      -> new m-7-2
send at=4 body=d group=x id=i -> new m-7-3
move at=5 body=e group=x      -> new m-7-4
move at=6 body=f              -> new m-7-5
move at=7 body=g group=y      -> new m-7-6
receive at=9 max=1 -> m-7-0 r-7-0-1 a
counts -> visible=5 in_flight=1 delayed=1
look at=9 max=10 timeout=0 -> m-7-1 r-7-1-1 b, m-7-6 r-7-6-1 g, m-7-5 r-7-5-1 f, read=3
receive at=9 max=1 -> m-7-1 r-7-1-2 b
receive at=9 max=10 -> m-7-5 r-7-5-2 f
delete at=10 by=r-7-5-2 -> removed at 4
available -> no
# The first of group `x` leaves, and the next but one is not delayed any more.
delete at=10 by=r-7-0-1 -> removed at 9
delete at=10 by=r-7-0-1 -> gone
available -> yes
release number=3 -> stays
look at=5004 max=10 timeout=0 -> m-7-2 r-7-2-1 c, m-7-3 r-7-3-1 d, m-7-4 r-7-4-1 e, read=3
due -> release of 1 at=30009 agent=7
messages -> 1 in flight b o-1-2 enqueued=2 release=30009, 2 visible c o-1-2 enqueued=3, \
3 visible d o-7-3 enqueued=4, 4 visible e o-1-2 enqueued=5, 6 visible g o-1-2 enqueued=7
";
    play_delaying(&rt, rt.alloc(), table)
}

#[test]
fn enters_a_message_once(rt: HostRuntime) -> Result<(), Fail> {
    let table = "
move at=1 body=a group=x      -> new m-7-0
move at=2 body=b group=y      -> new m-7-1
move at=3 body=c group=x      -> new m-7-2
send at=4 body=d group=x id=i -> new m-7-3
move at=5 body=e group=x      -> new m-7-4
move at=6 body=f              -> new m-7-5
move at=7 body=g group=y      -> new m-7-6
send at=8 body=h group=y id=j -> new m-7-7
send at=9 body=h group=z id=j -> repeat m-7-7
# It is the last of its group when its delay is over.
release number=7 -> stays
look at=5008 max=10 timeout=0 -> m-7-0 r-7-0-1 a, m-7-2 r-7-2-1 c, m-7-1 r-7-1-1 b, \
m-7-6 r-7-6-1 g, m-7-7 r-7-7-1 h, m-7-5 r-7-5-1 f, read=7
delete at=5008 by=r-7-8-1 -> ReceiptHandleIsInvalid
";
    play_delaying(&rt, rt.alloc(), table)
}

#[test]
fn takes_transfers_in_and_out(rt: HostRuntime) -> Result<(), Fail> {
    let table = "
# Old as it is, a FIFO queue counts its retention from now.
redrive at=60000 body=a group=x enqueued=0 -> new m-7-0
move    at=60001 body=b group=x            -> new m-7-1
forward at=60002 body=c                    -> new m-7-2
forward at=60003 body=c                    -> repeat m-7-2
messages -> 0 visible a o-1-2 enqueued=60000 source=3, 1 visible b o-1-2 enqueued=60001, \
2 visible c o-7-2 enqueued=60002
# The first goes back to queue 3, and the second has nowhere to go but to the task's queue.
step max=9 -> move m-7-0 o-1-2 a to 3, no source
step max=1 to=4 -> move m-7-1 o-1-2 b to 4, more
step max=9 to=4 -> move m-7-2 o-7-2 c to 4, empty
messages -> none
";
    play_new(&rt, rt.alloc(), table)
}

#[test]
fn needs_a_group_and_an_id(rt: HostRuntime) -> Result<(), Fail> {
    let table = "
send at=0 body=a group=x id=i delay=1 -> BadDelay
send at=0 body=a         id=i         -> MissingGroup
send at=0 body=a group=x              -> MissingDeduplication
send at=0 body=a group=x id=i delay=0 -> new m-7-0
# In whatever group, an id counts for 5 minutes.
send at=299999 body=a group=y id=i    -> repeat m-7-0
send at=300000 body=a group=x id=i    -> new m-7-1
";
    play_plain(&rt, rt.alloc(), table)
}

#[test]
fn an_id_counts_for_five_minutes(rt: HostRuntime) -> Result<(), Fail> {
    let table = "
send at=0      body=a group=x id=i -> new m-7-0
send at=299999 body=b group=x id=j -> new m-7-1
send at=299999 body=a group=x id=i -> repeat m-7-0
send at=300000 body=a group=x id=i -> new m-7-2
send at=599998 body=b group=x id=j -> repeat m-7-1
send at=599999 body=b group=x id=j -> new m-7-3
send at=599999 body=a group=x id=i -> repeat m-7-2
send at=600000 body=a group=x id=i -> new m-7-4
";
    play_plain(&rt, rt.alloc(), table)
}

#[test]
fn repeats_after_a_delete(rt: HostRuntime) -> Result<(), Fail> {
    let table = "
# A duplicate is one even after the message was received and deleted.
send at=0 body=a group=x id=i -> new m-7-0
receive at=5 max=1 -> m-7-0 r-7-0-1 a
delete at=6 by=r-7-0-1 -> removed at 6
send at=1000 body=a group=x id=i -> repeat m-7-0
messages -> none
send at=300000 body=a group=x id=i -> new m-7-1
";
    play_plain(&rt, rt.alloc(), table)
}

#[test]
fn deletes_and_changes_by_the_newest_receipt(rt: HostRuntime) -> Result<(), Fail> {
    let table = "
send at=0 body=a group=x id=i -> new m-7-0
receive at=5 max=1 -> m-7-0 r-7-0-1 a
release number=0 -> stays
receive at=6 max=1 -> m-7-0 r-7-0-2 a
delete at=6 by=r-8-0-2 -> ReceiptHandleIsInvalid
delete at=6 by=r-7-1-1 -> ReceiptHandleIsInvalid
delete at=6 by=r-7-0-3 -> ReceiptHandleIsInvalid
delete at=6 by=r-7-0-1 -> ReceiptHandleIsInvalid
change at=6 by=r-7-0-2 seconds=43201 -> BadTimeout
change at=6 by=r-8-0-2 seconds=1     -> ReceiptHandleIsInvalid
change at=6 by=r-7-1-1 seconds=1     -> ReceiptHandleIsInvalid
change at=6 by=r-7-0-3 seconds=1     -> ReceiptHandleIsInvalid
change at=6 by=r-7-0-1 seconds=1     -> MessageNotInflight
change at=7 by=r-7-0-2 seconds=43200 -> BadTimeout
change at=6 by=r-7-0-2 seconds=43200 -> stays
change at=7 by=r-7-0-2 seconds=0     -> stays
change at=8 by=r-7-0-2 seconds=10    -> MessageNotInflight
delete at=8 by=r-7-0-2 -> ReceiptHandleIsInvalid
receive at=9 max=1 timeout=43201 -> BadTimeout
receive at=9 max=1 -> m-7-0 r-7-0-3 a
delete at=9 by=r-7-0-3 -> removed at 9
delete at=9 by=r-7-0-3 -> gone
change at=9 by=r-7-0-3 seconds=1 -> MessageNotInflight
";
    play_plain(&rt, rt.alloc(), table)
}

#[test]
fn a_group_waits_for_its_messages_in_flight(rt: HostRuntime) -> Result<(), Fail> {
    let table = "
send at=0 body=a group=x id=0  -> new m-7-0
send at=0 body=a group=x id=1  -> new m-7-1
send at=0 body=a group=x id=2  -> new m-7-2
send at=0 body=a group=x id=3  -> new m-7-3
send at=0 body=a group=x id=4  -> new m-7-4
send at=0 body=a group=x id=5  -> new m-7-5
send at=0 body=a group=x id=6  -> new m-7-6
send at=0 body=a group=x id=7  -> new m-7-7
send at=0 body=a group=x id=8  -> new m-7-8
send at=0 body=a group=x id=9  -> new m-7-9
send at=0 body=a group=x id=10 -> new m-7-10
send at=0 body=a group=x id=11 -> new m-7-11
receive at=100 max=10 -> m-7-0 r-7-0-1 a, m-7-1 r-7-1-1 a, m-7-2 r-7-2-1 a, m-7-3 r-7-3-1 a, \
m-7-4 r-7-4-1 a, m-7-5 r-7-5-1 a, m-7-6 r-7-6-1 a, m-7-7 r-7-7-1 a, m-7-8 r-7-8-1 a, m-7-9 r-7-9-1 a
receive at=200 max=10 -> none
delete at=301 by=r-7-0-1 -> removed at 301
delete at=301 by=r-7-1-1 -> removed at 301
delete at=301 by=r-7-2-1 -> removed at 301
delete at=301 by=r-7-3-1 -> removed at 301
delete at=301 by=r-7-4-1 -> removed at 301
delete at=301 by=r-7-5-1 -> removed at 301
delete at=301 by=r-7-6-1 -> removed at 301
delete at=301 by=r-7-7-1 -> removed at 301
delete at=301 by=r-7-8-1 -> removed at 301
delete at=301 by=r-7-9-1 -> removed at 301
receive at=400 max=10 -> m-7-10 r-7-10-1 a, m-7-11 r-7-11-1 a
";
    play_plain(&rt, rt.alloc(), table)
}

#[test]
fn the_last_number_is_given(rt: HostRuntime) -> Result<(), Fail> {
    // After the last number another message is refused, and the queue is as it was; a repeat of the
    // last is still reported as such.
    let table = "
send at=0 body=a group=x -> new m-0-4611686018427387902
send at=1 body=b group=x -> CountLimit
send at=2 body=a group=x -> repeat m-0-4611686018427387902
messages -> 4611686018427387902 visible a o-0-4611686018427387902 enqueued=0
";
    play_last(&rt, rt.alloc(), table)
}
