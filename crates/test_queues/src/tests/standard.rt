//! Tables of a standard queue, with answers worked out by hand. It has the number 7, two hosts, 30
//! seconds of visibility and a minute of retention. Message n is on host n modulo 2. The hosts that
//! a receive sees are given by their bits, so that 1 is the first, 2 the second, and 3 both.
ghost use Rattle.sqs_queue.specs.Kinds.{IsStandardSettings};

use crate::tests::play::play;
use sqs_redrive::{Kind, Latency, Policy, QueueSettings};
use sqs_standard::StandardQueue;
use std::alloc::Global;
use std::process::Abort;
use std::test::Fail;

// Room for two, and a dead-letter queue after two receives.
fn settings() -> QueueSettings
    ensures { IsStandardSettings result }
{
    QueueSettings {
        kind: Kind::Standard {
            hosts: 2,
            sampled: 1,
        },
        visibility: 30000,
        delay: 0,
        retention: 60000,
        in_flight_limit: 2,
        policy: Some(Policy {
            dead_letter: 9,
            max_receives: 2,
            latency: Latency {
                least: 1,
                greatest: 1,
            },
        }),
    }
}

// Room for all, and no dead-letter queue.
fn roomy() -> QueueSettings
    ensures { IsStandardSettings result }
{
    QueueSettings {
        in_flight_limit: 120000,
        policy: None,
        ..settings()
    }
}

// Plays a table at a new queue.
fn play_new(rt: &impl Abort, alloc: Global, table: &str) -> Result<(), Fail> {
    play(rt, alloc, StandardQueue::new(alloc, 7, settings()), table)
}

// Plays a table at a new queue with room for all.
fn play_roomy(rt: &impl Abort, alloc: Global, table: &str) -> Result<(), Fail> {
    play(rt, alloc, StandardQueue::new(alloc, 7, roomy()), table)
}

// Plays a table at queue 0, which has one number left.
fn play_last(rt: &impl Abort, alloc: Global, table: &str) -> Result<(), Fail> {
    let queue = StandardQueue::opened_at(alloc, 0, settings(), 4611686018427387902);
    play(rt, alloc, queue, table)
}

#[test]
fn has_nothing_at_first(rt: HostRuntime) -> Result<(), Fail> {
    let table = "
site -> 7
retention -> 60000
messages -> none
counts -> visible=0 in_flight=0 delayed=0
due -> none
available -> no
receive at=0 max=10 -> none
# No number was given yet.
delete at=0 by=r-7-0-1 -> ReceiptHandleIsInvalid
release number=0 -> stays
expire at=0 number=0 -> 0
step max=10 -> empty
";
    play_new(&rt, rt.alloc(), table)
}

#[test]
fn sends_and_counts(rt: HostRuntime) -> Result<(), Fail> {
    let table = "
send at=0  body=a           -> new m-7-0
send at=10 body=b delay=5   -> new m-7-1
send at=11 body=c delay=900 -> new m-7-2
send at=12 body=c delay=901 -> BadDelay
counts -> visible=1 in_flight=0 delayed=2
available -> yes
messages -> 0 visible a o-7-0 enqueued=0, 1 delayed b o-7-1 enqueued=10 release=5010, \
2 delayed c o-7-2 enqueued=11 release=900011
";
    play_new(&rt, rt.alloc(), table)
}

// Of the messages 0 to 4, 0, 2 and 4 are on the first host; there is room for two.

#[test]
fn receives_from_the_hosts_seen(rt: HostRuntime) -> Result<(), Fail> {
    let table = "
send at=0 body=a -> new m-7-0
send at=0 body=b -> new m-7-1
send at=0 body=c -> new m-7-2
send at=0 body=d -> new m-7-3
send at=0 body=e -> new m-7-4
receive at=5 hosts=0 max=10 -> none
receive at=5 hosts=4 max=10 -> none
receive at=5 hosts=3 max=0  -> none
counts -> visible=5 in_flight=0 delayed=0
receive at=5 hosts=1 max=10 -> m-7-0 r-7-0-1 a, m-7-2 r-7-2-1 c
counts -> visible=3 in_flight=2 delayed=0
release number=0 -> stays
release number=2 -> stays
receive at=5 hosts=2 max=10 -> m-7-1 r-7-1-1 b, m-7-3 r-7-3-1 d
counts -> visible=3 in_flight=2 delayed=0
";
    play_new(&rt, rt.alloc(), table)
}

#[test]
fn receives_from_both_hosts(rt: HostRuntime) -> Result<(), Fail> {
    let table = "
send at=0 body=a -> new m-7-0
send at=0 body=b -> new m-7-1
send at=0 body=c -> new m-7-2
send at=0 body=d -> new m-7-3
send at=0 body=e -> new m-7-4
receive at=5 hosts=3 max=10 -> m-7-0 r-7-0-1 a, m-7-1 r-7-1-1 b
counts -> visible=3 in_flight=2 delayed=0
";
    play_new(&rt, rt.alloc(), table)
}

#[test]
fn receives_as_many_as_asked_for(rt: HostRuntime) -> Result<(), Fail> {
    let table = "
send at=0 body=a -> new m-7-0
send at=0 body=b -> new m-7-1
send at=0 body=c -> new m-7-2
send at=0 body=d -> new m-7-3
send at=0 body=e -> new m-7-4
receive at=5 hosts=3 max=1 -> m-7-0 r-7-0-1 a
counts -> visible=4 in_flight=1 delayed=0
";
    play_new(&rt, rt.alloc(), table)
}

#[test]
fn tells_how_many_it_read(rt: HostRuntime) -> Result<(), Fail> {
    let table = "
send at=0 body=a -> new m-7-0
send at=0 body=b -> new m-7-1
send at=0 body=c -> new m-7-2
send at=0 body=d -> new m-7-3
send at=0 body=e -> new m-7-4
# Of those on the first host it reads the two for which there is room.
look at=5 hosts=1 max=10 -> m-7-0 r-7-0-1 a, m-7-2 r-7-2-1 c, read=2
";
    play_new(&rt, rt.alloc(), table)
}

#[test]
fn gives_those_on_the_hosts(rt: HostRuntime) -> Result<(), Fail> {
    let table = "
send at=1 body=a         -> new m-7-0
send at=2 body=b delay=5 -> new m-7-1
send at=3 body=c         -> new m-7-2
# Message 1 alone lies on the second host, and is delayed. With a timeout of 0 each is back at once.
look at=4 hosts=3 max=10 timeout=0 -> m-7-0 r-7-0-1 a, m-7-2 r-7-2-1 c, read=2
look at=4 hosts=3 max=1  timeout=0 -> m-7-0 r-7-0-2 a, read=1
look at=4 hosts=1 max=1  timeout=0 -> m-7-0 r-7-0-3 a, read=1
look at=4 hosts=2 max=1  timeout=0 -> none, read=0
release number=1 -> stays
look at=5002 hosts=3 max=10 timeout=0 -> m-7-0 r-7-0-4 a, m-7-1 r-7-1-1 b, m-7-2 r-7-2-2 c, read=3
look at=5002 hosts=2 max=10 timeout=0 -> m-7-1 r-7-1-2 b, read=1
";
    play_roomy(&rt, rt.alloc(), table)
}

#[test]
fn passes_over_those_that_may_not_be_received(rt: HostRuntime) -> Result<(), Fail> {
    let table = "
send at=0 body=a         -> new m-7-0
send at=0 body=b delay=5 -> new m-7-1
send at=0 body=c delay=5 -> new m-7-2
send at=0 body=d         -> new m-7-3
# On the first host none but 0 is visible, and on the second none but 3.
look at=1 hosts=1 max=10 timeout=0 -> m-7-0 r-7-0-1 a, read=1
look at=1 hosts=2 max=10 timeout=0 -> m-7-3 r-7-3-1 d, read=1
look at=1 hosts=3 max=10 timeout=0 -> m-7-0 r-7-0-2 a, m-7-3 r-7-3-2 d, read=2
# Message 0 is in flight, and then gone.
receive at=2 hosts=1 max=1 -> m-7-0 r-7-0-3 a
look at=2 hosts=3 max=10 timeout=0 -> m-7-3 r-7-3-3 d, read=1
delete at=3 by=r-7-0-3 -> removed at 3
delete at=3 by=r-7-0-3 -> gone
look at=3 hosts=3 max=10 timeout=0 -> m-7-3 r-7-3-4 d, read=1
counts -> visible=1 in_flight=0 delayed=2
due -> release of 1 at=5000 agent=7
messages -> 1 delayed b o-7-1 enqueued=0 release=5000, 2 delayed c o-7-2 enqueued=0 release=5000, \
3 visible d o-7-3 enqueued=0
";
    play_roomy(&rt, rt.alloc(), table)
}

#[test]
fn keeps_messages(rt: HostRuntime) -> Result<(), Fail> {
    let table = "
send at=1 body=a         -> new m-7-0
send at=2 body=b delay=5 -> new m-7-1
send at=3 body=c         -> new m-7-2
counts -> visible=2 in_flight=0 delayed=1
due -> release of 1 at=5002 agent=7
messages -> 0 visible a o-7-0 enqueued=1, 1 delayed b o-7-1 enqueued=2 release=5002, \
2 visible c o-7-2 enqueued=3
# Message 1 is no longer delayed, and is in flight until 9000.
release number=1 -> stays
receive at=8000 hosts=2 max=10 timeout=1 -> m-7-1 r-7-1-1 b
due -> release of 1 at=9000 agent=7
counts -> visible=2 in_flight=1 delayed=0
# A message that is not there changes nothing.
release number=3 -> stays
counts -> visible=2 in_flight=1 delayed=0
release number=1 -> stays
due -> expiry of 0 at=60001 agent=7
expire at=60001 number=0 -> 60000
expire at=60001 number=0 -> 0
due -> expiry of 1 at=60002 agent=7
counts -> visible=2 in_flight=0 delayed=0
messages -> 1 visible b o-7-1 enqueued=2, 2 visible c o-7-2 enqueued=3
# Number 3 goes to a dead letter that does not stay.
delete at=60001 by=r-7-3-1 -> ReceiptHandleIsInvalid
redrive at=60001 body=d enqueued=1 -> new m-7-3, expired
delete at=60001 by=r-7-3-1 -> gone
send at=60001 body=e -> new m-7-4
";
    play_new(&rt, rt.alloc(), table)
}

// The places of 16 messages are used up twice: first those of messages that left are used again,
// and then there are more places.
const GROWING: &str = "
send at=0 body=a -> new m-7-0
send at=1 body=a -> new m-7-1
send at=0 body=a -> new m-7-2
send at=1 body=a -> new m-7-3
send at=0 body=a -> new m-7-4
send at=1 body=a -> new m-7-5
send at=0 body=a -> new m-7-6
send at=1 body=a -> new m-7-7
send at=0 body=a -> new m-7-8
send at=1 body=a -> new m-7-9
send at=0 body=a -> new m-7-10
send at=1 body=a -> new m-7-11
send at=0 body=a -> new m-7-12
send at=1 body=a -> new m-7-13
send at=0 body=a -> new m-7-14
send at=1 body=a -> new m-7-15
expire at=60000 number=0 -> 60000
expire at=60000 number=2 -> 60000
expire at=60000 number=4 -> 60000
expire at=60000 number=6 -> 60000
expire at=60000 number=8 -> 60000
expire at=60000 number=10 -> 60000
expire at=60000 number=12 -> 60000
expire at=60000 number=14 -> 60000
send at=1 body=a -> new m-7-16
send at=1 body=a -> new m-7-17
send at=1 body=a -> new m-7-18
send at=1 body=a -> new m-7-19
send at=1 body=a -> new m-7-20
send at=1 body=a -> new m-7-21
send at=1 body=a -> new m-7-22
send at=1 body=a -> new m-7-23
expire at=60001 number=16 -> 60000
expire at=60001 number=18 -> 60000
expire at=60001 number=20 -> 60000
expire at=60001 number=22 -> 60000
send at=2 body=a -> new m-7-24
send at=2 body=a -> new m-7-25
counts -> visible=14 in_flight=0 delayed=0
due -> expiry of 1 at=60001 agent=7
messages -> 1 visible a o-7-1 enqueued=1, 3 visible a o-7-3 enqueued=1, \
5 visible a o-7-5 enqueued=1, 7 visible a o-7-7 enqueued=1, 9 visible a o-7-9 enqueued=1, \
11 visible a o-7-11 enqueued=1, 13 visible a o-7-13 enqueued=1, 15 visible a o-7-15 enqueued=1, \
17 visible a o-7-17 enqueued=1, 19 visible a o-7-19 enqueued=1, 21 visible a o-7-21 enqueued=1, \
23 visible a o-7-23 enqueued=1, 24 visible a o-7-24 enqueued=2, 25 visible a o-7-25 enqueued=2
look at=3 hosts=1 max=10 -> m-7-24 r-7-24-1 a, read=1
look at=3 hosts=3 max=1  -> m-7-1 r-7-1-1 a, read=1
look at=3 hosts=2 max=10 -> m-7-3 r-7-3-1 a, m-7-5 r-7-5-1 a, m-7-7 r-7-7-1 a, m-7-9 r-7-9-1 a, \
m-7-11 r-7-11-1 a, m-7-13 r-7-13-1 a, m-7-15 r-7-15-1 a, m-7-17 r-7-17-1 a, m-7-19 r-7-19-1 a, \
m-7-21 r-7-21-1 a, read=10
look at=3 hosts=3 max=10 -> m-7-23 r-7-23-1 a, m-7-25 r-7-25-1 a, read=2
";

#[test]
fn grows_past_those_that_left(rt: HostRuntime) -> Result<(), Fail> {
    play_roomy(&rt, rt.alloc(), GROWING)
}

#[test]
fn refuses_receives(rt: HostRuntime) -> Result<(), Fail> {
    let table = "
send at=0 body=a -> new m-7-0
send at=0 body=b -> new m-7-1
send at=0 body=c -> new m-7-2
receive at=1 max=10 timeout=43201 short=1 -> BadTimeout
receive at=1 max=10 timeout=60 short=1 -> m-7-0 r-7-0-1 a, m-7-1 r-7-1-1 b
receive at=2 max=10 short=1 -> OverLimit
receive at=2 max=10 -> none
messages -> 0 in flight a o-7-0 enqueued=0 release=60001, \
1 in flight b o-7-1 enqueued=0 release=60001, 2 visible c o-7-2 enqueued=0
";
    play_new(&rt, rt.alloc(), table)
}

#[test]
fn gives_and_takes_back_at_once(rt: HostRuntime) -> Result<(), Fail> {
    let table = "
send at=3 body=a -> new m-7-0
receive at=5 max=1 timeout=0 -> m-7-0 r-7-0-1 a
counts -> visible=1 in_flight=0 delayed=0
messages -> 0 visible a o-7-0 enqueued=3
receive at=6 max=1 timeout=0 -> m-7-0 r-7-0-2 a leaves as redrive m-7-0 o-7-0 a enqueued=3
counts -> visible=0 in_flight=0 delayed=0
messages -> none
";
    play_new(&rt, rt.alloc(), table)
}

#[test]
fn leaves_after_two_receives(rt: HostRuntime) -> Result<(), Fail> {
    let table = "
send at=1 body=a -> new m-7-0
receive at=5 max=1 -> m-7-0 r-7-0-1 a
counts -> visible=0 in_flight=1 delayed=0
messages -> 0 in flight a o-7-0 enqueued=1 release=30005
change at=6 by=r-7-0-1 seconds=0 -> stays
receive at=7 max=1 timeout=0 -> m-7-0 r-7-0-2 a leaves as redrive m-7-0 o-7-0 a enqueued=1
messages -> none
# So it does at the end of its timeout, and by a change.
send at=8 body=b -> new m-7-1
send at=9 body=c -> new m-7-2
receive at=10 max=2 timeout=0 -> m-7-1 r-7-1-1 b, m-7-2 r-7-2-1 c
receive at=11 max=2 -> m-7-1 r-7-1-2 b, m-7-2 r-7-2-2 c
release number=1 -> leaves as redrive m-7-1 o-7-1 b enqueued=8
change at=12 by=r-7-2-2 seconds=0 -> leaves as redrive m-7-2 o-7-2 c enqueued=9
messages -> none
";
    play_new(&rt, rt.alloc(), table)
}

#[test]
fn deletes_by_the_newest_receipt(rt: HostRuntime) -> Result<(), Fail> {
    let table = "
send at=4 body=a -> new m-7-0
receive at=5 max=1 -> m-7-0 r-7-0-1 a
release number=0 -> stays
receive at=6 max=1 -> m-7-0 r-7-0-2 a
delete at=7 by=r-8-0-2 -> ReceiptHandleIsInvalid
delete at=7 by=r-7-0-3 -> ReceiptHandleIsInvalid
delete at=7 by=r-7-0-1 -> kept
delete at=7 by=r-7-0-2 -> removed at 3
delete at=8 by=r-7-0-2 -> gone
delete at=8 by=r-7-1-1 -> ReceiptHandleIsInvalid
";
    play_new(&rt, rt.alloc(), table)
}

#[test]
fn deletes_after_the_timeout(rt: HostRuntime) -> Result<(), Fail> {
    let table = "
send at=0 body=a -> new m-7-0
receive at=100 max=1 -> m-7-0 r-7-0-1 a
release number=0 -> stays
# The newest receipt of a message that is visible again deletes it, and changes nothing; nor does
# one of a message that is gone, or of another queue.
change at=1200 by=r-7-0-1 seconds=1 -> MessageNotInflight
change at=1200 by=r-8-0-1 seconds=1 -> ReceiptHandleIsInvalid
delete at=1200 by=r-7-0-1 -> removed at 1200
change at=1200 by=r-7-0-1 seconds=1 -> MessageNotInflight
messages -> none
";
    play_new(&rt, rt.alloc(), table)
}

#[test]
fn changes_visibility(rt: HostRuntime) -> Result<(), Fail> {
    let table = "
send at=0 body=a -> new m-7-0
receive at=5 max=1 -> m-7-0 r-7-0-1 a
change at=6 by=r-7-0-1 seconds=43201 -> BadTimeout
change at=6 by=r-7-0-2 seconds=1     -> ReceiptHandleIsInvalid
change at=6 by=r-7-1-1 seconds=1     -> ReceiptHandleIsInvalid
change at=6 by=r-7-0-0 seconds=1     -> ReceiptHandleIsInvalid
# The message was received at 5, and 12 hours are 43,200 seconds.
change at=6 by=r-7-0-1 seconds=43200 -> BadTimeout
change at=5 by=r-7-0-1 seconds=43200 -> stays
change at=6 by=r-7-0-1 seconds=2     -> stays
messages -> 0 in flight a o-7-0 enqueued=0 release=2006
change at=7 by=r-7-0-1 seconds=0     -> stays
counts -> visible=1 in_flight=0 delayed=0
change at=8 by=r-7-0-1 seconds=1     -> MessageNotInflight
";
    play_new(&rt, rt.alloc(), table)
}

#[test]
fn tells_what_is_due(rt: HostRuntime) -> Result<(), Fail> {
    let table = "
due -> none
send at=1 body=a         -> new m-7-0
send at=2 body=b delay=5 -> new m-7-1
counts -> visible=1 in_flight=0 delayed=1
due -> release of 1 at=5002 agent=7
release number=1 -> stays
due -> expiry of 0 at=60001 agent=7
expire at=60001 number=0 -> 60000
expire at=60001 number=0 -> 0
messages -> 1 visible b o-7-1 enqueued=2
delete at=60001 by=r-7-1-0 -> ReceiptHandleIsInvalid
receive at=60001 max=1 -> m-7-1 r-7-1-1 b
delete at=60001 by=r-7-1-1 -> removed at 59999
expire at=60002 number=1 -> 0
messages -> none
";
    play_new(&rt, rt.alloc(), table)
}

#[test]
fn takes_transfers_in(rt: HostRuntime) -> Result<(), Fail> {
    let table = "
# Enqueued at 0: it is too old at 60000, and not at 59999.
redrive at=59999 body=a enqueued=0 -> new m-7-0
redrive at=60000 body=a enqueued=0 -> new m-7-1, expired
move at=60001 body=b -> new m-7-2
forward at=60002 body=c -> new m-7-3
messages -> 0 visible a o-1-2 enqueued=0 source=3, 2 visible b o-1-2 enqueued=60001, \
3 visible c o-7-3 enqueued=60002
";
    play_new(&rt, rt.alloc(), table)
}

#[test]
fn moves_messages_out(rt: HostRuntime) -> Result<(), Fail> {
    let table = "
redrive at=5 body=a enqueued=1 -> new m-7-0
send at=6 body=b -> new m-7-1
send at=6 body=c -> new m-7-2
# The first goes back to the queue that it came from, the second has nowhere to go but to the
# task's queue.
step max=0 -> more
messages -> 0 visible a o-1-2 enqueued=1 source=3, 1 visible b o-7-1 enqueued=6, \
2 visible c o-7-2 enqueued=6
step max=10 -> move m-7-0 o-1-2 a to 3, no source
messages -> 1 visible b o-7-1 enqueued=6, 2 visible c o-7-2 enqueued=6
step max=1 to=4 -> move m-7-1 o-7-1 b to 4, more
messages -> 2 visible c o-7-2 enqueued=6
step max=10 to=4 -> move m-7-2 o-7-2 c to 4, empty
messages -> none
";
    play_new(&rt, rt.alloc(), table)
}

#[test]
fn takes_in_and_out(rt: HostRuntime) -> Result<(), Fail> {
    let table = "
redrive at=60000 body=a enqueued=1 -> new m-7-0
redrive at=60000 body=a enqueued=0 -> new m-7-1, expired
send at=60000 body=b -> new m-7-2
available -> yes
# The first came from queue 3, and the other has nowhere to go.
step max=1 -> move m-7-0 o-1-2 a to 3, more
step max=1 -> no source
messages -> 2 visible b o-7-2 enqueued=60000
";
    play_new(&rt, rt.alloc(), table)
}

#[test]
fn the_last_number_is_given(rt: HostRuntime) -> Result<(), Fail> {
    // After the last number a send is refused, and the queue is as it was; a bad delay is the error
    // that comes first.
    let table = "
send at=0 body=a -> new m-0-4611686018427387902
send at=1 body=a -> CountLimit
send at=2 body=a delay=901 -> BadDelay
messages -> 4611686018427387902 visible a o-0-4611686018427387902 enqueued=0
";
    play_last(&rt, rt.alloc(), table)
}
