//! What no clause says: the ages since the first send as bytes, compared with values worked out by
//! hand. There are the queues `a`, `b` and `dead`, 0 to 2, and the consumers `c` of `a`, 3, and `d` of
//! `b`, 4. A producer, 6, and a task, 5, have no figures here.
use crate::tests::figures::text;
use crate::tests::same::same;
use sim_clock::{Class, Key};
use sim_report::{Figures, QueueAsked, Stretch, Wanted, Way};
use sqs_message::{Detail, MessageId, Origin, Row, RowAnswer, RowKind, RowReceipt};
use std::alloc::Global;
use std::process::Abort;

const A: u32 = 0;

const B: u32 = 1;

const DEAD: u32 = 2;

const C: u32 = 3;

const D: u32 = 4;

const TASK: u32 = 5;

const PRODUCER: u32 = 6;

const NONE: Detail = Detail::Absent;

const TO_B: Detail = Detail::Queue(B);

const FIRST: Detail = Detail::From(Origin { site: B, number: 0 });

const SECOND: Detail = Detail::From(Origin { site: B, number: 1 });

const THIRD: Detail = Detail::From(Origin { site: B, number: 2 });

/// A row: its moment, queue, agent, kind, answer, message's number and detail.
type Said = (u64, u32, u32, RowKind, RowAnswer, u64, Detail);

/// Three messages of `a` are forwarded to `b`. The first one is forwarded twice at once, and comes
/// once. The others are under way together.
const FORWARDED: [Said; 13] = [
    (2, A, PRODUCER, RowKind::Send, RowAnswer::New, 0, NONE),
    (12, A, PRODUCER, RowKind::Send, RowAnswer::New, 1, NONE),
    (14, A, PRODUCER, RowKind::Send, RowAnswer::New, 2, NONE),
    (20, A, C, RowKind::Forward, RowAnswer::Out, 0, TO_B),
    (20, A, C, RowKind::Forward, RowAnswer::Out, 0, TO_B),
    (21, A, C, RowKind::Delete, RowAnswer::Deleted, 0, NONE),
    (25, B, C, RowKind::Arrive, RowAnswer::New, 0, FIRST),
    (25, B, C, RowKind::Arrive, RowAnswer::Repeat, 0, FIRST),
    (26, A, C, RowKind::Forward, RowAnswer::Out, 1, TO_B),
    (27, A, C, RowKind::Delete, RowAnswer::Deleted, 1, NONE),
    (28, A, C, RowKind::Forward, RowAnswer::Out, 2, TO_B),
    (29, A, C, RowKind::Delete, RowAnswer::Deleted, 2, NONE),
    (31, B, C, RowKind::Arrive, RowAnswer::New, 1, SECOND),
];

/// The first message of `b` is redriven, moved back and deleted. The second one is deleted, and the
/// third one after the stretch. One more comes into `a`.
const ENDED: [Said; 8] = [
    (
        40,
        B,
        B,
        RowKind::Redrive,
        RowAnswer::Out,
        0,
        Detail::Queue(DEAD),
    ),
    (45, DEAD, B, RowKind::Arrive, RowAnswer::New, 0, FIRST),
    (50, B, D, RowKind::Delete, RowAnswer::Deleted, 1, NONE),
    (55, DEAD, TASK, RowKind::Move, RowAnswer::Out, 0, TO_B),
    (60, B, TASK, RowKind::Arrive, RowAnswer::New, 3, FIRST),
    (70, B, D, RowKind::Delete, RowAnswer::Deleted, 3, NONE),
    (95, A, PRODUCER, RowKind::Send, RowAnswer::New, 3, NONE),
    (100, B, D, RowKind::Delete, RowAnswer::Deleted, 2, NONE),
];

/// All forwards took 5.
const IN_ORDER: &[u8] = b"figure,a,door_age_sum_ms,49
figure,a,door_age_p50_ms,15
figure,a,door_age_p95_ms,19
figure,a,door_age_p99_ms,19
figure,a,door_age_greatest_ms,19
figure,a,door_age_window_p95_ms,19
figure,a,door_age_window_p95_at_ms,10
figure,a,door_age_open,0
figure,a,door_age_may_come,0
figure,b,door_age_sum_ms,106
figure,b,door_age_p50_ms,38
figure,b,door_age_p95_ms,68
figure,b,door_age_p99_ms,68
figure,b,door_age_greatest_ms,68
figure,b,door_age_window_p95_ms,68
figure,b,door_age_window_p95_at_ms,60
figure,b,door_age_open,0
figure,b,door_age_may_come,1
figure,dead,door_age_sum_ms,0
figure,dead,door_age_p50_ms,
figure,dead,door_age_p95_ms,
figure,dead,door_age_p99_ms,
figure,dead,door_age_greatest_ms,
figure,dead,door_age_window_p95_ms,
figure,dead,door_age_window_p95_at_ms,
figure,dead,door_age_open,0
figure,dead,door_age_may_come,2
figure,c,forwards_in_doubt,0
figure,d,forwards_in_doubt,0
";

/// The last forward took 6: it is open which message came second.
const MIXED: &[u8] = b"figure,a,door_age_sum_ms,49
figure,a,door_age_p50_ms,15
figure,a,door_age_p95_ms,19
figure,a,door_age_p99_ms,19
figure,a,door_age_greatest_ms,19
figure,a,door_age_window_p95_ms,19
figure,a,door_age_window_p95_at_ms,10
figure,a,door_age_open,0
figure,a,door_age_may_come,0
figure,b,door_age_sum_ms,
figure,b,door_age_p50_ms,
figure,b,door_age_p95_ms,
figure,b,door_age_p99_ms,
figure,b,door_age_greatest_ms,
figure,b,door_age_window_p95_ms,
figure,b,door_age_window_p95_at_ms,
figure,b,door_age_open,1
figure,b,door_age_may_come,1
figure,dead,door_age_sum_ms,0
figure,dead,door_age_p50_ms,
figure,dead,door_age_p95_ms,
figure,dead,door_age_p99_ms,
figure,dead,door_age_greatest_ms,
figure,dead,door_age_window_p95_ms,
figure,dead,door_age_window_p95_at_ms,
figure,dead,door_age_open,0
figure,dead,door_age_may_come,2
figure,c,forwards_in_doubt,1
figure,d,forwards_in_doubt,0
";

fn row((at, queue, agent, kind, answer, number, detail): Said) -> Row {
    Row {
        key: Key {
            at,
            agent,
            class: Class::Wake,
            number: 0,
        },
        queue,
        agent,
        kind,
        answer,
        message: Some(MessageId {
            site: queue,
            number,
        }),
        receipt: RowReceipt::Absent,
        detail,
    }
}

/// The rows, where the third forward arrives at this moment.
fn rows(rt: &impl Abort, alloc: Global, third_at: u64) -> Vec<Row> {
    let mut rows = Vec::new(alloc);
    for said in FORWARDED {
        rows.push(row(said)).expect(rt, "memory");
    }
    let third = (third_at, B, C, RowKind::Arrive, RowAnswer::New, 2, THIRD);
    rows.push(row(third)).expect(rt, "memory");
    for said in ENDED {
        rows.push(row(said)).expect(rt, "memory");
    }
    rows
}

/// The figures of no rows, over the stretch from 10 to before 100, where a window has 50.
fn fresh(rt: &impl Abort, alloc: Global) -> Figures {
    let mut queues = Vec::new(alloc);
    for name in [b"a".as_slice(), b"b".as_slice(), b"dead".as_slice()] {
        let name = text(rt, alloc, name);
        let asked = QueueAsked { name, quota: 10 };
        queues.push(asked).expect(rt, "memory");
    }
    let actors = vec![in alloc; text(rt, alloc, b"c"), text(rt, alloc, b"d")];
    let ways = vec![in alloc;
        Way { from: A, to: B },
        Way { from: B, to: DEAD },
        Way { from: DEAD, to: B },
    ];
    let stretch = Stretch {
        from: 10,
        until: 100,
    };
    let wanted = Wanted {
        stretch,
        backlog: 0,
        window: 50,
    };
    let actors = actors.expect(rt, "memory");
    let ways = ways.expect(rt, "memory");
    Figures::new(alloc, wanted, queues, actors, ways).expect(rt, "memory")
}

/// Whether the figures of these rows end with this text.
fn end_with(rt: &impl Abort, alloc: Global, third_at: u64, wanted: &[u8]) -> bool {
    let mut figures = fresh(rt, alloc);
    let rows = rows(rt, alloc, third_at);
    figures.take_rows(rows.as_slice()).expect(rt, "memory");
    let text = figures.text(alloc).expect(rt, "memory");
    text.as_slice().ends_with(wanted)
}

#[test]
fn ages_over_forwards_redrives_and_moves(rt: HostRuntime) {
    let found = end_with(&rt, rt.alloc(), 33, IN_ORDER);
    same(&rt, found, true);
}

#[test]
fn forwards_that_may_have_come_in_another_order(rt: HostRuntime) {
    let found = end_with(&rt, rt.alloc(), 34, MIXED);
    same(&rt, found, true);
}
