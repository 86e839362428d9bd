//! What no clause says: the bytes themselves, compared with values worked out apart from this
//! program.
ghost use Rattle.std.specs.Prelude.{◌≡◌, ◌++◌};
ghost use Rattle.sim_report.specs.Reports.{asked_plain, running};

use crate::tests::row::row;
use crate::tests::same::same;
use sim_clock::Refusal;
use sim_records::ToWriter;
use sim_report::{Report, compare};
use sqs_message::{Detail, MessageId, Origin, Place, Row, RowAnswer, RowKind, Text};
use sqs_model::{FinalMessage, FinalMessages, FinalTasks, FinalTransfers, Finals};
use std::alloc::Global;
use std::process::Abort;

const NONE: Detail = Detail::Absent;

/// The rows of three queues, the last of which has no columns.
const ROWS: [(u32, RowKind, RowAnswer, Detail); 28] = [
    (0, RowKind::Send, RowAnswer::New, NONE),
    (0, RowKind::Send, RowAnswer::New, NONE),
    (0, RowKind::Arrive, RowAnswer::New, NONE),
    (0, RowKind::Send, RowAnswer::Repeat, NONE),
    (1, RowKind::Arrive, RowAnswer::Repeat, NONE),
    (0, RowKind::Receive, RowAnswer::Ok, NONE),
    (0, RowKind::Receive, RowAnswer::Empty, NONE),
    (0, RowKind::Delete, RowAnswer::Deleted, Detail::Age(250)),
    (0, RowKind::Delete, RowAnswer::Deleted, Detail::Age(5)),
    (0, RowKind::Delete, RowAnswer::Kept, NONE),
    (9, RowKind::Send, RowAnswer::New, NONE),
    (1, RowKind::Send, RowAnswer::New, NONE),
    (1, RowKind::Expire, RowAnswer::Expired, Detail::Age(7)),
    (0, RowKind::Send, RowAnswer::New, NONE),
    (
        0,
        RowKind::Delete,
        RowAnswer::Deleted,
        Detail::Age(u64::MAX),
    ),
    (
        0,
        RowKind::Delete,
        RowAnswer::Deleted,
        Detail::Age(u64::MAX),
    ),
    (1, RowKind::Redrive, RowAnswer::Out, NONE),
    (1, RowKind::Move, RowAnswer::Out, NONE),
    (1, RowKind::Send, RowAnswer::New, NONE),
    (
        0,
        RowKind::Receive,
        RowAnswer::Refused(Refusal::OverLimit),
        NONE,
    ),
    (
        0,
        RowKind::Change,
        RowAnswer::Refused(Refusal::MessageNotInflight),
        NONE,
    ),
    (
        0,
        RowKind::Delete,
        RowAnswer::Refused(Refusal::ReceiptHandleIsInvalid),
        NONE,
    ),
    (
        0,
        RowKind::Change,
        RowAnswer::Refused(Refusal::BadTimeout),
        NONE,
    ),
    (
        1,
        RowKind::Send,
        RowAnswer::Refused(Refusal::MissingGroup),
        NONE,
    ),
    (
        1,
        RowKind::Send,
        RowAnswer::Refused(Refusal::MissingDeduplication),
        NONE,
    ),
    (
        1,
        RowKind::Send,
        RowAnswer::Refused(Refusal::BadDelay),
        NONE,
    ),
    (
        1,
        RowKind::Start,
        RowAnswer::Refused(Refusal::TaskRunning),
        NONE,
    ),
    (
        1,
        RowKind::Cancel,
        RowAnswer::Refused(Refusal::NoTask),
        NONE,
    ),
];

/// The messages that are left: the queue and the state of each.
const LEFT: [(u32, Place); 5] = [
    (0, Place::InFlight),
    (0, Place::Visible),
    (0, Place::InFlight),
    (1, Place::Delayed),
    (9, Place::Visible),
];

fn message(site: u32, place: Place) -> FinalMessage {
    FinalMessage {
        id: MessageId { site, number: 0 },
        origin: Origin { site, number: 0 },
        place,
        due: None,
        enqueued: 0,
        receives: 0,
        group: None,
        md5: [0; 16],
    }
}

fn finals(rt: &impl Abort, alloc: Global) -> Finals {
    let mut messages = Vec::new(alloc);
    for &(site, place) in &LEFT {
        messages.push(message(site, place)).expect(rt, "memory");
    }
    Finals {
        messages: FinalMessages::new(messages),
        transfers: FinalTransfers::new(Vec::new(alloc)),
        tasks: FinalTasks::new(Vec::new(alloc)),
    }
}

/// The report of rows that come in two parts.
fn in_two_parts(
    rt: &impl Abort,
    alloc: Global,
    names: Vec<Text>,
    first: &[Row],
    second: &[Row],
) -> Report
    ensures { result ≡ running (asked_plain names.items) (first.now ++ second.now) }
{
    let mut report = Report::new(alloc, names, None).expect(rt, "memory");
    report.add(first).expect(rt, "memory");
    report.add(second).expect(rt, "memory");
    report
}

fn names(rt: &impl Abort, alloc: Global, first: &[u8], second: &[u8]) -> Vec<Text> {
    let first = Text::new(first.to_vec(alloc).expect(rt, "memory"));
    let second = Text::new(second.to_vec(alloc).expect(rt, "memory"));
    vec![in alloc; first, second].expect(rt, "memory")
}

/// The report of all rows, over the queues `q` and `d`.
fn filled(rt: &impl Abort, alloc: Global) -> Report {
    let mut rows = Vec::new(alloc);
    for &(queue, kind, answer, detail) in &ROWS {
        rows.push(row(1, queue, kind, answer, detail))
            .expect(rt, "memory");
    }
    let (first, second) = rows.as_slice().split_at(rows.len() / 2);
    in_two_parts(rt, alloc, names(rt, alloc, b"q", b"d"), first, second)
}

#[test]
fn the_columns_of_two_queues(rt: HostRuntime) {
    let (alloc, finals) = (rt.alloc(), finals(&rt, rt.alloc()));
    let mut out = ToWriter::new(Vec::new(alloc));
    let answer = filled(&rt, alloc).write_report(alloc, &mut out, &finals);
    let text =
        b"report,queue,sends,repeats,receives,empties,deletes,expiries,redrives,moves,arrivals,OverLimit,MessageNotInflight,ReceiptHandleIsInvalid,BadTimeout,MissingGroup,MissingDeduplication,BadDelay,TaskRunning,NoTask,depth_max,visible,in_flight,delayed,age_sum,age_max,age_p50,age_p95,age_p99\nreport,q,3,1,1,1,4,0,0,0,1,1,1,1,1,0,0,0,0,0,3,1,2,0,36893488147419103485,18446744073709551615,250,18446744073709551615,18446744073709551615\nreport,d,2,1,0,0,0,1,1,1,0,0,0,0,0,1,1,1,1,1,1,0,0,1,0,,,,\n";
    same(
        &rt,
        (answer, out.into_inner().as_slice()),
        (Ok(()), text.as_slice()),
    );
}

#[test]
fn a_report_against_another(rt: HostRuntime) {
    let (alloc, finals) = (rt.alloc(), finals(&rt, rt.alloc()));
    let filled = filled(&rt, alloc);
    let other = Report::new(alloc, names(&rt, alloc, b"e", b"q"), None).expect(&rt, "memory");
    let mut out = ToWriter::new(Vec::new(alloc));
    let answer = compare(alloc, &mut out, (&filled, &finals), (&other, &finals));
    let text =
        b"compare,q,sends,3,0,-3\ncompare,q,repeats,1,0,-1\ncompare,q,receives,1,0,-1\ncompare,q,empties,1,0,-1\ncompare,q,deletes,4,0,-4\ncompare,q,expiries,0,0,0\ncompare,q,redrives,0,0,0\ncompare,q,moves,0,0,0\ncompare,q,arrivals,1,0,-1\ncompare,q,OverLimit,1,0,-1\ncompare,q,MessageNotInflight,1,0,-1\ncompare,q,ReceiptHandleIsInvalid,1,0,-1\ncompare,q,BadTimeout,1,0,-1\ncompare,q,MissingGroup,0,0,0\ncompare,q,MissingDeduplication,0,0,0\ncompare,q,BadDelay,0,0,0\ncompare,q,TaskRunning,0,0,0\ncompare,q,NoTask,0,0,0\ncompare,q,depth_max,3,0,-3\ncompare,q,visible,1,0,-1\ncompare,q,in_flight,2,0,-2\ncompare,q,delayed,0,1,1\ncompare,q,age_sum,36893488147419103485,0,-36893488147419103485\ncompare,q,age_max,18446744073709551615,,\ncompare,q,age_p50,250,,\ncompare,q,age_p95,18446744073709551615,,\ncompare,q,age_p99,18446744073709551615,,\ncompare,d,only,1,0,-1\ncompare,e,only,0,1,1\n";
    same(
        &rt,
        (answer, out.into_inner().as_slice()),
        (Ok(()), text.as_slice()),
    );
}
