//! What no clause says: the figures as bytes, compared with values worked out by hand. There are the
//! queues `q` and `d`, whose numbers are 0 and 1, and the consumer `c`, 2. A producer, 3, and a task,
//! 4, have no figures here.
use crate::tests::same::same;
use sim_clock::{Class, Key, Refusal};
use sim_records::ToWriter;
use sim_report::{Fact, Figures, QueueAsked, Report, Stretch, Wanted, Way};
use sqs_message::{
    Detail, MessageId, Origin, Receipt, ReceiptHandle, Row, RowAnswer, RowKind, RowReceipt, Text,
};
use std::alloc::Global;
use std::process::Abort;

const NONE: Detail = Detail::Absent;

/// The moment, queue, agent, kind, answer, message's number and detail of each row. Over the stretch
/// from 10 to before 100, the consumer serves from 20 to 50 and from 60 to 70, and it still holds a
/// message from 90 on. The messages 2 and 3 of `q` came by a move. Two messages of `q`, which are as
/// many as may be, are in flight from 20 to 50 and from 96 to 97.
const ROWS: [(u64, u32, u32, RowKind, RowAnswer, Option<u64>, Detail); 22] = [
    (5, 0, 3, RowKind::Send, RowAnswer::New, Some(0), NONE),
    (10, 0, 3, RowKind::Send, RowAnswer::New, Some(1), NONE),
    (20, 0, 2, RowKind::Receive, RowAnswer::Ok, Some(0), NONE),
    (20, 0, 2, RowKind::Receive, RowAnswer::Ok, Some(1), NONE),
    (30, 0, 2, RowKind::Fail, RowAnswer::Ok, Some(0), NONE),
    (
        40,
        0,
        2,
        RowKind::Forward,
        RowAnswer::Out,
        Some(1),
        Detail::Queue(1),
    ),
    (
        50,
        0,
        2,
        RowKind::Delete,
        RowAnswer::Deleted,
        Some(1),
        Detail::Age(40),
    ),
    (51, 0, 2, RowKind::Receive, RowAnswer::Wait, None, NONE),
    (
        55,
        1,
        2,
        RowKind::Arrive,
        RowAnswer::New,
        Some(0),
        Detail::From(Origin { site: 1, number: 0 }),
    ),
    (60, 0, 2, RowKind::Receive, RowAnswer::Ok, Some(0), NONE),
    (
        70,
        0,
        2,
        RowKind::Delete,
        RowAnswer::Deleted,
        Some(0),
        Detail::Age(65),
    ),
    (71, 0, 2, RowKind::Receive, RowAnswer::Empty, None, NONE),
    (
        75,
        1,
        0,
        RowKind::Arrive,
        RowAnswer::New,
        Some(1),
        Detail::From(Origin { site: 0, number: 4 }),
    ),
    (
        80,
        0,
        4,
        RowKind::Arrive,
        RowAnswer::New,
        Some(2),
        Detail::From(Origin { site: 0, number: 5 }),
    ),
    (
        85,
        0,
        4,
        RowKind::Arrive,
        RowAnswer::New,
        Some(3),
        Detail::From(Origin { site: 0, number: 6 }),
    ),
    (90, 0, 2, RowKind::Receive, RowAnswer::Ok, Some(2), NONE),
    (96, 0, 2, RowKind::Receive, RowAnswer::Ok, Some(3), NONE),
    (
        97,
        0,
        2,
        RowKind::Delete,
        RowAnswer::Deleted,
        Some(3),
        Detail::Age(12),
    ),
    (
        98,
        0,
        2,
        RowKind::Start,
        RowAnswer::Ok,
        None,
        Detail::Task(4),
    ),
    (
        99,
        0,
        2,
        RowKind::Cancel,
        RowAnswer::Refused(Refusal::NoTask),
        None,
        Detail::Task(4),
    ),
    (100, 0, 3, RowKind::Send, RowAnswer::New, Some(4), NONE),
    (
        120,
        0,
        2,
        RowKind::Delete,
        RowAnswer::Deleted,
        Some(2),
        Detail::Age(40),
    ),
];

/// The figures over the stretch.
pub const FIGURES: &[u8] = b"figure,of,name,value
figure,q,sent,1
figure,q,sent_again,0
figure,q,came_by_forward,0
figure,q,came_by_redrive,0
figure,q,came_by_move,2
figure,q,forwarded_again,0
figure,q,receives,5
figure,q,waits,1
figure,q,empty_receives,1
figure,q,deleted,3
figure,q,deletes_by_older_receipt,0
figure,q,deletes_of_gone,0
figure,q,changes,0
figure,q,failed_services,1
figure,q,forwarded,1
figure,q,dead_lettered,0
figure,q,moved_away,0
figure,q,lost_by_expiry,0
figure,q,refused_sends,0
figure,q,refused_receives,0
figure,q,refused_deletes,0
figure,q,refused_changes,0
figure,q,starts,1
figure,q,cancels,0
figure,q,refused_starts,0
figure,q,refused_cancels,1
figure,q,copies_changed,0
figure,q,SendMessage,1
figure,q,ReceiveMessage,5
figure,q,DeleteMessage,3
figure,q,ChangeMessageVisibility,0
figure,q,StartMessageMoveTask,1
figure,q,CancelMessageMoveTask,1
figure,q,requests,11
figure,q,refused_requests,1
figure,q,depth_greatest,2
figure,q,depth_greatest_at_ms,10
figure,q,in_flight_greatest,2
figure,q,in_flight_greatest_at_ms,20
figure,q,oldest_age_greatest_ms,65
figure,q,oldest_age_greatest_at_ms,70
figure,q,left,1
figure,q,left_in_flight,1
figure,q,quota_ms,31
figure,q,backlog_gone_at_ms,96
figure,q,backlog_since_ms,
figure,q,received_once,2
figure,q,received_again,1
figure,q,tries_sum,4
figure,q,tries_greatest,2
figure,q,handled_once,3
figure,q,handled_again,0
figure,q,handled_greatest,1
figure,q,received_messages,4
figure,q,received_greatest,2
figure,q,age_sum_ms,117
figure,q,age_p50_ms,40
figure,q,age_p95_ms,65
figure,q,age_p99_ms,65
figure,q,age_greatest_ms,65
figure,q,age_window_p95_ms,65
figure,q,age_window_p95_at_ms,50
figure,q,new_age_sum_ms,105
figure,q,new_age_p50_ms,40
figure,q,new_age_p95_ms,65
figure,q,new_age_p99_ms,65
figure,q,new_age_greatest_ms,65
figure,q,new_age_window_p95_ms,65
figure,q,new_age_window_p95_at_ms,50
figure,q,moved_age_sum_ms,12
figure,q,moved_age_p50_ms,12
figure,q,moved_age_p95_ms,12
figure,q,moved_age_p99_ms,12
figure,q,moved_age_greatest_ms,12
figure,q,moved_age_window_p95_ms,12
figure,q,moved_age_window_p95_at_ms,90
figure,q,age_p50_least_ms,19
figure,q,age_p50_most_ms,40
figure,q,age_p95_least_ms,65
figure,q,age_p95_most_ms,
figure,q,age_p99_least_ms,65
figure,q,age_p99_most_ms,
figure,q,age_greatest_least_ms,65
figure,q,age_greatest_most_ms,
figure,q,age_window_p95_least_ms,65
figure,q,age_window_p95_most_ms,
figure,q,new_age_p50_least_ms,40
figure,q,new_age_p50_most_ms,40
figure,q,new_age_p95_least_ms,65
figure,q,new_age_p95_most_ms,65
figure,q,new_age_p99_least_ms,65
figure,q,new_age_p99_most_ms,65
figure,q,new_age_greatest_least_ms,65
figure,q,new_age_greatest_most_ms,65
figure,q,new_age_window_p95_least_ms,65
figure,q,new_age_window_p95_most_ms,65
figure,q,moved_age_p50_least_ms,12
figure,q,moved_age_p50_most_ms,12
figure,q,moved_age_p95_least_ms,19
figure,q,moved_age_p95_most_ms,
figure,q,moved_age_p99_least_ms,19
figure,q,moved_age_p99_most_ms,
figure,q,moved_age_greatest_least_ms,19
figure,q,moved_age_greatest_most_ms,
figure,q,moved_age_window_p95_least_ms,19
figure,q,moved_age_window_p95_most_ms,
figure,d,sent,0
figure,d,sent_again,0
figure,d,came_by_forward,1
figure,d,came_by_redrive,1
figure,d,came_by_move,0
figure,d,forwarded_again,0
figure,d,receives,0
figure,d,waits,0
figure,d,empty_receives,0
figure,d,deleted,0
figure,d,deletes_by_older_receipt,0
figure,d,deletes_of_gone,0
figure,d,changes,0
figure,d,failed_services,0
figure,d,forwarded,0
figure,d,dead_lettered,0
figure,d,moved_away,0
figure,d,lost_by_expiry,0
figure,d,refused_sends,0
figure,d,refused_receives,0
figure,d,refused_deletes,0
figure,d,refused_changes,0
figure,d,starts,0
figure,d,cancels,0
figure,d,refused_starts,0
figure,d,refused_cancels,0
figure,d,copies_changed,0
figure,d,SendMessage,1
figure,d,ReceiveMessage,0
figure,d,DeleteMessage,0
figure,d,ChangeMessageVisibility,0
figure,d,StartMessageMoveTask,0
figure,d,CancelMessageMoveTask,0
figure,d,requests,1
figure,d,refused_requests,0
figure,d,depth_greatest,2
figure,d,depth_greatest_at_ms,75
figure,d,in_flight_greatest,0
figure,d,in_flight_greatest_at_ms,10
figure,d,oldest_age_greatest_ms,44
figure,d,oldest_age_greatest_at_ms,99
figure,d,left,2
figure,d,left_in_flight,0
figure,d,quota_ms,0
figure,d,backlog_gone_at_ms,
figure,d,backlog_since_ms,55
figure,d,received_once,0
figure,d,received_again,0
figure,d,tries_sum,0
figure,d,tries_greatest,0
figure,d,handled_once,0
figure,d,handled_again,0
figure,d,handled_greatest,0
figure,d,received_messages,0
figure,d,received_greatest,0
figure,d,age_sum_ms,0
figure,d,age_p50_ms,
figure,d,age_p95_ms,
figure,d,age_p99_ms,
figure,d,age_greatest_ms,
figure,d,age_window_p95_ms,
figure,d,age_window_p95_at_ms,
figure,d,new_age_sum_ms,0
figure,d,new_age_p50_ms,
figure,d,new_age_p95_ms,
figure,d,new_age_p99_ms,
figure,d,new_age_greatest_ms,
figure,d,new_age_window_p95_ms,
figure,d,new_age_window_p95_at_ms,
figure,d,moved_age_sum_ms,0
figure,d,moved_age_p50_ms,
figure,d,moved_age_p95_ms,
figure,d,moved_age_p99_ms,
figure,d,moved_age_greatest_ms,
figure,d,moved_age_window_p95_ms,
figure,d,moved_age_window_p95_at_ms,
figure,d,age_p50_least_ms,24
figure,d,age_p50_most_ms,
figure,d,age_p95_least_ms,44
figure,d,age_p95_most_ms,
figure,d,age_p99_least_ms,44
figure,d,age_p99_most_ms,
figure,d,age_greatest_least_ms,44
figure,d,age_greatest_most_ms,
figure,d,age_window_p95_least_ms,44
figure,d,age_window_p95_most_ms,
figure,d,new_age_p50_least_ms,24
figure,d,new_age_p50_most_ms,
figure,d,new_age_p95_least_ms,44
figure,d,new_age_p95_most_ms,
figure,d,new_age_p99_least_ms,44
figure,d,new_age_p99_most_ms,
figure,d,new_age_greatest_least_ms,44
figure,d,new_age_greatest_most_ms,
figure,d,new_age_window_p95_least_ms,44
figure,d,new_age_window_p95_most_ms,
figure,d,moved_age_p50_least_ms,
figure,d,moved_age_p50_most_ms,
figure,d,moved_age_p95_least_ms,
figure,d,moved_age_p95_most_ms,
figure,d,moved_age_p99_least_ms,
figure,d,moved_age_p99_most_ms,
figure,d,moved_age_greatest_least_ms,
figure,d,moved_age_greatest_most_ms,
figure,d,moved_age_window_p95_least_ms,
figure,d,moved_age_window_p95_most_ms,
figure,c,sent,0
figure,c,sent_again,0
figure,c,came_by_forward,1
figure,c,came_by_redrive,0
figure,c,came_by_move,0
figure,c,forwarded_again,0
figure,c,receives,5
figure,c,waits,1
figure,c,empty_receives,1
figure,c,deleted,3
figure,c,deletes_by_older_receipt,0
figure,c,deletes_of_gone,0
figure,c,changes,0
figure,c,failed_services,1
figure,c,forwarded,1
figure,c,dead_lettered,0
figure,c,moved_away,0
figure,c,lost_by_expiry,0
figure,c,refused_sends,0
figure,c,refused_receives,0
figure,c,refused_deletes,0
figure,c,refused_changes,0
figure,c,starts,1
figure,c,cancels,0
figure,c,refused_starts,0
figure,c,refused_cancels,1
figure,c,copies_changed,0
figure,c,SendMessage,1
figure,c,ReceiveMessage,5
figure,c,DeleteMessage,3
figure,c,ChangeMessageVisibility,0
figure,c,StartMessageMoveTask,1
figure,c,CancelMessageMoveTask,1
figure,c,requests,11
figure,c,refused_requests,1
figure,c,services,4
figure,c,batches,4
figure,c,busy_ms,50
figure,c,busy_permille,555
figure,q,door_age_sum_ms,
figure,q,door_age_p50_ms,
figure,q,door_age_p95_ms,
figure,q,door_age_p99_ms,
figure,q,door_age_greatest_ms,
figure,q,door_age_window_p95_ms,
figure,q,door_age_window_p95_at_ms,
figure,q,door_age_open,1
figure,q,door_age_may_come,0
figure,d,door_age_sum_ms,0
figure,d,door_age_p50_ms,
figure,d,door_age_p95_ms,
figure,d,door_age_p99_ms,
figure,d,door_age_greatest_ms,
figure,d,door_age_window_p95_ms,
figure,d,door_age_window_p95_at_ms,
figure,d,door_age_open,0
figure,d,door_age_may_come,1
figure,c,forwards_in_doubt,0
";

pub fn text(rt: &impl Abort, alloc: Global, name: &[u8]) -> Text {
    Text::new(name.to_vec(alloc).expect(rt, "memory"))
}

// The receipt of a row: that of a delete is the newest of its message. The messages 0 had been
// received twice by then, and the others once.
fn receipt(queue: u32, kind: RowKind, number: Option<u64>) -> RowReceipt {
    match (kind, number) {
        (RowKind::Delete, Some(number)) => RowReceipt::Given(ReceiptHandle::from(Receipt {
            site: queue,
            number,
            count: if number == 0 { 2 } else { 1 },
        })),
        _ => RowReceipt::Absent,
    }
}

fn rows(rt: &impl Abort, alloc: Global) -> Vec<Row> {
    let mut rows = Vec::new(alloc);
    for &(at, queue, agent, kind, answer, number, detail) in &ROWS {
        let key = Key {
            at,
            agent,
            class: Class::Wake,
            number: 0,
        };
        let message = match number {
            Some(number) => Some(MessageId {
                site: queue,
                number,
            }),
            None => None,
        };
        let row = Row {
            key,
            queue,
            agent,
            kind,
            answer,
            message,
            receipt: receipt(queue, kind, number),
            detail,
        };
        rows.push(row).expect(rt, "memory");
    }
    rows
}

/// A queue with this name and quota.
fn queue(rt: &impl Abort, alloc: Global, name: &[u8], quota: u64) -> QueueAsked {
    QueueAsked {
        name: text(rt, alloc, name),
        quota,
    }
}

/// The figures of no rows, over the stretch from 10 to before 100, where one message that waits is a
/// backlog and a window has 40.
pub fn fresh(rt: &impl Abort, alloc: Global) -> Figures {
    let queues = vec![in alloc; queue(rt, alloc, b"q", 2), queue(rt, alloc, b"d", 10)];
    let actors = vec![in alloc; text(rt, alloc, b"c")].expect(rt, "memory");
    let stretch = Stretch {
        from: 10,
        until: 100,
    };
    let wanted = Wanted {
        stretch,
        backlog: 0,
        window: 40,
    };
    let ways = vec![in alloc; Way { from: 0, to: 1 }].expect(rt, "memory");
    Figures::new(alloc, wanted, queues.expect(rt, "memory"), actors, ways).expect(rt, "memory")
}

#[test]
fn the_figures_of_two_queues_and_a_consumer(rt: HostRuntime) {
    let alloc = rt.alloc();
    let rows = rows(&rt, alloc);
    let (first, second) = rows.as_slice().split_at(rows.len() / 2);
    let mut figures = fresh(&rt, alloc);
    figures.take_rows(first).expect(&rt, "memory");
    for row in second {
        figures.take(&Fact::of(row)).expect(&rt, "memory");
    }
    let text = figures.text(alloc).expect(&rt, "memory");
    same(&rt, text.as_slice(), FIGURES);
}

#[test]
fn a_report_with_figures(rt: HostRuntime) {
    let alloc = rt.alloc();
    let names = vec![in alloc; text(&rt, alloc, b"q"), text(&rt, alloc, b"d")];
    let figures = Some(fresh(&rt, alloc));
    let mut report = Report::new(alloc, names.expect(&rt, "memory"), figures).expect(&rt, "memory");
    let rows = rows(&rt, alloc);
    let (first, second) = rows.as_slice().split_at(rows.len() / 2);
    report.add(first).expect(&rt, "memory");
    for row in second {
        report.add_fact(&Fact::of(row)).expect(&rt, "memory");
    }
    let mut out = ToWriter::new(Vec::new(alloc));
    let answer = report.write_figures(alloc, &mut out);
    same(
        &rt,
        (answer, out.into_inner().as_slice()),
        (Ok(()), FIGURES),
    );
}
