use super::{ABC, names, text, try_written, write_log};
use crate::tests::row::row;
use crate::tests::same::same;
use sim_clock::Refusal;
use sim_records::{Names, ToWriter, write_row};
use sqs_message::{
    Detail, MessageId, Origin, Receipt, ReceiptHandle, Row, RowAnswer, RowKind, RowReceipt,
};
use std::alloc::Global;
use std::process::Abort;

/// A row of each kind.
const KINDS: [(RowKind, &[u8]); 16] = [
    (RowKind::Send, b"7,q,s,send,ok,,,\n"),
    (RowKind::Receive, b"7,q,s,receive,ok,,,\n"),
    (RowKind::Delete, b"7,q,s,delete,ok,,,\n"),
    (RowKind::Change, b"7,q,s,change,ok,,,\n"),
    (RowKind::Fail, b"7,q,s,fail,ok,,,\n"),
    (RowKind::Forward, b"7,q,s,forward,ok,,,\n"),
    (RowKind::Start, b"7,q,s,start,ok,,,\n"),
    (RowKind::Cancel, b"7,q,s,cancel,ok,,,\n"),
    (RowKind::Release, b"7,q,s,release,ok,,,\n"),
    (RowKind::Redrive, b"7,q,s,redrive,ok,,,\n"),
    (RowKind::Move, b"7,q,s,move,ok,,,\n"),
    (RowKind::Arrive, b"7,q,s,arrive,ok,,,\n"),
    (RowKind::Expire, b"7,q,s,expire,ok,,,\n"),
    (RowKind::Task, b"7,q,s,task,ok,,,\n"),
    (RowKind::Scale, b"7,q,s,scale,ok,,,\n"),
    (RowKind::Sample, b"7,q,s,sample,ok,,,\n"),
];

/// A row with each answer.
const ANSWERS: [(RowAnswer, &[u8]); 15] = [
    (RowAnswer::New, b"7,q,s,send,new,,,\n"),
    (RowAnswer::Repeat, b"7,q,s,send,repeat,,,\n"),
    (RowAnswer::Ok, b"7,q,s,send,ok,,,\n"),
    (RowAnswer::Wait, b"7,q,s,send,wait,,,\n"),
    (RowAnswer::Empty, b"7,q,s,send,empty,,,\n"),
    (RowAnswer::Deleted, b"7,q,s,send,deleted,,,\n"),
    (RowAnswer::Kept, b"7,q,s,send,kept,,,\n"),
    (RowAnswer::Gone, b"7,q,s,send,gone,,,\n"),
    (RowAnswer::Out, b"7,q,s,send,out,,,\n"),
    (RowAnswer::Visible, b"7,q,s,send,visible,,,\n"),
    (RowAnswer::Expired, b"7,q,s,send,expired,,,\n"),
    (RowAnswer::Completed, b"7,q,s,send,Completed,,,\n"),
    (RowAnswer::Failed, b"7,q,s,send,Failed,,,\n"),
    (
        RowAnswer::Refused(Refusal::OverLimit),
        b"7,q,s,send,OverLimit,,,\n",
    ),
    (
        RowAnswer::Refused(Refusal::NoTask),
        b"7,q,s,send,NoTask,,,\n",
    ),
];

const COUNTS: Detail = Detail::Counts {
    visible: 1,
    in_flight: 2,
    delayed: 3,
};

/// A row with each detail.
const DETAILS: [(Detail, &[u8]); 12] = [
    (Detail::Absent, b"7,q,s,sample,ok,,,\n"),
    (
        Detail::Digest([0xab; 16]),
        b"7,q,s,sample,ok,,,abababababababababababababababab\n",
    ),
    (
        Detail::From(Origin { site: 1, number: 9 }),
        b"7,q,s,sample,ok,,,o-1-9\n",
    ),
    (Detail::Age(345_600_000), b"7,q,s,sample,ok,,,345600000\n"),
    (Detail::Timeout(43_200), b"7,q,s,sample,ok,,,43200\n"),
    (Detail::Queue(1), b"7,q,s,sample,ok,,,d\n"),
    (Detail::Task(3), b"7,q,s,sample,ok,,,t\n"),
    (Detail::Task(4), b"7,q,s,sample,ok,,,\n"),
    (Detail::Moved(0), b"7,q,s,sample,ok,,,0\n"),
    (
        Detail::Copies { from: 1, to: 4 },
        b"7,q,s,sample,ok,,,1/4\n",
    ),
    (
        Detail::Copies { from: 1000, to: 0 },
        b"7,q,s,sample,ok,,,1000/0\n",
    ),
    (COUNTS, b"7,q,s,sample,ok,,,1/2/3\n"),
];

/// Compares what is written of a row.
fn try_row(rt: &impl Abort, alloc: Global, names: &Names, row: &Row, line: &[u8]) {
    let mut out = ToWriter::new(Vec::new(alloc));
    let answer = write_row(alloc, &mut out, row, names);
    try_written(rt, &out, answer, line);
}

#[test]
fn each_kind_answer_and_detail(rt: HostRuntime) {
    let (alloc, names) = (rt.alloc(), names(&rt, rt.alloc()));
    for &(kind, line) in &KINDS {
        let row = row(7, 0, kind, RowAnswer::Ok, Detail::Absent);
        try_row(&rt, alloc, &names, &row, line);
    }
    for &(answer, line) in &ANSWERS {
        let row = row(7, 0, RowKind::Send, answer, Detail::Absent);
        try_row(&rt, alloc, &names, &row, line);
    }
    for &(detail, line) in &DETAILS {
        let row = row(7, 0, RowKind::Sample, RowAnswer::Ok, detail);
        try_row(&rt, alloc, &names, &row, line);
    }
}

/// A row with the number of its message, and a receipt.
fn with_receipt(row: Row, number: Option<u64>, receipt: RowReceipt) -> Row {
    let message = match number {
        None => None,
        Some(number) => Some(MessageId { site: 0, number }),
    };
    Row {
        key: row.key,
        queue: row.queue,
        agent: row.agent,
        kind: row.kind,
        answer: row.answer,
        message,
        receipt,
        detail: row.detail,
    }
}

#[test]
fn messages_and_receipts(rt: HostRuntime) {
    let (alloc, names) = (rt.alloc(), names(&rt, rt.alloc()));
    let send = row(0, 0, RowKind::Send, RowAnswer::New, Detail::Digest(ABC));
    let send = with_receipt(send, Some(0), RowReceipt::Absent);
    let line = b"0,q,s,send,new,m-0-0,,900150983cd24fb0d6963f7d28e17f72\n";
    try_row(&rt, alloc, &names, &send, line);
    let receipt = Receipt {
        site: 0,
        number: 12,
        count: 3,
    };
    let receive = row(30_000, 0, RowKind::Receive, RowAnswer::Ok, Detail::Absent);
    let receive = with_receipt(receive, Some(12), RowReceipt::Made(receipt));
    let line = b"30000,q,s,receive,ok,m-0-12,r-0-12-3,\n";
    try_row(&rt, alloc, &names, &receive, line);
    // A receipt with a comma and a quote.
    let receipt = ReceiptHandle::from(text(&rt, alloc, b"r-0,\"x"));
    let refused = RowAnswer::Refused(Refusal::ReceiptHandleIsInvalid);
    let delete = row(5, 0, RowKind::Delete, refused, Detail::Absent);
    let delete = with_receipt(delete, None, RowReceipt::Given(receipt));
    let line = b"5,q,s,delete,ReceiptHandleIsInvalid,,\"r-0,\"\"x\",\n";
    try_row(&rt, alloc, &names, &delete, line);
}

/// A message and a receipt, of which each has numbers of its own.
const RECEIVED: [(MessageId, Receipt, &[u8]); 4] = [
    (
        MessageId { site: 0, number: 7 },
        Receipt {
            site: 0,
            number: 7,
            count: 10,
        },
        b"7,q,s,receive,ok,m-0-7,r-0-7-10,\n",
    ),
    (
        MessageId { site: 0, number: 8 },
        Receipt {
            site: 0,
            number: 7,
            count: 1,
        },
        b"7,q,s,receive,ok,m-0-8,r-0-7-1,\n",
    ),
    (
        MessageId { site: 1, number: 7 },
        Receipt {
            site: 0,
            number: 7,
            count: 1,
        },
        b"7,q,s,receive,ok,m-1-7,r-0-7-1,\n",
    ),
    (
        MessageId {
            site: 10_000,
            number: 1_234_567_890_123,
        },
        Receipt {
            site: 10_000,
            number: 1_234_567_890_123,
            count: 1,
        },
        b"7,q,s,receive,ok,m-10000-1234567890123,r-10000-1234567890123-1,\n",
    ),
];

#[test]
fn a_message_beside_a_receipt(rt: HostRuntime) {
    let (alloc, names) = (rt.alloc(), names(&rt, rt.alloc()));
    for &(message, receipt, line) in &RECEIVED {
        let receive = row(7, 0, RowKind::Receive, RowAnswer::Ok, Detail::Absent);
        let receive = Row {
            message: Some(message),
            ..with_receipt(receive, None, RowReceipt::Made(receipt))
        };
        try_row(&rt, alloc, &names, &receive, line);
    }
}

#[test]
fn a_log_of_two_rows(rt: HostRuntime) {
    let names = names(&rt, rt.alloc());
    let rows = [
        row(0, 0, RowKind::Send, RowAnswer::New, Detail::Absent),
        row(1000, 0, RowKind::Forward, RowAnswer::Ok, Detail::Queue(1)),
    ];
    let mut out = ToWriter::new(Vec::new(rt.alloc()));
    let answer = write_log(rt.alloc(), &mut out, &rows, &names);
    let log =
        b"at,queue,agent,call,answer,message,receipt,detail\n0,q,s,send,new,,,\n1000,q,s,forward,ok,,,d\n";
    try_written(&rt, &out, answer, log);
}

#[test]
fn names_by_number(rt: HostRuntime) {
    let names = names(&rt, rt.alloc());
    let lengths = (names.name(4).len(), names.name(u32::MAX).len());
    same(&rt, (names.as_slice().len(), lengths), (4, (0, 0)));
    same(&rt, names.name(3), b"t".as_slice());
}
