//! What no clause says: the bytes themselves, compared with values worked out by hand. Also what a
//! caller can learn of its writer and its report once a sink is gone.
ghost use Rattle.std.specs.Prelude.{◌≡◌, ◌⊎◌, ◌++◌, false, map, IfErr, OnOk};
ghost use Rattle.std.specs.Io.KnownBytes.{Appends};
ghost use Rattle.sqs_formats.specs.Rows.{lines, row_fields};
ghost use Rattle.sim_records.specs.Writers.{has_failed};
ghost use Rattle.sqs_rehearsal.specs.Sinks.{Added};

use crate::tests::row::row;
use crate::tests::same::same;
use sim_clock::Refusal;
use sim_records::{Names, Out, ToWriter};
use sim_report::{Finals, Report};
use sim_windows::RowSink;
use sqs_message::{Detail, Row, RowAnswer, RowKind, Text};
use sqs_model::{FinalMessages, FinalTasks, FinalTransfers};
use sqs_rehearsal::{Counter, Recorder, Unwatched, Watch};
use std::alloc::Global;
use std::io::{Error, ErrorKind, Write};
use std::process::Abort;

/// The lines of the first batch of rows.
const FIRST_LINES: &[u8] = b"0,q,s,send,new,,,\n1,q,s,receive,ok,,,\n";

/// The lines of both batches of rows.
const LINES: &[u8] =
    b"0,q,s,send,new,,,\n1,q,s,receive,ok,,,\n6,q,s,delete,deleted,,,5\n7,d,s,send,new,,,\n";

/// The report of both batches of rows.
const REPORT: &[u8] =
    b"report,queue,sends,repeats,receives,empties,deletes,expiries,redrives,moves,arrivals,OverLimit,MessageNotInflight,ReceiptHandleIsInvalid,BadTimeout,MissingGroup,MissingDeduplication,BadDelay,TaskRunning,NoTask,depth_max,visible,in_flight,delayed,age_sum,age_max,age_p50,age_p95,age_p99\nreport,q,1,0,1,0,1,0,0,0,0,0,0,0,0,0,0,0,0,0,1,0,0,0,5,5,5,5,5\nreport,d,1,0,0,0,0,0,0,0,0,0,0,0,0,0,0,0,0,0,1,0,0,0,0,,,,\n";

/// These names, by number.
fn texts(rt: &impl Abort, alloc: Global, names: &[&[u8]]) -> Vec<Text> {
    let mut texts = Vec::new(alloc);
    for name in names {
        let name = name.to_vec(alloc).expect(rt, "memory");
        texts.push(Text::new(name)).expect(rt, "memory");
    }
    texts
}

/// The queues `q` and `d`, and the actor `s`.
fn names(rt: &impl Abort, alloc: Global) -> Names {
    Names::new(texts(rt, alloc, &[b"q", b"d", b"s"]))
}

/// The report of no rows of the queues `q` and `d`.
fn report(rt: &impl Abort, alloc: Global) -> Report {
    Report::new(alloc, texts(rt, alloc, &[b"q", b"d"]), None).expect(rt, "memory")
}

/// The first batch of rows.
fn first() -> [Row; 2] {
    [
        row(0, 0, RowKind::Send, RowAnswer::New, Detail::Absent),
        row(1, 0, RowKind::Receive, RowAnswer::Ok, Detail::Absent),
    ]
}

/// The second batch of rows.
fn second() -> [Row; 2] {
    [
        row(6, 0, RowKind::Delete, RowAnswer::Deleted, Detail::Age(5)),
        row(7, 1, RowKind::Send, RowAnswer::New, Detail::Absent),
    ]
}

/// Compares the bytes of a report, with nothing left at the end.
fn try_report(rt: &impl Abort, alloc: Global, report: &Report) {
    let finals = Finals {
        messages: FinalMessages::new(Vec::new(alloc)),
        transfers: FinalTransfers::new(Vec::new(alloc)),
        tasks: FinalTasks::new(Vec::new(alloc)),
    };
    let mut out = ToWriter::new(Vec::new(alloc));
    let answer = report.write_report(alloc, &mut out, &finals);
    same(rt, (answer, out.get_ref().as_slice()), (Ok(()), REPORT));
}

/// Hands rows to a sink in two batches.
fn in_two_batches<S: RowSink<Row>>(
    sink: &mut S,
    first: &[Row],
    second: &[Row],
) -> Result<(), Refusal>
    requires { S.ready sink.old }
    ensures took { OnOk result (S.took sink.old (first.now ++ second.now) sink.new) }
    ensures broke { IfErr result (λ refusal.
        S.broke sink.old first.now refusal sink.new
        ⊎ S.broke sink.old (first.now ++ second.now) refusal sink.new) }
{
    sink.take(first)?;
    sink.take(second)
}

/// Counts rows that come in two batches.
fn count(report: &mut Report, first: &[Row], second: &[Row]) -> Result<(), Refusal>
    ensures { OnOk result (Added report.old (first.now ++ second.now) report.new) }
{
    let mut counter = Counter { report };
    in_two_batches(&mut counter, first, second)
}

/// Records rows that come in two batches.
fn record<'a, W: Out, P: Watch>(
    alloc: Global,
    names: &'a Names,
    out: &'a mut W,
    report: &'a mut Report,
    watch: &'a mut P,
    first: &[Row],
    second: &[Row],
) -> Result<(), Refusal>
    requires { (W.state out.old).failed ≡ false }
    ensures written { OnOk result (Appends (W.state out.old).held (W.state out.new).held
        (lines (map (row_fields names.now) (first.now ++ second.now)))) }
    ensures added { OnOk result (Added report.old (first.now ++ second.now) report.new) }
{
    let mut recorder = Recorder {
        alloc,
        names,
        out,
        report,
        watch,
        horizon: 1000,
    };
    in_two_batches(&mut recorder, first, second)
}

#[test]
fn two_batches_are_counted(rt: HostRuntime) {
    let mut report = report(&rt, rt.alloc());
    let answer = count(&mut report, &first(), &second());
    same(&rt, answer, Ok(()));
    try_report(&rt, rt.alloc(), &report);
}

#[test]
fn two_batches_are_written_and_counted(rt: HostRuntime) {
    let (alloc, names) = (rt.alloc(), names(&rt, rt.alloc()));
    let mut out = ToWriter::new(Vec::new(alloc));
    let mut report = report(&rt, alloc);
    let watch = &mut Unwatched;
    let answer = record(
        alloc,
        &names,
        &mut out,
        &mut report,
        watch,
        &first(),
        &second(),
    );
    same(&rt, (answer, out.into_inner().as_slice()), (Ok(()), LINES));
    try_report(&rt, alloc, &report);
}

/// What a watch gets for both batches: each time the last moment, the horizon, and the number of
/// rows.
const TOLD: &[[u64; 3]] = &[[1, 1000, 2], [7, 1000, 2]];

/// Keeps what it gets.
#[derive(Drop)]
struct Told {
    calls: Vec<[u64; 3]>,
}

impl Watch for Told {
    fn came_to(&mut self, moment: u64, horizon: u64, rows: usize) {
        let _ = self.calls.push([moment, horizon, rows as u64]);
    }
}

#[test]
fn a_watch_is_told_the_last_moment_of_each_batch(rt: HostRuntime) {
    let (alloc, names) = (rt.alloc(), names(&rt, rt.alloc()));
    let mut out = ToWriter::new(Vec::new(alloc));
    let mut report = report(&rt, alloc);
    let mut told = Told {
        calls: Vec::new(alloc),
    };
    let answer = record(
        alloc,
        &names,
        &mut out,
        &mut report,
        &mut told,
        &first(),
        &second(),
    );
    same(&rt, answer, Ok(()));
    same(&rt, told.calls.as_slice(), TOLD);
}

/// Takes a limited number of bytes, and then returns an error.
#[derive(Drop)]
struct Limited {
    held: Vec<u8>,
    left: usize,
}

impl Write for Limited {
    fn write(&mut self, buf: &[u8]) -> std::io::Result<usize> {
        let taken = buf.len().min(self.left);
        if taken == 0 {
            return Err(Error::from(ErrorKind::StorageFull));
        }
        self.held.extend_from_slice(&buf[..taken])?;
        self.left -= taken;
        Ok(taken)
    }

    fn flush(&mut self) -> std::io::Result<()> {
        Ok(())
    }
}

/// A writer that takes `left` bytes.
fn writer(alloc: Global, left: usize) -> ToWriter<Limited>
    ensures { has_failed result ≡ false }
{
    ToWriter::new(Limited {
        held: Vec::new(alloc),
        left,
    })
}

/// Compares what a writer that takes `left` bytes holds of both batches.
fn try_prefix(rt: &impl Abort, alloc: Global, names: &Names, left: usize, prefix: &[u8]) {
    let mut out = writer(alloc, left);
    let mut report = report(rt, alloc);
    let watch = &mut Unwatched;
    let answer = record(
        alloc,
        names,
        &mut out,
        &mut report,
        watch,
        &first(),
        &second(),
    );
    let held = out.get_ref().held.as_slice();
    same(rt, (answer, held), (Err(Refusal::Write), prefix));
}

#[test]
fn a_writer_that_fails_ends_the_rows(rt: HostRuntime) {
    let names = names(&rt, rt.alloc());
    for left in [0, FIRST_LINES.len() - 1, FIRST_LINES.len(), LINES.len() - 1] {
        try_prefix(&rt, rt.alloc(), &names, left, &LINES[..left]);
    }
}
