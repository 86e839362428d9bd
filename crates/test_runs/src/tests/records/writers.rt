ghost use Rattle.std.specs.Prelude.{◌≡◌, false};
ghost use Rattle.sim_records.specs.Writers.{has_failed};

use super::{names, write_log};
use crate::tests::row::row;
use crate::tests::same::same;
use sim_clock::Refusal;
use sim_records::{Failed, Lines, Names, Out, ToWriter, write_all, write_rows};
use sqs_message::{Detail, Row, RowAnswer, RowKind};
use std::alloc::Global;
use std::io::{Error, ErrorKind, Write};
use std::process::Abort;

/// How a writer fails.
#[derive(Clone, Copy)]
enum Fault {
    Error(ErrorKind),
    TakesNothing,
}

/// Takes one byte a call. The call after `left` bytes fails, and those after it do not.
#[derive(Drop)]
struct ByteByByte {
    held: Vec<u8>,
    left: usize,
    fault: Fault,
}

impl Write for ByteByByte {
    fn write(&mut self, buf: &[u8]) -> std::io::Result<usize> {
        let Some(byte) = buf.first() else {
            return Ok(0);
        };
        if self.left > 0 {
            self.left -= 1;
            self.held.extend_from_slice(&[*byte])?;
            return Ok(1);
        }
        self.left = 1_000_000;
        match self.fault {
            Fault::Error(kind) => Err(Error::from(kind)),
            Fault::TakesNothing => Ok(0),
        }
    }

    fn flush(&mut self) -> std::io::Result<()> {
        Ok(())
    }
}

/// Counts its flushes, which fail or not.
#[derive(Drop)]
struct Flushed {
    count: u8,
    fails: bool,
}

impl Write for Flushed {
    fn write(&mut self, buf: &[u8]) -> std::io::Result<usize> {
        Ok(buf.len())
    }

    fn flush(&mut self) -> std::io::Result<()> {
        self.count = self.count.wrapping_add(1);
        if self.fails {
            Err(Error::from(ErrorKind::Interrupted))
        } else {
            Ok(())
        }
    }
}

fn writer(alloc: Global, left: usize, fault: Fault) -> ToWriter<ByteByByte>
    ensures { has_failed result ≡ false }
{
    ToWriter::new(ByteByByte {
        held: Vec::new(alloc),
        left,
        fault,
    })
}

/// Compares the result of a call, and what the writer holds after it.
fn try_held(
    rt: &impl Abort,
    out: &ToWriter<ByteByByte>,
    answer: Result<(), Refusal>,
    wanted: (Result<(), Refusal>, &[u8]),
) {
    same(rt, (answer, out.get_ref().held.as_slice()), wanted);
}

#[test]
fn a_byte_a_call_is_the_same(rt: HostRuntime) {
    let names = names(&rt, rt.alloc());
    let rows = [row(0, 0, RowKind::Send, RowAnswer::New, Detail::Queue(1))];
    let mut out = writer(rt.alloc(), 1_000_000, Fault::TakesNothing);
    let answer = write_log(rt.alloc(), &mut out, &rows, &names);
    let log = b"at,queue,agent,call,answer,message,receipt,detail\n0,q,s,send,new,,,d\n";
    try_held(&rt, &out, answer, (Ok(()), log));
}

/// Writes a record as a line.
fn write_line<W: Out>(
    rt: &impl Abort,
    alloc: Global,
    out: &mut W,
    fields: &[&[u8]],
) -> Result<(), Refusal>
    requires { (W.state out.old).failed ≡ false }
{
    let mut lines = Lines::new(alloc);
    lines.add(fields).expect(rt, "memory");
    let bytes = lines.into_bytes().expect(rt, "memory");
    write_all(out, bytes.as_slice())?;
    Ok(())
}

/// Compares what a writer whose call after `left` bytes fails holds of a record's line.
fn try_record(rt: &impl Abort, alloc: Global, left: usize, fault: Fault, prefix: &[u8]) {
    let mut out = writer(alloc, left, fault);
    let answer = write_line(rt, alloc, &mut out, &[b"a", b"\"", b""]);
    try_held(rt, &out, answer, (Err(Refusal::Write), prefix));
}

#[test]
fn each_failing_call_leaves_what_came_before(rt: HostRuntime) {
    let line = b"a,\"\"\"\",\n".as_slice();
    for left in 0..line.len() {
        let prefix = &line[..left];
        let (interrupted, broken) = (ErrorKind::Interrupted, ErrorKind::BrokenPipe);
        try_record(&rt, rt.alloc(), left, Fault::TakesNothing, prefix);
        try_record(&rt, rt.alloc(), left, Fault::Error(interrupted), prefix);
        try_record(&rt, rt.alloc(), left, Fault::Error(broken), prefix);
    }
}

#[test]
fn numbers_stand_behind_the_fields(rt: HostRuntime) {
    let mut lines = Lines::new(rt.alloc());
    let numbers = [Some(0), None, Some(17), Some(u128::MAX)];
    let added = lines.add_numbers(&[b"a", b"b,c"], &numbers);
    added.expect(&rt, "memory");
    let bytes = lines.into_bytes().expect(&rt, "memory");
    let line = b"a,\"b,c\",0,,17,340282366920938463463374607431768211455\n".as_slice();
    same(&rt, bytes.as_slice(), line);
}

/// Compares what a writer whose call after `left` bytes fails holds of some rows.
fn try_rows(rt: &impl Abort, alloc: Global, given: (&[Row], &Names), left: usize, prefix: &[u8]) {
    let mut out = writer(alloc, left, Fault::Error(ErrorKind::Interrupted));
    let answer = write_rows(alloc, &mut out, given.0, given.1);
    try_held(rt, &out, answer, (Err(Refusal::Write), prefix));
}

#[test]
fn a_failing_call_ends_the_rows(rt: HostRuntime) {
    let names = names(&rt, rt.alloc());
    let rows = [
        row(0, 0, RowKind::Send, RowAnswer::New, Detail::Absent),
        row(1, 0, RowKind::Send, RowAnswer::New, Detail::Absent),
    ];
    let lines = b"0,q,s,send,new,,,\n1,q,s,send,new,,,\n".as_slice();
    for left in 0..lines.len() {
        try_rows(&rt, rt.alloc(), (&rows, &names), left, &lines[..left]);
    }
}

#[test]
fn an_empty_piece_is_written(rt: HostRuntime) {
    let mut out = ToWriter::new(Vec::new(rt.alloc()));
    let taken = out.write(b"").expect(&rt, "a write");
    let answer = write_all(&mut out, b"");
    same(&rt, (taken, answer, out.get_ref().len()), (0, Ok(()), 0));
}

#[test]
fn flushes_reach_the_writer(rt: HostRuntime) {
    let mut out = ToWriter::new(Flushed {
        count: 0,
        fails: false,
    });
    write_all(&mut out, b"abc").expect(&rt, "a write");
    same(&rt, out.get_ref().count, 0);
    out.flush().expect(&rt, "a flush");
    out.flush().expect(&rt, "a flush");
    same(&rt, out.get_ref().count, 2);
}

#[test]
fn a_flush_fails(rt: HostRuntime) {
    let mut out = ToWriter::new(Flushed {
        count: 0,
        fails: true,
    });
    same(&rt, (out.flush(), out.get_ref().count), (Err(Failed), 1));
}
