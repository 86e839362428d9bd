//! Logs that are read: the figures of their rows, compared with those worked out by hand; and each
//! fault of a log, with its line. There are the queues `q` and `d`, whose numbers are 0 and 1, the
//! consumer `c`, 2, the producer `p`, 3, and the task `m`, 4.
use crate::tests::figures::{FIGURES, fresh, text};
use crate::tests::same::same;
use sim_logs::{LogFault, read_log};
use sim_records::Names;
use std::alloc::Global;
use std::io::{BufReader, Error, ErrorKind, Read, Result as IoResult};
use std::process::Abort;

/// The log of the rows whose figures are in `figures.rt`.
const LOG: &[u8] = b"at,queue,agent,call,answer,message,receipt,detail
5,q,p,send,new,m-0-0,,00112233445566778899aabbccddeeff
10,q,p,send,new,m-0-1,,00112233445566778899aabbccddeeff
20,q,c,receive,ok,m-0-0,r-0-0-1,o-0-0
20,q,c,receive,ok,m-0-1,r-0-1-1,o-0-1
30,q,c,fail,ok,m-0-0,r-0-0-1,
40,q,c,forward,out,m-0-1,,d
50,q,c,delete,deleted,m-0-1,r-0-1-1,40
51,q,c,receive,wait,,,
55,d,c,arrive,new,m-1-0,,o-1-0
60,q,c,receive,ok,m-0-0,r-0-0-2,o-0-0
70,q,c,delete,deleted,m-0-0,r-0-0-2,65
71,q,c,receive,empty,,,
75,d,q,arrive,new,m-1-1,,o-0-4
80,q,m,arrive,new,m-0-2,,o-0-5
85,q,m,arrive,new,m-0-3,,o-0-6
90,q,c,receive,ok,m-0-2,r-0-2-1,o-0-5
96,q,c,receive,ok,m-0-3,r-0-3-1,o-0-6
97,q,c,delete,deleted,m-0-3,r-0-3-1,12
98,q,c,start,ok,,,m
99,q,c,cancel,NoTask,,,m
100,q,p,send,new,m-0-4,,00112233445566778899aabbccddeeff
120,q,c,delete,deleted,m-0-2,r-0-2-1,40
";

/// The header of the final queues.
const LAST: &[u8] = b"final,queue,message,origin,place,due,enqueued,receives,group,md5\n";

/// What stands behind that header.
const BEHIND: &[u8] = b"transfer,from,to,kind,due,number,message,origin,md5\n";

/// Rows that the program writes: each kind with each of its answers. A handle is any text, and has
/// quotes if it needs them.
const WRITTEN: [&[u8]; 29] = [
    b"1,q,p,send,repeat,m-0-1,,00112233445566778899aabbccddeeff\n",
    b"1,q,p,send,BadDelay,,,\n",
    b"1,q,p,send,MissingGroup,,,\n",
    b"1,q,p,send,MissingDeduplication,,,\n",
    b"1,q,c,receive,OverLimit,,,\n",
    b"1,q,c,receive,BadTimeout,,,\n",
    b"1,q,c,delete,kept,m-0-1,r-0-1-1,\n",
    b"1,q,c,delete,gone,m-0-1,r-0-1-1,\n",
    b"1,q,c,delete,ReceiptHandleIsInvalid,,any text,\n",
    b"1,q,c,delete,ReceiptHandleIsInvalid,,\"a,\"\"b\nc\",\n",
    b"1,q,c,delete,ReceiptHandleIsInvalid,,\"\n\",\n",
    b"1,q,c,delete,ReceiptHandleIsInvalid,,r-0-01-1,\n",
    b"1,q,c,change,ok,m-0-1,r-0-1-1,43200\n",
    b"1,q,c,change,MessageNotInflight,,r-0-1-1,\n",
    b"1,q,c,start,TaskRunning,,,m\n",
    b"1,q,c,cancel,ok,,,m\n",
    b"1,q,q,release,visible,m-0-1,,\n",
    b"1,q,q,redrive,out,m-0-1,,d\n",
    b"1,d,m,move,out,m-1-1,,q\n",
    b"1,d,q,arrive,repeat,m-1-1,,o-0-1\n",
    b"1,q,q,expire,expired,m-0-1,,345600000\n",
    b"1,d,m,task,Completed,,,0\n",
    b"1,d,m,task,Failed,,,18446744073709551615\n",
    b"1,q,c,scale,ok,,,1/4\n",
    b"1,q,c,scale,ok,,,4294967295/0\n",
    b"1,q,q,sample,ok,,,1/0/2\n",
    b"18446744073709551615,q,q,release,visible,m-4294967295-18446744073709551615,,\n",
    b"1,q,c,change,BadTimeout,,r-0-1-1,\n",
    b"1,q,c,delete,ReceiptHandleIsInvalid,,,\n",
];

/// Lines that are no rows of these names.
const NO_ROWS: [&[u8]; 38] = [
    b"1,q,q,release,visible,m-0-1,,",
    b"1,q,q,release,visible,m-0-1,\n",
    b"1,q,q,release,visible,m-0-1,,,\n",
    b"1,q,q,release,visible,m-0-1,,\r\n",
    b"\n",
    b"01,q,q,release,visible,m-0-1,,\n",
    b"+1,q,q,release,visible,m-0-1,,\n",
    b"18446744073709551616,q,q,release,visible,m-0-1,,\n",
    b",q,q,release,visible,m-0-1,,\n",
    b"1,r,q,release,visible,m-0-1,,\n",
    b"1,,q,release,visible,m-0-1,,\n",
    b"1,q,,release,visible,m-0-1,,\n",
    b"1,q,r,release,visible,m-0-1,,\n",
    b"1,q,q,freed,visible,m-0-1,,\n",
    b"1,q,q,release,seen,m-0-1,,\n",
    b"1,q,q,release,ok,m-0-1,,\n",
    b"1,q,q,release,visible,,,\n",
    b"1,q,q,release,visible,m-0-01,,\n",
    b"1,q,q,release,visible,m-0,,\n",
    b"1,q,q,release,visible,o-0-1,,\n",
    b"1,q,q,release,visible,m-0-1,r-0-1-1,\n",
    b"1,q,q,release,visible,m-0-1,,1\n",
    b"1,q,q,redrive,out,m-0-1,,r\n",
    b"1,q,q,expire,expired,m-0-1,,-1\n",
    b"1,q,c,scale,ok,,,1\n",
    b"1,q,c,scale,ok,,,1/2/3\n",
    b"1,q,c,scale,ok,,,1/04\n",
    b"1,q,c,scale,ok,,,1/4294967296\n",
    b"1,q,c,scale,ok,m-0-1,,1/4\n",
    b"1,q,c,scale,Failed,,,1/4\n",
    b"1,q,q,sample,ok,,,1/2\n",
    b"1,q,c,receive,ok,m-0-1,r-0-1-0,o-0-1\n",
    b"1,q,c,receive,ok,m-0-1,,o-0-1\n",
    b"1,q,p,send,new,m-0-1,,00112233445566778899AABBCCDDEEFF\n",
    b"1,q,p,send,new,m-0-1,,0011\n",
    b"1,q,p,send,Memory,,,\n",
    b"1,q,c,delete,ReceiptHandleIsInvalid,,\"plain\",\n",
    b"1,q,c,delete,ReceiptHandleIsInvalid,,\xff,\n",
];

/// A reader all of whose reads fail.
#[derive(Drop)]
struct Broken;

impl Read for Broken {
    fn read(&mut self, _buf: &mut [u8]) -> IoResult<usize> {
        Err(Error::from(ErrorKind::BrokenPipe))
    }
}

fn names(rt: &impl Abort, alloc: Global) -> Names {
    let mut names = Vec::new(alloc);
    for name in [b"q", b"d", b"c", b"p", b"m"] {
        names.push(text(rt, alloc, name)).expect(rt, "memory");
    }
    Names::new(names)
}

/// The fault of a log, if it has one.
fn fault(rt: &impl Abort, alloc: Global, log: &[u8]) -> Option<LogFault> {
    let mut left = log;
    read_log(alloc, names(rt, alloc), fresh(rt, alloc), &mut left).err()
}

/// A log of these two parts.
fn joined(rt: &impl Abort, alloc: Global, first: &[u8], second: &[u8]) -> Vec<u8> {
    let mut log = first.to_vec(alloc).expect(rt, "memory");
    log.extend_from_slice(second).expect(rt, "memory");
    log
}

/// The header of a log.
fn header() -> &'static [u8] {
    &LOG[..50]
}

// Compares the figures of a log with those worked out by hand, and what is not read of it.
fn gives_figures(rt: &impl Abort, alloc: Global, log: &[u8], rest: &[u8]) {
    let mut left = log;
    let figures = match read_log(alloc, names(rt, alloc), fresh(rt, alloc), &mut left) {
        Ok(figures) => figures,
        Err(_) => fresh(rt, alloc),
    };
    let text = figures.text(alloc).expect(rt, "memory");
    same(rt, (text.as_slice(), left), (FIGURES, rest));
}

#[test]
fn the_figures_of_a_log(rt: HostRuntime) {
    gives_figures(&rt, rt.alloc(), LOG, b"");
}

#[test]
fn a_log_ends_before_the_final_queues(rt: HostRuntime) {
    let alloc = rt.alloc();
    let whole = joined(&rt, alloc, LOG, LAST);
    gives_figures(&rt, alloc, whole.as_slice(), b"");
    let output = joined(&rt, alloc, whole.as_slice(), BEHIND);
    gives_figures(&rt, alloc, output.as_slice(), BEHIND);
}

#[test]
fn rows_that_the_program_writes(rt: HostRuntime) {
    let alloc = rt.alloc();
    for row in WRITTEN {
        let log = joined(&rt, alloc, header(), row);
        same(&rt, (row, fault(&rt, alloc, log.as_slice())), (row, None));
    }
}

#[test]
fn lines_that_are_no_rows(rt: HostRuntime) {
    let alloc = rt.alloc();
    for line in NO_ROWS {
        let log = joined(&rt, alloc, header(), line);
        let no_row = Some(LogFault::NoRow { line: 2 });
        same(
            &rt,
            (line, fault(&rt, alloc, log.as_slice())),
            (line, no_row),
        );
    }
    let log = joined(&rt, alloc, LOG, b"5");
    let no_row = Some(LogFault::NoRow { line: 24 });
    same(&rt, fault(&rt, alloc, log.as_slice()), no_row);
}

#[test]
fn a_row_of_an_earlier_moment(rt: HostRuntime) {
    let alloc = rt.alloc();
    let log = joined(&rt, alloc, LOG, b"119,q,c,receive,empty,,,\n");
    let earlier = Some(LogFault::Earlier { line: 24 });
    same(&rt, fault(&rt, alloc, log.as_slice()), earlier);
    let log = joined(&rt, alloc, LOG, b"120,q,c,receive,empty,,,\n");
    same(&rt, fault(&rt, alloc, log.as_slice()), None);
}

#[test]
fn no_header(rt: HostRuntime) {
    let alloc = rt.alloc();
    let logs: [&[u8]; 4] = [b"", &LOG[..49], &LOG[50..], LAST];
    for log in logs {
        let no_header = Some(LogFault::NoHeader);
        same(&rt, (log, fault(&rt, alloc, log)), (log, no_header));
    }
    same(&rt, fault(&rt, alloc, header()), None);
}

#[test]
fn a_log_that_cannot_be_read(rt: HostRuntime) {
    let alloc = rt.alloc();
    let mut log = BufReader::new(alloc, header().chain(Broken)).expect(&rt, "memory");
    let answer = read_log(alloc, names(&rt, alloc), fresh(&rt, alloc), &mut log);
    same(&rt, answer.err(), Some(LogFault::Unreadable));
}
