//! Whole rehearsals, to the byte, whose writers take one byte a call and may fail.
ghost use Rattle.std.specs.Prelude.{◌≡◌, false};
ghost use Rattle.sim_records.specs.Writers.{has_failed};

use crate::tests::worked::{ONE_SEND, Worked};
use sim_clock::Refusal;
use sim_records::ToWriter;
use sim_report::{Stretch, Wanted};
use sim_scenario::{Draft, Scripts};
use sqs_rehearsal::{Fault, Gate, Open, Options, Running, rehearse, rehearse_alone};
use std::alloc::Global;
use std::io::{Error, ErrorKind, Write};
use std::sync::Wait;
use std::thread::Threads;

/// Takes one byte a call, and fails after a number of calls; a flush is a call, too.
#[derive(Drop)]
struct ByteByByte {
    held: Vec<u8>,
    left: usize,
}

impl Write for ByteByByte {
    fn write(&mut self, buf: &[u8]) -> std::io::Result<usize> {
        let Some(byte) = buf.first() else {
            return Ok(0);
        };
        if self.left == 0 {
            return Err(Error::from(ErrorKind::Interrupted));
        }
        self.left -= 1;
        self.held.extend_from_slice(&[*byte])?;
        Ok(1)
    }

    fn flush(&mut self) -> std::io::Result<()> {
        if self.left == 0 {
            return Err(Error::from(ErrorKind::BrokenPipe));
        }
        Ok(())
    }
}

fn writer(alloc: Global, left: usize) -> ToWriter<ByteByByte>
    ensures { has_failed result ≡ false }
{
    ToWriter::new(ByteByByte {
        held: Vec::new(alloc),
        left,
    })
}

/// The split of a rehearsal with this many partitions, to which the queues are assigned in turn,
/// and this many workers.
pub fn split(parts: u32, workers: u32) -> Options {
    Options {
        window: None,
        parts: Some(parts),
        map: None,
        workers,
        figures: None,
    }
}

/// The end of a rehearsal: whether a writer has failed, and what the log and the other writer have
/// got.
type End<'a> = (bool, &'a [u8], &'a [u8]);

/// The end of a rehearsal that is written whole.
pub fn whole(given: Worked) -> End<'static> {
    (false, given.log, given.ending)
}

/// The number of calls of a writer that takes everything.
pub const MANY: usize = 1_000_000;

/// Whether a rehearsal returned that a writer has failed, or else no error.
fn has_answered(answer: &Result<(), Fault>, has_failed: bool) -> bool {
    match answer {
        Ok(()) => !has_failed,
        Err(Fault::Refused(Refusal::Write)) => has_failed,
        Err(_) => false,
    }
}

/// Whether a rehearsal without script files ends in this way, if its pieces go through a gate and
/// its writers fail after a number of calls.
pub fn ends<G: Gate<Running> + Sync, W: Threads + Wait + Sync>(
    rt: &W,
    alloc: Global,
    text: &[u8],
    split: &Options,
    gate: &G,
    (log_calls, ending_calls): (usize, usize),
    wanted: End<'_>,
) -> bool {
    let mut log = writer(alloc, log_calls);
    let mut ending = writer(alloc, ending_calls);
    let scripts = Scripts::new(Vec::new(alloc));
    let answer = rehearse(
        rt,
        alloc,
        text,
        &scripts,
        split,
        gate,
        &mut log,
        &mut ending,
    );
    let is_answered = has_answered(&answer, wanted.0);
    let (log, ending) = (log.into_inner().held, ending.into_inner().held);
    is_answered && log.as_slice() == wanted.1 && ending.as_slice() == wanted.2
}

/// A writer that fails after n calls has the first n bytes of what it should get. If it is that of
/// the log, nothing else is written; else the log is. Returns the first number of calls for which
/// this is not so.
pub fn wrong_cut<W: Threads + Wait + Sync>(
    rt: &W,
    alloc: Global,
    split: &Options,
    given: Worked,
    of_log: bool,
) -> Option<usize> {
    let whole = if of_log { given.log } else { given.ending };
    for left in 0..=whole.len() {
        let cut = &whole[..left];
        let (calls, log, ending) = if of_log {
            ((left, MANY), cut, b"".as_slice())
        } else {
            ((MANY, left), given.log, cut)
        };
        if !ends(
            rt,
            alloc,
            given.text,
            split,
            &Open,
            calls,
            (true, log, ending),
        ) {
            return Some(left);
        }
    }
    None
}

/// What a rehearsal on this thread alone writes behind the report, if the rest is what is given.
fn behind_the_report(alloc: Global, given: Worked, figures: Option<Wanted>) -> Option<Vec<u8>> {
    let draft = Draft::parse(alloc, given.text).ok()?;
    let mut log = writer(alloc, MANY);
    let mut ending = writer(alloc, MANY);
    let scripts = Scripts::new(Vec::new(alloc));
    rehearse_alone(alloc, draft, &scripts, figures, &mut log, &mut ending).ok()?;
    let ending = ending.into_inner().held;
    let behind = ending
        .as_slice()
        .strip_prefix(given.ending)?
        .to_vec(alloc)
        .ok()?;
    (log.into_inner().held.as_slice() == given.log).then_some(behind)
}

#[test]
fn figures_follow_the_report_if_they_are_wanted(rt: HostRuntime) {
    let wanted = Wanted {
        stretch: Stretch {
            from: 0,
            until: u64::MAX,
        },
        backlog: 10,
        window: 1,
    };
    let none = behind_the_report(rt.alloc(), ONE_SEND, None);
    assert!(rt; matches!(&none, Some(behind) if behind.is_empty()));
    let some = behind_the_report(rt.alloc(), ONE_SEND, Some(wanted));
    let begin = b"figure,of,name,value\nfigure,q,sent,1\nfigure,q,sent_again,0\n";
    assert!(rt; matches!(&some, Some(behind) if behind.as_slice().starts_with(begin)));
}

#[test]
fn each_failing_call_leaves_what_came_before(rt: HostRuntime) {
    let split = split(1, 1);
    assert_eq!(rt; wrong_cut(&rt, rt.alloc(), &split, ONE_SEND, true), None);
    assert_eq!(rt; wrong_cut(&rt, rt.alloc(), &split, ONE_SEND, false), None);
}
