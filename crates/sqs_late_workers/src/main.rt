//! A rehearsal whose workers are late: after each piece of work a worker yields a thousand times
//! before it hands the piece back. It tests the gate: what the program writes must not depend on
//! how long workers take, and running out of memory must end it with all workers joined.
//!
//! It reads the scenario of three queues from standard input and rehearses it with three workers,
//! each queue in a partition of its own. It writes log and ending to standard output. The status is
//! 0, or the number of the error.
#![tactic(auto)]

ghost use Rattle.std.specs.Process.{exit_status};
ghost use Rattle.std.specs.Prelude.{◌≡◌};
ghost use Rattle.sqs_late_workers.specs.Statuses.{status_of};

use sim_clock::Refusal;
use sim_records::ToWriter;
use sim_scenario::Scripts;
use sim_workers::Pause;
use sqs_rehearsal::{Fault, Options, rehearse};
use std::alloc::{AllocError, Global};
use std::io::Read;
use std::process::ExitCode;
use std::sync::Wait;
use std::thread::{Threads, yield_now};

// The greatest length of a scenario, in bytes.
const MOST_BYTES: usize = 4096;

// How often a worker yields after a piece.
const TURNS: u32 = 1000;

// A gate that is late.
struct Late;

impl Pause for Late {
    fn parts_at_once(&self) -> bool {
        true
    }

    fn before(&self) {}

    fn after(&self, _rows: u64) {
        for _ in 0..TURNS {
            yield_now();
        }
    }
}

// The split of the three queues: each in a partition of its own, with three workers.
fn apart(alloc: Global) -> Result<Options, AllocError> {
    Ok(Options {
        window: None,
        parts: None,
        map: Some([0, 1, 2].to_vec(alloc)?),
        workers: 3,
        figures: None,
    })
}

// The status of a fault: the number of its error.
fn status(fault: &Fault) -> u8
    ensures { result ≡ status_of fault.now }
{
    match fault {
        Fault::Scenario(fault) => fault.refusal.code(),
        Fault::Refused(refusal) => refusal.code(),
    }
}

// Rehearses a scenario with workers that are late.
fn rehearsed<W: Threads + Wait + Sync>(
    rt: &HostRuntime,
    threads: &W,
    text: &[u8],
) -> Result<(), Fault> {
    let Ok(split) = apart(rt.alloc()) else {
        return Err(Fault::from(Refusal::Memory));
    };
    let scripts = Scripts::new(Vec::new(rt.alloc()));
    let mut log = ToWriter::new(rt.stdout());
    let mut ending = ToWriter::new(rt.stdout());
    rehearse(
        threads,
        rt.alloc(),
        text,
        &scripts,
        &split,
        &Late,
        &mut log,
        &mut ending,
    )
}

fn main(rt: HostRuntime) -> ExitCode {
    let mut bytes = [0; MOST_BYTES];
    let Ok(count) = rt.stdin().read(&mut bytes) else {
        return ExitCode::from(1);
    };
    match rehearsed(&rt, &rt, &bytes[..count]) {
        Ok(()) => ExitCode::SUCCESS,
        Err(fault) => ExitCode::from(status(&fault)),
    }
}
