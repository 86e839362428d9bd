//! PHOLD, a workload by which simulators are compared. Processes send events to one another, each
//! to a process and after a time that are drawn at random.
//!
//! The command line has seven numbers: processes, events with which each begins, the least time
//! until an event arrives (the lookahead), the greatest time beyond that, the time of the run,
//! partitions and workers. All times are in milliseconds. It prints how many events the run
//! handles. The status is 0, 2 if the numbers are wrong, or the number of the error.
#![tactic(auto)]

ghost use Rattle.std.specs.Prelude.{◌≡◌, ◌≤◌, IfSome};
ghost use Rattle.sim_engine.specs.Limits.{most_count};

mod counting;
mod opening;
mod process;

use counting::count_events;
use opening::Workload;
use sim_clock::Refusal;
use std::env;
use std::process::ExitCode;

const USAGE: &str =
    "usage: sim_phold PROCESSES EVENTS LOOKAHEAD HOLD TIME PARTITIONS WORKERS (docs/ENGINE.md)";

// The seed of all draws.
const SEED: u64 = 1;

// What the words ask for.
struct Job {
    workload: Workload,
    horizon: u64,
    parts: u32,
    workers: usize,
}

// The numbers of the command line; none if there are not seven words that are numbers.
fn numbers(rt: &HostRuntime) -> Option<[u32; 7]> {
    let mut words = env::args(rt).ok()?;
    words.next();
    let mut numbers = [0; 7];
    for number in &mut numbers {
        *number = words.next()?.parse().ok()?;
    }
    match words.next() {
        None => Some(numbers),
        Some(_) => None,
    }
}

// What seven numbers ask for; none if one of them is out of its range.
fn asked(numbers: [u32; 7]) -> Option<Job>
    ensures some { IfSome result (λ job. 1 ≤ job.workload.processes) }
    ensures takes_time { IfSome result (λ job. 1 ≤ job.workload.lookahead) }
    ensures near { IfSome result (λ job. job.workload.lookahead ≤ 900000) }
    ensures horizon { IfSome result (λ job. job.horizon ≤ most_count) }
    ensures parts { IfSome result (λ job. 1 ≤ job.parts) }
{
    let [processes, events, lookahead, hold, time, parts, workers] = numbers;
    if processes == 0 || lookahead == 0 || 900_000 < lookahead || parts == 0 || workers == 0 {
        return None;
    }
    Some(Job {
        workload: Workload {
            processes,
            events,
            lookahead,
            hold,
            seed: SEED,
        },
        horizon: u64::from(time),
        parts,
        workers: workers as usize,
    })
}

fn main(rt: HostRuntime) -> ExitCode {
    let Some(job) = numbers(&rt).and_then(asked) else {
        let _ = eprintln!(rt; "{USAGE}");
        return ExitCode::from(2);
    };
    let Job {
        workload,
        horizon,
        parts,
        workers,
    } = job;
    match count_events(&rt, rt.alloc(), workload, horizon, parts, workers) {
        Ok(events) => match println!(rt; "{events}") {
            Ok(()) => ExitCode::SUCCESS,
            Err(_) => ExitCode::from(Refusal::Write.code()),
        },
        Err(refusal) => {
            let code = refusal.code();
            let _ = eprintln!(rt; "refused {code} {refusal}");
            ExitCode::from(code)
        }
    }
}
