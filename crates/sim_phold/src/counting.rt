//! How many events a run handles.
ghost use Rattle.std.specs.Prelude.{◌≡◌, ◌≤◌, IfErr, IfOk};
ghost use Rattle.sim_clock.specs.declared.refusal.Refusal.{Refusal as TheRefusal};
ghost use Rattle.sim_engine.specs.Limits.{most_count};
ghost use Rattle.sim_phold.specs.Runs.{HandlesSoMany};

use crate::opening::{Workload, open_phold};
use crate::process::Handling;
use sim_clock::Refusal;
use sim_exchange::PartMap;
use sim_windows::RowSink;
use sim_workers::{Open, run_workers};
use std::alloc::Global;
use std::sync::Wait;
use std::thread::Threads;

// Counts the events that a run reports.
#[derive(Drop)]
struct Count {
    events: u64,
}

impl RowSink<Handling> for Count {
    ghost use Rattle.std.specs.Prelude.{◌≡◌, ◌+◌, length};
    ghost use Rattle.std.proofs.Common.{arith};
    ghost use Rattle.sim_clock.specs.declared.refusal.Refusal.TheVariants.{CountLimit};
    ghost use Rattle.sim_phold.specs.Runs.{counted_both};

    ghost ready = { λ _. Unit {0} };

    ghost took = { λ before rows after. after.events ≡ before.events + length rows };

    ghost broke = { λ _ _ refusal _. refusal ≡ CountLimit };

    fn take(&mut self, rows: &[Handling]) -> Result<(), Refusal> {
        let Some(events) = self.events.checked_add(rows.len() as u64) else {
            return Err(Refusal::CountLimit);
        };
        self.events = events;
        Ok(())
    }

    ghost unchanged = { λ sink. omega arith };

    ghost took_both = { λ a b c xs ys first second. counted_both a.events b.events c.events xs ys first second };

    ghost broke_later = { λ _ _ _ _ _ _ _ broke. broke };
}

// Processes in turn go to partitions in turn.
fn in_turn(alloc: Global, processes: u32, parts: u32) -> Result<PartMap, Refusal>
    requires some { 1 ≤ parts }
{
    let mut owners = Vec::new(alloc);
    for number in 0..processes {
        owners.push(number % parts)?;
    }
    PartMap::new(processes as usize, parts, owners)
}

/// The number of events that a run of PHOLD to a horizon (in milliseconds) handles: one with
/// `workers` threads, over so many partitions.
///
/// # Errors
///
/// `BadMap` if there are not 1 to 256 partitions, `Memory` if memory runs out, `NoWorker` if a
/// thread is not started, `CountLimit` if a count passes its limit.
pub fn count_events<W: Threads + Wait + Sync>(
    rt: &W,
    alloc: Global,
    workload: Workload,
    horizon: u64,
    parts: u32,
    workers: usize,
) -> Result<u64, Refusal>
    requires some { 1 ≤ workload.processes }
    requires takes_time { 1 ≤ workload.lookahead }
    requires near { workload.lookahead ≤ 900000 }
    requires horizon { horizon ≤ most_count }
    requires parts { 1 ≤ parts }
    ensures { IfOk result (λ events. HandlesSoMany workload horizon events) }
{
    let map = in_turn(alloc, workload.processes, parts)?;
    let world = open_phold(alloc, workload, horizon)?;
    let mut sink = Count { events: 0 };
    run_workers(rt, alloc, world, map, workers, &Open, &mut sink)?;
    Ok(sink.events)
}
