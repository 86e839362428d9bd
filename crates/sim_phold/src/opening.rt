//! Worlds of PHOLD.
ghost use Rattle.std.specs.Prelude.{◌<◌, ◌≡◌, ◌≤◌, ◌++◌, All, IfErr, IfOk, OnOk};
ghost use Rattle.sim_engine.specs.Limits.{most_count};
ghost use Rattle.sim_engine.specs.Simulated.{IsSimulated};
ghost use Rattle.sim_phold.specs.Opening.{opening_events, opening_process, phold_setting, ways_from};
ghost use Rattle.sim_phold.specs.Phold.{phold, phold_conditions};

use crate::process::Process;
use rand_pcg::Pcg32;
use sim_clock::{Agenda, Class, Key, Refusal};
use sim_engine::Edge;
use sim_windows::World;
use std::alloc::Global;

/// What a run of PHOLD is over.
#[derive(Clone, Copy, Debug, PartialEq, Eq)]
pub struct Workload {
    /// The number of processes.
    pub processes: u32,
    /// The number of events with which each process begins.
    pub events: u32,
    /// The least time until an event arrives, in milliseconds.
    pub lookahead: u32,
    /// The greatest time beyond that, in milliseconds.
    pub hold: u32,
    /// With the number of a process it gives the words that the process draws.
    pub seed: u64,
}

// The events with which a process begins.
fn events(alloc: Global, number: u32, count: u32) -> Result<Agenda, Refusal>
    ensures events { IfOk result (λ agenda. agenda ≡ opening_events number count) }
    ensures memory { IfErr result (λ refusal. refusal ≡ Refusal.Memory) }
{
    let mut events = Agenda::new(alloc);
    for event in 0..count {
        events.push(Key {
            at: 0,
            agent: number,
            class: Class::Arrival,
            number: u64::from(event),
        })?;
    }
    Ok(events)
}

// A process that has handled nothing.
fn process(alloc: Global, workload: Workload, number: u32) -> Result<Process, Refusal>
    requires some { 1 ≤ workload.processes }
    ensures opened { IfOk result (λ process. process ≡ opening_process workload number) }
    ensures memory { IfErr result (λ refusal. refusal ≡ Refusal.Memory) }
{
    Ok(Process {
        number,
        last: workload.processes - 1,
        lookahead: workload.lookahead,
        hold: workload.hold,
        words: Pcg32::new(workload.seed, u64::from(number)),
        count: 0,
        arriving: events(alloc, number, workload.events)?,
    })
}

// Adds the ways from a process to each one.
fn add_ways(edges: &mut Vec<Edge>, workload: Workload, from: u32) -> Result<(), Refusal>
    ensures added { OnOk result (edges.new.items ≡ edges.old.items ++ ways_from workload from) }
    ensures memory { IfErr result (λ refusal. refusal ≡ Refusal.Memory) }
{
    for to in 0..workload.processes {
        edges.push(Edge {
            from,
            to,
            least: u64::from(workload.lookahead),
        })?;
    }
    Ok(())
}

/// The world of processes of PHOLD, to be run to a horizon in milliseconds on one thread or in
/// partitions. There is a way from each process to each one, itself included.
///
/// # Errors
///
/// `Memory` if memory runs out.
pub fn open_phold(
    alloc: Global,
    workload: Workload,
    horizon: u64,
) -> Result<World<Process>, Refusal>
    requires some { 1 ≤ workload.processes }
    requires takes_time { 1 ≤ workload.lookahead }
    requires near { workload.lookahead ≤ 900000 }
    requires horizon { horizon ≤ most_count }
    ensures setting { IfOk result (λ world. world ≡ phold_setting workload horizon) }
    ensures simulated { IfOk result (λ world. IsSimulated phold phold_conditions world) }
    ensures horizon { IfOk result (λ world. world.horizon ≤ most_count) }
    ensures ways { IfOk result
        (λ world. All (λ e. (1 ≤ e.least) × (e.least ≤ 900000)) world.edges) }
    ensures memory { IfErr result (λ refusal. refusal ≡ Refusal.Memory) }
{
    let mut sites = Vec::new(alloc);
    let mut edges = Vec::new(alloc);
    for number in 0..workload.processes {
        sites.push(process(alloc, workload, number)?)?;
        add_ways(&mut edges, workload, number)?;
    }
    Ok(World {
        horizon,
        sites,
        edges,
    })
}
