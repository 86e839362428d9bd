//! Rings of counters, as worlds that may be run.
ghost use Rattle.std.specs.Prelude.{◌<◌, ◌≡◌, ◌≤◌, All, IfErr, IfOk};
ghost use Rattle.sim_engine.specs.Limits.{most_count};
ghost use Rattle.sim_engine.specs.Simulated.{IsSimulated};
ghost use Rattle.sim_ring.specs.Opening.{opening_counter, ring_setting, way_from};
ghost use Rattle.sim_ring.specs.Ring.{ring, ring_conditions};

use crate::counter::Counter;
use sim_clock::{Agenda, Class, Key, Refusal};
use sim_engine::Edge;
use sim_windows::World;
use std::alloc::Global;

// A counter that has counted nothing, and that a token reaches at the beginning.
fn open_counter(alloc: Global, counters: u32, apart: u32, number: u32) -> Result<Counter, Refusal>
    requires { number < counters }
    ensures opened { IfOk result (λ counter. counter ≡ opening_counter counters apart number) }
    ensures memory { IfErr result (λ refusal. refusal ≡ Refusal.Memory) }
{
    let mut arriving = Agenda::new(alloc);
    arriving.push(Key {
        at: 0,
        agent: number,
        class: Class::Arrival,
        number: 0,
    })?;
    Ok(Counter {
        number,
        next: (number + 1) % counters,
        way: apart,
        count: 0,
        arriving,
    })
}

/// The world of a ring of `counters` counters, numbered 0, 1, 2, .., to be run to a horizon, all
/// times in milliseconds. Each sends tokens on to the next one, the last to the first, and a token
/// takes `apart` to get there. At the beginning a token reaches each counter, as if the counter had
/// sent it to itself. The result may be run on one thread or in partitions.
///
/// # Errors
///
/// `Memory` if memory runs out.
pub fn open_ring(
    alloc: Global,
    counters: u32,
    apart: u32,
    horizon: u64,
) -> Result<World<Counter>, Refusal>
    requires some { 1 ≤ counters }
    requires takes_time { 1 ≤ apart }
    requires near { apart ≤ 900000 }
    requires horizon { horizon ≤ most_count }
    ensures setting { IfOk result (λ world. world ≡ ring_setting counters apart horizon) }
    ensures simulated { IfOk result (λ world. IsSimulated ring ring_conditions world) }
    ensures horizon { IfOk result (λ world. world.horizon ≤ most_count) }
    ensures ways { IfOk result
        (λ world. All (λ e. (1 ≤ e.least) × (e.least ≤ 900000)) world.edges) }
    ensures memory { IfErr result (λ refusal. refusal ≡ Refusal.Memory) }
{
    let mut sites = Vec::new(alloc);
    let mut edges = Vec::new(alloc);
    for number in 0..counters {
        let counter = open_counter(alloc, counters, apart, number)?;
        edges.push(Edge {
            from: number,
            to: counter.next,
            least: u64::from(apart),
        })?;
        sites.push(counter)?;
    }
    Ok(World {
        horizon,
        sites,
        edges,
    })
}
