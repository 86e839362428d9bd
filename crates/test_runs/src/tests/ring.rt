//! A ring of counters, a kind of sites that uses nothing of queues: run on one thread, in
//! partitions pick by pick, and with workers, it gives the same result.
use crate::tests::same::same;
use sim_clock::Refusal;
use sim_engine::Pick;
use sim_exchange::PartMap;
use sim_ring::{Counter, Told, open_ring};
use sim_windows::{Machine, RowSink, run_alone, run_gathered};
use sim_workers::{Open, run_workers};
use std::alloc::{AllocError, Global};
use std::process::Abort;
use std::sync::Wait;
use std::thread::Threads;

/// A row: the moment, the counter, and how many tokens it has counted.
type Line = (u64, u32, u64);

/// Keeps the rows of a run, and the size of each slice in which they came.
#[derive(Drop)]
struct Kept {
    lines: Vec<Line>,
    slices: Vec<usize>,
}

impl Kept {
    /// A sink that has taken nothing.
    fn new(alloc: Global) -> Kept {
        Kept {
            lines: Vec::new(alloc),
            slices: Vec::new(alloc),
        }
    }
}

impl RowSink<Told> for Kept {
    ghost ready = { λ _. Unit {0} };

    ghost took = { λ _ _ _. Unit {0} };

    ghost broke = { λ _ _ _ _. Unit {0} };

    fn take(&mut self, rows: &[Told]) -> Result<(), Refusal> {
        self.slices.push(rows.len())?;
        for row in rows {
            self.lines.push((row.key.at, row.number, row.count))?;
        }
        Ok(())
    }

    ghost unchanged = { λ _. record {} };

    ghost took_both = { λ _ _ _ _ _ _ _. record {} };

    ghost broke_later = { λ _ _ _ _ _ _ _ _. record {} };
}

/// The number of counters and the horizon of the run. Each token takes ten milliseconds.
#[derive(Clone, Copy, Debug)]
struct Ring {
    counters: u32,
    horizon: u32,
}

/// What a sink gets of a ring on one thread.
fn kept_alone(alloc: Global, ring: Ring) -> Result<Kept, Refusal> {
    let world = open_ring(alloc, ring.counters.max(1), 10, u64::from(ring.horizon))?;
    let mut sink = Kept::new(alloc);
    run_alone(alloc, world, &mut sink)?;
    Ok(sink)
}

/// The same run, whose rows wait until there are enough.
fn kept_gathered(alloc: Global, ring: Ring, enough: usize) -> Result<Kept, Refusal> {
    let world = open_ring(alloc, ring.counters.max(1), 10, u64::from(ring.horizon))?;
    let mut sink = Kept::new(alloc);
    run_gathered(alloc, world, enough, &mut sink)?;
    Ok(sink)
}

/// The rows of a ring on one thread.
fn alone(alloc: Global, ring: Ring) -> Result<Vec<Line>, Refusal> {
    Ok(kept_alone(alloc, ring)?.lines)
}

/// The map of `counters` counters that are assigned to `parts` partitions in turn.
fn in_turn(alloc: Global, counters: u32, parts: u32) -> Result<PartMap, Refusal> {
    let mut owners = Vec::new(alloc);
    for number in 0..counters {
        owners.push(number % parts.max(1))?;
    }
    PartMap::new(owners.len(), parts, owners)
}

/// The rows with workers.
fn with_workers<W: Threads + Wait + Sync>(
    rt: &W,
    alloc: Global,
    ring: Ring,
    parts: u32,
    workers: usize,
) -> Result<Vec<Line>, Refusal> {
    let layout = in_turn(alloc, ring.counters, parts)?;
    let world = open_ring(alloc, ring.counters.max(1), 10, u64::from(ring.horizon))?;
    let mut sink = Kept::new(alloc);
    run_workers(rt, alloc, world, layout, workers, &Open, &mut sink)?;
    Ok(sink.lines)
}

/// Picks each of two partitions and a barrier in turn, until nothing is left.
fn play_on(machine: &mut Machine<Counter>) -> Result<(), Refusal> {
    for _ in 0..1_000 {
        if machine.finished() {
            return Ok(());
        }
        machine.play(&[Pick::Part(1), Pick::Part(0), Pick::Barrier])?;
    }
    Err(Refusal::BadMap)
}

/// The lines of rows.
fn lines(alloc: Global, rows: &[Told]) -> Result<Vec<Line>, AllocError> {
    let mut lines = Vec::new(alloc);
    for row in rows {
        lines.push((row.key.at, row.number, row.count))?;
    }
    Ok(lines)
}

/// The rows in two partitions, pick by pick.
fn picked(alloc: Global, ring: Ring) -> Result<Vec<Line>, Refusal> {
    let layout = in_turn(alloc, ring.counters, 2)?;
    let world = open_ring(alloc, ring.counters.max(1), 10, u64::from(ring.horizon))?;
    let mut machine = Machine::new(alloc, world, layout)?;
    play_on(&mut machine)?;
    let ended = machine.into_run()?;
    Ok(lines(alloc, ended.rows.as_slice())?)
}

// Three counters, by hand: a token reaches each at the beginning, and goes on to the next after ten
// milliseconds. Of those at one moment the token of the lesser sender comes first.
const THREE: Ring = Ring {
    counters: 3,
    horizon: 25,
};

const WANTED: [Line; 9] = [
    (0, 0, 1),
    (0, 1, 1),
    (0, 2, 1),
    (10, 1, 2),
    (10, 2, 2),
    (10, 0, 2),
    (20, 1, 3),
    (20, 2, 3),
    (20, 0, 3),
];

#[test]
fn rows_come_handling_by_handling(rt: HostRuntime) {
    let kept = kept_alone(rt.alloc(), THREE).expect(&rt, "a run");
    same(&rt, kept.slices.as_slice(), &[1; 9]);
}

#[test]
fn rows_wait_until_there_are_enough(rt: HostRuntime) {
    let kept = kept_gathered(rt.alloc(), THREE, 4).expect(&rt, "a run");
    same(&rt, kept.slices.as_slice(), &[4, 4, 1]);
    let kept = kept_gathered(rt.alloc(), THREE, 3).expect(&rt, "a run");
    same(&rt, kept.slices.as_slice(), &[3, 3, 3]);
}

#[test]
fn opens_more_sites_than_16_bits_count(rt: HostRuntime) {
    let many = Ring {
        counters: 65_537,
        horizon: 0,
    };
    let told = with_workers(&rt, rt.alloc(), many, 2, 2).expect(&rt, "a run");
    same(&rt, told.len(), 65_537);
}

#[test]
fn three_counters_by_hand(rt: HostRuntime) {
    let told = alone(rt.alloc(), THREE).expect(&rt, "a run");
    same(&rt, told.as_slice(), &WANTED);
    let told = picked(rt.alloc(), THREE).expect(&rt, "a run");
    same(&rt, told.as_slice(), &WANTED);
}

#[test]
fn workers_tell_the_same(rt: HostRuntime) {
    let many = Ring {
        counters: 60,
        horizon: 1_000,
    };
    for (ring, parts, workers) in [
        (THREE, 3, 2),
        (THREE, 2, 4),
        (many, 7, 3),
        (many, 60, 4),
        (DENSE, 7, 3),
        (DENSE, 2, 2),
    ] {
        let told = with_workers(&rt, rt.alloc(), ring, parts, workers).expect(&rt, "a run");
        let wanted = alone(rt.alloc(), ring).expect(&rt, "a run");
        same(&rt, told.as_slice(), wanted.as_slice());
    }
}

// Each counter counts a token every ten milliseconds, so a moment has 2,000 rows. The run begins on
// one list, and eight moments with 1,024 rows or more make it go on in partitions.
const DENSE: Ring = Ring {
    counters: 2_000,
    horizon: 100,
};

#[test]
fn rows_of_all_moments_where_a_world_is_parted(rt: HostRuntime) {
    let told = with_workers(&rt, rt.alloc(), DENSE, 7, 3).expect(&rt, "a run");
    same(&rt, told.len(), 22_000);
    for (place, line) in told.iter().enumerate() {
        let moment = place as u64 / 2_000;
        same(&rt, (line.0, line.2), (10 * moment, moment + 1));
    }
}
