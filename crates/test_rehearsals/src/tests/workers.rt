//! Rehearsals with several workers, and queues in several partitions.
use crate::tests::machines::{in_turn, scenario};
use crate::tests::rehearsals::{MANY, ends, split, whole, wrong_cut};
use crate::tests::worked::{EIGHT_QUEUES, THREE_QUEUES};
use sim_clock::Refusal;
use sim_windows::Limit;
use sim_workers::{Open, Pause};
use sqs_rehearsal::{Split, run_workers};
use std::alloc::Global;
use std::sync::Wait;
use std::sync::atomic::{AtomicU64, Ordering};
use std::thread::{Threads, yield_now};

/// Delays pieces until four of them have begun, and again until eight have.
#[derive(Drop)]
struct Fours {
    /// The number of pieces that have begun.
    begun: AtomicU64,
    /// The number of pieces that were delayed in vain.
    missed: AtomicU64,
    /// The number of pieces that made one row.
    ones: AtomicU64,
}

/// Whether `wanted` pieces have begun within a bounded number of turns.
fn have_begun(begun: &AtomicU64, wanted: u64) -> bool {
    for _ in 0..200_000_000u64 {
        if begun.load(Ordering::SeqCst) >= wanted {
            return true;
        }
        yield_now();
    }
    false
}

impl Pause for Fours {
    fn parts_at_once(&self) -> bool {
        true
    }

    fn before(&self) {
        let earlier = self.begun.fetch_add(1, Ordering::SeqCst);
        let wanted = if earlier < 4 { 4 } else { 8 };
        if !have_begun(&self.begun, wanted) {
            self.missed.fetch_add(1, Ordering::SeqCst);
        }
    }

    fn after(&self, rows: u64) {
        if rows == 1 {
            self.ones.fetch_add(1, Ordering::SeqCst);
        }
    }
}

/// Whether eight queues in eight partitions write everything with four workers whose pieces go
/// through such a gate. Also how many pieces began, were delayed in vain, and made one row.
fn run_in_fours<W: Threads + Wait + Sync>(rt: &W, alloc: Global) -> (bool, [u64; 3]) {
    let gate = Fours {
        begun: AtomicU64::new(0),
        missed: AtomicU64::new(0),
        ones: AtomicU64::new(0),
    };
    let split = split(8, 4);
    let wanted = whole(EIGHT_QUEUES);
    let is_whole = ends(
        rt,
        alloc,
        EIGHT_QUEUES.text,
        &split,
        &gate,
        (MANY, MANY),
        wanted,
    );
    let counts = [
        gate.begun.load(Ordering::SeqCst),
        gate.missed.load(Ordering::SeqCst),
        gate.ones.load(Ordering::SeqCst),
    ];
    (is_whole, counts)
}

#[test]
fn four_workers_run_at_once(rt: HostRuntime) {
    assert_eq!(rt; run_in_fours(&rt, rt.alloc()), (true, [8, 0, 8]));
}

#[test]
fn writers_that_take_a_byte_a_call(rt: HostRuntime) {
    for (given, parts, workers) in [(EIGHT_QUEUES, 1, 1), (THREE_QUEUES, 3, 2)] {
        let split = split(parts, workers);
        let wanted = whole(given);
        assert!(rt;
            ends(
                &rt,
                rt.alloc(),
                given.text,
                &split,
                &Open,
                (MANY, MANY),
                wanted
            )
        );
    }
}

#[test]
fn a_log_that_fails_ends_a_run_of_workers(rt: HostRuntime) {
    assert_eq!(rt;
        wrong_cut(&rt, rt.alloc(), &split(3, 4), THREE_QUEUES, true),
        None
    );
}

/// The result of workers for three queues in three partitions: the number of sites, and how many
/// more rows their sink would have taken.
fn limited<W: Threads + Wait + Sync>(
    rt: &W,
    alloc: Global,
    window: u64,
    workers: usize,
    left: u64,
) -> Option<(Result<usize, Refusal>, u64)> {
    let scenario = scenario(alloc, THREE_QUEUES.text)?;
    let layout = in_turn(alloc, 3, 3).ok()?;
    let split = Split {
        layout,
        window,
        workers,
    };
    let mut sink = Limit { left };
    let ran = run_workers(rt, alloc, scenario, split, &Open, &mut sink);
    Some((ran.map(|sites| sites.len()), sink.left))
}

/// Whether four workers return the error of a sink that takes `left` rows.
fn is_full<W: Threads + Wait + Sync>(rt: &W, alloc: Global, left: u64) -> bool {
    matches!(
        limited(rt, alloc, 10, 4, left),
        Some((Err(Refusal::Write), _))
    )
}

#[test]
fn rows_go_to_a_sink(rt: HostRuntime) {
    let refused = Refusal::WindowTooLong {
        window: 11,
        least: 10,
    };
    let table = [
        (10, 4, (Ok(3), 0)),
        (10, 64, (Ok(3), 0)),
        (10, 0, (Err(Refusal::BadWorkers), 13)),
        (10, 65, (Err(Refusal::BadWorkers), 13)),
        (11, 0, (Err(refused), 13)),
    ];
    for (window, workers, wanted) in table {
        assert_eq!(rt; limited(&rt, rt.alloc(), window, workers, 13), Some(wanted));
    }
    for left in 0..13 {
        assert!(rt; is_full(&rt, rt.alloc(), left), "{left}");
    }
}
