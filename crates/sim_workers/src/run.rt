//! A whole run: its threads, started once, and its rounds.
ghost use Rattle.std.specs.Prelude.{◌≡◌, ◌≤◌, ◌-◌, All, Err, IfErr, IfOk, OnOk, min, vec_capacity, vec_len};
ghost use Rattle.sim_handoff.specs.Seats.{owner_record, owner_table, places_of, table_of};
ghost use Rattle.sim_windows.specs.Sinks.{HasStopped, HasTaken};
ghost use Rattle.sim_workers.specs.Runs.{RanOn, StopsAnyhow};
ghost use Rattle.sim_workers.specs.Owners.{IsAllFree};
ghost use Rattle.sim_engine.specs.Limits.{most_count};
ghost use Rattle.sim_engine.specs.Simulated.{IsSimulated};

use crate::gate::Gate;
use crate::piece::{PartWork, Running};
use crate::scope::{join_all, start_all};
use crate::start::{Start, run_start};
use crate::together::Together;
use sim_clock::Refusal;
use sim_engine::Site;
use sim_exchange::PartMap;
use sim_handoff::{Handoff, Owner};
use sim_windows::{RowSink, World, run_gathered};
use std::alloc::Global;
use std::sync::Wait;
use std::thread;
use std::thread::{JoinHandle, Threads};

// Starts the threads, runs, and joins all threads that were started. If the start of one is
// refused, it does not run. Returns the two references.
fn run_in_scope<
    'a,
    'b,
    S: Site,
    W: PartWork<S> + Sync,
    G: Gate<W> + Sync,
    K: RowSink<S::Row>,
    R: Threads + Wait + Sync,
>(
    rt: &R,
    handoff: &Handoff<W>,
    mut owner: Owner<W>,
    gate: &G,
    mut handles: Vec<JoinHandle<()>>,
    threads: usize,
    start: Start<S>,
    sink: &'a mut K,
    outcome: &'b mut Result<Vec<S>, Refusal>,
) -> (&'a mut K, &'b mut Result<Vec<S>, Refusal>)
    requires here { owner_table owner ≡ table_of handoff.now }
    requires places { start.layout.parts ≡ places_of handoff.now }
    requires free { IsAllFree (owner_record owner) }
    requires simulated { IsSimulated S.engine S.conditions start.world }
    requires horizon { start.world.horizon ≤ most_count }
    requires ways { All (λ e. (1 ≤ e.least) × (e.least ≤ 900000)) start.world.edges }
    requires ready { K.ready sink.old }
    requires room { (vec_len handles ≡ 0) × (threads ≤ vec_capacity handles) }
    requires none { outcome.old ≡ Err Refusal.NoWorker }
    ensures same_sink { result.0.ghost_name ≡ sink.entry.ghost_name }
    ensures same_outcome { result.1.ghost_name ≡ outcome.entry.ghost_name }
    ensures ran { RanOn S.engine K.ready K.took K.broke start.world
        sink.entry.now result.1.now result.0.now }
{
    thread::scope(
        thread::scope_env(),
        rt,
        move |scope| -> (&mut K, &mut Result<Vec<S>, Refusal>)
            requires here { owner_table owner ≡ table_of handoff.now }
            requires places { start.layout.parts ≡ places_of handoff.now }
            requires free { IsAllFree (owner_record owner) }
            requires simulated { IsSimulated S.engine S.conditions start.world }
            requires horizon { start.world.horizon ≤ most_count }
            requires ways { All (λ e. (1 ≤ e.least) × (e.least ≤ 900000)) start.world.edges }
            requires ready { K.ready sink.now }
            requires room { (vec_len handles ≡ 0) × (threads ≤ vec_capacity handles) }
            requires none { outcome.now ≡ Err Refusal.NoWorker }
            ensures same_sink { result.0.ghost_name ≡ sink.entry.ghost_name }
            ensures same_outcome { result.1.ghost_name ≡ outcome.entry.ghost_name }
            ensures ran { RanOn S.engine K.ready K.took K.broke start.world
                sink.entry.now result.1.now result.0.now }
        {
            let hand = owner.hand(handoff);
            let ready = start_all(scope, rt, handoff, &mut owner, gate, &mut handles, threads);
            let mut team = Together {
                rt,
                handoff,
                owner,
                hand,
                gate,
            };
            if ready {
                *outcome = run_start(&mut team, start, sink);
            }
            team.stop();
            join_all(rt, handles);
            (sink, outcome)
        },
    )
}

// Runs a world with these threads, which are not yet started. If the start of one is refused, the
// sink takes nothing.
fn run_threads<
    S: Site,
    W: PartWork<S> + Sync,
    G: Gate<W> + Sync,
    K: RowSink<S::Row>,
    R: Threads + Wait + Sync,
>(
    rt: &R,
    handoff: &Handoff<W>,
    owner: Owner<W>,
    gate: &G,
    handles: Vec<JoinHandle<()>>,
    threads: usize,
    start: Start<S>,
    sink: &mut K,
) -> Result<Vec<S>, Refusal>
    requires here { owner_table owner ≡ table_of handoff.now }
    requires places { start.layout.parts ≡ places_of handoff.now }
    requires free { IsAllFree (owner_record owner) }
    requires simulated { IsSimulated S.engine S.conditions start.world }
    requires horizon { start.world.horizon ≤ most_count }
    requires ways { All (λ e. (1 ≤ e.least) × (e.least ≤ 900000)) start.world.edges }
    requires ready { K.ready sink.old }
    requires room { (vec_len handles ≡ 0) × (threads ≤ vec_capacity handles) }
    ensures ran { RanOn S.engine K.ready K.took K.broke start.world sink.old result sink.new }
{
    let mut outcome = Err(Refusal::NoWorker);
    run_in_scope(
        rt,
        handoff,
        owner,
        gate,
        handles,
        threads,
        start,
        sink,
        &mut outcome,
    );
    outcome
}

// The number of rows that a single worker hands on at once: few enough that they, and the text of
// their lines, stay in the cache.
const ROWS_AT_ONCE: usize = 64;

// The number of threads that workers need beside the caller's, which is one of them. More threads
// than partitions would find nothing to run.
fn threads_of(workers: usize, parts: usize) -> usize
    ensures { result ≡ min (workers - 1) parts }
{
    workers.saturating_sub(1).min(parts)
}

/// Runs a world to its horizon with `workers` workers; `layout` gives the partition of each site.
/// One worker runs on the caller's thread, the others each on a thread of its own, started once.
/// There are no more such threads than partitions. A single worker starts no thread, does not wait
/// for other threads, and runs all sites on one list: which partitions there are changes nothing.
///
/// With several workers the threads are started, and the run begins on one list, too. Once rounds
/// would make enough rows to pay, the world is put into partitions. Each partition runs to a bound
/// of its own, set anew at each barrier, or to where a round is cut if that is sooner. The rows
/// before which nothing can come any more go to the sink. Those of several partitions are merged
/// and go 256 at a time; those of a single partition go as they are. The rows that are left at the
/// end follow together. Returns the sites of the last world, by number. All threads are joined by
/// then.
///
/// # Errors
///
/// `NoWorker` if the start of a thread is refused: the sink took nothing. A single worker needs no
/// thread. `Memory` if a growth is refused, and `CountLimit` only if the run takes a count past
/// 2^62 - 1. Else the sink's error. In each of these cases the sink took a prefix of the run's
/// rows.
pub fn run_workers<
    S: Site + Send + Sync,
    G: Gate<Running<S>> + Sync,
    K: RowSink<S::Row>,
    W: Threads + Wait + Sync,
>(
    rt: &W,
    alloc: Global,
    world: World<S>,
    layout: PartMap,
    workers: usize,
    gate: &G,
    sink: &mut K,
) -> Result<Vec<S>, Refusal>
where
    S::Row: Send,
    S::Transfer: Send,
    requires simulated { IsSimulated S.engine S.conditions world }
    requires horizon { world.horizon ≤ most_count }
    requires ways { All (λ e. (1 ≤ e.least) × (e.least ≤ 900000)) world.edges }
    requires ready { K.ready sink.old }
    ensures ready { OnOk result (K.ready sink.new) }
    ensures whole { IfOk result
        (λ sites. HasTaken S.engine K.took world sink.old sink.new sites.items) }
    ensures stops { IfErr result
        (λ refusal. StopsAnyhow S.engine K.ready K.took K.broke world sink.old refusal sink.new) }
    ensures alone { workers ≤ 1
        → IfErr result
        (λ refusal. HasStopped S.engine K.took K.broke world sink.old refusal sink.new) }
{
    if workers <= 1 {
        return run_gathered(alloc, world, ROWS_AT_ONCE, sink);
    }
    let parts = layout.parts() as usize;
    let threads = threads_of(workers, parts);
    let (handoff, owner) = Handoff::make(alloc, parts)?;
    let handles = Vec::with_capacity(alloc, threads)?;
    let start = Start {
        alloc,
        world,
        layout,
    };
    run_threads(rt, &handoff, owner, gate, handles, threads, start, sink)
}
