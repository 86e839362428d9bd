//! What no clause says: that hands on threads of their own answer pieces, and several at once.
ghost use Rattle.std.specs.Prelude.{◌≡◌, ◌+◌, ◌≤◌, vec_len, vec_capacity};
ghost use Rattle.sim_handoff.specs.Seats.{places_of, table_of, owner_table, owner_record, IsIdleHand};
ghost use Rattle.sim_workers.specs.Owners.{IsAllFree};

use crate::tests::same::same;
use sim_handoff::{Hand, Handoff, Owner, Work};
use sim_workers::{Gate, collect_at, join_all, start_all};
use std::sync::Wait;
use std::sync::atomic::{AtomicU64, Ordering};
use std::thread;
use std::thread::{JoinHandle, Threads, yield_now};

/// The answer to a number is the next one.
struct Next;

impl Work for Next {
    type Piece = u32;

    type Done = u64;

    ghost does = { λ n d. d ≡ n + 1 };
}

/// Waits in each piece until `wanted` pieces have begun, for a bounded number of turns.
#[derive(Drop)]
struct Together {
    wanted: u64,
    begun: AtomicU64,
    met: AtomicU64,
}

impl Gate<Next> for Together {
    fn begins_parted(&self) -> bool {
        true
    }

    fn run<R: Wait>(&self, _rt: &R, _part: usize, piece: u32) -> u64
        ensures { result ≡ piece + 1 }
    {
        self.begun.fetch_add(1, Ordering::SeqCst);
        for _ in 0..20_000_000u64 {
            if self.begun.load(Ordering::SeqCst) >= self.wanted {
                self.met.fetch_add(1, Ordering::SeqCst);
                break;
            }
            yield_now();
        }
        u64::from(piece) + 1
    }
}

// Offers three numbers and collects the answers. Returns whether they are right.
fn three_answers<G: Gate<Next>, R: Wait>(
    rt: &R,
    handoff: &Handoff<Next>,
    owner: &mut Owner<Next>,
    hand: &mut Hand<Next>,
    gate: &G,
) -> bool
    requires here { owner_table owner.old ≡ table_of handoff.now }
    requires idle { IsIdleHand (table_of handoff.now) hand.old }
    requires places { places_of handoff.now ≡ 3 }
    requires free { IsAllFree (owner_record owner.old) }
    ensures here { owner_table owner.new ≡ table_of handoff.now }
{
    owner.offer(handoff, 0, 10);
    owner.offer(handoff, 1, 20);
    owner.offer(handoff, 2, 30);
    let first = collect_at(rt, handoff, owner, hand, gate, 0);
    let second = collect_at(rt, handoff, owner, hand, gate, 1);
    let third = collect_at(rt, handoff, owner, hand, gate, 2);
    (first, second, third) == (11, 21, 31)
}

// The same, with two threads beside this one.
fn with_two_threads<G: Gate<Next> + Sync, R: Threads + Wait + Sync>(
    rt: &R,
    handoff: &Handoff<Next>,
    mut owner: Owner<Next>,
    gate: &G,
    mut handles: Vec<JoinHandle<()>>,
) -> bool
    requires here { owner_table owner ≡ table_of handoff.now }
    requires places { places_of handoff.now ≡ 3 }
    requires free { IsAllFree (owner_record owner) }
    requires room { (vec_len handles ≡ 0) × (2 ≤ vec_capacity handles) }
{
    thread::scope(
        thread::scope_env(),
        rt,
        move |scope| -> bool
            requires here { owner_table owner ≡ table_of handoff.now }
            requires places { places_of handoff.now ≡ 3 }
            requires free { IsAllFree (owner_record owner) }
            requires room { (vec_len handles ≡ 0) × (2 ≤ vec_capacity handles) }
        {
            let mut hand = owner.hand(handoff);
            let ready = start_all(scope, rt, handoff, &mut owner, gate, &mut handles, 2);
            let right = ready && three_answers(rt, handoff, &mut owner, &mut hand, gate);
            owner.stop(handoff);
            join_all(rt, handles);
            right
        },
    )
}

#[test]
fn three_at_once(rt: HostRuntime) {
    let (handoff, owner) = Handoff::<Next>::make(rt.alloc(), 3).expect(&rt, "memory");
    let handles = Vec::with_capacity(rt.alloc(), 2).expect(&rt, "memory");
    let gate = Together {
        wanted: 3,
        begun: AtomicU64::new(0),
        met: AtomicU64::new(0),
    };
    let right = with_two_threads(&rt, &handoff, owner, &gate, handles);
    same(&rt, (right, gate.met.load(Ordering::SeqCst)), (true, 3));
}
