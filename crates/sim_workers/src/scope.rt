//! Workers on threads of their own.
ghost use Rattle.std.specs.Prelude.{◌≡◌, ◌≤◌, true, vec_len, vec_capacity};
ghost use Rattle.sim_handoff.specs.Seats.{table_of, owner_table, owner_record, IsIdleHand};
ghost use Rattle.sim_workers.specs.Owners.{IsAllFree};

use crate::gate::Gate;
use crate::worker::work;
use sim_handoff::{Handoff, Owner, Work};
use std::sync::Wait;
use std::thread::{JoinHandle, Scope, Threads};

/// Starts these threads, each of which works with a hand of its own. The hands begin at places
/// spaced evenly after the first, at which the owner begins. Returns whether all were started, and
/// so true if there are none to start.
pub fn start_all<'s, 'e: 's, W: Work + Sync, G: Gate<W> + Sync, R: Wait + Sync>(
    scope: &'s Scope<'s, &'e ()>,
    rt: &'e R,
    handoff: &'e Handoff<W>,
    owner: &mut Owner<W>,
    gate: &'e G,
    handles: &mut Vec<JoinHandle<()>>,
    threads: usize,
) -> bool
    requires here { owner_table owner.old ≡ table_of handoff.now }
    requires free { IsAllFree (owner_record owner.old) }
    requires room { (vec_len handles.old ≡ 0) × (threads ≤ vec_capacity handles.old) }
    ensures here { owner_table owner.new ≡ table_of handoff.now }
    ensures free { IsAllFree (owner_record owner.new) }
    ensures alone { threads ≡ 0 → result ≡ true }
    ensures count { result ≡ true → vec_len handles.new ≡ threads }
{
    let apart = handoff.places() / threads.saturating_add(1);
    let mut own = 0usize;
    for _ in 0..threads {
        own = own.saturating_add(apart);
        let hand = owner.hand(handoff);
        let thread = scope.spawn(
            move ||
                requires { IsIdleHand (table_of handoff.now) hand }
            { work(rt, handoff, hand, gate, own) },
        );
        match thread {
            Ok(handle) => handles.push_reserved(handle),
            Err(_) => return false,
        }
    }
    true
}

/// Joins all threads.
pub fn join_all<R: Threads>(rt: &R, mut handles: Vec<JoinHandle<()>>) {
    while let Some(handle) = handles.pop() {
        handle.join(rt);
    }
}
