//! An owner and two hands on threads of their own, over four places.
ghost use Rattle.std.specs.Prelude.{◌≡◌, ℕ, ◌<◌, ◌≤◌};
ghost use Rattle.sim_handoff.specs.Place.{IsFree};
ghost use Rattle.sim_handoff.specs.Steps.{at, collected};
ghost use Rattle.sim_handoff.specs.Seats.{places_of, table_of, owner_table, owner_record, IsIdleHand};

use super::{Next, answer_one};
use sim_handoff::{Hand, Handoff, Owner};
use std::sync::Wait;
use std::thread;
use std::thread::Threads;

/// The number of pieces that the hands answered, or what went wrong.
pub type Outcome = Result<u64, &'static str>;

// Goes round the places until the owner has stopped, and counts the pieces that it answered.
fn work<R: Wait>(rt: &R, handoff: &Handoff<Next>, mut hand: Hand<Next>) -> u64
    requires { IsIdleHand (table_of handoff.now) hand }
{
    let mut answered = 0u64;
    for _ in rt.forever() {
        if hand.stopped(handoff) {
            break;
        }
        for place in 0..handoff.places() {
            if answer_one(handoff, &mut hand, place) {
                answered = answered.saturating_add(1);
            }
        }
    }
    answered
}

// Waits for the answer at a place.
fn wait_for<R: Wait>(rt: &R, handoff: &Handoff<Next>, owner: &mut Owner<Next>, place: usize) -> u64
    requires here { owner_table owner.old ≡ table_of handoff.now }
    requires place { place < places_of handoff.now }
    ensures here { owner_table owner.new ≡ owner_table owner.old }
    ensures collected { owner_record owner.new ≡ at place collected (owner_record owner.old) }
    ensures empty { IsFree (owner_record owner.new) place }
{
    for _ in rt.forever() {
        if let Some(done) = owner.collect(handoff, place) {
            return done;
        }
    }
    unreachable!()
}

// Offers a number at each place.
fn offer_all(handoff: &Handoff<Next>, owner: &mut Owner<Next>, base: u32)
    requires here { owner_table owner.old ≡ table_of handoff.now }
    requires places { places_of handoff.now ≡ 4 }
    requires base { base ≤ 4000 }
    requires free { (place : ℕ) → place < 4 → IsFree (owner_record owner.old) place }
    ensures here { owner_table owner.new ≡ owner_table owner.old }
{
    for place in 0..4usize {
        owner.offer(handoff, place, base + place as u32);
    }
}

// Waits for the answers at all places, and says whether they are as they should be.
fn collect_all<R: Wait>(rt: &R, handoff: &Handoff<Next>, owner: &mut Owner<Next>, base: u32) -> bool
    requires here { owner_table owner.old ≡ table_of handoff.now }
    requires places { places_of handoff.now ≡ 4 }
    requires base { base ≤ 4000 }
    ensures here { owner_table owner.new ≡ owner_table owner.old }
    ensures free { (place : ℕ) → place < 4 → IsFree (owner_record owner.new) place }
{
    let mut right = true;
    for place in 0..4usize {
        let done = wait_for(rt, handoff, owner, place);
        right = right && done == u64::from(base) + place as u64 + 1;
    }
    right
}

// A thousand rounds over the four places, each of a number of its own.
fn rounds<R: Wait>(rt: &R, handoff: &Handoff<Next>, owner: &mut Owner<Next>) -> bool
    requires here { owner_table owner.old ≡ table_of handoff.now }
    requires places { places_of handoff.now ≡ 4 }
    requires free { (place : ℕ) → place < 4 → IsFree (owner_record owner.old) place }
    ensures here { owner_table owner.new ≡ owner_table owner.old }
{
    for round in 0..1000u32 {
        offer_all(handoff, owner, 4 * round);
        if !collect_all(rt, handoff, owner, 4 * round) {
            return false;
        }
    }
    true
}

/// Runs the owner here and two hands beside it.
pub fn relay<R: Threads + Wait + Sync>(
    rt: &R,
    handoff: &Handoff<Next>,
    mut owner: Owner<Next>,
) -> Outcome
    requires here { owner_table owner ≡ table_of handoff.now }
    requires places { places_of handoff.now ≡ 4 }
    requires free { (place : ℕ) → place < 4 → IsFree (owner_record owner) place }
{
    let first = owner.hand(handoff);
    let second = owner.hand(handoff);
    thread::scope(
        thread::scope_env(),
        rt,
        |scope| -> Outcome
            requires { (owner_table owner ≡ table_of handoff.now)
                × IsIdleHand (table_of handoff.now) first
                × IsIdleHand (table_of handoff.now) second
                × (places_of handoff.now ≡ 4)
                × ((place : ℕ) → place < 4 → IsFree (owner_record owner) place) }
        {
            let one = scope.spawn(
                move || -> u64
                    requires { IsIdleHand (table_of handoff.now) first }
                { work(rt, handoff, first) },
            );
            let two = scope.spawn(
                move || -> u64
                    requires { IsIdleHand (table_of handoff.now) second }
                { work(rt, handoff, second) },
            );
            // A hand whose thread was started works until the owner stops.
            let (Ok(one), Ok(two)) = (one, two) else {
                owner.stop(handoff);
                return Err("a thread could not be started");
            };
            let right = rounds(rt, handoff, &mut owner);
            owner.stop(handoff);
            let answered = one.join(rt).saturating_add(two.join(rt));
            if right {
                Ok(answered)
            } else {
                Err("an answer to an earlier offer")
            }
        },
    )
}
