//! What no clause says: that the calls work, on one thread and on three.
ghost use Rattle.std.specs.Prelude.{◌≡◌, ◌+◌, ◌<◌, length};
ghost use Rattle.sim_handoff.specs.Seats.{places_of, table_of, owner_table, owner_record, IsIdleHand};
ghost use Rattle.sim_handoff.specs.Place.{IsFree};

mod relay;

use crate::tests::same::same;
use relay::relay;
use sim_clock::Refusal;
use sim_handoff::{Hand, Handoff, Left, Owner, Work, close};
use std::alloc::Global;
use std::process::Abort;

/// The answer to a number is the next one.
pub struct Next;

impl Work for Next {
    type Piece = u32;

    type Done = u64;

    ghost does = { λ n d. d ≡ n + 1 };
}

// Answers the piece that is offered at the place, if there is one.
fn answer_one(handoff: &Handoff<Next>, hand: &mut Hand<Next>, place: usize) -> bool
    requires idle { IsIdleHand (table_of handoff.now) hand.old }
    requires place { place < places_of handoff.now }
    ensures { IsIdleHand (table_of handoff.now) hand.new }
{
    match hand.claim(handoff, place) {
        None => false,
        Some((claimed, piece)) => {
            hand.give_back(handoff, claimed, u64::from(piece) + 1);
            true
        }
    }
}

// Whether the owner has stopped, as a hand sees it. The two cases are apart for the prover.
fn sees_stop(handoff: &Handoff<Next>, hand: &mut Hand<Next>) -> bool
    requires { IsIdleHand (table_of handoff.now) hand.old }
    ensures { IsIdleHand (table_of handoff.now) hand.new }
{
    if hand.stopped(handoff) { true } else { false }
}

// Collects the answer that is there, and finds no other one after it.
fn collect_once(
    rt: &impl Abort,
    handoff: &Handoff<Next>,
    owner: &mut Owner<Next>,
) -> (u64, Option<u64>)
    requires here { owner_table owner.old ≡ table_of handoff.now }
    requires place { 0 < places_of handoff.now }
    ensures here { owner_table owner.new ≡ owner_table owner.old }
    ensures free { IsFree (owner_record owner.new) 0 }
    ensures hands { (owner_record owner.new).hands ≡ (owner_record owner.old).hands }
{
    let done = owner.collect(handoff, 0).expect(rt, "an answer");
    (done, owner.collect(handoff, 0))
}

// Claims the piece that is offered and answers it. Meanwhile no other hand gets it, and the owner
// can't collect it.
fn answer_alone(
    rt: &impl Abort,
    handoff: &Handoff<Next>,
    owner: &mut Owner<Next>,
    first: &mut Hand<Next>,
    second: &mut Hand<Next>,
)
    requires here { owner_table owner.old ≡ table_of handoff.now }
    requires first { IsIdleHand (table_of handoff.now) first.old }
    requires second { IsIdleHand (table_of handoff.now) second.old }
    requires place { 0 < places_of handoff.now }
    ensures here { owner_table owner.new ≡ owner_table owner.old }
    ensures hands { (owner_record owner.new).hands ≡ (owner_record owner.old).hands }
    ensures first { IsIdleHand (table_of handoff.now) first.new }
    ensures second { IsIdleHand (table_of handoff.now) second.new }
{
    let (claimed, piece) = first.claim(handoff, 0).expect(rt, "7 was offered");
    same(rt, (claimed.place(), piece), (0, 7));
    same(rt, answer_one(handoff, second, 0), false);
    same(rt, owner.collect(handoff, 0), None);
    first.give_back(handoff, claimed, u64::from(piece) + 1);
}

#[test]
fn one_place(rt: HostRuntime) {
    let alloc: Global = rt.alloc();
    let (handoff, mut owner) = Handoff::<Next>::make(alloc, 1).expect(&rt, "memory");
    let mut first = owner.hand(&handoff);
    let mut second = owner.hand(&handoff);
    same(&rt, answer_one(&handoff, &mut first, 0), false);
    owner.offer(&handoff, 0, 7);
    answer_alone(&rt, &handoff, &mut owner, &mut first, &mut second);
    same(&rt, collect_once(&rt, &handoff, &mut owner), (8, None));
    owner.offer(&handoff, 0, 9);
    same(&rt, sees_stop(&handoff, &mut first), false);
    owner.stop(&handoff);
    same(&rt, sees_stop(&handoff, &mut first), true);
    let hands = vec![in alloc; first, second].expect(&rt, "memory");
    let left = close(alloc, handoff, owner, hands).expect(&rt, "memory");
    same(&rt, left.as_slice(), [Left::Offered(9)].as_slice());
}

#[test]
fn nothing_is_collected_before_an_offer(rt: HostRuntime) {
    let (handoff, mut owner) = Handoff::<Next>::make(rt.alloc(), 3).expect(&rt, "memory");
    same(
        &rt,
        (handoff.places(), owner.collect(&handoff, 2)),
        (3, None),
    );
}

#[test]
fn what_is_left(rt: HostRuntime) {
    let alloc: Global = rt.alloc();
    let (handoff, mut owner) = Handoff::<Next>::make(alloc, 3).expect(&rt, "memory");
    let mut hand = owner.hand(&handoff);
    owner.offer(&handoff, 1, 20);
    same(&rt, answer_one(&handoff, &mut hand, 1), true);
    owner.offer(&handoff, 2, 30);
    let hands = vec![in alloc; hand].expect(&rt, "memory");
    let left = close(alloc, handoff, owner, hands).expect(&rt, "memory");
    let wanted = [Left::Empty, Left::Done(21), Left::Offered(30)];
    same(&rt, left.as_slice(), wanted.as_slice());
}

#[test]
fn no_places(rt: HostRuntime) {
    let alloc: Global = rt.alloc();
    let (handoff, owner) = Handoff::<Next>::make(alloc, 0).expect(&rt, "memory");
    let left = close(alloc, handoff, owner, Vec::new(alloc)).expect(&rt, "memory");
    same(&rt, left.len(), 0);
}

#[test]
fn too_many_places(rt: HostRuntime) {
    let made = Handoff::<Next>::make(rt.alloc(), 1 << 60).err();
    same(&rt, made, Some(Refusal::Memory));
}

#[test]
fn three_threads(rt: HostRuntime) {
    let (handoff, owner) = Handoff::<Next>::make(rt.alloc(), 4).expect(&rt, "memory");
    same(&rt, relay(&rt, &handoff, owner), Ok(4000));
}
