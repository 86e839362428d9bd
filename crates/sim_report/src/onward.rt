//! The forwards of an actor.
ghost use Rattle.std.specs.Prelude.{◌≡◌, ◌≤◌, [], length, sum_by, IfOk, OnOk};
ghost use Rattle.std.specs.List.{list_any};
ghost use Rattle.sim_report.specs.Doors.{is_open, to_marked};
ghost use Rattle.sim_report.specs.Forwards.{arrived, arrived_by, forwarded, leaves_open, next_to, place_of, sent_by, with_place};
ghost use Rattle.sim_report.specs.Running.{changed};

use crate::forwards::{FirstSend, Forwards, UNKNOWN};
use std::alloc::{AllocError, Global};
use std::marker::Model;

/// The forwards of an actor, by the queues to which they go.
#[derive(Drop)]
pub(crate) struct Onward {
    to: Vec<Forwards>,
}

impl Model for Onward {
    ghost use Rattle.std.specs.Prelude.{List};
    ghost use Rattle.sim_report.specs.Forwards.{ForwardsState};

    ghost Value = { List ForwardsState };

    ghost view = { λ o. o.to.items };
}

// The place of those to a queue; behind all if there are none.
fn place_of(forwards: &[Forwards], to: u32) -> usize
    ensures place { result ≡ place_of to forwards.now }
    ensures within { result ≤ length forwards.now }
{
    for place in 0..forwards.len() {
        if forwards[place].go_to(to) {
            return place;
        }
    }
    forwards.len()
}

// The place of those to a queue, which is made if there are none.
fn make_place(forwards: &mut Vec<Forwards>, to: u32) -> Result<usize, AllocError>
    ensures made { OnOk result (forwards.new.items ≡ with_place to forwards.old.items) }
    ensures place { IfOk result (λ place. place ≡ place_of to forwards.old.items) }
{
    let place = place_of(forwards.as_slice(), to);
    if place < forwards.len() {
        return Ok(place);
    }
    let alloc = *forwards.allocator();
    forwards.push(Forwards::none(alloc, to))?;
    Ok(place)
}

// How many forwards are under way to marked queues.
fn to_marked(marks: &[bool], all: &[Forwards]) -> Result<u64, AllocError>
    ensures { IfOk result (λ sum. sum ≡ sum_by (to_marked marks.now) all.now) }
{
    let mut sum: u64 = 0;
    for forwards in all {
        let more = forwards.to_marked(marks);
        sum = sum.checked_add(more).ok_or(AllocError)?;
    }
    Ok(sum)
}

// Takes in that a message with this first send was forwarded at this moment, at the place of its
// queue.
fn send_at(
    forwards: &mut [Forwards],
    place: usize,
    at: u64,
    first: FirstSend,
) -> Result<(), AllocError>
    ensures { OnOk result (forwards.new ≡ changed (forwarded at first) place forwards.old) }
{
    if place < forwards.len() {
        forwards[place].send(at, first)?;
    }
    Ok(())
}

// Takes in that a forward arrived at this moment, at the place of its queue.
fn arrive_at(forwards: &mut [Forwards], place: usize, at: u64, new: bool)
    ensures { forwards.new ≡ changed (arrived at new) place forwards.old }
{
    if place < forwards.len() {
        forwards[place].arrive(at, new);
    }
}

impl Onward {
    /// None.
    pub(crate) fn new(alloc: Global) -> Onward
        ensures { result ≡ [] }
    {
        Onward {
            to: Vec::new(alloc),
        }
    }

    /// Takes in that a message with this first send was forwarded to a queue at this moment.
    ///
    /// # Errors
    ///
    /// `AllocError` if a growth is refused.
    pub(crate) fn send(&mut self, to: u32, at: u64, first: FirstSend) -> Result<(), AllocError>
        ensures { OnOk result (self.new ≡ sent_by to at first self.old) }
    {
        let place = make_place(&mut self.to, to)?;
        send_at(self.to.as_mut_slice(), place, at, first)
    }

    /// The first send of the message whose forward to a queue arrives next.
    pub(crate) fn next_to(&self, to: u32) -> FirstSend
        ensures { result ≡ next_to to self.now }
    {
        let place = place_of(self.to.as_slice(), to);
        if place < self.to.len() {
            self.to[place].first()
        } else {
            UNKNOWN
        }
    }

    /// Takes in that a forward arrived at a queue at this moment, as a new message or again.
    pub(crate) fn arrive(&mut self, to: u32, at: u64, new: bool)
        ensures { self.new ≡ arrived_by to at new self.old }
    {
        let place = place_of(self.to.as_slice(), to);
        arrive_at(self.to.as_mut_slice(), place, at, new);
    }

    /// Whether some leave open which message came.
    pub(crate) fn is_in_doubt(&self) -> bool
        ensures { result ≡ list_any leaves_open self.now }
    {
        self.to.iter().any(|forwards| forwards.leave_open())
    }

    /// Whether some to a marked queue leave open which message came.
    pub(crate) fn is_open(&self, marks: &[bool]) -> bool
        ensures { result ≡ is_open marks.now self.now }
    {
        self.to.iter().any(|forwards| forwards.are_open(marks))
    }

    /// How many are under way to marked queues.
    ///
    /// # Errors
    ///
    /// `AllocError` if they are more than 64 bits can say.
    pub(crate) fn to_marked(&self, marks: &[bool]) -> Result<u64, AllocError>
        ensures { IfOk result (λ sum. sum ≡ sum_by (to_marked marks.now) self.now) }
    {
        to_marked(marks, self.to.as_slice())
    }
}
