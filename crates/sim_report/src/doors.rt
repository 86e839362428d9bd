//! Ages from door to door.
ghost use Rattle.std.specs.Prelude.{◌≡◌, ℕ, [], map, replicate, IfOk, OnOk};
ghost use Rattle.sim_report.specs.Doors.{actors_after, came_on, doors_with, ended, entered, first_of, left, next_by, no_door, none_of, set_out};
ghost use Rattle.sim_report.specs.Forwards.{arrived_by, sent_by};
ghost use Rattle.sim_report.specs.Running.{changed};
ghost use Rattle.sim_report.specs.declared.asked.Wanted.{Wanted as TheWanted};
ghost use Rattle.sim_report.specs.declared.course.Course.TheVariants.{Came, Forwarded};

use crate::asked::{Wanted, Way};
use crate::course::Course;
use crate::door::Door;
use crate::fact::Fact;
use crate::forwards::{FirstSend, How, UNKNOWN};
use crate::onward::Onward;
use std::alloc::{AllocError, Global};
use std::marker::Model;

/// What the ages since the first send of messages need of the rows so far.
#[derive(Drop)]
pub(crate) struct Doors {
    pub(crate) ways: Vec<Way>,
    pub(crate) of_queues: Vec<Door>,
    pub(crate) of_actors: Vec<Onward>,
}

impl Model for Doors {
    ghost use Rattle.sim_report.specs.Doors.{DoorsState};

    ghost Value = { DoorsState };

    ghost view = { λ d. record { ways = d.ways.items; of_queues = d.of_queues.items; of_actors = d.of_actors.items } };
}

// Of so many queues.
fn no_queues(alloc: Global, count: usize) -> Result<Vec<Door>, AllocError>
    ensures { IfOk result (λ v. v.items ≡ replicate count no_door) }
{
    let mut queues = Vec::with_capacity(alloc, count)?;
    for _ in 0..count {
        queues.push(Door::new(alloc))?;
    }
    Ok(queues)
}

// Of so many actors.
fn no_actors(alloc: Global, count: usize) -> Result<Vec<Onward>, AllocError>
    ensures { IfOk result (λ v. v.items ≡ replicate count []) }
{
    let mut actors = Vec::with_capacity(alloc, count)?;
    for _ in 0..count {
        actors.push(Onward::new(alloc))?;
    }
    Ok(actors)
}

// The first send of a message by its queue and its number there.
fn first_of(queues: &[Door], queue: u32, number: u64) -> FirstSend
    ensures { result ≡ first_of queue number queues.now }
{
    match queues.get(queue as usize) {
        Some(door) => door.first(number),
        None => UNKNOWN,
    }
}

// Takes in that a message came into a queue with this first send.
fn enter(queues: &mut [Door], queue: u32, first: FirstSend) -> Result<(), AllocError>
    ensures { OnOk result (queues.new ≡ changed (entered first) queue queues.old) }
{
    let queue = queue as usize;
    if queue < queues.len() {
        queues[queue].enter(first)?;
    }
    Ok(())
}

// Takes in that a message came into a queue by a redrive or a move with this first send.
fn come_on(queues: &mut [Door], queue: u32, first: FirstSend) -> Result<(), AllocError>
    ensures { OnOk result (queues.new ≡ changed (came_on first) queue queues.old) }
{
    let queue = queue as usize;
    if queue < queues.len() {
        queues[queue].come_on(first)?;
    }
    Ok(())
}

// Takes in that a message is on its way to a queue by a redrive or a move.
fn set_out(queues: &mut [Door], queue: u32) -> Result<(), AllocError>
    ensures { OnOk result (queues.new ≡ changed set_out queue queues.old) }
{
    let queue = queue as usize;
    if queue < queues.len() {
        queues[queue].set_out()?;
    }
    Ok(())
}

// Takes in that a message went out of a queue.
fn leave(queues: &mut [Door], queue: u32) -> Result<(), AllocError>
    ensures { OnOk result (queues.new ≡ changed left queue queues.old) }
{
    let queue = queue as usize;
    if queue < queues.len() {
        queues[queue].leave()?;
    }
    Ok(())
}

// Takes in that a message was deleted from a queue at this moment.
fn end(
    queues: &mut [Door],
    wanted: Wanted,
    queue: u32,
    number: u64,
    at: u64,
) -> Result<(), AllocError>
    ensures { OnOk result (queues.new ≡ changed (ended wanted number at) queue queues.old) }
{
    let queue = queue as usize;
    if queue < queues.len() {
        queues[queue].end(wanted, number, at)?;
    }
    Ok(())
}

// What the forward is of that arrives next at the queue of a row by its agent; so many queues are
// the first agents.
fn next_by(actors: &[Onward], queues: usize, fact: &Fact) -> FirstSend
    ensures { result ≡ next_by queues fact.now.agent fact.now.count.queue actors.now }
{
    let agent = fact.agent as usize;
    if agent < queues {
        return UNKNOWN;
    }
    match actors.get(agent - queues) {
        Some(onward) => onward.next_to(fact.count.queue),
        None => UNKNOWN,
    }
}

// Takes in that a forward of the agent of a row arrived at its queue, as a new message or again.
fn arrive(actors: &mut [Onward], queues: usize, fact: &Fact, new: bool)
    ensures { actors.new ≡ actors_after queues fact.now.agent
        (arrived_by fact.now.count.queue fact.now.at new) actors.old }
{
    let agent = fact.agent as usize;
    if agent < queues {
        return;
    }
    let actor = agent - queues;
    if actor < actors.len() {
        actors[actor].arrive(fact.count.queue, fact.at, new);
    }
}

// Takes in that the agent of a row forwarded a message with this first send to a queue.
fn send(
    actors: &mut [Onward],
    queues: usize,
    fact: &Fact,
    to: u32,
    first: FirstSend,
) -> Result<(), AllocError>
    ensures { OnOk result (actors.new ≡ actors_after queues fact.now.agent
        (sent_by to fact.now.at first) actors.old) }
{
    let agent = fact.agent as usize;
    if agent < queues {
        return Ok(());
    }
    let actor = agent - queues;
    if actor < actors.len() {
        actors[actor].send(to, fact.at, first)?;
    }
    Ok(())
}

impl Doors {
    /// Of no rows, with these ways between so many queues, and of so many actors.
    ///
    /// # Errors
    ///
    /// `AllocError` if a growth is refused.
    pub(crate) fn new(
        alloc: Global,
        ways: Vec<Way>,
        queues: usize,
        actors: usize,
    ) -> Result<Doors, AllocError>
        ensures { IfOk result (λ d. d ≡ none_of ways.items queues actors) }
    {
        Ok(Doors {
            ways,
            of_queues: no_queues(alloc, queues)?,
            of_actors: no_actors(alloc, actors)?,
        })
    }

    // Takes in that the message of a row came by a forward.
    fn take_forward(&mut self, fact: &Fact) -> Result<(), AllocError>
        requires { fact.now.course ≡ Came }
        ensures { (w : TheWanted) → OnOk result (self.new ≡ doors_with w fact.now self.old) }
    {
        let queues = self.of_queues.len();
        let first = next_by(self.of_actors.as_slice(), queues, fact);
        enter(self.of_queues.as_mut_slice(), fact.count.queue, first)?;
        arrive(self.of_actors.as_mut_slice(), queues, fact, true);
        Ok(())
    }

    // Takes in that the message of a row was forwarded to a queue.
    fn take_forwarded(&mut self, fact: &Fact, to: u32) -> Result<(), AllocError>
        requires { fact.now.course ≡ Forwarded to }
        ensures { (w : TheWanted) → OnOk result (self.new ≡ doors_with w fact.now self.old) }
    {
        let queues = self.of_queues.len();
        let first = first_of(self.of_queues.as_slice(), fact.count.queue, fact.number);
        send(self.of_actors.as_mut_slice(), queues, fact, to, first)
    }

    /// Takes in what a row says.
    ///
    /// # Errors
    ///
    /// `AllocError` if a growth is refused or a count is at its greatest value.
    pub(crate) fn take(&mut self, wanted: Wanted, fact: &Fact) -> Result<(), AllocError>
        ensures { OnOk result (self.new ≡ doors_with wanted fact.now self.old) }
    {
        let queue = fact.count.queue;
        match fact.course {
            Course::Sent => {
                let at = fact.at;
                let how = How::Surely;
                enter(self.of_queues.as_mut_slice(), queue, FirstSend { at, how })
            }
            Course::CameOn(origin) => {
                let first = first_of(self.of_queues.as_slice(), origin.site, origin.number);
                come_on(self.of_queues.as_mut_slice(), queue, first)
            }
            Course::Came => self.take_forward(fact),
            Course::CameAgain => {
                let queues = self.of_queues.len();
                arrive(self.of_actors.as_mut_slice(), queues, fact, false);
                Ok(())
            }
            Course::Forwarded(to) => self.take_forwarded(fact, to),
            Course::WentOn(to) => {
                leave(self.of_queues.as_mut_slice(), queue)?;
                set_out(self.of_queues.as_mut_slice(), to)
            }
            Course::Ended => {
                let queues = self.of_queues.as_mut_slice();
                end(queues, wanted, queue, fact.number, fact.at)
            }
            Course::Expired => leave(self.of_queues.as_mut_slice(), queue),
            Course::Stayed => Ok(()),
        }
    }
}
