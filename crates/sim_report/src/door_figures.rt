//! The figures of ages from door to door.
ghost use Rattle.std.specs.Prelude.{◌≡◌, ◌==◌, ◌+◌, ◌-◌, ◌++◌, ◌∷◌, [], List, Some, codes, cond, get_or, sum_by, IfOk, OnOk};
ghost use Rattle.std.specs.List.{enumerate_from, list_any};
ghost use Rattle.sim_report.specs.Doors.{all_marked, in_marked, is_open, none_named, open_in, records_of_actor, records_of_door, records_of_queue, to_marked};
ghost use Rattle.sim_report.specs.Figures.{ages_named};
ghost use Rattle.sim_report.specs.Forwards.{ForwardsState, leaves_open};
ghost use Rattle.sqs_formats.specs.Rows.{lines};

use crate::aged::AGES;
use crate::asked::Wanted;
use crate::door::Door;
use crate::doors::Doors;
use crate::figure::{Figure, add_figures};
use crate::marks::{before, is_marked};
use crate::onward::Onward;
use sim_records::Lines;
use std::alloc::{AllocError, Global};

// The names of the figures of ages since the first send.
const DOOR_AGE_NAMES: [&[u8]; AGES] = [
    b"door_age_sum_ms",
    b"door_age_p50_ms",
    b"door_age_p95_ms",
    b"door_age_p99_ms",
    b"door_age_greatest_ms",
    b"door_age_window_p95_ms",
    b"door_age_window_p95_at_ms",
];

// Two counts together. If they are more than 64 bits can say, that is refused.
fn together(one: u64, other: u64) -> Result<u64, AllocError>
    ensures { IfOk result (λ sum. sum ≡ one + other) }
{
    one.checked_add(other).ok_or(AllocError)
}

// How many messages are there in a queue or under way to it by a redrive or a move, if it is marked.
fn marked_in(marks: &[bool], queue: usize, door: &Door) -> Result<u64, AllocError>
    ensures { IfOk result (λ many. many ≡ in_marked marks.now (queue, door.now)) }
{
    if is_marked(marks, queue) {
        together(door.coming, door.left())
    } else {
        Ok(0)
    }
}

// How many messages are there in marked queues, or under way to one by a redrive or a move.
fn in_marked(marks: &[bool], doors: &[Door]) -> Result<u64, AllocError>
    ensures { IfOk result
        (λ sum. sum ≡ sum_by (in_marked marks.now) (enumerate_from 0 doors.now)) }
{
    let mut sum = 0;
    for queue in 0..doors.len() {
        sum = together(sum, marked_in(marks, queue, &doors[queue])?)?;
    }
    Ok(sum)
}

// How many forwards of actors are under way to marked queues.
fn to_marked(marks: &[bool], actors: &[Onward]) -> Result<u64, AllocError>
    ensures { IfOk result (λ sum. sum
        ≡ sum_by (λ (fs : List ForwardsState). sum_by (to_marked marks.now) fs) actors.now) }
{
    let mut sum = 0;
    for onward in actors {
        sum = together(sum, onward.to_marked(marks)?)?;
    }
    Ok(sum)
}

// Whether forwards of some actor to a marked queue leave open which message came.
fn are_open(marks: &[bool], actors: &[Onward]) -> bool
    ensures { result ≡ list_any (is_open marks.now) actors.now }
{
    actors.iter().any(|onward| onward.is_open(marks))
}

// How many deletions of a queue have a first send that is open.
fn open_in(marks: &[bool], actors: &[Onward], door: &Door) -> Result<u64, AllocError>
    ensures { IfOk result (λ many. many ≡ open_in marks.now actors.now door.now) }
{
    if are_open(marks, actors) {
        together(door.unknown, door.unsure)
    } else {
        Ok(door.unknown)
    }
}

// The figures of the ages of a queue, unless so many first sends are open.
fn ages_of(
    alloc: Global,
    wanted: Wanted,
    unclear: u64,
    door: &Door,
) -> Result<[Figure; AGES], AllocError>
    ensures { IfOk result (λ v. v
        ≡ cond (unclear == 0) (ages_named (codes "door_age") wanted door.now.ages) none_named) }
{
    if unclear == 0 {
        let ages = door.counted(alloc)?;
        return Ok(ages.figures(wanted, DOOR_AGE_NAMES));
    }
    let [sum, half, most, nearly_all, greatest, window, window_at] = DOOR_AGE_NAMES;
    Ok([
        Figure::of(sum, None),
        Figure::of(half, None),
        Figure::of(most, None),
        Figure::of(nearly_all, None),
        Figure::of(greatest, None),
        Figure::of(window, None),
        Figure::of(window_at, None),
    ])
}

// How many messages are there or under way, by all these queues and actors, where it is marked.
fn all_marked(marks: &[bool], doors: &Doors) -> Result<u64, AllocError>
    ensures { IfOk result (λ many. many ≡ all_marked marks.now doors.now) }
{
    let there = in_marked(marks, doors.of_queues.as_slice())?;
    together(there, to_marked(marks, doors.of_actors.as_slice())?)
}

// The number of open first sends of a queue, and that of messages that may come, by their names.
#[tactic(auto)]
fn sizes(unclear: u64, may_come: u64) -> [Figure; 2]
    ensures { result ≡ (codes "door_age_open", Some unclear) ∷ (codes "door_age_may_come", Some may_come) ∷ [] }
{
    [
        Figure::of(b"door_age_open", Some(u128::from(unclear))),
        Figure::of(b"door_age_may_come", Some(u128::from(may_come))),
    ]
}

// Whether the forwards of an actor, by its number among actors, leave open which message came.
fn is_in_doubt(actors: &[Onward], actor: usize) -> bool
    ensures { result ≡ list_any leaves_open (get_or actors.now actor []) }
{
    match actors.get(actor) {
        Some(onward) => onward.is_in_doubt(),
        None => false,
    }
}

// Whether forwards leave open which message came, by its name.
fn doubt(is_in_doubt: bool) -> [Figure; 1]
    ensures { result ≡ (codes "forwards_in_doubt", Some (cond is_in_doubt 1 0)) ∷ [] }
{
    let doubt = if is_in_doubt { 1 } else { 0 };
    [Figure::of(b"forwards_in_doubt", Some(doubt))]
}

impl Doors {
    // Adds the lines of the figures of a queue with this name, where the queues are marked from
    // which it can be reached.
    fn write_door(
        &self,
        wanted: Wanted,
        marks: &[bool],
        door: &Door,
        of: &[u8],
        text: &mut Lines,
    ) -> Result<(), AllocError>
        ensures { OnOk result (text.new ≡ text.old
            ++ lines (records_of_door wanted marks.now self.now door.now of.now)) }
    {
        let unclear = open_in(marks, self.of_actors.as_slice(), door)?;
        let may_come = all_marked(marks, self)?.saturating_sub(door.left());
        add_figures(
            text,
            of,
            &ages_of(*self.ways.allocator(), wanted, unclear, door)?,
        )?;
        add_figures(text, of, &sizes(unclear, may_come))
    }

    /// Adds the lines of the figures of the queue with this number and name.
    ///
    /// # Errors
    ///
    /// `AllocError` if a growth is refused, or more is counted than 64 bits can say.
    pub(crate) fn write_queue(
        &self,
        alloc: Global,
        wanted: Wanted,
        queue: usize,
        of: &[u8],
        text: &mut Lines,
    ) -> Result<(), AllocError>
        ensures { OnOk result (text.new
            ≡ text.old ++ lines (records_of_queue wanted self.now (queue, of.now))) }
    {
        let marks = before(alloc, self.of_queues.len(), self.ways.as_slice(), queue)?;
        let marks = marks.as_slice();
        match self.of_queues.get(queue) {
            Some(door) => self.write_door(wanted, marks, door, of, text),
            None => self.write_door(wanted, marks, &Door::new(alloc), of, text),
        }
    }

    /// Adds the line of the figure of the actor with this number among actors, and with this name.
    ///
    /// # Errors
    ///
    /// `AllocError` if a growth is refused.
    pub(crate) fn write_actor(
        &self,
        actor: usize,
        of: &[u8],
        text: &mut Lines,
    ) -> Result<(), AllocError>
        ensures { OnOk result (text.new
            ≡ text.old ++ lines (records_of_actor self.now (actor, of.now))) }
    {
        let is_in_doubt = is_in_doubt(self.of_actors.as_slice(), actor);
        add_figures(text, of, &doubt(is_in_doubt))
    }
}
