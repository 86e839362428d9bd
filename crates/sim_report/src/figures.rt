//! Figures of queues and actors over a stretch of a run.
ghost use Rattle.std.specs.Prelude.{◌≡◌, ◌∷◌, ◌++◌, [], flat_map, length, map, List, IfOk, OnOk};
ghost use Rattle.sqs_message.specs.declared.row.Row.{Row as TheRow};
ghost use Rattle.sim_report.specs.Facts.{fact_of};
ghost use Rattle.sim_report.specs.Doors.{actor_doors, queue_doors};
ghost use Rattle.sim_report.specs.Figured.{actor_name, actor_records, actors_with, door_records, figured, figures_after, figures_with, fresh_actor, fresh_queue, queue_name, queue_records, queue_with};
ghost use Rattle.sim_report.specs.Figures.{FiguresAsked};
ghost use Rattle.sim_report.specs.Written.{figures_text};
ghost use Rattle.sqs_formats.specs.Rows.{lines};
ghost use Rattle.sim_report.specs.Running.{changed};

use crate::actor_figures::ActorFigures;
use crate::asked::{QueueAsked, Wanted, Way};
use crate::doors::Doors;
use crate::fact::Fact;
use crate::queue_figures::QueueFigures;
use crate::stretch::Stretch;
use sim_records::Lines;
use sqs_message::{Row, Text};
use std::alloc::{AllocError, Global};
use std::marker::Model;

/// The figures of queues and actors over the rows of a run so far. The rows are not kept.
#[derive(Drop)]
pub struct Figures {
    wanted: Wanted,
    of_queues: Vec<QueueFigures>,
    of_actors: Vec<ActorFigures>,
    doors: Doors,
}

impl Model for Figures {
    ghost use Rattle.sim_report.specs.Figured.{FiguresState};

    ghost Value = { FiguresState };

    ghost view = { λ f. record { wanted = f.wanted; of_queues = f.of_queues.items; of_actors = f.of_actors.items; doors = f.doors } };
}

// Takes in what a row says, which counts in this place, at its queue, if that is one of these.
fn take_at_queue(
    queues: &mut [QueueFigures],
    place: Option<u16>,
    wanted: Wanted,
    fact: &Fact,
) -> Result<(), AllocError>
    ensures { OnOk result (queues.new
        ≡ changed (queue_with place wanted fact.now) fact.now.count.queue queues.old) }
{
    let queue = fact.count.queue as usize;
    if queue < queues.len() {
        queues[queue].take(place, wanted, fact)?;
    }
    Ok(())
}

// Takes in what a row says, which counts in this place, at its actor, if that is one of these; so
// many queues come before them.
fn take_at_actor(
    actors: &mut [ActorFigures],
    queues: usize,
    place: Option<u16>,
    stretch: Stretch,
    fact: &Fact,
) -> Result<(), AllocError>
    ensures { OnOk result (actors.new ≡ actors_with queues place stretch fact.now actors.old) }
{
    let agent = fact.agent as usize;
    if agent < queues {
        return Ok(());
    }
    let actor = agent - queues;
    if actor < actors.len() {
        actors[actor].take(place, stretch, fact)?;
    }
    Ok(())
}

// The figures of no rows over a stretch, of these queues.
fn fresh_queues(
    alloc: Global,
    stretch: Stretch,
    asked: Vec<QueueAsked>,
) -> Result<Vec<QueueFigures>, AllocError>
    ensures { IfOk result (λ v. v.items ≡ map (fresh_queue stretch) asked.items) }
{
    let mut queues = Vec::with_capacity(alloc, asked.len())?;
    for queue in asked {
        queues.push(QueueFigures::new(alloc, stretch, queue))?;
    }
    Ok(queues)
}

// The figures of no rows, of actors with these names.
fn fresh_actors(alloc: Global, names: Vec<Text>) -> Result<Vec<ActorFigures>, AllocError>
    ensures { IfOk result (λ v. v.items ≡ map fresh_actor names.items) }
{
    let mut actors = Vec::with_capacity(alloc, names.len())?;
    for name in names {
        actors.push(ActorFigures::new(alloc, name))?;
    }
    Ok(actors)
}

// Adds the lines of the figures of queues.
fn add_queues(
    alloc: Global,
    text: &mut Lines,
    wanted: Wanted,
    queues: &[QueueFigures],
) -> Result<(), AllocError>
    ensures { OnOk result (text.new
        ≡ text.old ++ lines (flat_map (queue_records wanted) queues.now)) }
{
    for queue in queues {
        queue.write(alloc, wanted, text)?;
    }
    Ok(())
}

// Adds the lines of the figures of actors.
fn add_actors(
    alloc: Global,
    text: &mut Lines,
    stretch: Stretch,
    actors: &[ActorFigures],
) -> Result<(), AllocError>
    ensures { OnOk result (text.new
        ≡ text.old ++ lines (flat_map (actor_records stretch) actors.now)) }
{
    for actor in actors {
        actor.write(alloc, stretch, text)?;
    }
    Ok(())
}

// Adds the lines of the figures of doors, of queues.
fn add_queue_doors(
    alloc: Global,
    text: &mut Lines,
    wanted: Wanted,
    doors: &Doors,
    queues: &[QueueFigures],
) -> Result<(), AllocError>
    ensures { OnOk result (text.new
        ≡ text.old ++ lines (queue_doors wanted (map queue_name queues.now) doors.now)) }
{
    for queue in 0..queues.len() {
        doors.write_queue(alloc, wanted, queue, queues[queue].name(), text)?;
    }
    Ok(())
}

// Adds the lines of the figures of doors, of actors.
fn add_actor_doors(
    text: &mut Lines,
    doors: &Doors,
    actors: &[ActorFigures],
) -> Result<(), AllocError>
    ensures { OnOk result (text.new
        ≡ text.old ++ lines (actor_doors (map actor_name actors.now) doors.now)) }
{
    for actor in 0..actors.len() {
        doors.write_actor(actor, actors[actor].name(), text)?;
    }
    Ok(())
}

impl Figures {
    // Adds the lines of the figures of doors.
    fn add_doors(&self, alloc: Global, text: &mut Lines) -> Result<(), AllocError>
        ensures { OnOk result (text.new ≡ text.old ++ lines (door_records self.now)) }
    {
        let queues = self.of_queues.as_slice();
        add_queue_doors(alloc, text, self.wanted, &self.doors, queues)?;
        add_actor_doors(text, &self.doors, self.of_actors.as_slice())
    }

    /// The figures of no rows of a run, of these queues and of the actors with these names; the
    /// queues are the first agents, and the actors the next. Messages may go these ways from queue
    /// to queue.
    ///
    /// # Errors
    ///
    /// `AllocError` if a growth is refused.
    pub fn new(
        alloc: Global,
        wanted: Wanted,
        queues: Vec<QueueAsked>,
        actors: Vec<Text>,
        ways: Vec<Way>,
    ) -> Result<Figures, AllocError>
        ensures { IfOk result (λ f. f ≡ figured (record {
          queues = queues.items;
          actors = actors.items;
          ways = ways.items;
          wanted = wanted;
        }) []) }
    {
        let doors = Doors::new(alloc, ways, queues.len(), actors.len())?;
        Ok(Figures {
            wanted,
            of_queues: fresh_queues(alloc, wanted.stretch, queues)?,
            of_actors: fresh_actors(alloc, actors)?,
            doors,
        })
    }

    /// Takes in what a row says, at its queue and its actor.
    ///
    /// # Errors
    ///
    /// `AllocError` if a count is at its greatest value, or an age could not be kept. The figures
    /// may then have a part of the row, and must not be used again.
    pub fn take(&mut self, fact: &Fact) -> Result<(), AllocError>
        ensures { OnOk result (self.new ≡ figures_with fact.now self.old) }
    {
        let wanted = self.wanted;
        if wanted.stretch.until <= fact.at {
            return Ok(());
        }
        let queues = self.of_queues.len();
        let place = fact.place_in(queues);
        take_at_queue(self.of_queues.as_mut_slice(), place, wanted, fact)?;
        let actors = self.of_actors.as_mut_slice();
        take_at_actor(actors, queues, place, wanted.stretch, fact)?;
        self.doors.take(wanted, fact)
    }

    /// Takes in what rows say, one after another.
    ///
    /// # Errors
    ///
    /// Those of `take`.
    pub fn take_rows(&mut self, rows: &[Row]) -> Result<(), AllocError>
        ensures { OnOk result (self.new ≡ figures_after rows.now self.old) }
    {
        for row in rows {
            self.take(&Fact::of(row))?;
        }
        Ok(())
    }

    /// The figures as text: a header, and a line for each figure of each queue and actor.
    ///
    /// # Errors
    ///
    /// `AllocError` if a growth is refused.
    pub fn text(&self, alloc: Global) -> Result<Vec<u8>, AllocError>
        ensures { (asked : FiguresAsked) (rows : List TheRow) → self.now ≡ figured asked rows
            → IfOk result (λ v. v.items ≡ figures_text asked rows) }
    {
        let mut text = Lines::new(alloc);
        text.add(&[b"figure", b"of", b"name", b"value"])?;
        add_queues(alloc, &mut text, self.wanted, self.of_queues.as_slice())?;
        let stretch = self.wanted.stretch;
        add_actors(alloc, &mut text, stretch, self.of_actors.as_slice())?;
        self.add_doors(alloc, &mut text)?;
        text.into_bytes()
    }
}
