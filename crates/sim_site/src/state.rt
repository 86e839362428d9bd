//! A site without the transfers on their way to it.
ghost use Rattle.std.specs.Prelude.{◌≡◌, ◌≤◌, map};
ghost use Rattle.sim_site.specs.Kept.{IsCount, IsSetUp, numbered_settings};
ghost use Rattle.sqs_model.specs.Answers.{most_count};
ghost use Rattle.sim_clock.specs.Order.{least};
ghost use Rattle.sqs_model.specs.Counts.{greatest, site_count, task_count};
ghost use Rattle.sqs_model.specs.Dues.{core_dues, sample_dues};
ghost use Rattle.sim_site.specs.Reading.{idle_core};

mod arrivals;
mod deletes;
mod gives;
mod handling;
mod polls;
mod receives;
mod returns;
mod samples;
mod scaling;
mod sends;
mod services;
mod steps;
mod tasks;
mod turns;

use crate::actors::Actors;
use crate::agents::Task;
use crate::dues::{least_step, lesser_of};
use crate::polls::Polls;
use sim_clock::{Class, Key, lesser};
use sim_draw::Draws;
use sqs_queue::Queue;
use std::alloc::Global;
use std::marker::Model;

/// A queue with its actors and tasks, and the polls that wait at it. Also the words that it drew,
/// the transfers that it sent, and how many samples of it were taken. Contracts see it as the
/// definitions' record of these.
#[derive(Drop)]
pub struct Core {
    alloc: Global,
    queue: Queue,
    actors: Actors,
    tasks: Vec<Task>,
    polls: Polls,
    sent: u64,
    draws: Draws,
    sample: u64,
    samples: u64,
}

impl Model for Core {
    ghost use Rattle.std.specs.Prelude.{map, ◌≤◌};
    ghost use Rattle.sqs_model.specs.Answers.{most_count};
    ghost use Rattle.sqs_model.specs.Site.{Core};
    ghost use Rattle.sim_site.specs.Kept.{AreAllowed, IsSampled, IsSetUp, numbered_settings};

    ghost Value = { Core };

    ghost view = { λ c. record { queue = c.queue; actors = c.actors; tasks = c.tasks.items; polls = c.polls; sent = c.sent; draws = c.draws; sample = c.sample; samples = c.samples } };

    ghost invariant = { λ c. IsSetUp c.queue.settings (map (λ a. a.settings) c.actors) (map numbered_settings c.tasks.items) × IsSampled c.sample c.samples × AreAllowed c.polls × (c.sent ≤ most_count) × (c.draws.taken ≤ most_count) };
}

// The greatest count of any of some tasks.
fn greatest_of_tasks(tasks: &[Task]) -> u64
    ensures { IsCount result (greatest (map task_count tasks.now)) }
{
    let mut most = 0;
    for task in tasks {
        most = task.greatest_count().max(most);
    }
    most
}

impl Core {
    /// A site with nothing on its way to it that has done nothing.
    pub fn new(
        alloc: Global,
        queue: Queue,
        actors: Actors,
        tasks: Vec<Task>,
        draws: Draws,
        sample: u64,
    ) -> Core
        requires set_up { IsSetUp queue.settings (map (λ a. a.settings) actors)
            (map numbered_settings tasks.items) }
        requires sample { sample ≤ most_count }
        requires words { draws.taken ≤ most_count }
        ensures { result ≡ idle_core queue actors tasks.items draws sample }
    {
        Core {
            alloc,
            queue,
            actors,
            tasks,
            polls: Polls::new(alloc),
            sent: 0,
            draws,
            sample,
            samples: 0,
        }
    }

    /// Its queue.
    pub fn queue(&self) -> &Queue
        ensures { result.now ≡ self.now.queue }
    {
        &self.queue
    }

    /// The move tasks of the site.
    pub fn tasks(&self) -> &[Task]
        ensures { result.now ≡ self.now.tasks }
    {
        self.tasks.as_slice()
    }

    /// The greatest of its counts: of its queue's arrivals, its transfers, words and samples, and
    /// of those of its actors and tasks.
    pub fn greatest_count(&self) -> u64
        ensures { IsCount result (site_count self.now) }
    {
        let agents = self
            .actors
            .greatest_count()
            .max(greatest_of_tasks(&self.tasks));
        let words = self.draws.taken();
        let own = self.sent.max(words.max(self.samples.max(agents)));
        self.queue.arrivals().max(own)
    }

    /// The key of the next sample, if samples are taken.
    fn sample_due(&self) -> Option<Key>
        ensures { result ≡ least (sample_dues self.now) }
    {
        if self.sample == 0 {
            return None;
        }
        Some(Key {
            at: self.sample * (self.samples + 1),
            agent: self.queue.site(),
            class: Class::Sample,
            number: self.samples,
        })
    }

    /// The key of the next entry due, without arrivals.
    pub fn least_due(&mut self) -> Option<Key>
        ensures due { result ≡ least (core_dues self.old) }
        ensures same { self.new ≡ self.old }
    {
        let wake = self.actors.least_wake();
        let of_queue = lesser_of(self.queue.least_due(), self.polls.least_end());
        let best = *lesser_of(of_queue, &wake);
        if self.sample == 0 && self.tasks.is_empty() {
            return best;
        }
        let best = lesser(best, self.sample_due());
        lesser(best, least_step(&self.tasks))
    }
}
