//! Sites.
ghost use Rattle.std.specs.Prelude.{All, IfOk, Some, [], map, ◌≡◌, ◌≤◌};
ghost use Rattle.sim_actor.specs.Lives.{IsRole};
ghost use Rattle.sqs_model.specs.Answers.{most_count};
ghost use Rattle.sqs_model.specs.Counts.{site_count};
ghost use Rattle.sqs_model.specs.Dues.{least_due};
ghost use Rattle.sqs_model.specs.Progress.{AreTimely, IsRecent};
ghost use Rattle.sqs_model.specs.Scenario.{fresh_core};
ghost use Rattle.sim_site.specs.Kept.{IsCount, IsSetUp};
ghost use Rattle.sqs_model.specs.Step.{handled};
ghost use Rattle.sim_site.specs.Effects.{DoesDue, site_of};

use crate::agents::Task;
use crate::arrivals::{Arrivals, Transfers};
use crate::effects::Effects;
use crate::handling::Handling;
use crate::opening::{open_actors, open_tasks};
use crate::state::Core;
use sim_clock::{Class, Key, Refusal, lesser};
use sim_draw::Draws;
use sqs_message::Row;
use sqs_model::ActorSettings;
use sqs_queue::Queue;
use sqs_redrive::{Outbound, QueueSettings, TaskSettings};
use std::alloc::{AllocError, Global};
use std::marker::Model;

/// A queue with its actors and tasks, and the transfers on their way to it. Contracts see it as the
/// definitions' `Site`. It keeps the key of the next entry due.
#[derive(Drop)]
pub struct Site {
    core: Core,
    arriving: Arrivals,
    due: Option<Key>,
}

impl Model for Site {
    ghost use Rattle.std.specs.Prelude.{◌≡◌};
    ghost use Rattle.sqs_model.specs.Dues.{least_due};
    ghost use Rattle.sqs_model.specs.Site.{Site};

    ghost Value = { Site };

    ghost view = { λ s. record { core = s.core; arriving = s.arriving } };

    ghost invariant = { λ s. s.due ≡ least_due (record { core = s.core; arriving = s.arriving }) };
}

// The key of the next entry due.
#[inline(always)]
fn least_of(core: &mut Core, arriving: &Arrivals) -> Option<Key>
    ensures due { result ≡ least_due (record { core = core.old; arriving = arriving.now }) }
    ensures same { core.new ≡ core.old }
{
    let arrival = arriving.least();
    let other = core.least_due();
    lesser(arrival, other)
}

// Handles the next entry due.
#[tactic(auto, unfolding(sqs_model::specs::Step::handled))]
fn handle_due(
    core: &mut Core,
    arriving: &mut Arrivals,
    handling: &mut Handling<'_>,
) -> Result<(), Refusal>
    requires due { least_due (record { core = core.old; arriving = arriving.old })
        ≡ Some handling.old.key }
    requires agent { handling.old.agent ≡ handling.old.key.agent }
    requires recent { IsRecent handling.old.key.at core.old.queue }
    requires timely { AreTimely arriving.old }
    ensures { DoesDue result handling.old handling.new (site_of core.old arriving.old)
        (site_of core.new arriving.new) }
{
    if handling.key.class == Class::Arrival {
        let transfer = arriving.take_first();
        core.handle_arrival(handling, transfer)
    } else {
        core.handle(handling)
    }
}

impl Site {
    /// A site of the queue with this number, of the kind that its settings say, with its actors and
    /// tasks, each under its own number. A sample is taken every `sample` milliseconds, or never if
    /// that is 0.
    ///
    /// # Errors
    ///
    /// `AllocError` if memory runs out.
    pub fn new(
        alloc: Global,
        number: u32,
        settings: QueueSettings,
        actors: Vec<(u32, ActorSettings)>,
        tasks: Vec<(u32, TaskSettings)>,
        seed: u64,
        sample: u64,
    ) -> Result<Site, AllocError>
        requires roles { All (λ x. IsRole x.1.role) actors.items }
        requires set_up { IsSetUp settings (map (λ x. x.1) actors.items) tasks.items }
        requires sample { sample ≤ most_count }
        ensures { IfOk result (λ s. s
            ≡ site_of (fresh_core number settings actors.items tasks.items seed sample) []) }
    {
        let actors = open_actors(alloc, actors, seed)?;
        let tasks = open_tasks(alloc, tasks.as_slice(), seed)?;
        let queue = Queue::new(alloc, number, settings);
        let draws = Draws::new(seed, number);
        let mut core = Core::new(alloc, queue, actors, tasks, draws, sample);
        let arriving = Arrivals::new(alloc);
        let due = least_of(&mut core, &arriving);
        Ok(Site {
            core,
            arriving,
            due,
        })
    }

    /// Its queue.
    pub fn queue(&self) -> &Queue
        ensures { result.now ≡ self.now.core.queue }
    {
        self.core.queue()
    }

    /// The greatest count that it has reached: of its queue's arrivals, of its samples, transfers
    /// and words, and of those of its actors and tasks.
    pub fn greatest_count(&self) -> u64
        ensures { IsCount result (site_count self.now.core) }
    {
        self.core.greatest_count()
    }

    /// The move tasks of the site.
    pub fn tasks(&self) -> &[Task]
        ensures { result.now ≡ self.now.core.tasks }
    {
        self.core.tasks()
    }

    /// The transfers on their way to it, in the order of their keys.
    pub fn arriving(&self) -> Transfers<'_>
        ensures list { result ≡ self.now.arriving }
    {
        self.arriving.iter()
    }
}

impl sim_engine::Site for Site {
    ghost use Rattle.sqs_model.specs.Sqs.{sqs};
    ghost use Rattle.sqs_model.specs.Conditions.{sqs_conditions};
    ghost use Rattle.sqs_model.proofs.Instance.{sqs_laws};

    type Row = Row;

    type Transfer = Outbound;

    ghost engine = { sqs };

    ghost conditions = { sqs_conditions };

    fn transfer_key(transfer: &Outbound) -> Key {
        transfer.key()
    }

    fn to(transfer: &Outbound) -> u32 {
        transfer.to
    }

    fn row_key(row: &Row) -> Key {
        row.key
    }

    fn row_site(row: &Row) -> u32 {
        row.queue
    }

    fn number(&self) -> u32 {
        self.core.queue().site()
    }

    fn least_due(&self) -> Option<Key> {
        self.due
    }

    fn accept(&mut self, transfer: Outbound) -> Result<(), Refusal> {
        let due = lesser(Some(transfer.key()), self.due);
        self.arriving.insert(transfer)?;
        self.due = due;
        Ok(())
    }

    fn handle_into(&mut self, key: Key, effects: &mut Effects) -> Result<(), Refusal> {
        let mut handling = Handling {
            key,
            agent: key.agent,
            effects,
        };
        let done = handle_due(&mut self.core, &mut self.arriving, &mut handling);
        self.due = least_of(&mut self.core, &self.arriving);
        done
    }

    ghost laws = { sqs_laws };
}
