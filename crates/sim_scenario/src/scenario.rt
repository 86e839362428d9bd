//! A scenario: what its text says is to be simulated.
use sqs_message::Text;
use sqs_model::ActorSettings;
use sqs_redrive::{QueueSettings, TaskSettings};
use std::marker::Model;

/// A scenario that was read from a text without a fault. Agents are numbered: queues first, then
/// actors, then move tasks. Contracts see it as the model's scenario. Its invariant `IsInRange`
/// says all that reading checked: ranges, distinct names, queues of the right kind, and roles that
/// fit their queues.
#[derive(Drop)]
pub struct Scenario {
    horizon: u64,
    seed: u64,
    sample: u64,
    queues: Vec<QueueSettings>,
    actors: Vec<ActorSettings>,
    tasks: Vec<TaskSettings>,
    names: Vec<Text>,
}

/// The parts of a scenario, to be run: its times in milliseconds, the settings of its agents, and
/// their names by their numbers.
#[derive(Drop)]
pub struct ScenarioParts {
    pub horizon: u64,
    pub seed: u64,
    pub sample: u64,
    pub queues: Vec<QueueSettings>,
    pub actors: Vec<ActorSettings>,
    pub tasks: Vec<TaskSettings>,
    pub names: Vec<Text>,
}

impl Model for Scenario {
    ghost use Rattle.sqs_model.specs.Scenario.{Scenario};
    ghost use Rattle.sim_scenario.specs.Ranges.{IsInRange};

    ghost Value = { Scenario };

    ghost view = { λ s. record { horizon = s.horizon; seed = s.seed; sample = s.sample; queues = s.queues.items; actors = s.actors.items; tasks = s.tasks.items; names = s.names.items } };

    ghost invariant = { λ s. IsInRange (record { horizon = s.horizon; seed = s.seed; sample = s.sample; queues = s.queues.items; actors = s.actors.items; tasks = s.tasks.items; names = s.names.items }) };
}

impl Scenario {
    ghost use Rattle.std.specs.Prelude.{◌≡◌};
    ghost use Rattle.sim_scenario.specs.AtHome.{scenario_with};
    ghost use Rattle.sim_scenario.specs.Parts.{scenario_of_parts};
    ghost use Rattle.sim_scenario.specs.Ranges.{IsInRange};

    /// The scenario with these parts; the names are those of the queues, then of the actors, then
    /// of the move tasks.
    pub(crate) fn new(
        horizon: u64,
        seed: u64,
        sample: u64,
        queues: Vec<QueueSettings>,
        actors: Vec<ActorSettings>,
        tasks: Vec<TaskSettings>,
        names: Vec<Text>,
    ) -> Scenario
        requires { IsInRange (scenario_with horizon seed sample queues.items actors.items
            tasks.items names.items) }
        ensures { result ≡ scenario_with horizon seed sample queues.items actors.items tasks.items
            names.items }
    {
        Scenario {
            horizon,
            seed,
            sample,
            queues,
            actors,
            tasks,
            names,
        }
    }

    /// The last moment of the run, in milliseconds.
    pub fn horizon(&self) -> u64
        ensures value { result ≡ self.now.horizon }
        ensures range { IsInRange self.now }
    {
        self.horizon
    }

    /// The seed of all random words.
    pub fn seed(&self) -> u64
        ensures { result ≡ self.now.seed }
    {
        self.seed
    }

    /// The time from one sample of the queues to the next, in milliseconds; 0 if none is taken.
    pub fn sample(&self) -> u64
        ensures { result ≡ self.now.sample }
    {
        self.sample
    }

    /// The settings of the queues.
    pub fn queues(&self) -> &[QueueSettings]
        ensures value { result.now ≡ self.now.queues }
        ensures range { IsInRange self.now }
    {
        self.queues.as_slice()
    }

    /// The settings of the actors.
    pub fn actors(&self) -> &[ActorSettings]
        ensures value { result.now ≡ self.now.actors }
        ensures range { IsInRange self.now }
    {
        self.actors.as_slice()
    }

    /// The settings of the move tasks.
    pub fn tasks(&self) -> &[TaskSettings]
        ensures value { result.now ≡ self.now.tasks }
        ensures range { IsInRange self.now }
    {
        self.tasks.as_slice()
    }

    /// The names of all agents, by their numbers.
    pub fn names(&self) -> &[Text]
        ensures { result.now ≡ self.now.names }
    {
        self.names.as_slice()
    }

    /// All parts, moved out.
    pub fn into_parts(self) -> ScenarioParts
        ensures value { scenario_of_parts result ≡ self }
        ensures range { IsInRange self }
    {
        ScenarioParts {
            horizon: self.horizon,
            seed: self.seed,
            sample: self.sample,
            queues: self.queues,
            actors: self.actors,
            tasks: self.tasks,
            names: self.names,
        }
    }
}
