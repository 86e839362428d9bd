//! Settings of actors.
use sqs_message::{Listed, Script, Template, Text};
use sqs_redrive::Latency;

/// A point of a distribution of times: so many times in a thousand are below this one.
#[derive(Clone, Copy, Debug, PartialEq, Eq)]
pub struct Quantile {
    pub permille: u64,
    /// In milliseconds.
    pub time: u64,
}

/// How long something takes, by one random word.
#[derive(PartialEq, Eq, Drop)]
pub enum Distribution {
    /// From the one to the other, in milliseconds, each time with the same chance.
    Uniform(u64, u64),
    /// By quantiles from 0 to 1,000 in a thousand; linear from each to the next.
    Quantiles(Listed<Quantile>),
}

/// A group of messages, with its weight among others.
#[derive(PartialEq, Eq, Drop)]
pub struct WeightedGroup {
    pub group: Text,
    pub weight: u64,
}

/// The groups to which a producer sends.
#[derive(PartialEq, Eq, Drop)]
pub enum Groups {
    /// So many groups in turn: g0, g1 and so on.
    InTurn(u64),
    /// One of these for each message, by one random word; each is as likely as its weight says.
    ByWeight(Listed<WeightedGroup>),
}

/// A stretch of time, in milliseconds from the start of the run, whose end is not in it.
#[derive(Clone, Copy, Debug, PartialEq, Eq)]
pub struct Stretch {
    pub from: u64,
    pub to: u64,
}

/// Settings of a producer, which sends messages of its own. Times are milliseconds, but the delay
/// is in seconds.
#[derive(PartialEq, Eq, Drop)]
pub struct ProducerSettings {
    /// The number of messages that it sends.
    pub count: u64,
    /// When it sends the first message.
    pub start: u64,
    /// The time from one send to the next.
    pub gap: Distribution,
    /// The body. Each `{n}` in it is replaced by the message's number, from 0.
    pub body: Template,
    /// The groups to which it sends; only if its queue is FIFO.
    pub groups: Option<Groups>,
    /// Whether it gives a deduplication id; only if its queue is FIFO.
    pub ids: bool,
    /// The message timer in seconds, if any; only if its queue is standard.
    pub delay: Option<u64>,
    /// From when on it sends nothing.
    pub stop: Option<u64>,
}

/// A stretch of time in which services fail with a chance of its own, as while a dependency is down.
#[derive(Clone, Copy, Debug, PartialEq, Eq)]
pub struct Outage {
    /// In milliseconds from the start of the run; the end is not in it.
    pub stretch: Stretch,
    /// The number of services in a thousand that fail.
    pub permille: u64,
}

/// What one service is of.
#[derive(Clone, Copy, Debug, PartialEq, Eq)]
pub enum Serving {
    /// Each message of a receive by itself, one after another.
    Each,
    /// All messages of a receive at once, as under Lambda. To the time drawn it adds so many
    /// milliseconds for each message.
    Once { each: u64 },
}

/// The queues to which a consumer forwards what it served.
#[derive(PartialEq, Eq, Drop)]
pub struct Forwarding {
    /// The numbers of the queues, in order. A queue that is named twice gets two messages.
    pub to: Listed<u32>,
    /// How long each transfer takes.
    pub latency: Latency,
}

/// By whom a consumer's copies are scaled.
#[derive(Clone, Copy, Debug, PartialEq, Eq)]
pub struct Scaling {
    /// The number of the scaler, an actor at the same queue.
    pub scaler: u32,
    /// The number of the second of the copies; the first one has a lesser number, and the others
    /// follow it. So many of them ask, from the first on, as the scaler says.
    pub second: u32,
    /// How long a copy that did not ask takes until it asks, in milliseconds.
    pub start: u64,
}

/// Settings of a consumer, which receives, serves and deletes messages. Times are milliseconds, but
/// wait and timeout are in seconds.
#[derive(PartialEq, Eq, Drop)]
pub struct ConsumerSettings {
    /// When it first receives.
    pub start: u64,
    /// The number of messages that it asks for.
    pub batch: u64,
    /// How long it gathers messages, from the first on, if a receive gave fewer.
    pub gather: u64,
    /// How long a receive waits; 0 for a short poll.
    pub wait: u64,
    /// The visibility timeout that it asks for; none for the queue's.
    pub timeout: Option<u64>,
    /// The time of a service.
    pub service: Distribution,
    pub serving: Serving,
    /// How long a service takes that fails, if that is another time. It is then decided when a
    /// service begins whether it fails, and else when it ends.
    pub fail_service: Option<u64>,
    /// The number of services in a thousand that fail, but during an outage.
    pub fail_permille: u64,
    /// How long it waits after it got nothing.
    pub idle: u64,
    pub forward: Option<Forwarding>,
    /// From when on it asks for nothing.
    pub stop: Option<u64>,
    /// By whom it is scaled, if it is.
    pub scaling: Option<Scaling>,
    /// The text that makes a service fail if the message's body contains it.
    pub fails_on: Option<Text>,
    /// When services that are decided fail with another chance. The first that has a moment counts.
    pub outages: Listed<Outage>,
    /// Whether a failed service fails all messages of its receive.
    pub whole: bool,
    /// The visibility timeouts in seconds that follow a failed service, by the message's receive
    /// count; none if the message's timeout is left as it is.
    pub backoff: Listed<u64>,
    /// Whether such a timeout is drawn, from 0 to that number of seconds.
    pub jitter: bool,
    /// How often the visibility timeout of the message in service is set anew.
    pub heartbeat: Option<u64>,
}

/// A step of a scaler: how many copies it wants while few enough messages are visible.
#[derive(Clone, Copy, Debug, PartialEq, Eq)]
pub struct ScalingStep {
    /// Up to how many visible messages.
    pub visible: u64,
    pub copies: u64,
}

/// How many copies a scaler wants.
#[derive(PartialEq, Eq, Drop)]
pub enum Target {
    /// One for each of so many visible messages.
    PerCopy(u64),
    /// As many as the first step says that has so many visible messages, and past the last one as many
    /// as there may be.
    Steps(Listed<ScalingStep>),
}

/// Settings of a scaler, which says how many copies of consumers at its queue ask for messages. Times
/// are milliseconds.
#[derive(PartialEq, Eq, Drop)]
pub struct ScalerSettings {
    /// When it first reads how many messages are visible.
    pub start: u64,
    /// The time from one reading to the next.
    pub every: u64,
    /// How old a reading is when it decides by it, as numbers are that CloudWatch shows.
    pub reading: u64,
    /// How many copies it wants.
    pub target: Target,
    /// The fewest copies.
    pub least: u32,
    /// The most copies.
    pub most: u32,
    /// How many copies it adds at most at once.
    pub most_added: u32,
    /// How many it takes away at most at once.
    pub most_taken: u32,
    /// How long after a change, or after the start of the run, it adds none.
    pub cooldown_out: u64,
    /// How long it takes none away.
    pub cooldown_in: u64,
}

/// The kind of an actor, with what it does.
#[derive(PartialEq, Eq, Drop)]
pub enum Role {
    Script(Script),
    Producer(ProducerSettings),
    Consumer(ConsumerSettings),
    Scaler(ScalerSettings),
}

/// Settings of an actor.
#[derive(PartialEq, Eq, Drop)]
pub struct ActorSettings {
    /// The number of the queue that it calls.
    pub home: u32,
    pub role: Role,
}
