//! Keys of due entries and their order.
ghost use Rattle.std.specs.Prelude.{◌≡◌};
ghost use Rattle.std.specs.Ordering.{is_lt};
ghost use Rattle.sim_clock.specs.Order.{key_cmp, lesser as the_lesser};

/// What becomes due. Of the entries that one agent has due at one moment, an earlier class comes
/// first.
#[derive(Clone, Copy, Debug, PartialEq, Eq, PartialOrd, Ord)]
pub enum Class {
    /// A message reaches the end of its retention period.
    Expiry,
    /// A message reaches the end of its delay or of its visibility timeout.
    Release,
    /// A transfer arrives at its destination.
    Arrival,
    /// A long poll ends without a message.
    PollEnd,
    /// An actor wakes.
    Wake,
    /// A queue's counts are sampled.
    Sample,
    /// A move task takes its next step.
    Step,
}

/// The key of a due entry. The entry with the least key is handled first. Keys are compared field
/// by field, in the order of the fields here.
#[derive(Clone, Copy, Debug, PartialEq, Eq, PartialOrd, Ord)]
pub struct Key {
    /// When it is due, in milliseconds from the start of the run.
    pub at: u64,
    /// The agent whose entry it is: the queue of a message or sample, the actor of a wake or poll,
    /// the task of a step, or the sender of a transfer.
    pub agent: u32,
    /// What becomes due.
    pub class: Class,
    /// Distinguishes the agent's entries of one class: the message's number, or how many entries of
    /// the class the agent had before.
    pub number: u64,
}

impl Key {
    /// Whether this entry is handled before the other one.
    pub fn is_before(&self, other: &Key) -> bool
        ensures { result ≡ is_lt (key_cmp self.now other.now) }
    {
        self < other
    }
}

/// The lesser of two keys that may be absent; of two equal keys the first.
pub fn lesser(first: Option<Key>, second: Option<Key>) -> Option<Key>
    ensures { result ≡ the_lesser first second }
{
    match (first, second) {
        (None, other) => other,
        (Some(key), None) => Some(key),
        (Some(key), Some(other)) => {
            if other.is_before(&key) {
                Some(other)
            } else {
                Some(key)
            }
        }
    }
}
