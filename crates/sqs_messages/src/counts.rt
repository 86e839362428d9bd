//! The number of messages in each state.
ghost use Rattle.std.specs.Prelude.{◌≡◌, ◌+◌, ◌<◌, ◌≤◌, ◌^◌};
ghost use Rattle.sqs_messages.specs.Counted.{count_at, with_one};

use sqs_message::Place;

/// The number of messages of a queue in each state.
#[derive(Clone, Copy, Debug, PartialEq, Eq)]
pub struct Counts {
    /// Messages that may be received (`ApproximateNumberOfMessages`).
    pub visible: u64,
    /// Messages that were received and are not back yet (`ApproximateNumberOfMessagesNotVisible`).
    pub in_flight: u64,
    /// Messages that are not yet visible for the first time (`ApproximateNumberOfMessagesDelayed`).
    pub delayed: u64,
}

/// The counts of no messages.
pub const NO_COUNTS: Counts = Counts {
    visible: 0,
    in_flight: 0,
    delayed: 0,
};

// Counts one more message in a state.
pub fn count_in(counts: &mut Counts, place: Place)
    requires { count_at place counts.old + 1 < 2 ^ 64 }
    ensures { counts.new ≡ with_one place counts.old }
{
    match place {
        Place::Visible => counts.visible += 1,
        Place::InFlight => counts.in_flight += 1,
        Place::Delayed => counts.delayed += 1,
    }
}

// Counts one message fewer in a state.
pub fn count_out(counts: &mut Counts, place: Place)
    requires { 1 ≤ count_at place counts.old }
    ensures { with_one place counts.new ≡ counts.old }
{
    match place {
        Place::Visible => counts.visible -= 1,
        Place::InFlight => counts.in_flight -= 1,
        Place::Delayed => counts.delayed -= 1,
    }
}
