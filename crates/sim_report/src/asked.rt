//! What figures are asked for.
ghost use Rattle.std.specs.Prelude.{◌≡◌};
ghost use Rattle.sim_report.specs.Figures.{start_of, window_of};

use crate::stretch::Stretch;
use sqs_message::Text;

/// What is wanted of figures.
#[derive(Clone, Copy, Debug, PartialEq, Eq)]
pub struct Wanted {
    /// The stretch of the run over which they are.
    pub stretch: Stretch,
    /// More messages than these that are there and not in flight are a backlog.
    pub backlog: u64,
    /// How long a window of time is, of which the worst is told, in milliseconds.
    pub window: u64,
}

impl Wanted {
    /// The number of the window of time in which a moment lies.
    pub(crate) fn window_of(self, at: u64) -> u64
        ensures { result ≡ window_of self at }
    {
        if self.window == 0 {
            0
        } else {
            at.saturating_sub(self.stretch.from) / self.window
        }
    }

    /// The first moment of the window with this number, in milliseconds.
    pub(crate) fn start_of(self, number: u64) -> u128
        ensures { result ≡ start_of self number }
    {
        u128::from(self.stretch.from) + u128::from(number) * u128::from(self.window)
    }
}

/// A way from queue to queue, by their numbers: to a dead-letter queue, of a move task or of a
/// forward.
#[derive(Clone, Copy, Debug, PartialEq, Eq)]
pub struct Way {
    pub from: u32,
    pub to: u32,
}

/// A queue of which figures are asked for.
#[derive(Drop)]
pub struct QueueAsked {
    pub name: Text,
    /// The greatest number of its messages in flight.
    pub quota: u64,
}
