//! Why a reader stops.
ghost use Rattle.std.specs.Prelude.{◌++◌, ◌≡◌};
ghost use Rattle.sqs_formats.specs.Keys.{fault_at};
ghost use Rattle.sim_scenario.specs.Gives.{Names};
ghost use Rattle.sim_scenario.specs.declared.fault.ReadError.TheVariants.{Memory};

use crate::place::Place;
use sim_clock::Refusal;
use sqs_formats::ScenarioFault;
use sqs_message::Text;
use std::alloc::{AllocError, AllocFailed, Global};

/// Why a scenario could not be read.
#[derive(Drop)]
pub enum ReadError {
    /// A growth was refused.
    Memory,
    /// The first fault of the text.
    Fault(ScenarioFault),
}

impl From<AllocError> for ReadError {
    ghost from_gives = { λ _ e. e ≡ Memory };

    fn from(_refused: AllocError) -> Self {
        ReadError::Memory
    }
}

impl<T: Drop> From<AllocFailed<T>> for ReadError {
    ghost from_gives = { λ _ e. e ≡ Memory };

    fn from(_refused: AllocFailed<T>) -> Self {
        ReadError::Memory
    }
}

/// The fault at a key of a table, or out of memory.
pub(crate) fn blame(alloc: Global, refusal: Refusal, place: &Place, key: &str) -> ReadError
    ensures { Names result (fault_at refusal (place.now ++ key.now)) }
{
    match place.of(alloc, key) {
        Ok(place) => ReadError::Fault(ScenarioFault {
            refusal,
            place: Text::new(place.into_bytes()),
        }),
        Err(_) => ReadError::Memory,
    }
}
