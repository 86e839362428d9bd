//! What leaves a queue while its messages are received.
use crate::transfers::Load;
use std::alloc::{AllocError, Global};
use std::marker::Model;

/// The memory for a load.
#[derive(Drop)]
pub struct LoadSlot {
    load: Box<Option<Load>>,
}

impl LoadSlot {
    /// The memory for a load.
    ///
    /// # Errors
    ///
    /// `AllocError` if memory runs out.
    pub fn new(alloc: Global) -> Result<LoadSlot, AllocError> {
        Ok(LoadSlot {
            load: Box::new(alloc, None)?,
        })
    }
}

/// The load of a message that left at once, if it did. It lies apart, so that a `Got` is small:
/// hardly any message leaves at once. Contracts see the load.
#[derive(Drop)]
pub struct LeftLoad {
    load: Option<Box<Option<Load>>>,
}

impl Model for LeftLoad {
    ghost use Rattle.std.specs.Option.{option_flatten, option_map};
    ghost use Rattle.std.specs.Prelude.{Option};
    ghost use Rattle.sqs_redrive.specs.declared.transfers.Load.{Load};

    ghost Value = { Option Load };

    ghost view = { λ l. option_flatten (option_map (λ b. b.value) l.load) };
}

impl LeftLoad {
    ghost use Rattle.std.specs.Prelude.{◌≡◌, IsSome, None, option_copied};

    /// No load.
    pub fn none() -> LeftLoad
        ensures { result ≡ None }
    {
        LeftLoad { load: None }
    }

    /// This load, if there is one, in the memory for it.
    pub fn new(load: Option<Load>, slot: Option<LoadSlot>) -> LeftLoad
        requires { IsSome load → IsSome slot }
        ensures { result ≡ load }
    {
        match slot {
            None => LeftLoad::none(),
            Some(mut slot) => {
                *slot.load = load;
                LeftLoad {
                    load: Some(slot.load),
                }
            }
        }
    }

    /// The load, if there is one.
    pub fn load(&self) -> Option<&Load>
        ensures { option_copied result ≡ self.now }
    {
        match &self.load {
            None => None,
            Some(load) => (**load).as_ref(),
        }
    }
}
