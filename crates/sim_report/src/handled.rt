//! The messages of a queue that were received and handled.
ghost use Rattle.std.specs.Prelude.{◌≡◌, [], OnOk, Some};
ghost use Rattle.sim_report.specs.Figured.{handled_in, handled_with, not_handled, unused_next, unused_parts};
ghost use Rattle.sim_report.specs.Figures.{unused_with};

use crate::fact::{Fact, Use};
use crate::numbers::Numbers;
use crate::often::Often;
use std::alloc::{AllocError, Global};
use std::collections::BTreeSet;
use std::marker::Model;

/// The unused receipts of a queue: they were given, no call to delete was made with them, and their
/// service did not fail. Of those of a first receive, which are the most, it keeps the numbers of
/// their messages. Each other is the number of its message, and how often that had been received.
#[derive(Drop)]
pub(crate) struct Receipts {
    first: Numbers,
    later: BTreeSet<(u64, u64)>,
}

impl Model for Receipts {
    ghost use Rattle.sim_report.specs.Figured.{Unused};

    ghost Value = { Unused };

    ghost view = { λ r. record { first = r.first; later = r.later.keys } };
}

// Takes in what a row does with a receipt that is not of a first receive.
#[inline(never)]
fn take_later(
    later: &mut BTreeSet<(u64, u64)>,
    handling: Use,
    receipt: (u64, u64),
) -> Result<(), AllocError>
    ensures { OnOk result
        (later.new.keys ≡ unused_with handling (Some receipt) later.old.keys) }
{
    match handling {
        Use::Gives => {
            later.insert(receipt)?;
        }
        Use::Deletes | Use::Calls | Use::Fails => {
            later.remove(&receipt);
        }
        Use::Passes => {}
    }
    Ok(())
}

impl Receipts {
    // None.
    fn new(alloc: Global) -> Receipts
        ensures { result ≡ unused_parts [] }
    {
        Receipts {
            first: Numbers::new(alloc),
            later: BTreeSet::new(alloc),
        }
    }

    // Whether a receive is handled by a row.
    fn handles(&self, fact: &Fact) -> bool
        ensures { result ≡ handled_in fact.now.handling fact.now.receipt self.now }
    {
        match (fact.handling, fact.receipt) {
            (Use::Deletes, Some(_)) => true,
            (Use::Calls, Some((number, 1))) => self.first.has(number),
            (Use::Calls, Some(receipt)) => self.later.contains(&receipt),
            _ => false,
        }
    }

    // Takes in what a row does with its receipt.
    fn take(&mut self, fact: &Fact) -> Result<(), AllocError>
        ensures { OnOk result
            (self.new ≡ unused_next fact.now.handling fact.now.receipt self.old) }
    {
        match (fact.handling, fact.receipt) {
            (_, None) | (Use::Passes, _) => Ok(()),
            (Use::Gives, Some((number, 1))) => self.first.add(number),
            (_, Some((number, 1))) => {
                self.first.remove(number);
                Ok(())
            }
            (handling, Some(receipt)) => take_later(&mut self.later, handling, receipt),
        }
    }
}

/// What the messages that are received and handled need of the rows so far.
#[derive(Drop)]
pub(crate) struct Handled {
    unused: Receipts,
    /// The messages that were handled in the stretch, and those that were received.
    pub(crate) handled: Often,
    pub(crate) received: Often,
}

impl Model for Handled {
    ghost use Rattle.sim_report.specs.Figured.{HandledState};

    ghost Value = { HandledState };

    ghost view = { λ h. record { unused = h.unused; handled = h.handled; received = h.received } };
}

impl Handled {
    /// Those of no rows.
    pub(crate) fn new(alloc: Global) -> Handled
        ensures { result ≡ not_handled }
    {
        Handled {
            unused: Receipts::new(alloc),
            handled: Often::new(alloc),
            received: Often::new(alloc),
        }
    }

    /// Takes in what a row says, which lies in the stretch or not.
    ///
    /// # Errors
    ///
    /// `AllocError` if a growth is refused.
    #[inline(always)]
    pub(crate) fn take(&mut self, within: bool, fact: &Fact) -> Result<(), AllocError>
        ensures { OnOk result (self.new ≡ handled_with within fact.now self.old) }
    {
        match fact.handling {
            Use::Passes => Ok(()),
            _ => self.take_use(within, fact),
        }
    }

    // Takes in what a row says that uses a receipt.
    #[inline(always)]
    fn take_use(&mut self, within: bool, fact: &Fact) -> Result<(), AllocError>
        ensures { OnOk result (self.new ≡ handled_with within fact.now self.old) }
    {
        if within && self.unused.handles(fact) {
            self.handled.add(fact.message())?;
        }
        if within && fact.handling == Use::Gives {
            self.received.add(fact.number)?;
        }
        self.unused.take(fact)
    }
}
