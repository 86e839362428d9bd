//! Messages to which something happened, and how often.
ghost use Rattle.std.specs.Prelude.{◌≡◌, ◌==◌, ◌-◌, length, true, OnOk};
ghost use Rattle.std.specs.List.{list_any};
ghost use Rattle.sim_report.specs.Figures.{never, once_more, times};

use crate::level::one_more;
use crate::numbers::Numbers;
use std::alloc::{AllocError, Global};
use std::collections::BTreeMap;
use std::marker::Model;

/// Messages to which something happened, by their numbers.
#[derive(Drop)]
pub(crate) struct Often {
    all: Numbers,
    // How often, of those to which it happened more than once.
    again: BTreeMap<u64, u64>,
    /// The greatest number of times.
    pub(crate) greatest: u64,
}

impl Model for Often {
    ghost use Rattle.sim_report.specs.Figures.{Often};

    ghost Value = { Often };

    ghost view = { λ o. record { all = o.all; again = o.again.entries; greatest = o.greatest } };
}

impl Often {
    /// None.
    pub(crate) fn new(alloc: Global) -> Often
        ensures { result ≡ never }
    {
        Often {
            all: Numbers::new(alloc),
            again: BTreeMap::new(alloc),
            greatest: 0,
        }
    }

    // How often it happened to the message with this number, which is one of these.
    fn times(&self, number: u64) -> u64
        ensures { result ≡ times number self.now.again }
    {
        match self.again.get(&number) {
            Some(times) => *times,
            None => 1,
        }
    }

    // Takes in that it happened again to one of these messages. It is a call of its own, since it is
    // rare.
    #[inline(never)]
    fn add_again(&mut self, number: u64) -> Result<(), AllocError>
        requires { list_any (λ n. n == number) self.old.all ≡ true }
        ensures { OnOk result (self.new ≡ once_more number self.old) }
    {
        let times = one_more(self.times(number))?;
        self.again.insert(number, times)?;
        self.greatest = self.greatest.max(times);
        self.all.add(number)
    }

    /// Takes in that it happened to the message with this number once more.
    ///
    /// # Errors
    ///
    /// `AllocError` if a growth is refused.
    #[inline(always)]
    pub(crate) fn add(&mut self, number: u64) -> Result<(), AllocError>
        ensures { OnOk result (self.new ≡ once_more number self.old) }
    {
        if self.all.has(number) {
            return self.add_again(number);
        }
        self.greatest = self.greatest.max(1);
        self.all.add(number)
    }

    /// To how many messages it happened.
    pub(crate) fn all(&self) -> u64
        ensures { result ≡ length self.now.all }
    {
        self.all.count()
    }

    /// To how many it happened more than once.
    pub(crate) fn again(&self) -> u64
        ensures { result ≡ length self.now.again }
    {
        self.again.len() as u64
    }

    /// To how many it happened once.
    pub(crate) fn once(&self) -> u64
        ensures { result ≡ length self.now.all - length self.now.again }
    {
        self.all().saturating_sub(self.again())
    }
}
