//! Numbers of messages that are in some state.
ghost use Rattle.std.specs.Prelude.{◌≡◌, ◌==◌, ◌+◌, ◌++◌, ◌<◌, ◌≤◌, ◌^◌, All, cond, length, ℕ, OnErr, OnOk};
ghost use Rattle.std.specs.BTreeMap.{is_at};
ghost use Rattle.std.specs.BTreeSet.{insert_key};
ghost use Rattle.std.specs.List.{list_any};
ghost use Rattle.std.specs.Ordering.{nat_cmp};
ghost use Rattle.std.specs.Set.{remove_key};
ghost use Rattle.sim_report.specs.Figures.{flying_with, moved_by};
ghost use Rattle.sim_report.specs.Numbered.{marked};

use crate::fact::{BY_MOVE, Flight};
use crate::level::one_more;
use std::alloc::{AllocError, Global};
use std::collections::BTreeSet;
use std::marker::Model;

// So many flags there may be for each number.
const FLAGS_EACH: u64 = 64;

// So many numbers there are at least for this.
const FEW: u64 = 4;

// So many flags are made at once.
const MORE: usize = 64;

/// Numbers of messages of a queue, such as of those in flight. There is a flag for each number from
/// a first one on. Lower numbers, of which there are few, are in a set. So the memory goes by how
/// many numbers there are, and mostly a number is found without a search. Contracts see the numbers
/// in ascending order.
#[derive(Drop)]
pub(crate) struct Numbers {
    // Those below the first flag.
    low: BTreeSet<u64>,
    // The number of the first flag.
    first: u64,
    flags: Vec<bool>,
    // How many there are.
    count: u64,
}

impl Model for Numbers {
    ghost use Rattle.std.specs.Prelude.{List, ℕ};
    ghost use Rattle.sim_report.specs.Numbered.{AreNumbered, numbered};

    ghost Value = { List ℕ };

    ghost view = { λ n. numbered n.low.keys n.first n.flags.items };

    ghost invariant = { λ n. AreNumbered n.low.keys n.first n.flags.items n.count };
}

// Makes so many flags that there is one in this place, none of them set. It is a call of its own,
// since it is rare.
#[cold]
#[inline(never)]
fn grow(flags: &mut Vec<bool>, place: usize) -> Result<(), AllocError>
    requires { length flags.old.items ≤ place }
    ensures same { OnOk result
        ((n : ℕ) → marked n flags.new.items ≡ marked n flags.old.items) }
    ensures to { OnOk result (place < length flags.new.items) }
    ensures unchanged { OnErr result (flags.new.items ≡ flags.old.items) }
{
    let many = place.checked_add(MORE).ok_or(AllocError)?;
    flags.resize(many, false)?;
    Ok(())
}

// Makes so many flags that there is one in this place, none of them set.
#[inline(always)]
fn reach(flags: &mut Vec<bool>, place: usize) -> Result<(), AllocError>
    ensures same { OnOk result
        ((n : ℕ) → marked n flags.new.items ≡ marked n flags.old.items) }
    ensures to { OnOk result (place < length flags.new.items) }
    ensures unchanged { OnErr result (flags.new.items ≡ flags.old.items) }
{
    if flags.len() <= place {
        grow(flags, place)?;
    }
    Ok(())
}

// Removes a number from a set, if it is there. Returns whether it was. It is a call of its own,
// since it is rare.
#[cold]
#[inline(never)]
fn remove_low(low: &mut BTreeSet<u64>, number: u64) -> bool
    ensures keys { low.new.keys ≡ remove_key (is_at (nat_cmp number)) low.old.keys }
    ensures len { length low.new.keys + cond result 1 0 ≡ length low.old.keys }
{
    low.remove(&number)
}

// Puts the numbers whose flags are set into a set of lower ones.
fn retire(low: &mut BTreeSet<u64>, first: u64, flags: &[bool]) -> Result<(), AllocError>
    requires below { All (λ n. n < first) low.old.keys }
    requires fits { first + length flags.now < 2 ^ 64 }
    ensures { OnOk result (low.new.keys ≡ low.old.keys ++ marked first flags.now) }
{
    let mut number = first;
    for flag in flags {
        if *flag {
            low.insert(number)?;
        }
        number += 1;
    }
    Ok(())
}

impl Numbers {
    ghost use Rattle.std.specs.Prelude.{[]};

    /// None.
    pub(crate) fn new(alloc: Global) -> Numbers
        ensures { result ≡ [] }
    {
        Numbers {
            low: BTreeSet::new(alloc),
            first: 0,
            flags: Vec::new(alloc),
            count: 0,
        }
    }

    /// How many there are.
    pub(crate) fn count(&self) -> u64
        ensures { result ≡ length self.now }
    {
        self.count
    }

    /// Whether a number is one of them.
    #[inline(always)]
    pub(crate) fn has(&self, number: u64) -> bool
        ensures { result ≡ list_any (λ n. n == number) self.now }
    {
        if self.count == 0 {
            return false;
        }
        if number < self.first {
            return self.low.contains(&number);
        }
        let place = (number - self.first) as usize;
        place < self.flags.len() && self.flags[place]
    }

    // Whether a number has a flag.
    fn has_flag(&self, number: u64) -> bool {
        self.first <= number && number - self.first < self.flags.len() as u64
    }

    // Lets the flags begin with that of a number, if there are no numbers.
    fn begin(&mut self, number: u64)
        ensures { self.new ≡ self.old }
    {
        if self.count == 0 {
            self.flags.truncate(MORE);
            self.first = number;
        }
    }

    // Lets the flags begin with that of a number for which there would be too many flags. If a
    // growth is refused, all numbers are forgotten.
    fn lift(&mut self, number: u64) -> Result<(), AllocError>
        ensures { OnOk result (self.new ≡ self.old) }
    {
        if number < self.first {
            return Ok(());
        }
        let place = number - self.first;
        if place < self.flags.len() as u64 || place / FLAGS_EACH <= self.count.max(FEW) {
            return Ok(());
        }
        if retire(&mut self.low, self.first, self.flags.as_slice()).is_err() {
            self.low.clear();
            self.flags.clear();
            self.count = 0;
            return Err(AllocError);
        }
        self.flags.clear();
        self.first = number;
        Ok(())
    }

    // Adds a number, if it is not there. The flags need not reach to it.
    #[inline(always)]
    fn put(&mut self, number: u64) -> Result<(), AllocError>
        ensures { OnOk result (self.new ≡ insert_key nat_cmp self.old number) }
    {
        let more = one_more(self.count)?;
        if number < self.first {
            if self.low.insert(number)? {
                self.count = more;
            }
            return Ok(());
        }
        let place = (number - self.first) as usize;
        reach(&mut self.flags, place)?;
        if !self.flags[place] {
            self.flags[place] = true;
            self.count = more;
        }
        Ok(())
    }

    // Chooses where the flags begin, for a number that has none. It is a call of its own, since it
    // is rare.
    #[cold]
    #[inline(never)]
    fn settle(&mut self, number: u64) -> Result<(), AllocError>
        ensures { OnOk result (self.new ≡ self.old) }
    {
        self.begin(number);
        self.lift(number)
    }

    /// Adds a number, if it is not there.
    ///
    /// # Errors
    ///
    /// `AllocError` if a growth is refused.
    #[inline(always)]
    pub(crate) fn add(&mut self, number: u64) -> Result<(), AllocError>
        ensures { OnOk result (self.new ≡ insert_key nat_cmp self.old number) }
    {
        if !self.has_flag(number) {
            self.settle(number)?;
        }
        self.put(number)
    }

    /// Removes a number, if it is there.
    #[inline(always)]
    pub(crate) fn remove(&mut self, number: u64)
        ensures { self.new ≡ remove_key (is_at (nat_cmp number)) self.old }
    {
        if self.count == 0 {
            return;
        }
        if number < self.first {
            if remove_low(&mut self.low, number) {
                self.count -= 1;
            }
            return;
        }
        let place = (number - self.first) as usize;
        if place < self.flags.len() && self.flags[place] {
            self.flags[place] = false;
            self.count -= 1;
        }
    }

    /// Takes in what a row does to the message with this number, where these are the messages in
    /// flight.
    ///
    /// # Errors
    ///
    /// `AllocError` if a growth is refused.
    #[inline(always)]
    pub(crate) fn fly(&mut self, flight: Flight, number: u64) -> Result<(), AllocError>
        ensures { OnOk result (self.new ≡ flying_with flight number self.old) }
    {
        match flight {
            Flight::Begins => self.add(number)?,
            Flight::Returns | Flight::Leaves => self.remove(number),
            Flight::Stays => {}
        }
        Ok(())
    }

    /// Takes in a row that counts in this place and does this to its message, where these are the
    /// messages that came by a move.
    ///
    /// # Errors
    ///
    /// `AllocError` if a growth is refused.
    #[inline(always)]
    pub(crate) fn carry(
        &mut self,
        place: Option<u16>,
        flight: Flight,
        number: u64,
    ) -> Result<(), AllocError>
        ensures { OnOk result (self.new ≡ moved_by place flight number self.old) }
    {
        if place == Some(BY_MOVE) {
            self.add(number)?;
        } else if flight == Flight::Leaves {
            self.remove(number);
        }
        Ok(())
    }
}
