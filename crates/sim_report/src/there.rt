//! Messages that are there.
ghost use Rattle.std.specs.Prelude.{◌≡◌, ◌≤◌, ◌+◌, ◌<◌, ◌^◌, ◌++◌, [], ℕ, All, IfOk, OnOk, length, max, option_map, slice_get};
ghost use Rattle.std.specs.BTreeMap.{insert_entry, is_at};
ghost use Rattle.std.specs.List.Sorted.{IsNonDecreasing};
ghost use Rattle.std.specs.Map.{keys_of, remove_entry};
ghost use Rattle.std.specs.Ordering.{nat_cmp};
ghost use Rattle.sim_report.specs.Figures.{age_of_oldest, ages_at, apart, there_with};
ghost use Rattle.sim_report.specs.Numbered.{BeginsFilled, placed, tabled};
ghost use Rattle.sqs_formats.specs.Report.{ascending};

use crate::ages::sorted;
use crate::fact::Flight;
use crate::numbers::Numbers;
use std::alloc::{AllocError, Global};
use std::collections::{BTreeMap, VecDeque};
use std::marker::Model;

// So many slots there may be for each message.
const SLOTS_EACH: usize = 8;

// So many messages there are at least for this.
const FEW: usize = 8;

/// The messages of a queue that are there, with the moments at which they came, in milliseconds.
/// There is a slot for each number from that of the first message on. Messages with lower numbers
/// are in a tree: those that stayed when nearly all around them had left. Contracts see all by
/// their numbers in ascending order.
#[derive(Drop)]
pub(crate) struct There {
    // Those whose numbers are below that of the first slot.
    low: BTreeMap<u64, u64>,
    // The number of the first slot.
    first: u64,
    // When the message with the number of a slot came, if it is there.
    slots: VecDeque<Option<u64>>,
    // How many slots have a message.
    count: usize,
}

impl Model for There {
    ghost use Rattle.std.specs.Prelude.{List, ℕ};
    ghost use Rattle.sim_report.specs.Numbered.{AreTabled, tabled};

    ghost Value = { List (ℕ × ℕ) };

    ghost view = { λ t. tabled t.low.entries t.first t.slots.items };

    ghost invariant = { λ t. AreTabled t.low.entries t.first t.slots.items };
}

// Takes the first slots away that have no message.
fn drop_empty(first: &mut u64, slots: &mut VecDeque<Option<u64>>)
    requires { first.old + length slots.old.items ≤ 2 ^ 64 }
    ensures same { placed first.new slots.new.items ≡ placed first.old slots.old.items }
    ensures later { first.old ≤ first.new }
    ensures fits { first.new + length slots.new.items ≤ 2 ^ 64 }
    ensures filled { BeginsFilled slots.new.items }
{
    while let Some(None) = slots.front() {
        slots.pop_front();
        *first = first.saturating_add(1);
    }
}

// When the message of the first slot came.
fn first_of(slots: &VecDeque<Option<u64>>) -> Option<u64>
    requires { BeginsFilled slots.now.items }
    ensures { (n : ℕ) → result ≡ option_map (λ m. m.1) (slice_get (placed n slots.now.items) 0) }
{
    match slots.front() {
        Some(slot) => *slot,
        None => None,
    }
}

// Puts a message into the slot in this place, behind empty ones if it is past the last one.
#[inline(always)]
fn put_slot(slots: &mut VecDeque<Option<u64>>, place: usize, came: u64) -> Result<(), AllocError>
    requires filled { BeginsFilled slots.old.items }
    requires begun { slots.old.items ≡ [] → place ≡ 0 }
    ensures put { OnOk result ((n : ℕ) → placed n slots.new.items
        ≡ insert_entry nat_cmp (placed n slots.old.items) (n + place) came) }
    ensures filled { BeginsFilled slots.new.items }
    ensures len { length slots.new.items ≤ max (length slots.old.items) (place + 1) }
{
    if place < slots.len() {
        slots[place] = Some(came);
        return Ok(());
    }
    if slots.len() < place {
        slots.resize(place, None)?;
    }
    slots.push_back(Some(came))?;
    Ok(())
}

// Puts the messages of slots into a tree of those with lower numbers. If a growth is refused, some
// are lost.
fn retire(
    low: &mut BTreeMap<u64, u64>,
    first: &mut u64,
    slots: &mut VecDeque<Option<u64>>,
) -> Result<(), AllocError>
    requires below { All (λ n. n < first.old) (keys_of low.old.entries) }
    requires fits { first.old + length slots.old.items < 2 ^ 64 }
    ensures same { OnOk result
        (low.new.entries ≡ low.old.entries ++ placed first.old slots.old.items) }
    ensures below { All (λ n. n < first.new) (keys_of low.new.entries) }
    ensures fits { first.new < 2 ^ 64 }
{
    while let Some(slot) = slots.pop_front() {
        if let Some(came) = slot {
            low.insert(*first, came)?;
        }
        *first += 1;
    }
    Ok(())
}

// Removes a message from a tree. It is a call of its own, since it is rare.
#[cold]
#[inline(never)]
fn remove_low(low: &mut BTreeMap<u64, u64>, number: u64)
    ensures { low.new.entries ≡ remove_entry (is_at (nat_cmp number)) low.old.entries }
{
    low.remove(&number);
}

// The messages of a tree, and behind them those of slots.
fn entries_of(
    alloc: Global,
    low: &BTreeMap<u64, u64>,
    first: u64,
    slots: &VecDeque<Option<u64>>,
) -> Result<Vec<(u64, u64)>, AllocError>
    requires { first + length slots.now.items ≤ 2 ^ 64 }
    ensures { IfOk result (λ v. v.items ≡ tabled low.now.entries first slots.now.items) }
{
    let mut entries: Vec<(u64, u64)> = low
        .iter()
        .map(|(number, came)| (*number, *came))
        .collect(alloc)?;
    for place in 0..slots.len() {
        if let Some(came) = slots[place] {
            entries.push((first + place as u64, came))?;
        }
    }
    Ok(entries)
}

// How long each of these messages has been there at a moment.
fn ages_at(alloc: Global, came: &[(u64, u64)], at: u64) -> Result<Vec<u64>, AllocError>
    ensures { IfOk result (λ v. v.items ≡ ages_at at came.now) }
{
    came.iter()
        .map(|(_, came)| at.saturating_sub(*came))
        .collect(alloc)
}

// The same of those that are among these numbers, or of those that are not.
fn ages_apart(
    alloc: Global,
    came: &[(u64, u64)],
    at: u64,
    numbers: &Numbers,
    among: bool,
) -> Result<Vec<u64>, AllocError>
    ensures { IfOk result
        (λ v. v.items ≡ ages_at at (apart among numbers.now came.now)) }
{
    came.iter()
        .filter(|(number, _)| if numbers.has(*number) { among } else { !among })
        .map(|(_, came)| at.saturating_sub(*came))
        .collect(alloc)
}

impl There {
    /// None.
    pub(crate) fn new(alloc: Global) -> There
        ensures { result ≡ [] }
    {
        There {
            low: BTreeMap::new(alloc),
            first: 0,
            slots: VecDeque::new(alloc),
            count: 0,
        }
    }

    /// How long the oldest message has been there at a moment; 0 if there is none.
    #[inline(always)]
    pub(crate) fn age_of_oldest(&self, at: u64) -> u64
        ensures { result ≡ age_of_oldest at self.now }
    {
        if let Some((_, came)) = self.low.first_key_value() {
            return at.saturating_sub(*came);
        }
        match first_of(&self.slots) {
            Some(came) => at.saturating_sub(came),
            None => 0,
        }
    }

    // The messages with the moments at which they came.
    fn entries(&self, alloc: Global) -> Result<Vec<(u64, u64)>, AllocError>
        ensures { IfOk result (λ v. v.items ≡ self.now) }
    {
        entries_of(alloc, &self.low, self.first, &self.slots)
    }

    /// How long each message has been there at a moment, in ascending order.
    ///
    /// # Errors
    ///
    /// `AllocError` if a growth is refused.
    pub(crate) fn ages(&self, alloc: Global, at: u64) -> Result<Vec<u64>, AllocError>
        ensures same { IfOk result (λ v. v.items ≡ ascending (ages_at at self.now)) }
        ensures ascends { IfOk result (λ v. IsNonDecreasing v.items) }
    {
        let entries = self.entries(alloc)?;
        let ages = ages_at(alloc, entries.as_slice(), at)?;
        sorted(alloc, ages.as_slice())
    }

    /// The same of those that are among these numbers, or of those that are not.
    ///
    /// # Errors
    ///
    /// `AllocError` if a growth is refused.
    pub(crate) fn ages_apart(
        &self,
        alloc: Global,
        at: u64,
        numbers: &Numbers,
        among: bool,
    ) -> Result<Vec<u64>, AllocError>
        ensures same { IfOk result (λ v. v.items
            ≡ ascending (ages_at at (apart among numbers.now self.now))) }
        ensures ascends { IfOk result (λ v. IsNonDecreasing v.items) }
    {
        let entries = self.entries(alloc)?;
        let ages = ages_apart(alloc, entries.as_slice(), at, numbers, among)?;
        sorted(alloc, ages.as_slice())
    }

    // Puts all messages into the tree if there would be too many slots with one for a number that is
    // past the last one. If a growth is refused, messages are lost.
    #[cold]
    #[inline(never)]
    fn lift(&mut self) -> Result<(), AllocError>
        ensures { OnOk result (self.new ≡ self.old) }
    {
        if self.first.checked_add(self.slots.len() as u64).is_none() {
            return Ok(());
        }
        let retired = retire(&mut self.low, &mut self.first, &mut self.slots);
        self.slots.clear();
        self.count = 0;
        retired
    }

    // Adds a message, or the moment at which one came that is there.
    #[inline(always)]
    fn put(&mut self, number: u64, came: u64) -> Result<(), AllocError>
        ensures { OnOk result (self.new ≡ insert_entry nat_cmp self.old number came) }
    {
        if number < self.first {
            self.low.insert(number, came)?;
            return Ok(());
        }
        if self.slots.is_empty() {
            self.first = number;
        }
        self.count = self.count.saturating_add(1);
        put_slot(&mut self.slots, (number - self.first) as usize, came)?;
        Ok(())
    }

    // Whether there would be too many slots with one for this number.
    fn is_far(&self, number: u64) -> bool {
        self.first <= number && (number - self.first) as usize / SLOTS_EACH > self.count.max(FEW)
    }

    // Adds a message, or the moment at which one came that is there.
    fn insert(&mut self, number: u64, came: u64) -> Result<(), AllocError>
        ensures { OnOk result (self.new ≡ insert_entry nat_cmp self.old number came) }
    {
        if self.is_far(number) {
            self.lift()?;
        }
        self.put(number, came)
    }

    // Removes a message, if it is there.
    fn remove(&mut self, number: u64)
        ensures { self.new ≡ remove_entry (is_at (nat_cmp number)) self.old }
    {
        if number < self.first {
            remove_low(&mut self.low, number);
            return;
        }
        let place = (number - self.first) as usize;
        if place < self.slots.len() {
            self.slots[place] = None;
            self.count = self.count.saturating_sub(1);
            drop_empty(&mut self.first, &mut self.slots);
        }
    }

    /// Takes in a row of this moment, which brings the message with this number or does this to it.
    ///
    /// # Errors
    ///
    /// `AllocError` if a growth is refused.
    #[inline(always)]
    pub(crate) fn take(
        &mut self,
        comes: bool,
        flight: Flight,
        number: u64,
        at: u64,
    ) -> Result<(), AllocError>
        ensures { OnOk result (self.new ≡ there_with comes flight number at self.old) }
    {
        if comes {
            self.insert(number, at)?;
        } else if flight == Flight::Leaves {
            self.remove(number);
        }
        Ok(())
    }
}
