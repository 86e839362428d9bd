//! Sites that accept transfers at once.
ghost use Rattle.std.specs.Prelude.{◌≡◌, ◌+◌, ◌++◌, ◌≤◌, All, Err, List, None, Ok, Some, IfErr, IfOk, OnOk, ℕ};
ghost use Rattle.sim_clock.specs.Order.{due_before};
ghost use Rattle.sim_engine.specs.Limits.{most_count};
ghost use Rattle.sim_engine.specs.Rounds.{part_begun};
ghost use Rattle.sim_engine.specs.World.{arrival, delivered, world_due};
ghost use Rattle.sim_partition.specs.Sites.{AreOfPast, accepted_by, HasDue, IsKept, IsPart, due_in, refusal_in};
ghost use Rattle.sim_partition.specs.Steps.{Continues, IsMadeAfter, KeepsPast, OfNext, RanTo, StaysOfPast, StaysTimely, StopsFrom, StopsRun, StopsStep, part_made};

use crate::delivery::deliver_all;
use crate::handling::{handle_least, run_before};
use crate::marking::{marked, numbers_of};
use sim_clock::{Key, Refusal, lesser};
use sim_engine::{Effects, Site};
use sim_index::MarkedList;
use std::alloc::{AllocError, Global};
use std::marker::Model;

/// Sites in the order of their numbers, which accept transfers as soon as they are delivered. An
/// error, out of memory or a count at its limit, spends the roster. Contracts see it as the sites,
/// and once it is spent, as the error. An entry takes time logarithmic in the number of sites.
#[derive(Drop)]
pub struct Roster<S: Site> {
    alloc: Global,
    sites: MarkedList<S>,
    // The numbers of the sites, close together in memory: a site is found by them.
    numbers: Vec<u32>,
    spent: Option<Refusal>,
    // The number of rows that its last run made. The next run asks for room for twice as many at
    // once.
    made: usize,
}

// Handles all that is due before a moment. It asks at once for room for `room` rows.
fn made_before<S: Site>(
    alloc: Global,
    sites: &mut MarkedList<S>,
    end: u64,
    room: usize,
) -> Result<Effects<S::Row, S::Transfer>, Refusal>
    requires kept { IsKept S.engine S.conditions sites.old }
    requires end { end ≤ most_count + 1 }
    ensures goes_on { IfOk result (λ made.
        Continues S.engine end (part_begun S.engine sites.old.values)
        (part_made S.engine sites.new.values made)) }
    ensures done { OnOk result (due_before end (world_due S.engine sites.new.values) ≡ None) }
    ensures kept { OnOk result (IsKept S.engine S.conditions sites.new) }
    ensures past { OnOk result (StaysOfPast S.conditions end sites.old.values sites.new.values) }
    ensures timely { IfOk result (λ made. All S.conditions.Timely made.sent.items) }
    ensures stops { IfErr result (StopsFrom S.engine end (part_begun S.engine sites.old.values)) }
{
    let mut effects = Effects::new(alloc);
    effects.rows.reserve(room)?;
    run_before(sites, end, &mut effects)?;
    Ok(effects)
}

impl<S: Site> Model for Roster<S> {
    ghost use Rattle.std.specs.Prelude.{List, Result};
    ghost use Rattle.sim_clock.specs.declared.refusal.Refusal.{Refusal};
    ghost use Rattle.sim_partition.specs.Sites.{AreNumbersUnless, IsKeptUnless, spent_or};

    ghost Value = { Result (List S) Refusal };

    ghost view = { λ p. spent_or p.spent p.sites.values };

    ghost invariant = { λ p.
        IsKeptUnless S.engine S.conditions p.spent p.sites × AreNumbersUnless S.engine p.spent p.numbers.items p.sites };
}

impl<S: Site> Roster<S> {
    /// A roster of these sites.
    ///
    /// # Errors
    ///
    /// `AllocError` if memory runs out.
    pub fn new(alloc: Global, sites: Vec<S>) -> Result<Roster<S>, AllocError>
        requires { IsPart S.engine S.conditions sites.items }
        ensures { IfOk result (λ p. p ≡ Ok sites.items) }
    {
        let numbers = numbers_of(alloc, &sites)?;
        let sites = marked(alloc, sites)?;
        Ok(Roster {
            alloc,
            sites,
            numbers,
            spent: None,
            made: 0,
        })
    }

    /// The key of the next entry due; none if the roster is spent. The call also promises that
    /// time moves on in its sites, and that nothing there is from after the next entry due.
    #[inline(always)]
    pub fn least_due(&self) -> Option<Key>
        ensures due { result ≡ due_in S.engine self.now }
        ensures moves_on { IfOk self.now (All S.conditions.Sound) }
        ensures past { IfOk self.now (λ w. AreOfPast S.conditions w (world_due S.engine w)) }
    {
        if self.spent.is_some() {
            return None;
        }
        self.sites.least()
    }

    /// The error that spent the roster, if one did.
    pub fn spent(&self) -> Option<Refusal>
        ensures { result ≡ refusal_in self.now }
    {
        self.spent
    }

    /// Handles the least entry due. Appends the rows that this makes and the transfers that it
    /// sends to those made before.
    ///
    /// # Errors
    ///
    /// `Memory` if a growth is refused, and `CountLimit` only if the handling takes a count past
    /// 2^62 - 1; either spends the roster. A spent roster returns the error that spent it.
    #[inline(always)]
    pub fn step_into(&mut self, effects: &mut Effects<S::Row, S::Transfer>) -> Result<(), Refusal>
        requires due { IfOk self.old (HasDue S.engine) }
        ensures handled { OfNext S.engine self.old
            (λ t. OnOk result (IsMadeAfter S.engine t self.new effects.old effects.new)) }
        ensures timely { StaysTimely S.conditions result effects.old effects.new }
        ensures spent { IfErr result (λ refusal. self.new ≡ Err refusal) }
        ensures stops { OfNext S.engine self.old (λ t. IfErr result (StopsStep S.engine t)) }
        ensures stays { IfErr self.old (λ refusal. result ≡ Err refusal) }
    {
        if let Some(refusal) = self.spent {
            return Err(refusal);
        }
        if let Err(refusal) = handle_least(&mut self.sites, effects) {
            self.spent = Some(refusal);
            return Err(refusal);
        }
        Ok(())
    }

    /// Handles all that is due before a moment in milliseconds, in the order of keys. Returns the
    /// rows and the transfers. The call also promises that time moves on in its sites, and that
    /// nothing there was from after the entry that was due next.
    ///
    /// # Errors
    ///
    /// `Memory` if a growth is refused, and `CountLimit` only if the run takes a count past 2^62 -
    /// 1; either spends the roster. A spent roster returns the error that spent it.
    pub fn run_to(&mut self, end: u64) -> Result<Effects<S::Row, S::Transfer>, Refusal>
        requires { end ≤ most_count + 1 }
        ensures moves_on { IfOk self.old (All S.conditions.Sound) }
        ensures none_later { IfOk self.old (λ w. AreOfPast S.conditions w (world_due S.engine w)) }
        ensures ran { IfOk self.old
            (λ w. IfOk result (λ made. RanTo S.engine end w self.new made)) }
        ensures timely { IfOk result (λ ran. All S.conditions.Timely ran.sent.items) }
        ensures past { KeepsPast S.conditions end result self.old self.new }
        ensures spent { IfErr result (λ refusal. self.new ≡ Err refusal) }
        ensures stops { IfOk self.old (λ w. IfErr result (StopsRun S.engine end w)) }
        ensures stays { IfErr self.old (λ refusal. result ≡ Err refusal) }
    {
        if let Some(refusal) = self.spent {
            return Err(refusal);
        }
        let room = self.made.saturating_mul(2);
        match made_before(self.alloc, &mut self.sites, end, room) {
            Ok(effects) => {
                self.made = effects.rows.len();
                Ok(effects)
            }
            Err(refusal) => {
                self.spent = Some(refusal);
                Err(refusal)
            }
        }
    }

    /// Puts transfers on their way to its sites. A transfer to a site that is not there changes
    /// nothing. No transfer may arrive before the moment of anything that these sites have made.
    ///
    /// # Errors
    ///
    /// `Memory`, which spends the roster. A spent roster returns the error that spent it.
    pub fn deliver(&mut self, transfers: Vec<S::Transfer>) -> Result<(), Refusal>
        requires past { IfOk self.old
            (λ w. All (λ o. All (S.conditions.Past (arrival S.engine o)) w) transfers.items) }
        requires timely { All S.conditions.Timely transfers.items }
        ensures delivered { IfOk self.old
            (λ w. OnOk result (self.new ≡ Ok (delivered S.engine transfers.items w))) }
        ensures spent { IfErr result (λ refusal. self.new ≡ Err refusal) }
        ensures memory { IfOk self.old (λ w. IfErr result (λ refusal. refusal ≡ Refusal.Memory)) }
        ensures stays { IfErr self.old (λ refusal. result ≡ Err refusal) }
    {
        if let Some(refusal) = self.spent {
            return Err(refusal);
        }
        if let Err(refusal) = deliver_all(&mut self.sites, &self.numbers, transfers) {
            self.spent = Some(refusal);
            return Err(refusal);
        }
        Ok(())
    }

    /// The key of the entry that is due next once transfers are delivered; none if the roster is
    /// spent.
    pub fn least_due_after(&self, transfers: &[S::Transfer]) -> Option<Key>
        ensures { result ≡ due_in S.engine (accepted_by S.engine transfers.now self.now) }
    {
        let mut due = self.least_due();
        if self.spent.is_some() {
            return due;
        }
        for transfer in transfers {
            if self.numbers.binary_search(&S::to(transfer)).is_ok() {
                due = lesser(Some(S::transfer_key(transfer)), due);
            }
        }
        due
    }

    /// The sites of the roster, by number.
    pub fn into_sites(self) -> Vec<S>
        ensures { IfOk self (λ w. result.items ≡ w) }
    {
        self.sites.into_values()
    }
}
