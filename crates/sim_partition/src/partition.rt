//! Partitions.
ghost use Rattle.std.specs.Prelude.{◌≡◌, ◌+◌, ◌≤◌, [], All, Err, Ok, Option, Some, IfErr, IfOk, OnOk, ℕ};
ghost use Rattle.sim_clock.specs.declared.key.Key.{Key as TheKey};
ghost use Rattle.sim_engine.specs.Limits.{most_count};
ghost use Rattle.sim_engine.specs.World.{arrival, delivered, world_due};
ghost use Rattle.sim_partition.specs.Sites.{AreOfPast, HasDue, IsInbox, IsPart, accepted_by, due_in, refusal_in};
ghost use Rattle.sim_partition.specs.Steps.{IsMade, KeepsPast, OfNext, RanTo, StopsRun, StopsStep};

use crate::roster::Roster;
use sim_clock::{Key, Refusal};
use sim_engine::{Effects, Site};
use std::alloc::{AllocError, Global};
use std::marker::Model;
use std::mem;

/// Sites in the order of their numbers, with the transfers that they accept before they handle
/// anything more. An error, out of memory or a count at its limit, spends the partition. Contracts
/// see it as the sites that have accepted all transfers, and once it is spent, as the error. An
/// entry takes time logarithmic in the number of sites.
#[derive(Drop)]
pub struct Partition<S: Site> {
    alloc: Global,
    roster: Roster<S>,
    inbox: Vec<S::Transfer>,
    // The key of the entry that is due next with the inbox, if there is anything in it.
    due: Option<Key>,
}

// Delivers what is in an inbox to its sites, if there is anything, and empties it.
fn empty_inbox<S: Site>(
    alloc: Global,
    roster: &mut Roster<S>,
    inbox: &mut Vec<S::Transfer>,
) -> Result<(), Refusal>
    requires past { IfOk roster.old
        (λ w. All (λ o. All (S.conditions.Past (arrival S.engine o)) w) inbox.old.items) }
    requires timely { All S.conditions.Timely inbox.old.items }
    ensures accepted { OnOk result (roster.new ≡ accepted_by S.engine inbox.old.items roster.old) }
    ensures empty { inbox.new.items ≡ [] }
    ensures kept { (due : Option TheKey)
        → IsInbox S.engine S.conditions roster.new inbox.new.items due }
    ensures spent { IfErr result (λ refusal. roster.new ≡ Err refusal) }
    ensures memory { IfOk roster.old (λ w. IfErr result (λ refusal. refusal ≡ Refusal.Memory)) }
    ensures stays { IfErr roster.old (λ refusal. IfErr result (λ e. e ≡ refusal)) }
{
    if inbox.is_empty() {
        return Ok(());
    }
    roster.deliver(mem::replace(inbox, Vec::new(alloc)))
}

impl<S: Site> Model for Partition<S> {
    ghost use Rattle.std.specs.Prelude.{List, Result};
    ghost use Rattle.sim_clock.specs.declared.refusal.Refusal.{Refusal};
    ghost use Rattle.sim_partition.specs.Sites.{IsInbox, accepted_by};

    ghost Value = { Result (List S) Refusal };

    ghost view = { λ p. accepted_by S.engine p.inbox.items p.roster };

    ghost invariant = { λ p. IsInbox S.engine S.conditions p.roster p.inbox.items p.due };
}

impl<S: Site> Partition<S> {
    /// A partition of these sites.
    ///
    /// # Errors
    ///
    /// `AllocError` if memory runs out.
    pub fn new(alloc: Global, sites: Vec<S>) -> Result<Partition<S>, AllocError>
        requires { IsPart S.engine S.conditions sites.items }
        ensures { IfOk result (λ p. p ≡ Ok sites.items) }
    {
        Ok(Partition {
            alloc,
            roster: Roster::new(alloc, sites)?,
            inbox: Vec::new(alloc),
            due: None,
        })
    }

    /// The key of the next entry due; none if the partition is spent. The call also promises that
    /// time moves on in its sites, and that nothing there is from after the next entry due.
    #[inline(always)]
    pub fn least_due(&self) -> Option<Key>
        ensures due { result ≡ due_in S.engine self.now }
        ensures moves_on { IfOk self.now (All S.conditions.Sound) }
        ensures past { IfOk self.now (λ w. AreOfPast S.conditions w (world_due S.engine w)) }
    {
        if self.inbox.is_empty() {
            return self.roster.least_due();
        }
        let _due = self.roster.least_due();
        self.due
    }

    /// The error that spent the partition, if one did.
    pub fn spent(&self) -> Option<Refusal>
        ensures { result ≡ refusal_in self.now }
    {
        self.roster.spent()
    }

    /// Handles the least entry due. Returns the rows that this makes and the transfers that it
    /// sends.
    ///
    /// # Errors
    ///
    /// `Memory` if a growth is refused, and `CountLimit` only if the handling takes a count past
    /// 2^62 - 1; either spends the partition. A spent partition returns the error that spent it.
    pub fn step(&mut self) -> Result<Effects<S::Row, S::Transfer>, Refusal>
        requires due { IfOk self.old (HasDue S.engine) }
        ensures handled { OfNext S.engine self.old
            (λ t. IfOk result (λ made. IsMade S.engine t self.new made)) }
        ensures timely { IfOk result (λ made. All S.conditions.Timely made.sent.items) }
        ensures spent { IfErr result (λ refusal. self.new ≡ Err refusal) }
        ensures stops { OfNext S.engine self.old (λ t. IfErr result (StopsStep S.engine t)) }
        ensures stays { IfErr self.old (λ refusal. result ≡ Err refusal) }
    {
        empty_inbox(self.alloc, &mut self.roster, &mut self.inbox)?;
        let mut effects = Effects::new(self.alloc);
        self.roster.step_into(&mut effects)?;
        Ok(effects)
    }

    /// Handles all that is due before a moment in milliseconds, in the order of keys. Returns the
    /// rows and the transfers. The call also promises that time moves on in its sites, and that
    /// nothing there was from after the entry that was due next.
    ///
    /// # Errors
    ///
    /// `Memory` if a growth is refused, and `CountLimit` only if the run takes a count past 2^62 -
    /// 1; either spends the partition. A spent partition returns the error that spent it.
    pub fn run_to(&mut self, end: u64) -> Result<Effects<S::Row, S::Transfer>, Refusal>
        requires { end ≤ most_count + 1 }
        ensures moves_on { IfOk self.old (All S.conditions.Sound) }
        ensures none_later { IfOk self.old (λ w. AreOfPast S.conditions w (world_due S.engine w)) }
        ensures ran { IfOk self.old
            (λ w. IfOk result (λ made. RanTo S.engine end w self.new made)) }
        ensures timely { IfOk result (λ ran. All S.conditions.Timely ran.sent.items) }
        ensures past { KeepsPast S.conditions end result self.old self.new }
        ensures spent { IfErr result (λ refusal. self.new ≡ Err refusal) }
        ensures stops { IfOk self.old (λ w. IfErr result (StopsRun S.engine end w)) }
        ensures stays { IfErr self.old (λ refusal. result ≡ Err refusal) }
    {
        let _due = self.least_due();
        empty_inbox(self.alloc, &mut self.roster, &mut self.inbox)?;
        self.roster.run_to(end)
    }

    /// Puts transfers on their way to its sites. A transfer to a site that is not there changes
    /// nothing. No transfer may arrive before the moment of anything that these sites have made.
    ///
    /// # Errors
    ///
    /// `Memory`, which spends the partition. A spent partition returns the error that spent it.
    #[inline(always)]
    pub fn deliver(&mut self, transfers: Vec<S::Transfer>) -> Result<(), Refusal>
        requires past { IfOk self.old
            (λ w. All (λ o. All (S.conditions.Past (arrival S.engine o)) w) transfers.items) }
        requires timely { All S.conditions.Timely transfers.items }
        ensures delivered { IfOk self.old
            (λ w. OnOk result (self.new ≡ Ok (delivered S.engine transfers.items w))) }
        ensures spent { IfErr result (λ refusal. self.new ≡ Err refusal) }
        ensures memory { IfOk self.old (λ w. IfErr result (λ refusal. refusal ≡ Refusal.Memory)) }
        ensures stays { IfErr self.old (λ refusal. result ≡ Err refusal) }
    {
        empty_inbox(self.alloc, &mut self.roster, &mut self.inbox)?;
        self.roster.deliver(transfers)
    }

    /// Puts transfers on their way to its sites, which accept them before they handle anything
    /// more: the thread that runs the partition next does that work. A transfer to a site that is
    /// not there changes nothing. No transfer may arrive before the moment of anything that these
    /// sites have made.
    ///
    /// # Errors
    ///
    /// `Memory`, which spends the partition. A spent partition returns the error that spent it.
    pub fn deliver_later(&mut self, transfers: Vec<S::Transfer>) -> Result<(), Refusal>
        requires past { IfOk self.old
            (λ w. All (λ o. All (S.conditions.Past (arrival S.engine o)) w) transfers.items) }
        requires timely { All S.conditions.Timely transfers.items }
        ensures delivered { IfOk self.old
            (λ w. OnOk result (self.new ≡ Ok (delivered S.engine transfers.items w))) }
        ensures spent { IfErr result (λ refusal. self.new ≡ Err refusal) }
        ensures memory { IfOk self.old (λ w. IfErr result (λ refusal. refusal ≡ Refusal.Memory)) }
        ensures stays { IfErr self.old (λ refusal. result ≡ Err refusal) }
    {
        empty_inbox(self.alloc, &mut self.roster, &mut self.inbox)?;
        if let Some(refusal) = self.roster.spent() {
            return Err(refusal);
        }
        self.due = self.roster.least_due_after(&transfers);
        self.inbox = transfers;
        Ok(())
    }

    /// The sites of the partition, by number.
    ///
    /// # Errors
    ///
    /// `AllocError` if memory runs out while the sites accept transfers that were kept for later.
    pub fn into_sites(self) -> Result<Vec<S>, AllocError>
        ensures { IfOk self (λ w. IfOk result (λ sites. sites.items ≡ w)) }
    {
        let mut roster = self.roster;
        let mut inbox = self.inbox;
        if empty_inbox(self.alloc, &mut roster, &mut inbox).is_err() {
            return Err(AllocError);
        }
        Ok(roster.into_sites())
    }
}
