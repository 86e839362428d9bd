//! A machine of partitions that is not spent, and its steps.
ghost use Rattle.std.specs.Prelude.{◌≡◌, ◌≤◌, ◌+◌, ◌<◌, ◌^◌, ◌∷◌, [], All, IfErr, IfOk, false, get_or, length, map, true};
ghost use Rattle.std.specs.List.{list_all, range_with_len};
ghost use Rattle.std.specs.Option.{is_some};
ghost use Rattle.std.specs.Prelude.{None, Ok, nat_le, not};
ghost use Rattle.sim_clock.specs.Order.{due_before};
ghost use Rattle.sim_engine.specs.Bounds.{least_bound};
ghost use Rattle.sim_engine.specs.Limits.{most_count};
ghost use Rattle.sim_engine.specs.Simulated.{IsSimulated};
ghost use Rattle.sim_engine.specs.World.{arrival, due_by, world_due};
ghost use Rattle.sim_engine.specs.declared.picks.Pick.TheVariants.{Barrier, Part};
ghost use Rattle.sim_partition.specs.Sites.{AreOfPast};
ghost use Rattle.sim_windows.specs.Stages.{BeginWith, EndsAs, Follows, IsLent, IsStanding, Plays, Settles, Stands, StopsAt, Takes, Tells, end_in, lower_bound_in, is_finished_in, left_in, next_in, ready_in, standing_of};

use crate::joining::join_sites;
use crate::kept::Kept;
use crate::lent::Lent;
use crate::parting::{open_parts, split_sites};
use crate::world::World;
use sim_clock::{Key, Refusal, lesser};
use sim_engine::{Pick, Site};
use sim_exchange::{Distances, Lists, PartMap, merge_rows};
use sim_partition::Partition;
use std::alloc::{AllocError, Global};
use std::marker::Model;

/// The number of sites that their 32-bit numbers can tell apart.
const MOST_SITES: usize = 4_294_967_296;

/// The partitions of a world, in the state of the definitions' machine of that world after some
/// picks. A step takes the stage and returns it; after an error there is none.
#[derive(Drop)]
pub struct Stage<S: Site> {
    kept: Kept<S>,
    parts: Vec<Partition<S>>,
}

impl<S: Site> Model for Stage<S> {
    ghost use Rattle.sim_windows.specs.Stages.{IsStanding, Standing, standing_of};

    ghost Value = { Standing S S.Row S.Transfer };

    ghost view = { λ g. standing_of g.kept g.parts.items };

    ghost invariant = { λ g. IsStanding S.engine S.conditions (standing_of g.kept g.parts.items) };
}

/// The result of a machine: its rows in the order of keys, and the sites by number.
#[derive(Drop)]
pub struct Ended<S: Site> {
    pub rows: Vec<S::Row>,
    pub sites: Vec<S>,
}

/// A stage that has lent its partitions, these partitions, and the moment to which each is to run,
/// in milliseconds.
#[derive(Drop)]
pub struct Loan<S: Site> {
    pub lent: Lent<S>,
    pub parts: Vec<Partition<S>>,
    pub ends: Vec<u64>,
}

// The key of what is due, if it comes before a bound.
fn before(due: Option<Key>, bound: u64) -> Option<Key>
    ensures { result ≡ due_before bound due }
{
    let key = due?;
    if key.at < bound { Some(key) } else { None }
}

// Whether something is due by the horizon.
fn is_by(due: Option<Key>, horizon: u64) -> bool
    ensures { result ≡ is_some (due_by horizon due) }
{
    match due {
        None => false,
        Some(key) => key.at <= horizon,
    }
}

// The least of some bounds and the moment after the horizon.
fn least_of(bounds: &[u64], horizon: u64) -> u64
    requires { horizon + 1 < 2 ^ 64 }
    ensures { result ≡ least_bound horizon (λ p. get_or bounds.now p 0) (length bounds.now) }
{
    let mut least = horizon + 1;
    for bound in bounds {
        least = least.min(*bound);
    }
    least
}

// Whether all transfers of a list arrive after the horizon.
fn are_past<S: Site>(waiting: &[S::Transfer], horizon: u64) -> bool
    ensures { result ≡ list_all (λ o. not (nat_le (arrival S.engine o) horizon)) waiting.now }
{
    waiting
        .iter()
        .all(|transfer| S::transfer_key(transfer).at > horizon)
}

// Whether all transfers that wait arrive after the horizon.
fn wait_past<S: Site>(waiting: &Lists<S::Transfer>, horizon: u64) -> bool
    ensures { result ≡ list_all (λ o. not (nat_le (arrival S.engine o) horizon)) waiting.now }
{
    for list in waiting.as_lists() {
        if !are_past::<S>(list, horizon) {
            return false;
        }
    }
    true
}

impl<S: Site> Stage<S> {
    /// The stage of a world before any pick; `layout` gives the partition of each site. Each way
    /// takes 1 to 900,000 milliseconds.
    ///
    /// # Errors
    ///
    /// `AllocError` if memory runs out, or if the world has 2^32 sites, as many as there are
    /// numbers of sites.
    pub fn open(alloc: Global, world: World<S>, layout: PartMap) -> Result<Stage<S>, AllocError>
        requires simulated { IsSimulated S.engine S.conditions world }
        requires horizon { world.horizon ≤ most_count }
        requires ways { All (λ e. (1 ≤ e.least) × (e.least ≤ 900000)) world.edges }
        ensures stands { IfOk result (Stands S.engine S.conditions world []) }
        ensures layout { IfOk result (λ g. g.layout ≡ layout) }
        ensures settled { IfOk result (λ g. g.settled ≡ 0) }
    {
        let World {
            horizon,
            sites,
            edges,
        } = world;
        if sites.len() >= MOST_SITES {
            return Err(AllocError);
        }
        let distances = Distances::new(alloc, &edges, &layout)?;
        let lists = split_sites(alloc, sites, &layout)?;
        let parts = open_parts(alloc, lists)?;
        let kept = Kept::opened(alloc, layout, distances, horizon, &parts)?;
        Ok(Stage { kept, parts })
    }

    /// The allocator of the stage.
    pub fn alloc(&self) -> Global {
        self.kept.alloc
    }

    /// The number of partitions.
    pub fn part_count(&self) -> usize
        ensures { result ≡ length self.now.parts }
    {
        self.parts.len()
    }

    // What the partition with an index has due before its bound.
    fn ready_at(&self, place: usize) -> Option<Key>
        ensures ready { result ≡ ready_in S.engine self.now place }
        ensures past { IfOk (get_or self.now.parts place (Ok [])) (λ w.
            AreOfPast S.conditions w (world_due S.engine w)) }
    {
        if place >= self.parts.len() {
            return None;
        }
        before(self.parts[place].least_due(), self.kept.bounds[place])
    }

    /// The least of what the partitions may handle now; none if no partition may go on.
    pub fn next_ready(&self) -> Option<Key>
        ensures { result ≡ next_in S.engine self.now }
    {
        let mut next = None;
        for place in 0..self.parts.len() {
            next = lesser(self.ready_at(place), next);
        }
        next
    }

    /// Whether nothing is left by the horizon, due or waiting.
    pub fn is_finished(&self) -> bool
        ensures { result ≡ is_finished_in S.engine self.now }
    {
        let horizon = self.kept.horizon;
        for part in &self.parts {
            if is_by(part.least_due(), horizon) {
                return false;
            }
        }
        wait_past::<S>(&self.kept.waiting, horizon)
    }

    /// The least of the partitions' bounds, in milliseconds.
    pub fn window_end(&self) -> u64
        ensures { result ≡ end_in self.now }
    {
        least_of(&self.kept.bounds, self.kept.horizon)
    }

    /// The lower bound on the moments of all that is still handled, in milliseconds. It is the
    /// moment of the least entry that a partition may handle next, or the least bound, whichever
    /// is earlier.
    pub fn lower_bound(&self) -> u64
        ensures { result ≡ lower_bound_in S.engine self.now }
    {
        let end = self.window_end();
        match self.next_ready() {
            None => end,
            Some(next) => end.min(next.at),
        }
    }

    // A partition handles its least entry due, if that comes before its bound. Returns whether it
    // did.
    fn step(self, part: u32) -> Result<(Stage<S>, bool), Refusal>
        ensures took { IfOk result (λ r. Takes S.engine S.conditions self r.0 (Part part) r.1) }
        ensures settled { IfOk result (λ r. r.0.settled ≡ self.settled) }
        ensures stops { IfErr result (StopsAt S.engine S.conditions self) }
    {
        let place = part as usize;
        if self.ready_at(place).is_none() {
            return Ok((self, false));
        }
        let Stage {
            mut kept,
            mut parts,
        } = self;
        let handled = parts[place].step()?;
        kept.rows[place].add(handled.rows)?;
        kept.waiting.add(handled.sent)?;
        Ok((Stage { kept, parts }, true))
    }

    // Settles the rows before which nothing can come any more. Returns them, too, in the order of
    // keys; they follow the rows that were settled before. It fails if memory runs out.
    fn settle(self) -> Result<(Stage<S>, Vec<S::Row>), AllocError>
        ensures { IfOk result (λ r. Settles S.engine S.conditions self r.0 r.1.items) }
    {
        let moment = self.lower_bound();
        let Stage { mut kept, parts } = self;
        let prefixes = kept.settle_before(moment)?;
        let rows = merge_rows::<S>(kept.alloc, prefixes)?;
        Ok((Stage { kept, parts }, rows))
    }

    /// Delivers the waiting transfers and sets the bounds anew. No partition may go on, and
    /// something is left.
    ///
    /// # Errors
    ///
    /// `Memory` if memory runs out.
    pub fn meet(self) -> Result<Stage<S>, Refusal>
        requires rests { next_in S.engine self ≡ None }
        requires left { is_finished_in S.engine self ≡ false }
        ensures met { IfOk result (λ g. Follows S.engine S.conditions self g (Barrier ∷ [])) }
        ensures settled { IfOk result (λ g. g.settled ≡ self.settled) }
        ensures further { IfOk result (λ g. left_in S.engine g < left_in S.engine self) }
        ensures memory { IfErr result (λ refusal. refusal ≡ Refusal.Memory) }
    {
        let Stage {
            mut kept,
            mut parts,
        } = self;
        kept.deliver(&mut parts)?;
        kept.set_bounds(&parts)?;
        Ok(Stage { kept, parts })
    }

    // A barrier, if no partition may go on and something is left. It settles the rows from before
    // the least bound of the round that it ends, and appends them to those before. Returns whether
    // it took place.
    fn barrier(self, told: &mut Vec<S::Row>) -> Result<(Stage<S>, bool), Refusal>
        ensures took { IfOk result (λ r. Takes S.engine S.conditions self r.0 Barrier r.1) }
        ensures tells { IfOk result
            (λ r. Tells S.engine S.conditions self told.old.items r.0 told.new.items) }
        ensures keeps { BeginWith told.old.items told.new.items }
        ensures memory { IfErr result (λ refusal. refusal ≡ Refusal.Memory) }
    {
        if self.next_ready().is_some() || self.is_finished() {
            return Ok((self, false));
        }
        let (settled, mut rows) = self.settle()?;
        let stage = settled.meet()?;
        told.append(&mut rows)?;
        Ok((stage, true))
    }

    // Does one picked step. Returns whether it took effect.
    fn take(self, pick: Pick, told: &mut Vec<S::Row>) -> Result<(Stage<S>, bool), Refusal>
        ensures took { IfOk result (λ r. Takes S.engine S.conditions self r.0 pick r.1) }
        ensures tells { IfOk result
            (λ r. Tells S.engine S.conditions self told.old.items r.0 told.new.items) }
        ensures keeps { BeginWith told.old.items told.new.items }
        ensures stops { IfErr result (StopsAt S.engine S.conditions self) }
    {
        match pick {
            Pick::Part(part) => self.step(part),
            Pick::Barrier => self.barrier(told),
        }
    }

    /// Does the picked steps one after another, and appends the rows that they settle to those
    /// before. Returns the number of picks that took effect.
    pub fn play(self, picks: &[Pick], told: &mut Vec<S::Row>) -> Result<(Stage<S>, u64), Refusal>
        ensures played { IfOk result (λ r. Plays S.engine S.conditions self r.0 picks.now r.1) }
        ensures tells { IfOk result
            (λ r. Tells S.engine S.conditions self told.old.items r.0 told.new.items) }
        ensures keeps { BeginWith told.old.items told.new.items }
        ensures stops { IfErr result (StopsAt S.engine S.conditions self) }
    {
        let mut stage = self;
        let mut effects = 0;
        for pick in picks {
            let (next, took) = stage.take(*pick, told)?;
            stage = next;
            if took {
                effects += 1;
            }
        }
        Ok((stage, effects))
    }

    /// Lends the partitions, each to run to its bound, or to `cut` if that is sooner, in
    /// milliseconds.
    ///
    /// # Errors
    ///
    /// `AllocError` if memory runs out.
    pub fn lend(self, cut: u64) -> Result<Loan<S>, AllocError>
        ensures { IfOk result (λ loan.
            IsLent S.engine S.conditions self cut loan.lent loan.parts.items loan.ends.items) }
    {
        let Stage { kept, parts } = self;
        let mut ends = Vec::with_capacity(kept.alloc, kept.bounds.len())?;
        for bound in &kept.bounds {
            ends.push(cut.min(*bound))?;
        }
        Ok(Loan {
            lent: Lent::new(kept),
            parts,
            ends,
        })
    }

    /// The rows that are not settled, in the order of keys, and all sites by number, with the
    /// transfers on their way to them.
    ///
    /// # Errors
    ///
    /// `Memory` if memory runs out.
    pub fn into_run(self) -> Result<Ended<S>, Refusal>
        ensures ended { is_finished_in S.engine self ≡ true →
            IfOk result
            (λ ended. EndsAs S.engine S.conditions self ended.rows.items ended.sites.items) }
        ensures memory { IfErr result (λ refusal. refusal ≡ Refusal.Memory) }
    {
        let Stage {
            mut kept,
            mut parts,
        } = self;
        kept.deliver(&mut parts)?;
        let rows = merge_rows::<S>(kept.alloc, kept.rows)?;
        let sites = join_sites(kept.alloc, parts, &kept.layout)?;
        Ok(Ended { rows, sites })
    }
}

/// Makes a stage of what it keeps and of its partitions.
pub fn stage_of<S: Site>(kept: Kept<S>, parts: Vec<Partition<S>>) -> Stage<S>
    requires { IsStanding S.engine S.conditions (standing_of kept parts.items) }
    ensures { result ≡ standing_of kept parts.items }
{
    Stage { kept, parts }
}
