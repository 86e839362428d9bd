//! What a stage keeps beside its partitions, and the steps that change both.
ghost use Rattle.std.specs.Prelude.{◌≡◌, ◌+◌, ◌<◌, ◌^◌, [], IfErr, IfOk, List, Ok, OnOk, Result, filter, length, map};
ghost use Rattle.std.specs.List.{range_with_len};
ghost use Rattle.sim_clock.specs.declared.refusal.Refusal.{Refusal as TheRefusal};
ghost use Rattle.sim_engine.specs.Exchange.{exchanged};
ghost use Rattle.sim_engine.specs.Prefixes.{is_before as is_row_before};
ghost use Rattle.sim_exchange.specs.Layout.{owner_of};
ghost use Rattle.sim_windows.specs.Meeting.{AreReached, OfLiving};
ghost use Rattle.sim_windows.specs.Stages.{bounded_by, bounds_by, delivered_by, opened, settled_by, standing_of};

use crate::meeting::{bounds_of, deliver_each, dues_of};
use crate::settling::settle;
use sim_clock::Refusal;
use sim_engine::Site;
use sim_exchange::{Distances, Lists, PartMap, exchange};
use sim_partition::Partition;
use std::alloc::{AllocError, Global};
use std::mem;

/// The partition of each site, the distances between partitions and the last moment of the run.
/// Also, for each partition, its bound and the rows that it made and that are not settled yet. Also
/// the transfers that wait for a barrier, and the moment before which all rows are settled.
#[derive(Drop)]
pub struct Kept<S: Site> {
    pub alloc: Global,
    pub layout: PartMap,
    pub distances: Distances,
    pub horizon: u64,
    pub bounds: Vec<u64>,
    pub rows: Vec<Lists<S::Row>>,
    pub waiting: Lists<S::Transfer>,
    pub settled: u64,
}

// As many empty lists of rows as there are partitions.
fn no_rows<S: Site>(alloc: Global, parts: usize) -> Result<Vec<Lists<S::Row>>, AllocError>
    ensures { IfOk result (λ lists. lists.items ≡ map (λ p. []) (range_with_len 0 parts)) }
{
    let mut lists = Vec::with_capacity(alloc, parts)?;
    for _ in 0..parts {
        lists.push(Lists::new(alloc))?;
    }
    Ok(lists)
}

impl<S: Site> Kept<S> {
    /// What is kept beside new partitions. Their bounds are set by what is due in them; no rows
    /// were made, and nothing waits. It fails if memory runs out.
    pub fn opened(
        alloc: Global,
        layout: PartMap,
        distances: Distances,
        horizon: u64,
        parts: &[Partition<S>],
    ) -> Result<Kept<S>, AllocError>
        requires parts { length parts.now ≡ distances.parts }
        requires range { distances.parts < 2 ^ 32 }
        requires horizon { horizon + 1 < 2 ^ 64 }
        ensures { IfOk result (λ kept.
            standing_of kept parts.now ≡ opened S.engine layout distances horizon parts.now) }
    {
        let dues = dues_of(alloc, parts)?;
        let bounds = bounds_of(alloc, &distances, &dues, horizon)?;
        let rows = no_rows::<S>(alloc, parts.len())?;
        Ok(Kept {
            alloc,
            layout,
            distances,
            horizon,
            bounds,
            rows,
            waiting: Lists::new(alloc),
            settled: 0,
        })
    }

    /// Delivers to each partition the transfers that wait for it.
    pub fn deliver(&mut self, parts: &mut Vec<Partition<S>>) -> Result<(), Refusal>
        requires reached { AreReached S.engine S.conditions parts.old.items
            (exchanged S.engine (owner_of self.old.layout) self.old.layout.parts
            self.old.waiting) }
        ensures delivered { OfLiving parts.old.items (λ ws. OnOk result
            (standing_of self.new parts.new.items
            ≡ delivered_by S.engine (standing_of self.old parts.old.items) ws)) }
        ensures memory { OfLiving parts.old.items (λ _. IfErr result (λ refusal. refusal
            ≡ Refusal.Memory)) }
    {
        let waiting = mem::replace(&mut self.waiting, Lists::new(self.alloc));
        let lists = exchange::<S>(self.alloc, waiting.into_lists(), &self.layout)?;
        deliver_each(parts, lists)
    }

    /// Settles the rows from before a moment in milliseconds. Returns those of each partition.
    pub fn settle_before(&mut self, moment: u64) -> Result<Vec<Lists<S::Row>>, AllocError>
        ensures settled { (parts : List (Result (List S) TheRefusal)) →
            IfOk result (λ _.
            standing_of self.new parts
            ≡ settled_by S.engine (standing_of self.old parts) moment) }
        ensures rows { IfOk result (λ rows.
            rows.items
            ≡ map (filter (is_row_before S.engine moment)) self.old.rows.items) }
    {
        let rows = mem::replace(&mut self.rows, Vec::new(self.alloc));
        let settled = settle::<S>(self.alloc, rows, moment)?;
        self.rows = settled.kept;
        self.settled = moment;
        Ok(settled.prefixes)
    }

    /// Sets the bounds anew, by what is due in the partitions.
    pub fn set_bounds(&mut self, parts: &[Partition<S>]) -> Result<(), AllocError>
        requires parts { length parts.now ≡ self.old.distances.parts }
        requires range { self.old.distances.parts < 2 ^ 32 }
        requires horizon { self.old.horizon + 1 < 2 ^ 64 }
        ensures { OnOk result (
            standing_of self.new parts.now
            ≡ bounded_by (standing_of self.old parts.now)
            (bounds_by S.engine self.old.distances self.old.horizon parts.now)) }
    {
        let dues = dues_of(self.alloc, parts)?;
        self.bounds = bounds_of(self.alloc, &self.distances, &dues, self.horizon)?;
        Ok(())
    }
}
