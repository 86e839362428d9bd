//! A stage that has lent its partitions, and takes them back.
ghost use Rattle.std.specs.Prelude.{◌≡◌, ◌++◌, [], IfOk, List, OnOk, Result, filter, map, ℕ};
ghost use Rattle.sim_clock.specs.declared.refusal.Refusal.{Refusal as TheRefusal};
ghost use Rattle.sim_engine.specs.Merge.{merged_all, row_cmp};
ghost use Rattle.sim_engine.specs.Prefixes.{is_before};
ghost use Rattle.sim_windows.specs.Rounds.{CanComeBack, ComesBack};
ghost use Rattle.sim_windows.specs.Stages.{GoesOn, OfLowerBound, SettlesParts, lower_bound_in, settled_by, standing_of, with_parts};

use crate::kept::Kept;
use crate::stage::{Stage, stage_of};
use sim_engine::{Effects, Site};
use sim_exchange::Lists;
use sim_partition::Partition;
use std::alloc::AllocError;
use std::marker::Model;

/// A partition that ran, with the rows and transfers that it made.
#[derive(Drop)]
pub struct Came<S: Site> {
    pub part: Partition<S>,
    pub made: Effects<S::Row, S::Transfer>,
}

/// A stage that has lent its partitions.
#[derive(Drop)]
pub struct Lent<S: Site> {
    kept: Kept<S>,
}

impl<S: Site> Model for Lent<S> {
    ghost use Rattle.std.specs.Prelude.{[]};
    ghost use Rattle.sim_windows.specs.Stages.{Standing, standing_of};

    ghost Value = { Standing S S.Row S.Transfer };

    ghost view = { λ l. standing_of l.kept [] };
}

impl<S: Site> Lent<S> {
    /// A stage without its partitions.
    pub fn new(kept: Kept<S>) -> Lent<S>
        ensures { result ≡ standing_of kept [] }
    {
        Lent { kept }
    }

    /// Settles the rows from before a moment while the partitions are lent. When they were lent,
    /// nothing more might come before that moment. Returns these rows, too, those of each
    /// partition; merged they follow the rows that were settled before.
    ///
    /// # Errors
    ///
    /// `AllocError` if memory runs out.
    pub fn settle(self, moment: u64) -> Result<(Lent<S>, Vec<Lists<S::Row>>), AllocError>
        ensures settled { IfOk result (λ r. r.0 ≡ settled_by S.engine self moment) }
        ensures rows { IfOk result (λ r.
            r.1.items ≡ map (filter (is_before S.engine moment)) self.rows) }
        ensures next { OfLowerBound S.engine S.conditions moment self (λ parts. IfOk result
            (λ r. SettlesParts S.engine S.conditions parts self r.0 (merged_all
            (row_cmp S.engine) r.1.items))) }
    {
        let Lent { mut kept } = self;
        let prefixes = kept.settle_before(moment)?;
        Ok((Lent { kept }, prefixes))
    }

    /// Takes the partitions back with what they made. Each has run to an end that is not past its
    /// bound.
    ///
    /// # Errors
    ///
    /// `AllocError` if memory runs out.
    pub fn come_back(self, came: Vec<Came<S>>) -> Result<Stage<S>, AllocError>
        requires came { CanComeBack S.engine S.conditions self came.items }
        ensures back { ComesBack S.engine S.conditions self came.items
            (λ g. IfOk result (GoesOn S.engine S.conditions g)) }
        ensures parts { IfOk result (λ g. g.parts ≡ map (λ one. one.part) came.items) }
    {
        let Lent { mut kept } = self;
        let mut parts = Vec::with_capacity(kept.alloc, came.len())?;
        let mut place = 0;
        for one in came {
            let Came { part, made } = one;
            let Effects { rows, sent } = made;
            parts.push(part)?;
            kept.rows[place].add(rows)?;
            kept.waiting.add(sent)?;
            place += 1;
        }
        Ok(stage_of(kept, parts))
    }
}
