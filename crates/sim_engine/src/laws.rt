//! Laws about the definitions. Each function does nothing: its contract is the law.
ghost use Rattle.sim_engine.specs.Exchange.{PartsGetSorted, SortingKeepsEach};
ghost use Rattle.sim_engine.specs.Merge.{MergingKeepsOrder};
ghost use Rattle.sim_engine.specs.Prefixes.{MachinesGoOn};
ghost use Rattle.sim_engine.specs.Rounds.{MachinesAreReadByParts, RoundsArePicks};

use crate::site::Site;

/// Merging lists of rows keeps each row as often as it is in all lists together. If each list is in
/// the order of keys and sites, the merged list is, too.
pub fn merging_keeps_order<S: Site>()
    ensures { MergingKeepsOrder S.engine }
{}

/// The sorted transfers that each partition gets at a barrier are in the order of their keys. Each
/// transfer is there as often as it was sent.
pub fn sorting_keeps_each<S: Site>()
    ensures { SortingKeepsEach S.engine }
{}

/// At a barrier each partition gets the transfers for its sites, in the order of keys.
pub fn parts_get_sorted<S: Site>()
    ensures { PartsGetSorted S.engine }
{}

/// If a machine is not finished, some pick takes effect: an entry of one of its partitions, or a
/// barrier.
pub fn machines_go_on<S: Site>()
    ensures { MachinesGoOn S.engine }
{}

/// Running each partition to its bound on its own has the effect of some sequence of picks.
pub fn rounds_are_picks<S: Site>()
    ensures { RoundsArePicks S.engine }
{}

/// The partitions of a machine determine whether it may go on, and whether anything is due by the
/// horizon.
pub fn machines_are_read_by_parts<S: Site>()
    ensures { MachinesAreReadByParts S.engine }
{}
