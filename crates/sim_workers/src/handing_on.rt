//! The rows that are settled while partitions run, and how the sink gets them.
ghost use Rattle.std.specs.Prelude.{◌≡◌, IfErr, IfOk, OnOk, flat_map, length};
ghost use Rattle.sim_engine.specs.Merge.{merged_all, row_cmp};
ghost use Rattle.sim_workers.specs.Paces.{word_of};
ghost use Rattle.sim_workers.specs.Runs.{HandsOn, StopsByMemory, StopsHanding};

use sim_clock::Refusal;
use sim_engine::Site;
use sim_exchange::{Lists, MergedRows};
use sim_windows::{Lent, RowSink};
use std::alloc::Global;

// The number of rows that are handed on at once: few enough that they, and the text of their lines,
// stay in the cache.
const ROWS_AT_ONCE: usize = 256;

// Merges the rows of some lists and hands them on, `ROWS_AT_ONCE` at a time. Returns their number.
fn hand_merged<S: Site, K: RowSink<S::Row>>(
    alloc: Global,
    lists: Vec<Lists<S::Row>>,
    sink: &mut K,
) -> Result<u64, Refusal>
    requires ready { K.ready sink.old }
    ensures ready { OnOk result (K.ready sink.new) }
    ensures took { OnOk result (K.took sink.old
        (merged_all (row_cmp S.engine) lists.items) sink.new) }
    ensures count { IfOk result (λ n.
        n ≡ word_of (length (merged_all (row_cmp S.engine) lists.items))) }
    ensures stops { IfErr result (λ refusal.
        StopsByMemory S.engine S.conditions K.took K.broke
        (merged_all (row_cmp S.engine) lists.items) sink.old refusal
        sink.new) }
{
    let mut merged = MergedRows::<S>::new(alloc, lists)?;
    let mut rows = Vec::with_capacity(alloc, ROWS_AT_ONCE)?;
    let mut handed: u64 = 0;
    while let Some(row) = merged.next() {
        rows.push(row)?;
        if rows.len() >= ROWS_AT_ONCE {
            sink.take(&rows)?;
            handed = handed.saturating_add(rows.len() as u64);
            rows.clear();
        }
    }
    sink.take(&rows)?;
    Ok(handed.saturating_add(rows.len() as u64))
}

// Hands on the rows of some lists, list by list. Returns their number.
fn hand_each<S: Site, K: RowSink<S::Row>>(
    lists: &[Vec<S::Row>],
    sink: &mut K,
) -> Result<u64, Refusal>
    requires ready { K.ready sink.old }
    ensures ready { OnOk result (K.ready sink.new) }
    ensures took { OnOk result (K.took sink.old (flat_map (λ v. v.items) lists.now) sink.new) }
    ensures count { IfOk result (λ n. n ≡ word_of (length (flat_map (λ v. v.items) lists.now))) }
    ensures stops { IfErr result (λ refusal.
        StopsByMemory S.engine S.conditions K.took K.broke
        (flat_map (λ v. v.items) lists.now) sink.old refusal sink.new) }
{
    let mut handed: u64 = 0;
    for rows in lists {
        sink.take(rows)?;
        handed = handed.saturating_add(rows.len() as u64);
    }
    Ok(handed)
}

// The same of lists that are merged. The rows of a single partition need no merging.
fn hand_lists<S: Site, K: RowSink<S::Row>>(
    alloc: Global,
    lists: Vec<Lists<S::Row>>,
    sink: &mut K,
) -> Result<u64, Refusal>
    requires ready { K.ready sink.old }
    ensures ready { OnOk result (K.ready sink.new) }
    ensures took { OnOk result (K.took sink.old
        (merged_all (row_cmp S.engine) lists.items) sink.new) }
    ensures count { IfOk result (λ n.
        n ≡ word_of (length (merged_all (row_cmp S.engine) lists.items))) }
    ensures stops { IfErr result (λ refusal.
        StopsByMemory S.engine S.conditions K.took K.broke
        (merged_all (row_cmp S.engine) lists.items) sink.old refusal
        sink.new) }
{
    if lists.len() != 1 {
        return hand_merged::<S, K>(alloc, lists, sink);
    }
    hand_each::<S, K>(lists[0].as_lists(), sink)
}

/// Settles the rows from before a moment, if one is given, and hands them on. Returns their number.
///
/// # Errors
///
/// `Memory` if a growth is refused, before rows are handed on or among them; else the sink's error.
pub fn hand_on<S: Site, K: RowSink<S::Row>>(
    alloc: Global,
    lent: Lent<S>,
    moment: Option<u64>,
    sink: &mut K,
) -> Result<(Lent<S>, u64), Refusal>
    requires ready { K.ready sink.old }
    ensures ready { OnOk result (K.ready sink.new) }
    ensures handed { IfOk result
        (λ r. HandsOn S.engine S.conditions K.took moment lent sink.old r.0 sink.new r.1) }
    ensures stops { IfErr result (λ refusal.
        StopsHanding S.engine S.conditions K.took K.broke (λ e. e ≡ Refusal.Memory) moment lent
        sink.old refusal sink.new) }
{
    let Some(moment) = moment else {
        return Ok((lent, 0));
    };
    let (lent, lists) = lent.settle(moment)?;
    let handed = hand_lists::<S, K>(alloc, lists, sink)?;
    Ok((lent, handed))
}
