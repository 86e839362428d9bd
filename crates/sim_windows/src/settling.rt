//! Settles rows of the log, partition by partition: no other row can come before them.
ghost use Rattle.std.specs.List.{list_all};
ghost use Rattle.std.specs.Prelude.{◌≡◌, ◌++◌, IfOk, filter, map, not};
ghost use Rattle.sim_windows.specs.Stages.{is_from};
ghost use Rattle.sim_engine.specs.Prefixes.{is_before};

use sim_engine::Site;
use sim_exchange::Lists;
use std::alloc::{AllocError, Global};

/// Rows in two lists: those from before a moment, and the others.
#[derive(Drop)]
pub struct Parted<R> {
    pub before: Vec<R>,
    pub others: Vec<R>,
}

// Whether all rows are from before a moment.
fn are_before<S: Site>(rows: &[S::Row], moment: u64) -> bool
    ensures { result ≡ list_all (is_before S.engine moment) rows.now }
{
    rows.iter().all(|row| S::row_key(row).at < moment)
}

// Whether no row is from before a moment.
fn none_before<S: Site>(rows: &[S::Row], moment: u64) -> bool
    ensures { result ≡ list_all (λ r. not (is_before S.engine moment r)) rows.now }
{
    rows.iter().all(|row| !(S::row_key(row).at < moment))
}

// Splits rows at a moment, one by one.
fn part_each<S: Site>(
    alloc: Global,
    rows: Vec<S::Row>,
    moment: u64,
) -> Result<Parted<S::Row>, AllocError>
    ensures before { IfOk result
        (λ parted. parted.before.items ≡ filter (is_before S.engine moment) rows.items) }
    ensures others { IfOk result (λ parted.
        parted.others.items ≡ filter (is_from S.engine moment) rows.items) }
{
    let mut before = Vec::new(alloc);
    let mut others = Vec::new(alloc);
    for row in rows {
        if S::row_key(&row).at < moment {
            before.push(row)?;
        } else {
            others.push(row)?;
        }
    }
    Ok(Parted { before, others })
}

// Splits a list of rows at a moment. If those from before it come first, they stay in their list.
fn part_list<S: Site>(
    alloc: Global,
    mut rows: Vec<S::Row>,
    moment: u64,
) -> Result<Parted<S::Row>, AllocError>
    ensures before { IfOk result
        (λ parted. parted.before.items ≡ filter (is_before S.engine moment) rows.items) }
    ensures others { IfOk result (λ parted.
        parted.others.items ≡ filter (is_from S.engine moment) rows.items) }
{
    let place = rows.partition_point(|row| S::row_key(row).at < moment);
    let (first, rest) = rows.split_at(place);
    if !are_before::<S>(first, moment) || !none_before::<S>(rest, moment) {
        return part_each::<S>(alloc, rows, moment);
    }
    let others = rows.split_off(place)?;
    Ok(Parted {
        before: rows,
        others,
    })
}

// Splits rows at a moment.
fn part_rows<S: Site>(
    alloc: Global,
    rows: Lists<S::Row>,
    moment: u64,
) -> Result<(Lists<S::Row>, Lists<S::Row>), AllocError>
    ensures before { IfOk result (λ parted. parted.0 ≡ filter (is_before S.engine moment) rows) }
    ensures others { IfOk result
        (λ parted. parted.1 ≡ filter (is_from S.engine moment) rows) }
{
    let mut before = Lists::new(alloc);
    let mut others = Lists::new(alloc);
    for list in rows.into_lists() {
        let parted = part_list::<S>(alloc, list, moment)?;
        before.add(parted.before)?;
        others.add(parted.others)?;
    }
    Ok((before, others))
}

/// The rows of each partition in two: those from before a moment, and the others.
#[derive(Drop)]
pub struct Settled<R: Drop> {
    pub prefixes: Vec<Lists<R>>,
    pub kept: Vec<Lists<R>>,
}

/// Splits the rows of each partition at a moment in milliseconds.
pub fn settle<S: Site>(
    alloc: Global,
    lists: Vec<Lists<S::Row>>,
    moment: u64,
) -> Result<Settled<S::Row>, AllocError>
    ensures prefixes { IfOk result (λ settled.
        settled.prefixes.items ≡ map (filter (is_before S.engine moment)) lists.items) }
    ensures kept { IfOk result (λ settled.
        settled.kept.items
        ≡ map (filter (is_from S.engine moment)) lists.items) }
{
    let mut prefixes = Vec::with_capacity(alloc, lists.len())?;
    let mut kept = Vec::with_capacity(alloc, lists.len())?;
    for rows in lists {
        let (before, others) = part_rows::<S>(alloc, rows, moment)?;
        prefixes.push(before)?;
        kept.push(others)?;
    }
    Ok(Settled { prefixes, kept })
}
