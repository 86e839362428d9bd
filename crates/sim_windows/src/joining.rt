//! Joins the sites of partitions in one list.
ghost use Rattle.std.specs.List.{range_with_len};
ghost use Rattle.std.specs.Prelude.{◌≡◌, ◌∷◌, [], IfOk, List, Ok, map, reverse};
ghost use Rattle.sim_windows.specs.Meeting.{OfLiving, living_in};
ghost use Rattle.sim_exchange.specs.Layout.{owner_of};
ghost use Rattle.sim_engine.specs.Parts.{part_of};
ghost use Rattle.sim_engine.specs.Setting.{IsNumbered};

use sim_engine::Site;
use sim_exchange::PartMap;
use sim_partition::Partition;
use std::alloc::{AllocError, Global};

// The sites of each partition, the last of them first.
fn turned_sites<S: Site>(alloc: Global, parts: Vec<Partition<S>>) -> Result<Vec<Vec<S>>, AllocError>
    ensures { OfLiving parts.items (λ ws. IfOk result
        (λ lists. map (λ l. l.items) lists.items ≡ map (λ w. reverse w) ws)) }
{
    let mut lists = Vec::with_capacity(alloc, parts.len())?;
    for part in parts {
        let mut sites = part.into_sites()?;
        sites.reverse();
        lists.push(sites)?;
    }
    Ok(lists)
}

// The sites of the only partition.
fn sites_alone<S: Site>(alloc: Global, parts: Vec<Partition<S>>) -> Result<Vec<S>, AllocError>
    ensures { (w : List S) → parts.items ≡ Ok w ∷ [] → IfOk result (λ sites. sites.items ≡ w) }
{
    let mut parts = parts;
    match parts.pop() {
        Some(part) => part.into_sites(),
        None => Ok(Vec::new(alloc)),
    }
}

/// The sites of all partitions, by number. It fails if memory runs out.
pub fn join_sites<S: Site>(
    alloc: Global,
    parts: Vec<Partition<S>>,
    layout: &PartMap,
) -> Result<Vec<S>, AllocError>
    ensures { (w : List S) → IsNumbered S.engine 0 w →
        parts.items ≡ living_in S.engine layout.now w → IfOk result (λ sites. sites.items ≡ w) }
{
    if layout.parts() == 1 {
        return sites_alone(alloc, parts);
    }
    let mut lists = turned_sites(alloc, parts)?;
    let count = lists
        .iter()
        .fold(0usize, |count, list| count.saturating_add(list.len()));
    let mut sites = Vec::with_capacity(alloc, count)?;
    // The partitions do not belong to this layout.
    if lists.len() != layout.parts() as usize {
        return Ok(sites);
    }
    for number in 0..=u32::MAX {
        let part = layout.part_of(number) as usize;
        match lists[part].pop() {
            Some(site) => sites.push(site)?,
            None => return Ok(sites),
        }
    }
    // No world has so many sites that their numbers exceed 32 bits.
    Err(AllocError)
}
