//! A world in partitions.
ghost use Rattle.std.specs.List.{range_with_len};
ghost use Rattle.std.specs.Prelude.{◌≡◌, ◌<◌, ◌^◌, ◌∷◌, All, IfOk, List, Ok, [], length, map};
ghost use Rattle.sim_windows.specs.Meeting.{parts_in};
ghost use Rattle.sim_exchange.specs.Layout.{owner_of};
ghost use Rattle.sim_engine.specs.Parts.{part_of};
ghost use Rattle.sim_partition.specs.Sites.{IsPart};
ghost use Rattle.sim_engine.specs.Setting.{IsNumbered};

use sim_engine::Site;
use sim_exchange::PartMap;
use sim_partition::Partition;
use std::alloc::{AllocError, Global};

// As many empty lists of sites as there are partitions, each with room for `room` sites.
fn no_sites<S: Site>(alloc: Global, parts: u32, room: usize) -> Result<Vec<Vec<S>>, AllocError>
    ensures { IfOk result
        (λ lists. map (λ l. l.items) lists.items ≡ map (λ p. []) (range_with_len 0 parts)) }
{
    let mut lists = Vec::with_capacity(alloc, parts as usize)?;
    for _ in 0..parts {
        let list = Vec::with_capacity(alloc, room)?;
        lists.push(list)?;
    }
    Ok(lists)
}

// A list with one list in it.
fn list_alone<S: Site>(alloc: Global, sites: Vec<S>) -> Result<Vec<Vec<S>>, AllocError>
    ensures { IfOk result (λ lists. map (λ l. l.items) lists.items ≡ sites.items ∷ []) }
{
    let mut lists = Vec::with_capacity(alloc, 1)?;
    lists.push(sites)?;
    Ok(lists)
}

/// The sites of a world by number, each in the list of its partition. It fails if memory runs out.
pub fn split_sites<S: Site>(
    alloc: Global,
    sites: Vec<S>,
    layout: &PartMap,
) -> Result<Vec<Vec<S>>, AllocError>
    requires { length sites.items < 2 ^ 32 }
    ensures { IsNumbered S.engine 0 sites.items →
        IfOk result (λ lists.
        map (λ l. l.items) lists.items ≡ parts_in S.engine layout.now sites.items) }
{
    if layout.parts() == 1 {
        return list_alone(alloc, sites);
    }
    // Most maps give all partitions equally many sites.
    let room = sites.len().div_ceil(layout.parts() as usize);
    let mut lists = no_sites(alloc, layout.parts(), room)?;
    let mut number = 0;
    for site in sites {
        let part = layout.part_of(number) as usize;
        lists[part].push(site)?;
        number += 1;
    }
    Ok(lists)
}

/// Makes a partition of each list of sites. It fails if memory runs out.
pub fn open_parts<S: Site>(
    alloc: Global,
    lists: Vec<Vec<S>>,
) -> Result<Vec<Partition<S>>, AllocError>
    requires { All (λ l. IsPart S.engine S.conditions l.items) lists.items }
    ensures { IfOk result (λ parts. parts.items ≡ map (λ l. Ok l.items) lists.items) }
{
    let mut parts = Vec::with_capacity(alloc, lists.len())?;
    for sites in lists {
        parts.push(Partition::new(alloc, sites)?)?;
    }
    Ok(parts)
}
