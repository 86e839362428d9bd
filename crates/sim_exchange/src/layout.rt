//! The partition of each site.
ghost use Rattle.std.specs.Prelude.{◌≡◌, ◌<◌, ◌≤◌, Err, Ok, if◌then◌else◌, nat_lt, ℕ};
ghost use Rattle.std.specs.List.{list_all};
ghost use Rattle.sim_exchange.specs.Layout.{is_layout, owner_of};

use sim_clock::Refusal;
use std::marker::Model;

/// The partition of each site.
#[derive(Drop)]
pub struct PartMap {
    parts: u32,
    owners: Vec<u32>,
}

impl Model for PartMap {
    ghost use Rattle.sim_exchange.specs.Layout.{IsLayout, Layout};

    ghost Value = { Layout };

    ghost view = { λ m. record { parts = m.parts; owners = m.owners.items } };

    ghost invariant = { λ m. IsLayout (record { parts = m.parts; owners = m.owners.items }) };
}

impl PartMap {
    /// A layout of `sites` sites in `parts` partitions; `owners` has the partition of each site, by
    /// its number.
    ///
    /// # Errors
    ///
    /// `BadMap` if there are not 1 to 256 partitions, or if the list does not give each site one of
    /// them.
    pub fn new(sites: usize, parts: u32, owners: Vec<u32>) -> Result<PartMap, Refusal>
        ensures { result ≡ (
            if is_layout sites (record { parts = parts; owners = owners.items })
            then Ok (record { parts = parts; owners = owners.items })
            else Err Refusal.BadMap) }
    {
        if is_whole(sites, parts, &owners) {
            Ok(PartMap { parts, owners })
        } else {
            Err(Refusal::BadMap)
        }
    }

    /// The number of partitions, 1 to 256.
    pub fn parts(&self) -> u32
        ensures parts { result ≡ self.now.parts }
        ensures range { (1 ≤ result) × (result ≤ 256) }
        ensures below { (site : ℕ) → owner_of self.now site < self.now.parts }
    {
        self.parts
    }

    /// The partition of a site; the first for a number past the sites.
    pub fn part_of(&self, site: u32) -> u32
        ensures owner { result ≡ owner_of self.now site }
        ensures below { result < self.now.parts }
    {
        self.owners.get(site as usize).copied().unwrap_or(0)
    }
}

// Whether there are 1 to 256 partitions, and each of `sites` sites has one of them.
fn is_whole(sites: usize, parts: u32, owners: &[u32]) -> bool
    ensures { result ≡ is_layout sites (record { parts = parts; owners = owners.now }) }
{
    1 <= parts && parts <= 256 && owners.len() == sites && are_below(owners, parts)
}

// Whether all owners are below the number of partitions.
fn are_below(owners: &[u32], parts: u32) -> bool
    ensures { result ≡ list_all (λ p. nat_lt p parts) owners.now }
{
    owners.iter().all(|owner| *owner < parts)
}
