//! How soon an effect of one partition may reach another.
ghost use Rattle.std.specs.Prelude.{◌≡◌, ◌+◌, ◌<◌, ◌^◌, ◌≤◌, All, IfOk, None, get_or, length, min, ℕ};
ghost use Rattle.sim_engine.specs.Bounds.{AreDistances, bound_by, reached};
ghost use Rattle.sim_exchange.specs.Layout.{owner_of};
ghost use Rattle.sim_exchange.specs.Table.{distance_in};

use crate::layout::PartMap;
use crate::line::distances_from;
use sim_engine::Edge;
use std::alloc::{AllocError, Global};
use std::marker::Model;

/// The distance of each pair of partitions, also of a partition to itself. This is the least time
/// in milliseconds along one way or more from the first to the second; it is none if no ways lead
/// there.
#[derive(Drop)]
pub struct Distances {
    parts: usize,
    cells: Vec<Option<u64>>,
}

impl Model for Distances {
    ghost use Rattle.std.specs.Prelude.{length, ◌*◌, ◌≡◌, ◌≤◌};
    ghost use Rattle.sim_exchange.specs.Table.{Table};

    ghost Value = { Table };

    ghost view = { λ d. record { parts = d.parts; cells = d.cells.items } };

    ghost invariant = { λ d. (d.parts ≤ 256) × (length d.cells.items ≡ d.parts * d.parts) };
}

impl Distances {
    /// The distances along these ways between sites, each of 1 to 900,000 milliseconds.
    ///
    /// # Errors
    ///
    /// `AllocError` if memory runs out.
    pub fn new(alloc: Global, ways: &[Edge], layout: &PartMap) -> Result<Distances, AllocError>
        requires { All (λ e. (1 ≤ e.least) × (e.least ≤ 900000)) ways.now }
        ensures parts { IfOk result (λ d. d.parts ≡ layout.now.parts) }
        ensures distances { IfOk result
            (λ d. AreDistances (owner_of layout.now) ways.now (distance_in d)) }
    {
        let parts = layout.parts();
        let mut cells = Vec::new(alloc);
        for start in 0..parts {
            let line = distances_from(alloc, ways, layout, start)?;
            cells.extend_from_slice(&line)?;
        }
        Ok(Distances {
            parts: parts as usize,
            cells,
        })
    }

    /// The distance from one partition to another, or to itself, in milliseconds; none if no ways
    /// lead there.
    pub fn between(&self, from: u32, to: u32) -> Option<u64>
        ensures { result ≡ distance_in self.now from to }
    {
        self.cell(from as usize, to as usize)
    }

    /// The lower bound on the moments at which anything that a partition still does, this one
    /// included, may reach this partition, in milliseconds. `dues` has the moment of the least
    /// entry due in each partition. The bound is the least of horizon + 1 and of each such moment
    /// plus the distance from that partition.
    pub fn bound(&self, dues: &[Option<u64>], part: u32, horizon: u64) -> u64
        requires dues { length dues.now ≡ self.now.parts }
        requires horizon { horizon + 1 < 2 ^ 64 }
        ensures { result
            ≡ bound_by (distance_in self.now) horizon (λ q. get_or dues.now q None) part
            self.now.parts }
    {
        let mut bound = horizon + 1;
        for (from, due) in dues.iter().enumerate() {
            bound = arrival(horizon, *due, self.cell(from, part as usize)).min(bound);
        }
        bound
    }

    // The distance from one partition to another, or to itself.
    fn cell(&self, from: usize, to: usize) -> Option<u64>
        ensures { result ≡ distance_in self.now from to }
    {
        if from < self.parts && to < self.parts {
            self.cells[from * self.parts + to]
        } else {
            None
        }
    }
}

// When something due may arrive over a distance: horizon + 1 if never.
fn arrival(horizon: u64, due: Option<u64>, distance: Option<u64>) -> u64
    requires { horizon + 1 < 2 ^ 64 }
    ensures { (bound : ℕ) → bound < 2 ^ 64
        → min result bound ≡ min (reached horizon due distance) bound }
{
    match (due, distance) {
        (Some(at), Some(distance)) => at.saturating_add(distance),
        _ => horizon + 1,
    }
}
