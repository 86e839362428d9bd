//! The partitions, the window and the workers of a rehearsal.
ghost use Rattle.std.specs.Prelude.{◌≡◌, ◌≤◌, ◌⊎◌, IfErr, IfOk, None, false, true, OnOk};
ghost use Rattle.sim_clock.specs.declared.refusal.Refusal.TheVariants.{BadMap, Memory};
ghost use Rattle.sqs_rehearsal.specs.Options.{in_turn, layout_of, partitions_in, parts_of, split_fault, window_fault, workers_fault};
ghost use Rattle.sqs_rehearsal.specs.Splits.{IsUnsplit, split_of, unless, can_lay};

use sim_clock::Refusal;
use sim_exchange::PartMap;
use sim_report::Wanted;
use sim_scenario::{Scenario, least_latency};
use std::alloc::{AllocError, Global};
use std::marker::Model;

/// How a rehearsal is split, and whether it writes figures. What else it writes does not depend on
/// this.
#[derive(Drop)]
pub struct Options {
    /// The window of the partitions, in milliseconds, at least 1. Without one it is the least
    /// latency of the scenario's transfers, which no window may exceed.
    pub window: Option<u64>,
    /// The number of partitions, 1 to 256. Without it there are as many as the map needs, or one.
    pub parts: Option<u32>,
    /// The partition of each queue. Without a list, queues are assigned to the partitions in turn.
    pub map: Option<Vec<u32>>,
    /// The number of workers, 1 to 64.
    pub workers: u32,
    /// What is wanted of the figures that are written behind the report, if they are wanted.
    pub figures: Option<Wanted>,
}

impl Model for Options {
    ghost use Rattle.std.specs.Prelude.{option_map};
    ghost use Rattle.sqs_rehearsal.specs.Options.{Options};

    ghost Value = { Options };

    ghost view = { λ s. record { window = s.window; parts = s.parts; map = option_map (λ v. v.items) s.map; workers = s.workers; figures = s.figures } };
}

/// How the run of a scenario is split.
#[derive(Drop)]
pub struct Split {
    /// The partition of each queue.
    pub layout: PartMap,
    /// The window, in milliseconds.
    pub window: u64,
    /// The number of workers.
    pub workers: usize,
}

// One more than the greatest of some partitions; none for an empty list.
fn partitions_in(map: &[u32]) -> u64
    ensures { result ≡ partitions_in map.now }
{
    let mut needed = 0;
    for part in map {
        needed = needed.max(u64::from(*part) + 1);
    }
    needed
}

// The partitions of `queues` queues that are assigned in turn.
fn in_turn(alloc: Global, parts: u64, queues: usize) -> Result<Vec<u32>, AllocError>
    requires some { 1 ≤ parts }
    requires few { parts ≤ 256 }
    ensures { IfOk result (λ owners. owners.items ≡ in_turn parts queues) }
{
    let mut owners = Vec::with_capacity(alloc, queues)?;
    for queue in 0..queues {
        owners.push((queue as u64 % parts) as u32)?;
    }
    Ok(owners)
}

/// Checks that there are 1 to 64 workers. The only error is `BadWorkers`.
pub fn check_workers(workers: usize) -> Result<(), Refusal>
    ensures { result ≡ unless (workers_fault workers) }
{
    if workers < 1 || workers > 64 {
        return Err(Refusal::BadWorkers);
    }
    Ok(())
}

impl Options {
    // The number of partitions.
    fn parts(&self) -> u64
        ensures { result ≡ parts_of self.now.parts self.now.map }
    {
        if let Some(parts) = self.parts {
            return u64::from(parts);
        }
        match &self.map {
            None => 1,
            Some(map) => partitions_in(map.as_slice()),
        }
    }

    // The partition of each of `queues` queues.
    fn layout(&self, alloc: Global, queues: usize) -> Result<PartMap, Refusal>
        ensures allowed { OnOk result (can_lay queues self.now ≡ true) }
        ensures laid { IfOk result (λ layout. layout ≡ layout_of queues self.now) }
        ensures refused { IfErr result (λ refusal. (refusal ≡ Memory)
            ⊎ ((can_lay queues self.now ≡ false) × (refusal ≡ BadMap))) }
    {
        let parts = self.parts();
        if parts < 1 || parts > 256 {
            return Err(Refusal::BadMap);
        }
        let owners = match &self.map {
            None => in_turn(alloc, parts, queues)?,
            Some(map) => map.as_slice().to_vec(alloc)?,
        };
        PartMap::new(queues, parts as u32, owners)
    }

    // Checks that the window is no longer than the least latency.
    fn check_window(&self, least: u64) -> Result<(), Refusal>
        ensures { result ≡ unless (window_fault least self.now.window) }
    {
        match self.window {
            Some(window) if window > least => Err(Refusal::WindowTooLong { window, least }),
            _ => Ok(()),
        }
    }

    /// The split of a scenario.
    ///
    /// # Errors
    ///
    /// The first of these that holds. `BadMap` if there are not 1 to 256 partitions, or if the map
    /// does not give each queue one of them. `WindowTooLong` if the window is longer than the least
    /// latency. `BadWorkers` if there are not 1 to 64 workers. Also `Memory` if a growth is
    /// refused.
    pub fn split(&self, alloc: Global, scenario: &Scenario) -> Result<Split, Refusal>
        ensures allowed { IfOk result (λ _. split_fault scenario.now self.now ≡ None) }
        ensures split { IfOk result (λ split. split ≡ split_of scenario.now self.now) }
        ensures refused { IfErr result (IsUnsplit scenario.now self.now) }
    {
        let layout = self.layout(alloc, scenario.queues().len())?;
        let least = least_latency(scenario);
        self.check_window(least)?;
        let workers = self.workers as usize;
        check_workers(workers)?;
        Ok(Split {
            layout,
            window: self.window.unwrap_or(least),
            workers,
        })
    }
}
