//! The ways of a scenario, and the least time that a transfer takes along one.
ghost use Rattle.std.specs.Prelude.{◌≡◌, ◌≤◌, ◌<◌, ◌+◌, ◌^◌, All, IfOk, IfSome};
ghost use Rattle.std.specs.Iterator.{YieldsFirst, item_count};
ghost use Rattle.std.specs.List.{slice_get};
ghost use Rattle.sqs_model.specs.Scenario.{edge, edges, least_latency as the_least_latency, leads_to, role_edges};
ghost use Rattle.sim_scenario.specs.Ranges.{IsInRange};

use crate::scenario::Scenario;
use sim_engine::Edge;
use sqs_model::{ActorSettings, Role};
use sqs_redrive::{Latency, Policy, TaskSettings};
use std::alloc::{AllocError, Global};
use std::marker::Model;

/// The ways of a scenario, one after another: those of the queues, actors and move tasks that are
/// left. Contracts see the list of the ways still to come.
#[derive(Drop)]
struct Ways<'a> {
    scenario: &'a Scenario,
    /// The number of the next queue.
    queue: usize,
    actors: &'a [ActorSettings],
    /// How many of the ways of the next actor were before.
    forward: usize,
    tasks: &'a [TaskSettings],
    /// The first queue to which the next task may still lead, if it has no destination.
    source: usize,
}

impl<'a> Model for Ways<'a> {
    ghost use Rattle.std.specs.Prelude.{List};
    ghost use Rattle.sim_engine.specs.declared.edge.Edge.{Edge};
    ghost use Rattle.sim_scenario.specs.Ways.{ways_from};

    ghost Value = { List Edge };

    ghost view = { λ w. ways_from w.scenario.now w.queue w.actors.now w.forward w.tasks.now w.source };
}

/// All ways of a scenario.
fn ways_of(scenario: &Scenario) -> Ways<'_>
    ensures ways { result ≡ edges scenario.now }
    ensures range { IsInRange scenario.now }
{
    Ways {
        scenario,
        queue: 0,
        actors: scenario.actors(),
        forward: 0,
        tasks: scenario.tasks(),
        source: 0,
    }
}

/// A way from one queue to another.
fn edge(from: u32, to: u32, latency: Latency) -> Edge
    ensures { result ≡ edge from to latency }
{
    let least = latency.least;
    Edge { from, to, least }
}

/// The way of an actor to the queue of an index among those to which it forwards, if there is one.
fn forward_way(actor: &ActorSettings, index: usize) -> Option<Edge>
    ensures way { result ≡ slice_get (role_edges actor.now.home actor.now.role) index }
    ensures within { IfSome result (λ way. index + 1 < 2 ^ 64) }
{
    let Role::Consumer(consumer) = &actor.role else {
        return None;
    };
    let forward = consumer.forward.as_ref()?;
    let to = forward.to.as_slice().get(index)?;
    Some(edge(actor.home, *to, forward.latency))
}

/// Whether a redrive policy names a queue.
fn leads_to(policy: Option<Policy>, queue: u32) -> bool
    ensures { result ≡ leads_to queue policy }
{
    match policy {
        None => false,
        Some(policy) => policy.dead_letter == queue,
    }
}

impl<'a> Iterator for Ways<'a> {
    type Item = Edge;

    ghost next_gives = { YieldsFirst (λ rest. rest) };

    ghost remaining = { item_count (λ rest. rest) };

    fn next(&mut self) -> Option<Edge> {
        while let Some(queue) = self.scenario.queues().get(self.queue) {
            let from = self.queue as u32;
            self.queue += 1;
            if let Some(policy) = queue.policy {
                return Some(edge(from, policy.dead_letter, policy.latency));
            }
        }
        while let Some((actor, others)) = self.actors.split_first() {
            if let Some(way) = forward_way(actor, self.forward) {
                self.forward += 1;
                return Some(way);
            }
            self.actors = others;
            self.forward = 0;
        }
        while let Some((task, others)) = self.tasks.split_first() {
            if let Some(to) = task.to {
                self.tasks = others;
                self.source = 0;
                return Some(edge(task.home, to, task.latency));
            }
            while let Some(queue) = self.scenario.queues().get(self.source) {
                let source = self.source as u32;
                self.source += 1;
                if leads_to(queue.policy, task.home) {
                    return Some(edge(task.home, source, task.latency));
                }
            }
            self.tasks = others;
            self.source = 0;
        }
        None
    }
}

/// All ways of a scenario along which messages may go from one queue to another, each with the
/// least time in milliseconds that it takes. They lead:
///
/// - from queues to their dead-letter queues,
/// - from the queues of consumers to those to which they forward,
/// - from the queues of move tasks to those to which they move messages.
///
/// A task without a destination may move to each queue whose dead-letter queue is its own.
///
/// # Errors
///
/// `AllocError` if memory runs out.
pub fn edges(alloc: Global, scenario: &Scenario) -> Result<Vec<Edge>, AllocError>
    ensures ways { IfOk result (λ ways. ways.items ≡ edges scenario.now) }
    ensures range { IfOk result (λ ways. All (λ e. (1 ≤ e.least) × (e.least ≤ 900000)) ways.items) }
{
    ways_of(scenario).collect(alloc)
}

/// The least time that a transfer of a scenario takes, in milliseconds, which no window of a
/// partitioned run may exceed; past the horizon if there can be no transfer.
pub fn least_latency(scenario: &Scenario) -> u64
    ensures { result ≡ the_least_latency scenario.now }
{
    let past = scenario.horizon() + 1;
    ways_of(scenario)
        .map(|edge| edge.least)
        .min()
        .unwrap_or(past)
}
