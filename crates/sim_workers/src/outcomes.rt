//! The outcomes of the partitions of a round.
ghost use Rattle.std.specs.Prelude.{◌≡◌, ◌≤◌, [], All, IfErr, IfOk, None, Ok, Some, length, map, vec_capacity};
ghost use Rattle.sim_clock.specs.Order.{due_before};
ghost use Rattle.sim_engine.specs.World.{world_due};
ghost use Rattle.sim_partition.specs.Sites.{AreOfPast, due_in};
ghost use Rattle.sim_windows.specs.Rounds.{Comes};
ghost use Rattle.sim_workers.specs.Rounds.{gravest, gravest_of};

use sim_clock::Refusal;
use sim_engine::{Effects, Site};
use sim_partition::Partition;
use sim_windows::{Came, Lent};
use std::alloc::Global;

/// The outcome of running a partition to its bound.
pub type Outcome<S> = Result<Came<S>, Refusal>;

/// The outcome of a round: what the stage kept while its partitions were lent, the partitions as
/// they came back, and the number of rows that were handed on meanwhile.
#[derive(Drop)]
pub struct Ran<S: Site> {
    pub lent: Lent<S>,
    pub came: Vec<Came<S>>,
    pub handed: u64,
}

/// The outcome of a partition that has nothing due before its bound: itself, with nothing done, or
/// the error that spent it before.
pub fn at_rest<S: Site>(alloc: Global, part: Partition<S>, bound: u64) -> Outcome<S>
    requires done { due_before bound (due_in S.engine part) ≡ None }
    requires moves_on { IfOk part (All S.conditions.Sound) }
    requires past { IfOk part (λ w. AreOfPast S.conditions w (world_due S.engine w)) }
    ensures { Comes S.engine S.conditions bound part result }
{
    if let Some(refusal) = part.spent() {
        return Err(refusal);
    }
    let made = Effects::new(alloc);
    Ok(Came { part, made })
}

// The graver of two errors: `Memory` if one of them is, and else the first.
fn graver(before: Option<Refusal>, refusal: Refusal) -> Refusal
    ensures { result ≡ gravest_of before refusal }
{
    match (before, refusal) {
        (None, _) | (_, Refusal::Memory) => refusal,
        (Some(first), _) => first,
    }
}

/// The partitions that came back, if no outcome is an error.
///
/// # Errors
///
/// The gravest one: `Memory` if one is, and otherwise the first.
pub fn all_came<S: Site>(
    outcomes: Vec<Outcome<S>>,
    mut all: Vec<Came<S>>,
) -> Result<Vec<Came<S>>, Refusal>
    requires room { (all.items ≡ []) × (length outcomes.items ≤ vec_capacity all) }
    ensures came { IfOk result (λ all. outcomes.items ≡ map (λ c. Ok c) all.items) }
    ensures refused { IfErr result (λ refusal. gravest outcomes.items ≡ Some refusal) }
{
    let mut refused = None;
    for outcome in outcomes {
        match outcome {
            Ok(came) => all.push_reserved(came),
            Err(refusal) => refused = Some(graver(refused, refusal)),
        }
    }
    match refused {
        None => Ok(all),
        Some(refusal) => Err(refusal),
    }
}
