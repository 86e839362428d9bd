//! Several workers: the partitions of a round are offered, and any free thread runs them.
ghost use Rattle.std.specs.Prelude.{◌≡◌, ◌<◌, ◌≤◌, ◌+◌, ℕ, All, [], length, vec_capacity};
ghost use Rattle.std.specs.Prelude.{IfErr, IfOk, None, OnOk};
ghost use Rattle.sim_engine.specs.Limits.{most_count};
ghost use Rattle.sim_handoff.specs.Place.{IsFree};
ghost use Rattle.sim_handoff.specs.Seats.{table_of, places_of, owner_table, owner_record, IsIdleHand};
ghost use Rattle.sim_workers.specs.Owners.{AreResting, AreSentOut, IsAllFree, IsResting, IsSentOut, KeepsOthers};
ghost use Rattle.sim_workers.specs.Owners.{IsCollected, AreCollected};
ghost use Rattle.sim_windows.specs.Rounds.{HaveCome};
ghost use Rattle.sim_workers.specs.Runs.{HandsOn, StopsRound};

use crate::gate::Gate;
use crate::handing_on::hand_on;
use crate::outcomes::{Outcome, Ran, all_came, at_rest};
use crate::piece::PartWork;
use crate::rounds::rows_made;
use crate::worker::collect_at;
use sim_clock::Refusal;
use sim_engine::Site;
use sim_handoff::{Hand, Handoff, Owner, Work};
use sim_partition::Partition;
use sim_windows::{Loan, RowSink};
use std::alloc::Global;
use std::sync::Wait;

// A round of fewer rows is followed by one that the owner's own thread runs: to hand partitions to
// other threads would cost more than it saves.
const ROWS_WORTH_LENDING: u64 = 1_024;

/// Workers on several threads. This thread owns the hand-off. Between two rounds nothing is
/// offered.
#[derive(Drop)]
pub struct Together<'a, W: Work, G: Gate<W>, R: Wait> {
    pub rt: &'a R,
    pub handoff: &'a Handoff<W>,
    pub owner: Owner<W>,
    pub hand: Hand<W>,
    pub gate: &'a G,
    pub ghost here: { owner_table owner ≡ table_of handoff.now },
    pub ghost idle: { IsIdleHand (table_of handoff.now) hand },
    pub ghost free: { IsAllFree (owner_record owner) },
}

impl<W: Work, G: Gate<W>, R: Wait> Together<'_, W, G, R> {
    /// Stops all hands, on whatever threads they are.
    pub fn stop(self) {
        let Together {
            handoff,
            mut owner,
            ..
        } = self;
        owner.stop(handoff);
    }
}

// Offers a partition if something is due before its bound, and else returns its outcome.
fn offer_one<S: Site, W: PartWork<S>>(
    alloc: Global,
    handoff: &Handoff<W>,
    owner: &mut Owner<W>,
    place: usize,
    bound: u64,
    part: Partition<S>,
) -> Option<Outcome<S>>
    requires here { owner_table owner.old ≡ table_of handoff.now }
    requires place { place < places_of handoff.now }
    requires range { bound ≤ most_count + 1 }
    requires free { IsFree (owner_record owner.old) place }
    ensures here { owner_table owner.new ≡ table_of handoff.now }
    ensures sent { IsSentOut S.engine S.conditions W.packed (owner_record owner.new) place bound
        part result }
    ensures others { KeepsOthers place (owner_record owner.old) (owner_record owner.new) }
{
    match part.least_due() {
        Some(key) if key.at < bound => {
            owner.offer(handoff, place, W::pack(part, bound));
            None
        }
        _ => Some(at_rest(alloc, part, bound)),
    }
}

// Offers each partition that has something due before its bound, and returns the outcomes of the
// others.
fn offer_due<S: Site, W: PartWork<S>>(
    alloc: Global,
    handoff: &Handoff<W>,
    owner: &mut Owner<W>,
    bounds: &[u64],
    parts: Vec<Partition<S>>,
    mut homes: Vec<Option<Outcome<S>>>,
) -> Vec<Option<Outcome<S>>>
    requires here { owner_table owner.old ≡ table_of handoff.now }
    requires places { length parts.items ≡ places_of handoff.now }
    requires bounds { length bounds.now ≡ length parts.items }
    requires range { All (λ b. b ≤ most_count + 1) bounds.now }
    requires free { IsAllFree (owner_record owner.old) }
    requires room { (homes.items ≡ []) × (length parts.items ≤ vec_capacity homes) }
    ensures here { owner_table owner.new ≡ table_of handoff.now }
    ensures sent { AreSentOut S.engine S.conditions W.packed (owner_record owner.new) 0
        bounds.now parts.items result.items }
    ensures after { (place : ℕ) → length parts.items ≤ place
        → IsFree (owner_record owner.new) place }
{
    for part in parts {
        let place = homes.len();
        let home = offer_one(alloc, handoff, owner, place, bounds[place], part);
        homes.push_reserved(home);
    }
    homes
}

// The outcome of the partition at a place: the answer that is collected there, or the outcome that
// is here already.
fn come<S: Site, W: PartWork<S>, G: Gate<W>, R: Wait>(
    rt: &R,
    handoff: &Handoff<W>,
    owner: &mut Owner<W>,
    hand: &mut Hand<W>,
    gate: &G,
    place: usize,
    home: Option<Outcome<S>>,
) -> Outcome<S>
    requires here { owner_table owner.old ≡ table_of handoff.now }
    requires idle { IsIdleHand (table_of handoff.now) hand.old }
    requires place { place < places_of handoff.now }
    requires resting { IsResting (owner_record owner.old) place home }
    ensures here { owner_table owner.new ≡ table_of handoff.now }
    ensures idle { IsIdleHand (table_of handoff.now) hand.new }
    ensures free { IsFree (owner_record owner.new) place }
    ensures others { KeepsOthers place (owner_record owner.old) (owner_record owner.new) }
    ensures collected { IsCollected S.engine S.conditions W.packed (owner_record owner.old) place
        home result }
{
    match home {
        None => {
            let done = collect_at(rt, handoff, owner, hand, gate, place);
            W::unpack(done)
        }
        Some(outcome) => outcome,
    }
}

// Collects what was offered, and adds the outcomes that are here already.
fn collect_all<S: Site, W: PartWork<S>, G: Gate<W>, R: Wait>(
    rt: &R,
    handoff: &Handoff<W>,
    owner: &mut Owner<W>,
    hand: &mut Hand<W>,
    gate: &G,
    homes: Vec<Option<Outcome<S>>>,
    mut came: Vec<Outcome<S>>,
) -> Vec<Outcome<S>>
    requires here { owner_table owner.old ≡ table_of handoff.now }
    requires idle { IsIdleHand (table_of handoff.now) hand.old }
    requires places { length homes.items ≡ places_of handoff.now }
    requires resting { AreResting (owner_record owner.old) 0 homes.items }
    requires after { (place : ℕ) → length homes.items ≤ place
        → IsFree (owner_record owner.old) place }
    requires room { (came.items ≡ []) × (length homes.items ≤ vec_capacity came) }
    ensures here { owner_table owner.new ≡ table_of handoff.now }
    ensures idle { IsIdleHand (table_of handoff.now) hand.new }
    ensures free { IsAllFree (owner_record owner.new) }
    ensures collected { AreCollected S.engine S.conditions W.packed (owner_record owner.old) 0
        homes.items result.items }
{
    for home in homes {
        let place = came.len();
        let outcome = come(rt, handoff, owner, hand, gate, place, home);
        came.push_reserved(outcome);
    }
    came
}

/// Runs every partition that has something due before its end to that end. It offers the
/// partitions, hands on the rows that are settled, and collects the answers. If a moment is given,
/// the rows from before it are settled and go to the sink, and other threads are woken. If the
/// round made few rows, the next one runs on this thread alone. Returns the partitions as they came
/// back. All of them have run, even if one returns an error.
///
/// # Errors
///
/// `Memory` if a growth is refused here, before rows are handed on or among them. The sink's error,
/// if it breaks at some of them. Else, if errors have spent partitions, `Memory` if one of them is,
/// and otherwise that of the first partition.
pub fn round_together<S: Site, W: PartWork<S>, G: Gate<W>, K: RowSink<S::Row>, R: Wait>(
    team: &mut Together<'_, W, G, R>,
    alloc: Global,
    loan: Loan<S>,
    moment: Option<u64>,
    sink: &mut K,
) -> Result<Ran<S>, Refusal>
    requires places { length loan.parts.items ≡ places_of team.old.handoff.now }
    requires ends { length loan.ends.items ≡ length loan.parts.items }
    requires range { All (λ b. b ≤ most_count + 1) loan.ends.items }
    requires ready { K.ready sink.old }
    ensures places { length loan.parts.items ≡ places_of team.new.handoff.now }
    ensures ready { OnOk result (K.ready sink.new) }
    ensures handed { IfOk result (λ ran.
        HandsOn S.engine S.conditions K.took moment loan.lent sink.old ran.lent sink.new
        ran.handed) }
    ensures came { IfOk result
        (λ ran. HaveCome S.engine S.conditions loan.ends.items loan.parts.items ran.came.items) }
    ensures stops { IfErr result (λ refusal.
        StopsRound S.engine S.conditions K.took K.broke
        loan.ends.items loan.parts.items moment loan.lent sink.old refusal sink.new) }
{
    let Loan { lent, parts, ends } = loan;
    let homes = Vec::with_capacity(alloc, parts.len())?;
    let came = Vec::with_capacity(alloc, parts.len())?;
    let all = Vec::with_capacity(alloc, parts.len())?;
    let homes = offer_due(alloc, team.handoff, &mut team.owner, &ends, parts, homes);
    if moment.is_some() {
        team.owner.call_early(team.handoff);
    }
    let handed = hand_on::<S, K>(alloc, lent, moment, sink);
    let outcomes = collect_all(
        team.rt,
        team.handoff,
        &mut team.owner,
        &mut team.hand,
        team.gate,
        homes,
        came,
    );
    let (lent, handed) = handed?;
    let came = all_came(outcomes, all)?;
    team.owner.work_alone(rows_made(&came) < ROWS_WORTH_LENDING);
    Ok(Ran { lent, came, handed })
}
