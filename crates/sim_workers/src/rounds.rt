//! Rounds one after another, until nothing is left.
ghost use Rattle.std.specs.Prelude.{◌≡◌, ◌≤◌, ◌<◌, IfErr, IfOk, OnOk, Some, false, length, true};
ghost use Rattle.std.specs.Option.{ForSome, is_some};
ghost use Rattle.sim_clock.specs.declared.key.Key.{Key};
ghost use Rattle.sim_workers.specs.Teams.{HasPlaces};
ghost use Rattle.sim_workers.specs.Paces.{is_full};
ghost use Rattle.sim_workers.specs.Runs.{GoesFurther, OfStage, Stopped, StopsNext, TellsNext, Told, rows_made};
ghost use Rattle.sim_engine.specs.Limits.{most_count};
ghost use Rattle.sim_windows.specs.Stages.{LeadsTo, lower_bound_in, is_finished_in, left_in, next_in};
ghost use Rattle.sim_windows.specs.Sinks.{HasTaken};

use crate::gate::Gate;
use crate::outcomes::Ran;
use crate::pace::Pace;
use crate::piece::PartWork;
use crate::together::{Together, round_together};
use sim_clock::Refusal;
use sim_engine::Site;
use sim_windows::{Came, RowSink, Stage};
use std::sync::Wait;

/// The number of rows that some partitions made.
pub fn rows_made<S: Site>(came: &[Came<S>]) -> u64
    ensures { result ≡ rows_made came.now }
{
    let mut rows: u64 = 0;
    for one in came {
        rows = rows.saturating_add(one.made.rows.len() as u64);
    }
    rows
}

// If enough rows wait, the moment before which rows are settled in the next round.
fn settling_moment<S: Site>(stage: &Stage<S>, pace: &Pace) -> Option<u64>
    ensures lower_bound { ForSome result (λ moment. moment ≡ lower_bound_in S.engine stage.now) }
    ensures full { is_some result ≡ is_full pace.now (length stage.now.parts) }
{
    if pace.is_full(stage.part_count()) {
        Some(stage.lower_bound())
    } else {
        None
    }
}

// Runs each partition to its bound, or to a cut if that is sooner. If enough rows wait, those
// before which nothing can come any more are settled meanwhile, and handed on to the sink.
fn run_round<S: Site, W: PartWork<S>, G: Gate<W>, K: RowSink<S::Row>, R: Wait>(
    team: &mut Together<'_, W, G, R>,
    stage: Stage<S>,
    cut: u64,
    pace: &mut Pace,
    sink: &mut K,
) -> Result<Stage<S>, Refusal>
    requires places { HasPlaces (length stage.parts) team.old }
    requires ready { K.ready sink.old }
    ensures places { OnOk result (HasPlaces (length stage.parts) team.new) }
    ensures ready { OnOk result (K.ready sink.new) }
    ensures on { IfOk result (GoesFurther S.engine S.conditions stage) }
    ensures told { IfOk result
        (λ g. TellsNext S.engine S.conditions K.took stage sink.old g sink.new) }
    ensures span { OnOk result (pace.new.span ≡ pace.old.span) }
    ensures less { (next : Key) → next_in S.engine stage ≡ Some next → (next.at ≤ most_count
        → next.at < cut) → IfOk result (λ g. left_in S.engine g < left_in S.engine stage) }
    ensures stops { IfErr result (λ refusal.
        StopsNext S.engine S.conditions K.took K.broke stage sink.old refusal sink.new) }
{
    let alloc = stage.alloc();
    let moment = settling_moment(&stage, pace);
    let loan = stage.lend(cut)?;
    let Ran { lent, came, handed } = round_together(team, alloc, loan, moment, sink)?;
    pace.count_round(moment.and(Some(handed)), rows_made(&came));
    Ok(lent.come_back(came)?)
}

// Does one round if a partition may go on, and a barrier if none may. Returns whether nothing was
// left.
fn advance<S: Site, W: PartWork<S>, G: Gate<W>, K: RowSink<S::Row>, R: Wait>(
    team: &mut Together<'_, W, G, R>,
    stage: Stage<S>,
    pace: &mut Pace,
    sink: &mut K,
) -> Result<(Stage<S>, bool), Refusal>
    requires places { HasPlaces (length stage.parts) team.old }
    requires span { 1 ≤ pace.old.span }
    requires ready { K.ready sink.old }
    ensures places { OnOk result (HasPlaces (length stage.parts) team.new) }
    ensures ready { OnOk result (K.ready sink.new) }
    ensures on { IfOk result (λ r. GoesFurther S.engine S.conditions stage r.0) }
    ensures told { IfOk result
        (λ r. TellsNext S.engine S.conditions K.took stage sink.old r.0 sink.new) }
    ensures over { IfOk result (λ r. r.1 ≡ true → is_finished_in S.engine r.0 ≡ true) }
    ensures span { OnOk result (1 ≤ pace.new.span) }
    ensures less { IfOk result (λ r. r.1 ≡ false → left_in S.engine r.0 < left_in S.engine stage) }
    ensures stops { IfErr result (λ refusal.
        StopsNext S.engine S.conditions K.took K.broke stage sink.old refusal sink.new) }
{
    match stage.next_ready() {
        Some(next) => {
            let cut = pace.cut_at(next.at);
            let stage = run_round(team, stage, cut, pace, sink)?;
            Ok((stage, false))
        }
        None => {
            if stage.is_finished() {
                return Ok((stage, true));
            }
            Ok((stage.meet()?, false))
        }
    }
}

// Repeats this until nothing is left by the horizon. Each step leaves less, so it ends.
fn run_rounds<S: Site, W: PartWork<S>, G: Gate<W>, K: RowSink<S::Row>, R: Wait>(
    team: &mut Together<'_, W, G, R>,
    stage: Stage<S>,
    sink: &mut K,
) -> Result<Stage<S>, Refusal>
    requires places { HasPlaces (length stage.parts) team.old }
    requires fresh { stage.settled ≡ 0 }
    requires ready { K.ready sink.old }
    ensures ready { OnOk result (K.ready sink.new) }
    ensures on { IfOk result (λ g. LeadsTo S.engine S.conditions stage g) }
    ensures ended { IfOk result (λ g. is_finished_in S.engine g ≡ true) }
    ensures told { IfOk result (λ g. Told S.engine S.conditions K.took stage sink.old g sink.new) }
    ensures stops { IfErr result (λ refusal.
        Stopped S.engine S.conditions K.took K.broke stage sink.old refusal sink.new) }
{
    let mut stage = stage;
    let mut pace = Pace::new();
    loop {
        let (next, over) = advance(team, stage, &mut pace, sink)?;
        if over {
            return Ok(next);
        }
        stage = next;
    }
}

/// Runs a stage to its end by several workers, and hands all rows on to the sink as they are
/// settled. Returns the sites of the last world, by number. It ends if each of their rounds does.
///
/// # Errors
///
/// `Memory` if a growth is refused, and `CountLimit` only if the run takes a count past 2^62 - 1.
/// Else the sink's error. In each case the sink took a prefix of the run's rows.
pub fn run_stage<S: Site, W: PartWork<S>, G: Gate<W>, K: RowSink<S::Row>, R: Wait>(
    team: &mut Together<'_, W, G, R>,
    stage: Stage<S>,
    sink: &mut K,
) -> Result<Vec<S>, Refusal>
    requires places { HasPlaces (length stage.parts) team.old }
    requires fresh { stage.settled ≡ 0 }
    requires ready { K.ready sink.old }
    ensures ready { OnOk result (K.ready sink.new) }
    ensures whole { OfStage S.engine S.conditions stage (λ s. IfOk result
        (λ sites. HasTaken S.engine K.took s sink.old sink.new sites.items)) }
    ensures stops { IfErr result (λ refusal.
        Stopped S.engine S.conditions K.took K.broke stage sink.old refusal sink.new) }
{
    let stage = run_rounds(team, stage, sink)?;
    let ended = stage.into_run()?;
    sink.take(&ended.rows)?;
    Ok(ended.sites)
}
