//! How a scaler says how many copies of a consumer ask for messages, and what a copy does then.
ghost use Rattle.std.specs.Prelude.{◌≡◌, ◌≤◌, ◌+◌, Some};
ghost use Rattle.sqs_model.specs.declared.agents.ActorSettings.{ActorSettings};
ghost use Rattle.sqs_model.specs.Actor.{asked_for as the_asked_for, changed_at as the_changed_at, changed_by as the_changed_by, copies_after as the_copies_after, copies_by as the_copies_by, copies_up_to as the_copies_up_to, copy_wake as the_copy_wake, has_decided as the_has_decided, has_nothing as the_has_nothing, is_parked as the_is_parked, is_wanted, read_before as the_read_before, reads as the_reads, scaler_wake as the_scaler_wake, scales as the_scales, scales_for as the_scales_for, wanted_for as the_wanted_for, woken};
ghost use Rattle.sqs_model.specs.Answers.{most_count};
ghost use Rattle.sqs_model.specs.Valid.{IsConsumer, IsScaler, IsTarget};
ghost use Rattle.sim_actor.specs.Lives.{Becomes, DecidesAt, Lived, Lives, Rescales, act_scaling, copy_parks, copy_starts, last_act_of, lived};

use super::{LastAct, Life};
use sim_clock::Refusal;
use sqs_model::{
    Act, ConsumerSettings, MOST_COUNT, ScalerSettings, Scaling, ScalingStep, Standing, Target,
};

// How many copies steps ask for.
fn copies_up_to(steps: &[ScalingStep], most: u64, visible: u64) -> u64
    ensures { result ≡ the_copies_up_to steps.now most visible }
{
    match steps.iter().find(|step| visible <= step.visible) {
        None => most,
        Some(step) => step.copies,
    }
}

// How many copies so many visible messages ask for.
fn asked_for(target: &Target, most: u64, visible: u64) -> u64
    requires { IsTarget target.now }
    ensures { result ≡ the_asked_for target.now most visible }
{
    match target {
        Target::PerCopy(messages) => visible.div_ceil(*messages),
        Target::Steps(steps) => copies_up_to(steps.as_slice(), most, visible),
    }
}

// How many copies a scaler wants for so many visible messages.
fn wanted_for(scaler: &ScalerSettings, visible: u64) -> u32
    requires { IsScaler scaler.now }
    ensures { result ≡ the_wanted_for scaler.now visible }
{
    let most = scaler.most as u64;
    let copies = asked_for(&scaler.target, most, visible);
    copies.max(scaler.least as u64).min(most) as u32
}

// How many copies it adds or takes away of those that it lacks or has too many.
fn changed_by(most: u32, too_early: bool, copies: u32) -> u32
    ensures changed { result ≡ the_changed_by most too_early copies }
    ensures most { result ≤ copies }
{
    if too_early { 0 } else { most.min(copies) }
}

// How many copies there are after a decision, by how many are wanted.
fn copies_after(scaler: &ScalerSettings, now: u64, copies: u32, changed: u64, wanted: u32) -> u32
    ensures { result ≡ the_copies_after scaler.now now copies changed wanted }
{
    let since = now.saturating_sub(changed);
    if copies < wanted {
        let lacking = wanted - copies;
        copies + changed_by(scaler.most_added, since < scaler.cooldown_out, lacking)
    } else {
        let too_many = copies - wanted;
        copies - changed_by(scaler.most_taken, since < scaler.cooldown_in, too_many)
    }
}

/// The act of a scaler that changes how many copies ask, from one number to another, or not.
pub(crate) fn act_scaling(change: Option<(u32, u32)>) -> Act
    ensures { result ≡ act_scaling change }
{
    match change {
        None => Act::Nothing,
        Some((from, to)) => Act::Scale { from, to },
    }
}

/// How many copies are to ask, by the last act of their scaler.
pub(crate) fn copies_by(scaler: &ScalerSettings, last_act: LastAct) -> u32
    ensures { result ≡ the_copies_by scaler.now (last_act_of last_act) }
{
    match last_act {
        LastAct::Decided { copies, .. } | LastAct::Read { copies, .. } => copies,
        _ => scaler.least,
    }
}

// When that last changed.
fn changed_at(last_act: LastAct) -> u64
    ensures { result ≡ the_changed_at (last_act_of last_act) }
{
    match last_act {
        LastAct::Decided { changed, .. } | LastAct::Read { changed, .. } => changed,
        _ => 0,
    }
}

// The number that a scaler read and waits to decide by, if it does.
fn read_before(last_act: LastAct) -> Option<u64>
    ensures { result ≡ the_read_before (last_act_of last_act) }
{
    match last_act {
        LastAct::Read { visible, .. } => Some(visible),
        _ => None,
    }
}

impl Life {
    // A scaler has decided that so many copies ask. It reads again after its time.
    fn has_decided(&mut self, scaler: &ScalerSettings, now: u64, copies: u32, changed: u64)
        requires moment { now ≤ most_count }
        requires scaler { IsScaler scaler.now }
        ensures decided { Lived self.old self.new (λ a b.
            the_has_decided a scaler.now now copies changed ≡ b) }
        ensures framed { self.new.number ≡ self.old.number }
    {
        self.wake = Some(now + (scaler.every - scaler.reading));
        self.last_act = LastAct::Decided { copies, changed };
    }

    // Says how many copies ask from now on: before and after, if that changes.
    fn scale(
        &mut self,
        scaler: &ScalerSettings,
        now: u64,
        copies: u32,
        changed: u64,
        to: u32,
    ) -> Option<(u32, u32)>
        requires moment { now ≤ most_count }
        requires scaler { IsScaler scaler.now }
        ensures decision { Lived self.old self.new (λ a b.
            the_scales a scaler.now now copies changed to ≡ (act_scaling result, b)) }
        ensures framed { self.new.number ≡ self.old.number }
    {
        if to == copies {
            self.has_decided(scaler, now, copies, changed);
            return None;
        }
        self.has_decided(scaler, now, to, now);
        Some((copies, to))
    }

    // Says how many copies ask, by so many visible messages.
    fn scale_for(
        &mut self,
        scaler: &ScalerSettings,
        now: u64,
        copies: u32,
        changed: u64,
        visible: u64,
    ) -> Option<(u32, u32)>
        requires moment { now ≤ most_count }
        requires scaler { IsScaler scaler.now }
        ensures decision { Lived self.old self.new (λ a b.
            the_scales_for a scaler.now now copies changed visible ≡ (act_scaling result, b)) }
        ensures framed { self.new.number ≡ self.old.number }
    {
        let wanted = wanted_for(scaler, visible);
        let to = copies_after(scaler, now, copies, changed, wanted);
        self.scale(scaler, now, copies, changed, to)
    }

    // Reads how many messages are visible, and decides by that at once or later.
    fn read_visible(
        &mut self,
        scaler: &ScalerSettings,
        now: u64,
        copies: u32,
        changed: u64,
        visible: u64,
    ) -> Option<(u32, u32)>
        requires moment { now ≤ most_count }
        requires scaler { IsScaler scaler.now }
        ensures decision { Lived self.old self.new (λ a b.
            the_reads a scaler.now now copies changed visible ≡ (act_scaling result, b)) }
        ensures framed { self.new.number ≡ self.old.number }
    {
        if scaler.reading == 0 {
            return self.scale_for(scaler, now, copies, changed, visible);
        }
        self.wake = Some(now + scaler.reading);
        self.last_act = LastAct::Read {
            copies,
            changed,
            visible,
        };
        None
    }

    // A scaler's wake has come, when so many messages of its queue are visible. Returns how many copies
    // ask before and after it, if that changes: two numbers, and no act, which is large.
    #[inline(never)]
    pub(crate) fn scaler_wake(
        &mut self,
        scaler: &ScalerSettings,
        now: u64,
        visible: u64,
    ) -> Result<Option<(u32, u32)>, Refusal>
        requires moment { now ≤ most_count }
        requires scaler { IsScaler scaler.now }
        ensures decision { Lives Rescales result self.old self.new
            (λ a. the_scaler_wake (woken a) scaler.now now visible a.last_act) }
        ensures framed { self.new.number ≡ self.old.number }
    {
        if self.wakes == MOST_COUNT {
            return Err(Refusal::CountLimit);
        }
        let (copies, changed) = (copies_by(scaler, self.last_act), changed_at(self.last_act));
        let read_before = read_before(self.last_act);
        self.count_wake();
        if let Some(before) = read_before {
            return Ok(self.scale_for(scaler, now, copies, changed, before));
        }
        Ok(self.read_visible(scaler, now, copies, changed, visible))
    }

    // Whether it is one of so many copies that are to ask.
    fn is_wanted(&self, scaling: Scaling, copies: u64) -> bool
        ensures { (s : ActorSettings) → result ≡ is_wanted scaling copies (lived s self.now) }
    {
        (self.number as u64 + 1).saturating_sub(scaling.second as u64) < copies
    }

    // Whether it has no message to serve, to delete or to change.
    fn has_nothing(&self) -> bool
        ensures { (s : ActorSettings) → result ≡ the_has_nothing (lived s self.now) }
    {
        self.holding.is_empty()
    }

    // Whether it asks no more, by its last act.
    fn is_parked(&self) -> bool
        ensures { result ≡ the_is_parked self.now.last_act }
    {
        matches!(self.last_act, LastAct::Parked)
    }

    // A copy that is not to ask sleeps until its scaler wakes next.
    #[cold]
    #[inline(never)]
    fn park(&mut self, now: u64, next: Option<u64>) -> Result<(), Refusal>
        requires moment { now ≤ most_count }
        ensures decision { Lived self.old self.new (λ a b. Becomes result b
            (copy_parks now next a)) }
        ensures framed { self.new.number ≡ self.old.number }
    {
        if self.wakes == MOST_COUNT {
            return Err(Refusal::CountLimit);
        }
        self.count_wake();
        self.wake = next.map(|next| next.max(now + 1));
        self.last_act = LastAct::Parked;
        Ok(())
    }

    // A copy that is to ask again starts first.
    #[cold]
    #[inline(never)]
    fn start(&mut self, scaling: Scaling, now: u64) -> Result<(), Refusal>
        requires moment { now ≤ most_count }
        requires start { scaling.start ≤ most_count }
        ensures decision { Lived self.old self.new (λ a b. Becomes result b
            (copy_starts scaling now a)) }
        ensures framed { self.new.number ≡ self.old.number }
    {
        if self.wakes == MOST_COUNT {
            return Err(Refusal::CountLimit);
        }
        self.count_wake();
        self.wake = Some((now + scaling.start).max(now + 1));
        self.last_act = LastAct::Asked;
        Ok(())
    }

    // A consumer's wake has come. A copy that has nothing to do goes by its scaler.
    #[inline(always)]
    pub(crate) fn copy_wake(
        &mut self,
        consumer: &ConsumerSettings,
        home: u32,
        now: u64,
        standing: Standing,
    ) -> Result<Act, Refusal>
        requires moment { now ≤ most_count }
        requires consumer { IsConsumer consumer.now }
        ensures decision { DecidesAt home result self.old self.new
            (λ a. the_copy_wake consumer.now.scaling (woken a) consumer.now now standing) }
        ensures framed { self.new.number ≡ self.old.number }
    {
        if let Some(scaling) = consumer.scaling {
            if self.has_nothing() {
                if !self.is_wanted(scaling, standing.number) {
                    self.park(now, standing.next)?;
                    return Ok(Act::Nothing);
                }
                if self.is_parked() {
                    self.start(scaling, now)?;
                    return Ok(Act::Nothing);
                }
            }
        }
        self.consumer_wake(consumer, home, now)
    }
}
