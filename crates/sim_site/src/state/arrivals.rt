//! The arrival of transfers.
ghost use Rattle.std.specs.Prelude.{IfErr, IfOk, ◌<◌, ◌≡◌, ◌≤◌};
ghost use Rattle.sqs_message.specs.declared.ids.MessageId.{MessageId};
ghost use Rattle.sqs_redrive.specs.declared.transfers.Load.{Load};
ghost use Rattle.sqs_model.specs.Answers.{most_count};
ghost use Rattle.sqs_model.specs.Arrive.{arrived};
ghost use Rattle.sqs_model.specs.Progress.{IsRecent, WasEnqueuedBy};
ghost use Rattle.sqs_model.specs.Queue.{IsFramed};
ghost use Rattle.sqs_model.specs.Site.{Core, number_of};
ghost use Rattle.sqs_model.specs.Step.{arrival_row as the_arrival_row, load_age as the_load_age, load_origin};
ghost use Rattle.sim_site.specs.Effects.{Handles};
ghost use Rattle.sim_engine.specs.Limits.{StopsWhere};
ghost use Rattle.sim_site.specs.Origins.{origin_or};
ghost use Rattle.sim_site.specs.Reading.{load_arrives};

use super::Core;
use crate::handling::Handling;
use crate::rows::site_row;
use sim_clock::{Key, Refusal};
use sqs_message::{Detail, MessageId, Origin, Row, RowAnswer, RowKind};
use sqs_queue::Queue;
use sqs_redrive::{Load, Sent};

// The origin in a load, if it has one.
fn origin_of(load: &Load) -> Option<Origin>
    ensures { (id : MessageId) → load_origin load.now id ≡ origin_or result id }
{
    match load {
        Load::Redrive { origin, .. } | Load::Move { origin, .. } => Some(*origin),
        Load::Forward { .. } => None,
    }
}

// The age of a message that expires on arrival.
fn age_of(load: &Load, now: u64) -> u64
    ensures { result ≡ the_load_age load.now now }
{
    match load {
        Load::Redrive { enqueued, .. } => now.saturating_sub(*enqueued),
        Load::Move { .. } | Load::Forward { .. } => 0,
    }
}

// A load arrives at a queue.
fn arrive_by(queue: &mut Queue, now: u64, load: Load) -> Result<(Sent, bool), Refusal>
    requires moment { now ≤ most_count }
    requires enqueued { WasEnqueuedBy now load }
    requires recent { IsRecent now queue.old }
    ensures arrived { IfOk result (λ answer. arrived queue.old now load ≡ (answer, queue.new)) }
    ensures framed { IsFramed queue.old queue.new }
    ensures stops { IfErr result
        (StopsWhere (most_count < (arrived queue.old now load).1.arrivals)) }
{
    match queue.arrive(now, load) {
        Ok(answer) => Ok(answer),
        Err(Refusal::CountLimit) => Err(Refusal::CountLimit),
        Err(Refusal::Memory) => Err(Refusal::Memory),
        Err(_) => unreachable!(),
    }
}

// The row of an arrival; its agent is the sender.
fn arrival_row(key: Key, site: u32, origin: Option<Origin>, answer: RowAnswer, id: MessageId) -> Row
    ensures { (c : Core) (load : Load) → number_of c ≡ site
        → load_origin load id ≡ origin_or origin id
        → result ≡ the_arrival_row key c load answer id }
{
    let own = Origin {
        site: id.site,
        number: id.number,
    };
    let detail = Detail::From(origin.unwrap_or(own));
    let row = site_row(key, site, RowKind::Arrive, answer, id, detail);
    Row {
        agent: key.agent,
        ..row
    }
}

impl Core {
    /// A load arrives by a transfer; its enqueue time is no later than its arrival.
    pub fn arrive(&mut self, handling: &mut Handling<'_>, load: Load) -> Result<(), Refusal>
        requires enqueued { WasEnqueuedBy handling.old.key.at load }
        requires recent { IsRecent handling.old.key.at self.old.queue }
        ensures { Handles result handling.old handling.new self.new
            (λ k. load_arrives k load self.old) }
    {
        let key = handling.key;
        let site = self.queue.site();
        let origin = origin_of(&load);
        let age = age_of(&load, key.at);
        let (sent, expired) = arrive_by(&mut self.queue, key.at, load)?;
        match sent {
            Sent::Repeat(id) => {
                let row = arrival_row(key, site, origin, RowAnswer::Repeat, id);
                handling.effects.say(row)?;
                return Ok(());
            }
            Sent::New(id) => {
                let row = arrival_row(key, site, origin, RowAnswer::New, id);
                handling.effects.say(row)?;
                if !expired {
                    return Ok(());
                }
                let (kind, answer) = (RowKind::Expire, RowAnswer::Expired);
                let row = site_row(key, site, kind, answer, id, Detail::Age(age));
                handling.effects.say(row)?;
                Ok(())
            }
        }
    }
}
