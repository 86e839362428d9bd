//! Sends by actors.
ghost use Rattle.std.specs.Prelude.{IfErr, IfOk, List, Option, ℕ, ◌<◌, ◌≡◌, ◌≤◌};
ghost use Rattle.md5.specs.Md5.{md5};
ghost use Rattle.sim_clock.specs.declared.refusal.Refusal.TheVariants as refusals;
ghost use Rattle.sqs_model.specs.declared.acts.Act.TheVariants as acts;
ghost use Rattle.sqs_model.specs.Acts.{send_row as the_send_row};
ghost use Rattle.sqs_model.specs.Answers.{most_count};
ghost use Rattle.sqs_model.specs.Progress.{IsRecent};
ghost use Rattle.sqs_model.specs.Queue.{IsFramed};
ghost use Rattle.sqs_model.specs.Site.{Core, number_of};
ghost use Rattle.sim_site.specs.Effects.{IsReportedOrEnds, DoesAct};
ghost use Rattle.sim_engine.specs.Limits.{StopsWhere};
ghost use Rattle.sqs_queue.specs.Calls.{PassesSend, send_to};

use super::Core;
use crate::handling::Handling;
use sim_clock::Refusal;
use sqs_message::{Body, Detail, Row, RowAnswer, RowKind, Text};
use sqs_queue::Queue;
use sqs_redrive::Sent;

/// Returns the error if the caller gets it as an answer. `Memory` and `CountLimit` end the site
/// instead: they are returned as the error.
pub fn told_refusal(refusal: Refusal) -> Result<Refusal, Refusal>
    ensures { IsReportedOrEnds refusal result }
{
    match refusal {
        Refusal::Memory => Err(Refusal::Memory),
        Refusal::CountLimit => Err(Refusal::CountLimit),
        _ => Ok(refusal),
    }
}

// A send. The inner error is one that the sender gets as its answer.
fn sent_by(
    queue: &mut Queue,
    now: u64,
    body: Body,
    delay: Option<u64>,
    group: Option<Text>,
    id: Option<Text>,
) -> Result<Result<Sent, Refusal>, Refusal>
    requires moment { now ≤ most_count }
    requires recent { IsRecent now queue.old }
    ensures sent { IfOk result (λ answer. send_to queue.old now body delay group id
        ≡ (answer, queue.new)) }
    ensures framed { IsFramed queue.old queue.new }
    ensures stops { IfErr result (StopsWhere (PassesSend queue.old now body delay group id)) }
{
    match queue.send(now, body, delay, group, id) {
        Ok(sent) => Ok(Ok(sent)),
        Err(refusal) => Ok(Err(told_refusal(refusal)?)),
    }
}

// The row of a send of a body with this MD5.
fn send_row(
    handling: &Handling<'_>,
    site: u32,
    digest: [u8; 16],
    answer: Result<Sent, Refusal>,
) -> Row
    ensures { (c : Core) (body : List ℕ) → number_of c ≡ site → digest ≡ md5 body
        → result ≡ the_send_row handling.now.key handling.now.agent c body answer }
{
    let (answer, message, detail) = match answer {
        Ok(Sent::New(id)) => (RowAnswer::New, Some(id), Detail::Digest(digest)),
        Ok(Sent::Repeat(id)) => (RowAnswer::Repeat, Some(id), Detail::Digest(digest)),
        Err(refusal) => (RowAnswer::Refused(refusal), None, Detail::Absent),
    };
    handling.row(site, RowKind::Send, answer, message, detail)
}

impl Core {
    /// An actor sends a message, delayed by `delay` seconds or else by the queue's delay, in a
    /// message group and with a deduplication id, if it gives them.
    #[tactic(auto, unfolding(sqs_model::specs::Acts::act_made))]
    pub fn send(
        &mut self,
        handling: &mut Handling<'_>,
        body: Body,
        delay: Option<u64>,
        group: Option<Text>,
        id: Option<Text>,
    ) -> Result<(), Refusal>
        requires recent { IsRecent handling.old.key.at self.old.queue }
        ensures { DoesAct result handling.old handling.new self.old self.new
            (acts.Send body delay group id) }
    {
        let site = self.queue.site();
        let digest = body.md5();
        let answer = sent_by(&mut self.queue, handling.key.at, body, delay, group, id)?;
        let row = send_row(handling, site, digest, answer);
        handling.effects.say(row)?;
        Ok(())
    }
}
