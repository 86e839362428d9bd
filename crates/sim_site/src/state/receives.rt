//! Receives by actors.
ghost use Rattle.std.specs.Prelude.{Err, IfErr, IfOk, None, OnErr, length, true, ◌-◌, ◌<◌, ◌^◌, ◌≡◌, ◌≤◌};
ghost use Rattle.sqs_model.specs.declared.acts.Act.TheVariants as acts;
ghost use Rattle.sqs_model.specs.Acts.{receive_row as the_receive_row, hosts_from as the_hosts_from, long_poll, receive_as, receive_none, receive_some, short_poll};
ghost use Rattle.sqs_model.specs.Answers.{most_count};
ghost use Rattle.sqs_model.specs.Queue.{IsFramed};
ghost use Rattle.sqs_model.specs.Receive.{receive};
ghost use Rattle.sqs_model.specs.Site.{Core, number_of};
ghost use Rattle.sqs_model.specs.Valid.{IsQueueSettings, IsStandard, MayBeTimeout};
ghost use Rattle.sqs_redrive.specs.Received.{most_received};
ghost use Rattle.sqs_model.specs.Receive.{to_give};
ghost use Rattle.sim_site.specs.Effects.{Makes, MakesAct};
ghost use Rattle.sim_engine.specs.Limits.{StopsWhere};
ghost use Rattle.sim_site.specs.Kept.{IsHostCount, IsShortRefusal, MaySample, most_wait};
ghost use Rattle.sqs_redrive.specs.declared.settings.Kind.TheVariants.{Standard};
ghost use Rattle.sqs_queue.specs.Calls.{PassesReceive};
ghost use Rattle.sim_site.specs.Reading.{gots_of};

use super::Core;
use super::sends::told_refusal;
use crate::agents::Poll;
use crate::handling::Handling;
use sim_actor::Reply;
use sim_clock::Refusal;
use sqs_message::{Detail, Row, RowAnswer, RowKind};
use sqs_model::{LONGEST_TIMEOUT, MOST_COUNT};
use sqs_queue::Queue;
use sqs_redrive::{Batch, Got, Kind};

// The hosts that a short poll samples, as bits: `sampled` of them from a first one on, continuing
// at the first host after the last.
fn hosts_from(hosts: u64, sampled: u64, start: u64) -> u16
    requires hosts { MaySample hosts sampled }
    requires start { start < hosts }
    ensures { result ≡ the_hosts_from hosts sampled start }
{
    let mut set = 0u32;
    for i in 0..sampled {
        set += 1 << ((start + i) % hosts);
    }
    set as u16
}

// The set of all hosts.
pub fn all_hosts_of(hosts: u64) -> u16
    requires { hosts ≤ 16 }
    ensures { result ≡ 2 ^ hosts - 1 }
{
    ((1u32 << hosts) - 1) as u16
}

// The error of a short poll, if it has one.
fn short_refusal(queue: &Queue, timeout: Option<u64>) -> Option<Refusal>
    ensures { IsShortRefusal queue.now timeout result }
{
    if let Some(seconds) = timeout {
        if seconds > LONGEST_TIMEOUT {
            return Some(Refusal::BadTimeout);
        }
    }
    if queue.settings().in_flight_limit <= queue.counts().in_flight {
        return Some(Refusal::OverLimit);
    }
    None
}

// A receive. The inner error is one that the actor gets as its answer.
pub fn received_by(
    queue: &mut Queue,
    now: u64,
    max: u64,
    timeout: Option<u64>,
    hosts: u16,
    short: bool,
) -> Result<Result<Vec<Got>, Refusal>, Refusal>
    requires moment { now ≤ most_count }
    requires settings { IsQueueSettings queue.old.settings }
    requires short { short ≡ true → IsStandard queue.old.settings.kind }
    ensures received { IfOk result (λ r. receive queue.old now max timeout hosts short
        ≡ (gots_of r, queue.new)) }
    ensures unchanged { IfOk result (λ answer. OnErr answer (queue.new ≡ queue.old)) }
    ensures allowed { IfOk result (λ answer. IfOk answer (λ _. MayBeTimeout timeout)) }
    ensures few { IfOk result (λ answer. IfOk answer
        (λ gots. length gots.items ≤ most_received)) }
    ensures framed { IsFramed queue.old queue.new }
    ensures stops { IfErr result (StopsWhere
        (PassesReceive queue.old now max timeout hosts short)) }
{
    match queue.receive(now, max, timeout, hosts, short) {
        Ok(received) => Ok(Ok(received.messages)),
        Err(refusal) => Ok(Err(told_refusal(refusal)?)),
    }
}

// The row of a receive that got no message.
pub fn receive_row(handling: &Handling<'_>, site: u32, answer: RowAnswer) -> Row
    ensures { (c : Core) → number_of c ≡ site
        → result ≡ the_receive_row handling.now.key c handling.now.agent answer }
{
    handling.row(site, RowKind::Receive, answer, None, Detail::Absent)
}

impl Core {
    // A receive that finds nothing. It is empty, or waits if it is a long poll.
    fn receive_none(
        &mut self,
        handling: &mut Handling<'_>,
        max: u64,
        wait: u64,
        timeout: Option<u64>,
    ) -> Result<Reply, Refusal>
        requires allowed { MayBeTimeout timeout }
        requires wait { wait ≤ most_wait }
        ensures { Makes result handling.old handling.new self.old self.new
            (λ k a c. receive_none k a c max wait timeout) }
    {
        let site = self.queue.site();
        if wait == 0 {
            let row = receive_row(handling, site, RowAnswer::Empty);
            handling.effects.say(row)?;
            return Ok(Reply::Got(Batch::new(Vec::new(self.alloc))));
        }
        let agent = handling.agent;
        let Some(place) = self.actors.place_of(agent) else {
            return Ok(Reply::Waiting);
        };
        let row = receive_row(handling, site, RowAnswer::Wait);
        handling.effects.say(row)?;
        let number = self.actors.polled_at(place, agent)?;
        let poll = Poll {
            actor: agent,
            number,
            max,
            timeout,
            end: handling.key.at + 1000 * wait,
        };
        self.polls.push(poll)?;
        Ok(Reply::Waiting)
    }

    // The outcome of a receive, which may have found nothing. What it gave has left the queue
    // already.
    #[inline(always)]
    fn receive_some(
        &mut self,
        handling: &mut Handling<'_>,
        max: u64,
        wait: u64,
        timeout: Option<u64>,
        gots: Vec<Got>,
    ) -> Result<Reply, Refusal>
        requires allowed { MayBeTimeout timeout }
        requires wait { wait ≤ most_wait }
        requires few { length gots.items ≤ most_received }
        ensures { Makes result handling.old handling.new self.old self.new
            (λ k a c. receive_some k a c max wait timeout c.queue gots.items) }
    {
        if gots.is_empty() {
            return self.receive_none(handling, max, wait, timeout);
        }
        self.give(handling, timeout, gots.as_slice())?;
        Ok(Reply::Got(Batch::new(gots)))
    }

    // A short poll, from a first host that is drawn. If it is refused, it draws no word.
    fn short_poll(
        &mut self,
        handling: &mut Handling<'_>,
        max: u64,
        timeout: Option<u64>,
        hosts: u64,
        sampled: u64,
    ) -> Result<Reply, Refusal>
        requires hosts { MaySample hosts sampled }
        requires standard { IsStandard self.old.queue.settings.kind }
        ensures { Makes result handling.old handling.new self.old self.new (λ k a c. receive_as
            (Standard hosts sampled) k a c max 0 timeout) }
    {
        let site = self.queue.site();
        if let Some(refusal) = short_refusal(&self.queue, timeout) {
            let row = receive_row(handling, site, RowAnswer::Refused(refusal));
            handling.effects.say(row)?;
            return Ok(Reply::Other);
        }
        if self.draws.taken() >= MOST_COUNT {
            return Err(Refusal::CountLimit);
        }
        let start = self.draws.uniform(0, hosts - 1);
        let set = hosts_from(hosts, sampled, start);
        match received_by(&mut self.queue, handling.key.at, max, timeout, set, true)? {
            Ok(gots) => self.receive_some(handling, max, 0, timeout, gots),
            Err(_) => unreachable!(),
        }
    }

    // A receive that sees all hosts.
    #[inline(always)]
    fn long_poll(
        &mut self,
        handling: &mut Handling<'_>,
        max: u64,
        wait: u64,
        timeout: Option<u64>,
        hosts: u64,
    ) -> Result<Reply, Refusal>
        requires wait { wait ≤ most_wait }
        requires hosts { IsHostCount self.old.queue.settings.kind hosts }
        ensures { Makes result handling.old handling.new self.old self.new
            (λ k a c. long_poll k a c max wait timeout) }
    {
        let site = self.queue.site();
        let set = all_hosts_of(hosts);
        match received_by(&mut self.queue, handling.key.at, max, timeout, set, false)? {
            Ok(gots) => self.receive_some(handling, max, wait, timeout, gots),
            Err(refusal) => {
                let row = receive_row(handling, site, RowAnswer::Refused(refusal));
                handling.effects.say(row)?;
                Ok(Reply::Other)
            }
        }
    }

    /// An actor receives at most `max` messages.
    #[tactic(auto, unfolding(sqs_model::specs::Acts::act_made))]
    pub fn receive(
        &mut self,
        handling: &mut Handling<'_>,
        max: u64,
        wait: u64,
        timeout: Option<u64>,
    ) -> Result<Reply, Refusal>
        requires { wait ≤ most_wait }
        ensures { MakesAct result handling.old handling.new self.old self.new
            (acts.Receive max wait timeout) }
    {
        match self.queue.settings().kind {
            Kind::Standard { hosts, sampled } => {
                if wait == 0 {
                    return self.short_poll(handling, max, timeout, hosts, sampled);
                }
                self.long_poll(handling, max, wait, timeout, hosts)
            }
            // It has no short polls. It gives whatever hosts are seen, as if all messages were on
            // one.
            Kind::Fifo { .. } => self.long_poll(handling, max, wait, timeout, 1),
        }
    }
}
