//! What a consumer forwards.
ghost use Rattle.std.specs.Prelude.{◌≡◌, ◌<◌, ◌≤◌, ◌+◌, ◌↔◌, [], IfOk, OnOk, length, true, vec_capacity, vec_len};
ghost use Rattle.sqs_model.specs.Answers.{most_count};
ghost use Rattle.sqs_model.specs.Valid.{IsForwarding, IsLatency};
ghost use Rattle.sim_actor.specs.Lives.{Forwards, HasRoom, SendsOne, SendsAll, load_of};

use super::Life;
use sim_clock::Refusal;
use sqs_message::{Listed, Text};
use sqs_model::{Forwarding, MOST_COUNT};
use sqs_redrive::{Got, Latency, Load, Outbound};
use std::alloc::{AllocError, Global};
use std::mem;

// The load of a forward of a message, which keeps its own.
fn copied_load(alloc: Global, got: &Got) -> Result<Load, AllocError>
    ensures { IfOk result (λ load. load ≡ load_of got.now) }
{
    Ok(Load::Forward {
        id: got.id,
        body: got.body.copy()?,
        group: Text::copy_of(alloc, got.group.as_ref())?,
    })
}

// No transfer, with memory for one: that of a list that is not used any more.
#[inline(always)]
fn emptied(mut room: Vec<Outbound>) -> Result<Vec<Outbound>, AllocError>
    ensures none { IfOk result (λ sent. sent.items ≡ []) }
    ensures room { IfOk result (λ sent. vec_len sent < vec_capacity sent) }
{
    room.clear();
    room.reserve(1)?;
    Ok(room)
}

impl Life {
    // Takes the memory for transfers.
    #[inline(always)]
    fn take_room(&mut self) -> Vec<Outbound>
        ensures { self.new ≡ self.old }
    {
        mem::replace(&mut self.transfer_room, Vec::new(self.alloc))
    }

    // Whether it can count so many transfers more, and the words of their latencies.
    fn has_room(&self, transfers: u64, latency: Latency) -> bool
        requires { transfers ≤ 10 }
        ensures { (result ≡ true) ↔ HasRoom transfers latency self.now }
    {
        let varies = latency.least < latency.greatest;
        self.sent + transfers <= MOST_COUNT
            && (!varies || self.draws.taken() + transfers <= MOST_COUNT)
    }

    // Sends a load to a queue.
    #[inline(always)]
    fn send_to(&mut self, home: u32, now: u64, load: Load, to: u32, latency: Latency) -> Outbound
        requires moment { now ≤ most_count }
        requires latency { IsLatency latency }
        requires room { HasRoom 1 latency self.old }
        ensures sent { SendsOne home now load to latency result self.old self.new }
        ensures framed { self.new.number ≡ self.old.number }
    {
        let at = now + self.draws.between(latency.least, latency.greatest);
        let number = self.sent;
        self.sent += 1;
        Outbound {
            at,
            sender: self.number,
            number,
            from: home,
            to,
            load,
        }
    }

    // Sends a message that it served to some queues, one after another.
    fn send_to_all(
        &mut self,
        home: u32,
        now: u64,
        got: &Got,
        forwarding: &Forwarding,
    ) -> Result<Vec<Outbound>, AllocError>
        requires moment { now ≤ most_count }
        requires forwarding { IsForwarding forwarding.now }
        requires room { HasRoom (length forwarding.now.to) forwarding.now.latency self.old }
        ensures sent { IfOk result (λ sent. SendsAll home now got.now forwarding.now sent.items
            self.old self.new) }
        ensures framed { self.new.number ≡ self.old.number }
    {
        let queues = forwarding.to.as_slice();
        let mut sent = Vec::with_capacity(self.alloc, queues.len())?;
        for to in queues {
            let load = copied_load(self.alloc, got)?;
            sent.push(self.send_to(home, now, load, *to, forwarding.latency))?;
        }
        Ok(sent)
    }

    /// Forwards a message that it served.
    ///
    /// # Errors
    ///
    /// `CountLimit` exactly if it would count past the limit, and `Memory`.
    #[inline(always)]
    pub(crate) fn forward(
        &mut self,
        home: u32,
        now: u64,
        got: Got,
        forwarding: &Forwarding,
    ) -> Result<Listed<Outbound>, Refusal>
        requires moment { now ≤ most_count }
        requires forwarding { IsForwarding forwarding.now }
        ensures sent { Forwards home now got forwarding.now result self.old self.new }
        ensures framed { self.new.number ≡ self.old.number }
    {
        // The type's invariant says that its counts are within the limit.
        let _ = &self.wakes;
        let queues = forwarding.to.as_slice();
        if !self.has_room(queues.len() as u64, forwarding.latency) {
            return Err(Refusal::CountLimit);
        }
        if queues.len() > 1 {
            let sent = self.send_to_all(home, now, &got, forwarding)?;
            return Ok(Listed::new(sent));
        }
        let load = Load::Forward {
            id: got.id,
            body: got.body,
            group: got.group,
        };
        let mut sent = emptied(self.take_room())?;
        // There is room for it, so it is made where it stays.
        sent.push_reserved(self.send_to(home, now, load, queues[0], forwarding.latency));
        Ok(Listed::new(sent))
    }
}
