//! The calls of a FIFO queue that depend on its kind: its sends, with their groups and
//! deduplication, its deletes, and the arrival of transfers.
ghost use Rattle.std.specs.Prelude.{◌≡◌, ◌⊎◌, ◌<◌, ◌≤◌, Err, IfErr, IfOk, OnErr, OnOk};
ghost use Rattle.sqs_model.specs.Answers.{most_count};
ghost use Rattle.sqs_model.specs.Arrive.{arrived};
ghost use Rattle.sqs_model.specs.Calls.{body_digest, deduplication_id, delete_fifo, send_in};
ghost use Rattle.sqs_model.specs.Progress.{IsRecent};
ghost use Rattle.sqs_model.specs.Queue.{IsFramed};
ghost use Rattle.sqs_model.specs.Valid.{IsFifo};
ghost use Rattle.sqs_queue.specs.Calls.{MeetsArrival, MeetsOneMore, MeetsSend, PassesSend};
ghost use Rattle.sqs_queue.specs.Fifo.{compares_bodies, scope_in, send_scoped, PassesScoped};

use super::Queue;
use crate::places::is_out;
use sim_clock::Refusal;
use sqs_dedup::ScopedId;
use sqs_message::{Body, MessageId, Receipt, Text, body_sha256};
use sqs_model::MOST_COUNT;
use sqs_redrive::{Deleted, Kind, Load, Scope, Sent};
use std::alloc::{AllocError, Global};

// The deduplication id of a body: its SHA-256 in hexadecimal.
fn digest_of(alloc: Global, body: &Body) -> Result<Text, AllocError>
    ensures { IfOk result (λ digest. digest ≡ body_digest body.now) }
{
    let text = body.text(alloc)?;
    let digest = hex::encode(alloc, body_sha256(text.as_bytes()))?;
    Ok(Text::new(digest.into_bytes()))
}

// The deduplication id of a send: the sender's, or else, if bodies are compared, that of the body.
fn deduplication_id(
    alloc: Global,
    content: bool,
    body: &Body,
    id: Option<Text>,
) -> Result<Option<Text>, AllocError>
    ensures { IfOk result (λ found. found ≡ deduplication_id content body.now id) }
{
    match id {
        Some(id) => Ok(Some(id)),
        None => {
            if content {
                Ok(Some(digest_of(alloc, body)?))
            } else {
                Ok(None)
            }
        }
    }
}

impl Queue {
    // Whether the body replaces an absent deduplication id.
    fn compares_bodies(&self) -> bool
        ensures { result ≡ compares_bodies self.now.settings.kind }
    {
        match self.messages.settings().kind {
            Kind::Standard { .. } => false,
            Kind::Fifo { content_dedup, .. } => content_dedup,
        }
    }

    // The scope of the deduplication ids of a group.
    fn scope_of(&self, group: &Text) -> Result<Option<Text>, AllocError>
        ensures { IfOk result (λ scope. scope ≡ scope_in self.now.settings.kind group.now) }
    {
        match self.messages.settings().kind {
            Kind::Fifo {
                scope: Scope::Group,
                ..
            } => Ok(Some(group.copy(self.alloc)?)),
            _ => Ok(None),
        }
    }

    /// A send to a FIFO queue. It adds a message with this body in a message group, with the
    /// queue's delay, and its deduplication entry; or it is a repeat, which adds nothing. The
    /// errors are those of `send`.
    pub fn send_fifo(
        &mut self,
        now: u64,
        body: Body,
        group: Option<Text>,
        id: Option<Text>,
        delay: Option<u64>,
    ) -> Result<Sent, Refusal>
        requires kind { IsFifo self.old.settings.kind }
        requires moment { now ≤ most_count }
        requires recent { IsRecent now self.old }
        ensures answer { MeetsSend self.old result self.new now body delay group id }
        ensures at_limit { result ≡ Err Refusal.CountLimit
            → PassesSend self.old now body delay group id }
        ensures counted { OnOk result ((self.old.arrivals < most_count) ⊎ (self.new ≡ self.old)) }
        ensures unchanged { OnErr result (self.new ≡ self.old) }
        ensures recent { IsRecent now self.new }
        ensures framed { IsFramed self.old self.new }
    {
        if delay.unwrap_or(0) > 0 {
            return Err(Refusal::BadDelay);
        }
        let Some(group) = group else {
            return Err(Refusal::MissingGroup);
        };
        let Some(id) = deduplication_id(self.alloc, self.compares_bodies(), &body, id)? else {
            return Err(Refusal::MissingDeduplication);
        };
        self.send_in(now, body, group, id)
    }

    // A send with a group and a deduplication id.
    fn send_in(&mut self, now: u64, body: Body, group: Text, id: Text) -> Result<Sent, Refusal>
        requires moment { now ≤ most_count }
        requires recent { IsRecent now self.old }
        ensures answer { MeetsOneMore self.old result self.new
            (send_scoped self.old now body group id) }
        ensures counted { OnOk result ((self.old.arrivals < most_count) ⊎ (self.new ≡ self.old)) }
        ensures unchanged { OnErr result (self.new ≡ self.old) }
        ensures at_limit { result ≡ Err Refusal.CountLimit
            → PassesScoped self.old now body group id }
        ensures refused { IfErr result
            (λ refusal. (refusal ≡ Refusal.CountLimit) ⊎ (refusal ≡ Refusal.Memory)) }
        ensures recent { IsRecent now self.new }
        ensures framed { IsFramed self.old self.new }
    {
        let key = ScopedId {
            scope: self.scope_of(&group)?,
            id,
        };
        if let Some(number) = self.entries.living(now, &key) {
            return Ok(Sent::Repeat(MessageId {
                site: self.messages.site(),
                number,
            }));
        }
        let number = self.messages.arrivals();
        if number == MOST_COUNT {
            return Err(Refusal::CountLimit);
        }
        let delay = self.messages.settings().delay;
        let message = self.next_message(now, body, Some(group), delay);
        self.messages
            .push_once(message, &mut self.entries, now, key)?;
        Ok(Sent::New(MessageId {
            site: self.messages.site(),
            number,
        }))
    }

    /// A delete at a FIFO queue: a message in flight leaves by its newest receipt, and by no other.
    /// The errors are those of `delete`.
    pub fn delete_fifo(&mut self, now: u64, receipt: &Receipt) -> Result<Deleted, Refusal>
        ensures answer { delete_fifo self.old now receipt.now ≡ (result, self.new) }
        ensures kept { self.new.entries ≡ self.old.entries }
        ensures framed { IsFramed self.old self.new }
    {
        if !self.may_be_given(receipt) {
            return Err(Refusal::ReceiptHandleIsInvalid);
        }
        let Some(message) = self.messages.find(receipt.number) else {
            return self.delete_gone(receipt);
        };
        if receipt.count != message.receives || !is_out(message) {
            return Err(Refusal::ReceiptHandleIsInvalid);
        }
        Ok(Deleted::Removed(self.expire(now, receipt.number)))
    }

    /// A transfer arrives at a FIFO queue. A dead letter and a message of a move task are enqueued
    /// now. A forward is a send in the served message's group, with its id text as deduplication
    /// id. The errors are those of `arrive`.
    pub fn arrive_fifo(&mut self, now: u64, load: Load) -> Result<(Sent, bool), Refusal>
        requires kind { IsFifo self.old.settings.kind }
        requires moment { now ≤ most_count }
        requires recent { IsRecent now self.old }
        ensures answer { MeetsArrival self.old result self.new now load }
        ensures at_limit { result ≡ Err Refusal.CountLimit
            → most_count < (arrived self.old now load).1.arrivals }
        ensures counted { OnOk result ((self.old.arrivals < most_count) ⊎ (self.new ≡ self.old)) }
        ensures unchanged { OnErr result (self.new ≡ self.old) }
        ensures recent { IsRecent now self.new }
        ensures framed { IsFramed self.old self.new }
    {
        match load {
            Load::Redrive {
                id,
                origin,
                body,
                group,
                enqueued: _,
            } => self.bring(now, origin, body, group, now, Some(id.site)),
            Load::Move {
                id: _,
                origin,
                body,
                group,
            } => self.bring(now, origin, body, group, now, None),
            Load::Forward { id, body, group } => {
                let id = Text::new(id.text(self.alloc)?.into_bytes());
                let group = match group {
                    None => Text::new(Vec::new(self.alloc)),
                    Some(group) => group,
                };
                let sent = self.send_in(now, body, group, id)?;
                Ok((sent, false))
            }
        }
    }
}
