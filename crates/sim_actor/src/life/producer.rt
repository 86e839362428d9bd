//! The messages that a producer sends.
ghost use Rattle.std.specs.Prelude.{◌≡◌, ◌≤◌, ◌+◌, ◌%◌, ◌∷◌, ℕ, IfOk, OnErr};
ghost use Rattle.std.specs.Fmt.{decimal};
ghost use Rattle.sqs_model.specs.Actor.{group_of, id_given, producer_sent as the_producer_sent, producer_wake as the_producer_wake};
ghost use Rattle.sqs_model.specs.Answers.{most_count};
ghost use Rattle.sqs_model.specs.Draw.{Draws};
ghost use Rattle.sqs_model.specs.Valid.{IsProducer, MayBeGroups};
ghost use Rattle.sim_actor.specs.Lives.{DoesNothing, Meets, Lived};

use super::{Life, has_come};
use itoa::Buffer;
use sim_clock::Refusal;
use sim_draw::Draws;
use sqs_message::Text;
use sqs_model::{Act, Groups, MOST_COUNT, ProducerSettings};
use std::alloc::{AllocError, Global};

// The name of the group whose turn it is at message n.
fn group_in_turn(alloc: Global, groups: u64, n: u64) -> Result<Text, AllocError>
    ensures { IfOk result (λ group. group ≡ 103 ∷ decimal (n % groups)) }
{
    // A remainder by 0 is the number itself, as in the definitions.
    let turn = if groups == 0 { n } else { n % groups };
    let mut buffer = Buffer::new();
    let digits = buffer.format(turn);
    let mut name = Vec::with_capacity(alloc, 1 + digits.len())?;
    name.push(b'g')?;
    name.extend_from_slice(digits.as_bytes())?;
    Ok(Text::new(name))
}

// The deduplication id of message n of the producer with a number.
fn id(
    alloc: Global,
    producer: &ProducerSettings,
    number: u32,
    n: u64,
) -> Result<Option<Text>, AllocError>
    ensures { IfOk result (λ id. id ≡ id_given producer.now number n) }
{
    if !producer.ids {
        return Ok(None);
    }
    let (mut first, mut second) = (Buffer::new(), Buffer::new());
    let (first, second) = (first.format(number), second.format(n));
    let mut id = Vec::with_capacity(alloc, first.len() + 1 + second.len())?;
    id.extend_from_slice(first.as_bytes())?;
    id.push(b'-')?;
    id.extend_from_slice(second.as_bytes())?;
    Ok(Some(Text::new(id)))
}

// The number of words that the group of a message takes.
fn group_words(groups: &Option<Groups>) -> u64
    ensures words { (n : ℕ) (d : Draws) → (group_of groups.now n d).1.taken ≡ d.taken + result }
    ensures few { result ≤ 1 }
{
    match groups {
        None | Some(Groups::InTurn(_)) => 0,
        Some(Groups::ByWeight(_)) => 1,
    }
}

// The group of message n, if there are groups. If memory runs out, no word is taken.
fn group(
    alloc: Global,
    groups: &Option<Groups>,
    n: u64,
    draws: &mut Draws,
) -> Result<Option<Text>, AllocError>
    requires room { (group_of groups.now n draws.old).1.taken ≤ most_count }
    requires range { MayBeGroups groups.now }
    ensures drawn { IfOk result (λ group. group_of groups.now n draws.old ≡ (group, draws.new)) }
    ensures unchanged { OnErr result (draws.new ≡ draws.old) }
{
    match groups {
        None => Ok(None),
        Some(Groups::InTurn(groups)) => Ok(Some(group_in_turn(alloc, *groups, n)?)),
        Some(Groups::ByWeight(groups)) => {
            let group = draws.group(alloc, groups.as_slice())?;
            Ok(Some(Text::new(group)))
        }
    }
}

impl Life {
    // A producer's wake has come: it sends its next message, unless it stops.
    pub(crate) fn producer_wake(
        &mut self,
        producer: &ProducerSettings,
        now: u64,
    ) -> Result<Act, Refusal>
        requires producer { IsProducer producer.now }
        ensures decision { Lived self.old self.new (λ a b. Meets result a b
            (the_producer_wake a producer.now now)) }
        ensures framed { self.new.number ≡ self.old.number }
    {
        if self.wakes == MOST_COUNT {
            return Err(Refusal::CountLimit);
        }
        if has_come(producer.stop, now) {
            self.count_wake();
            return Ok(Act::Nothing);
        }
        if MOST_COUNT - self.draws.taken() < group_words(&producer.groups) {
            return Err(Refusal::CountLimit);
        }
        let left = producer.count.saturating_sub(self.wakes);
        let body = producer.body.body(self.wakes, left, &mut self.ahead)?;
        let id = id(self.alloc, producer, self.number, self.wakes)?;
        let group = group(self.alloc, &producer.groups, self.wakes, &mut self.draws)?;
        self.count_wake();
        Ok(Act::Send {
            body,
            delay: producer.delay,
            group,
            id,
        })
    }

    // After its send a producer wakes again, while there is a message to send.
    pub(crate) fn producer_sent(
        &mut self,
        producer: &ProducerSettings,
        now: u64,
    ) -> Result<(), Refusal>
        requires moment { now ≤ most_count }
        requires producer { IsProducer producer.now }
        ensures decision { Lived self.old self.new (λ a b. DoesNothing result b
            (the_producer_sent a producer.now now)) }
        ensures framed { self.new.number ≡ self.old.number }
    {
        if self.wakes >= producer.count {
            return Ok(());
        }
        self.wake_after(now, &producer.gap)
    }
}
