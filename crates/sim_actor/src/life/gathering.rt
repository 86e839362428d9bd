//! How a consumer gathers messages before it serves them.
ghost use Rattle.std.specs.Prelude.{◌≡◌, ◌≤◌, ◌||◌, nat_le};
ghost use Rattle.sqs_model.specs.declared.agents.ActorSettings.{ActorSettings};
ghost use Rattle.sqs_model.specs.Actor.{adds_to_batch, asks_again as the_asks_again, asks_for_more as the_asks_for_more, begins_batch, gathers_on, is_gathered as the_is_gathered, is_gathering as the_is_gathering, rest_after as the_rest_after};
ghost use Rattle.sqs_model.specs.Answers.{most_count};
ghost use Rattle.sqs_model.specs.Valid.{IsConsumer};
ghost use Rattle.sim_actor.specs.Lives.{DoesNothing, Lives, last_act_of, lived, serves_batch};

use super::{LastAct, Life, has_come};
use crate::holding::Holding;
use sim_clock::Refusal;
use sqs_model::{Act, ConsumerSettings};
use sqs_redrive::Got;

/// The most messages that one service may be of: no queue has more in flight.
const MOST_SERVED: u64 = 120_000;

// Whether a consumer gathers messages, by its last act.
pub(crate) fn is_gathering(last_act: LastAct) -> bool
    ensures { result ≡ the_is_gathering (last_act_of last_act) }
{
    matches!(last_act, LastAct::Gathered)
}

// How long a consumer that gathers rests after a receive that gave these messages.
fn rest_after(idle: u64, messages: &[Got]) -> u64
    ensures after { result ≡ the_rest_after idle messages.now }
    ensures most { result ≤ idle }
{
    if messages.is_empty() { idle } else { 0 }
}

// Whether messages are a whole batch, or the time to gather them is over.
fn is_ready(held: u64, batch: u64, ends: u64, now: u64) -> bool
    ensures { result ≡ (nat_le batch held || nat_le ends now) }
{
    held >= batch || ends <= now
}

impl Life {
    // When a consumer that gathers messages would ask again, after a while.
    fn asks_again(&self, now: u64, after: u64) -> u64
        requires moment { now ≤ most_count }
        requires pause { after ≤ most_count }
        ensures { (s : ActorSettings) → result ≡ the_asks_again (lived s self.now) now after }
    {
        self.ends.min(now + after).max(now + 1)
    }

    // Whether it gathers no more messages: it holds a whole batch, its time is over, or it stops
    // before it would ask again.
    fn is_gathered(&self, consumer: &ConsumerSettings, now: u64, after: u64) -> bool
        requires moment { now ≤ most_count }
        requires pause { after ≤ most_count }
        ensures { (s : ActorSettings) → result ≡ the_is_gathered (lived s self.now) consumer.now
            now after }
    {
        let held = self.holding.held_count() as u64;
        if is_ready(held, consumer.batch, self.ends, now) {
            return true;
        }
        has_come(consumer.stop, self.asks_again(now, after))
    }

    // Begins to serve the messages that it holds, or wakes after a while to ask for more. Returns
    // `Memory` if it holds more of them than one service may be of.
    #[inline(never)]
    pub(crate) fn gather(
        &mut self,
        consumer: &ConsumerSettings,
        now: u64,
        after: u64,
    ) -> Result<(), Refusal>
        requires moment { now ≤ most_count }
        requires pause { after ≤ most_count }
        requires consumer { IsConsumer consumer.now }
        ensures decision { Lives DoesNothing result self.old self.new
            (λ a. (Act.Nothing, gathers_on a consumer.now now after)) }
        ensures framed { self.new.number ≡ self.old.number }
    {
        if !self.is_gathered(consumer, now, after) {
            self.wake = Some(self.asks_again(now, after));
            self.last_act = LastAct::Gathered;
            return Ok(());
        }
        self.serve_batch(consumer, now)
    }

    // Begins to serve the messages that it holds. Returns `Memory` if they are more than one
    // service may be of.
    #[inline(always)]
    fn serve_batch(&mut self, consumer: &ConsumerSettings, now: u64) -> Result<(), Refusal>
        requires moment { now ≤ most_count }
        requires consumer { IsConsumer consumer.now }
        ensures decision { Lives DoesNothing result self.old self.new (serves_batch consumer.now now) }
        ensures framed { self.new.number ≡ self.old.number }
    {
        let messages = self.holding.held_count() as u64;
        if messages > MOST_SERVED {
            return Err(Refusal::Memory);
        }
        self.last_act = LastAct::Ended;
        self.begin(consumer, now, messages)
    }

    // Takes the first messages of a batch, and begins to serve them or gathers more. Without a time
    // to gather it serves them.
    pub(crate) fn gather_first(
        &mut self,
        consumer: &ConsumerSettings,
        now: u64,
        messages: Vec<Got>,
    ) -> Result<(), Refusal>
        requires moment { now ≤ most_count }
        requires consumer { IsConsumer consumer.now }
        ensures decision { Lives DoesNothing result self.old self.new
            (λ a. begins_batch a consumer.now now messages.items) }
        ensures framed { self.new.number ≡ self.old.number }
    {
        self.holding = Holding::of(messages);
        self.ends = now + consumer.gather;
        if consumer.gather == 0 {
            return self.serve_batch(consumer, now);
        }
        self.gather(consumer, now, 0)
    }

    // Takes what a receive gave while it gathers, and begins to serve all or gathers more.
    pub(crate) fn gather_more(
        &mut self,
        messages: Vec<Got>,
        consumer: &ConsumerSettings,
        now: u64,
    ) -> Result<(), Refusal>
        requires consumer { IsConsumer consumer.now }
        requires moment { now ≤ most_count }
        ensures decision { Lives DoesNothing result self.old self.new
            (λ a. adds_to_batch a.held a consumer.now now messages.items) }
        ensures framed { self.new.number ≡ self.old.number }
    {
        let after = rest_after(consumer.idle, messages.as_slice());
        self.holding.append(messages)?;
        self.gather(consumer, now, after)
    }

    // Asks for the messages that its batch lacks, and waits no longer than it gathers.
    pub(crate) fn ask_for_more(&self, consumer: &ConsumerSettings, now: u64) -> Act
        ensures { (s : ActorSettings) → the_asks_for_more (lived s self.now) consumer.now now
            ≡ (result, lived s self.now) }
    {
        let held = self.holding.held_count() as u64;
        let left = self.ends.saturating_sub(now) / 1000;
        Act::Receive {
            max: consumer.batch.saturating_sub(held),
            wait: consumer.wait.min(left),
            timeout: consumer.timeout,
        }
    }
}
