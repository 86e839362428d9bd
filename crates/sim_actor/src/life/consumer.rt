//! What a consumer does.
ghost use Rattle.std.specs.Option.{option_copied};
ghost use Rattle.std.specs.Prelude.{◌≡◌, ◌<◌, ◌≤◌, ◌+◌, ℕ, [], All, Ok, Some, false, if◌then◌else◌, max};
ghost use Rattle.sqs_message.specs.Ids.{receipt_text};
ghost use Rattle.sqs_model.specs.declared.agents.ActorSettings.{ActorSettings};
ghost use Rattle.sqs_model.specs.declared.agents.Serving.TheVariants.{Each, Once};
ghost use Rattle.sqs_model.specs.Actor.{woken, idle as the_idle, serving as the_serving, serves as the_serves, settles as the_settles, fails_service as the_fails_service, backs_off as the_backs_off, backoff_at as the_backoff_at, goes_on as the_goes_on, drawn_failure, has_failed as the_has_failed, outcome as the_outcome, rests as the_rests, consumer_wake as the_consumer_wake, consumer_got as the_consumer_got, consumer_told as the_consumer_told};
ghost use Rattle.sqs_model.specs.Answers.{most_count};
ghost use Rattle.sqs_model.specs.Longest.{longest_timeout};
ghost use Rattle.sqs_model.specs.Valid.{IsConsumer, MayBeForward};
ghost use Rattle.sqs_redrive.specs.Received.{most_received};
ghost use Rattle.sim_actor.specs.Lives.{Becomes, Changes, Decides, DecidesAt, DoesNothing, Drawn, EndsFirst, EndsThis, FollowsUp, Lived, lived, EndsAnywhere, begins_or_fails, begins_service, drawn_service, ends_all, ends_as, ends_held, ends_or_fails, in_service, Lives};

use super::failing::{failing, fails};
use super::gathering::is_gathering;
use super::{LastAct, Life, has_come};
use crate::replies::FollowUp;
use sim_clock::Refusal;
use sim_draw::Draws;
use sqs_message::{Listed, MessageId, Receipt, ReceiptHandle};
use sqs_model::{Act, ConsumerSettings, Forwarding, MOST_COUNT, Serving};
use sqs_redrive::{Batch, Got};

// The timeout in seconds that follows a failed service: the entry of the receive, or else the last.
fn backoff_at(timeouts: &[u64], count: u64) -> u64
    requires { All (λ s. s ≤ longest_timeout) timeouts.now }
    ensures timeout { result ≡ the_backoff_at timeouts.now count }
    ensures most { result ≤ longest_timeout }
{
    let index = count.min(timeouts.len() as u64).saturating_sub(1);
    timeouts.get(index as usize).copied().unwrap_or(0)
}

// Draws how long a service of so many messages takes, in milliseconds.
fn service_time(draws: &mut Draws, consumer: &ConsumerSettings, messages: u64) -> u64
    requires words { draws.old.taken ≤ most_count }
    requires consumer { IsConsumer consumer.now }
    requires messages { messages ≤ most_received }
    ensures drawn { drawn_service messages consumer.now draws.old ≡ (result, draws.new) }
    ensures most { result ≤ most_count }
{
    let time = draws.time(&consumer.service);
    match consumer.serving {
        Serving::Each => time,
        Serving::Once { each } => time + messages * each,
    }
}

// How long a service takes: so much time, or another if it fails.
fn time_by(failed: bool, time: u64, other: u64) -> u64
    ensures { result ≡ (if failed then other else time) }
{
    if failed { other } else { time }
}

// Whether a service goes on, of a consumer that has a heartbeat.
fn goes_on(heartbeat: Option<u64>, ends: u64, now: u64) -> bool
    ensures { result ≡ the_goes_on heartbeat ends now }
{
    heartbeat.is_some() && now < ends
}

impl Life {
    // Waits until it receives again.
    fn idle(&mut self, consumer: &ConsumerSettings, now: u64)
        requires moment { now ≤ most_count }
        requires consumer { IsConsumer consumer.now }
        ensures decision { Lived self.old self.new (λ a b. the_idle a consumer.now now ≡
            (Act.Nothing, b)) }
        ensures framed { self.new.number ≡ self.old.number }
    {
        self.wake = Some(now + consumer.idle);
    }

    // Serves until the service ends, or until its heartbeat before that.
    fn in_service(&mut self, consumer: &ConsumerSettings, now: u64)
        requires moment { now ≤ most_count }
        requires consumer { IsConsumer consumer.now }
        ensures { self.new ≡ in_service consumer.now now self.old }
    {
        let beat = match consumer.heartbeat {
            None => self.ends,
            Some(every) => self.ends.min(now + every),
        };
        self.wake = Some(beat.max(now + 1));
    }

    // Draws whether a service of the messages that it holds fails.
    #[inline(always)]
    fn draw_failure(&mut self, consumer: &ConsumerSettings, now: u64) -> bool
        requires words { self.old.draws.taken < most_count }
        ensures decision { drawn_failure consumer.now now self.old.held self.old.draws
            ≡ (result, self.new.draws) }
        ensures framed { self.new ≡ record self.old { draws = self.new.draws } }
    {
        let by_chance = self.draws.chance(failing(consumer, now));
        fails(consumer, &self.holding, by_chance)
    }

    // Begins a service that takes so much time, or another if it fails. It is decided now whether it
    // will fail. It is apart from services that decide this at their end, which nearly all are.
    #[cold]
    #[inline(never)]
    fn begin_decided(
        &mut self,
        consumer: &ConsumerSettings,
        now: u64,
        time: u64,
        other: u64,
    ) -> Result<(), Refusal>
        requires moment { now ≤ most_count }
        requires time { time ≤ most_count }
        requires other { other ≤ most_count }
        requires consumer { IsConsumer consumer.now }
        ensures life { Lived self.old self.new (λ a b. Becomes result b
            (begins_or_fails time other consumer.now now a)) }
        ensures framed { self.new.number ≡ self.old.number }
    {
        if self.draws.taken() == MOST_COUNT {
            return Err(Refusal::CountLimit);
        }
        self.will_fail = self.draw_failure(consumer, now);
        self.ends = now + time_by(self.will_fail, time, other);
        self.in_service(consumer, now);
        Ok(())
    }

    // Begins a service of so many messages.
    pub(crate) fn begin(
        &mut self,
        consumer: &ConsumerSettings,
        now: u64,
        messages: u64,
    ) -> Result<(), Refusal>
        requires moment { now ≤ most_count }
        requires messages { messages ≤ most_received }
        requires consumer { IsConsumer consumer.now }
        ensures life { Lived self.old self.new (λ a b. Becomes result b
            (begins_service messages consumer.now now a)) }
        ensures framed { self.new.number ≡ self.old.number }
    {
        if self.draws.taken() == MOST_COUNT {
            return Err(Refusal::CountLimit);
        }
        let time = service_time(&mut self.draws, consumer, messages);
        if let Some(other) = consumer.fail_service {
            return self.begin_decided(consumer, now, time, other);
        }
        self.ends = now + time;
        self.in_service(consumer, now);
        Ok(())
    }

    // Goes on with the first of the messages that it holds: begins to serve it, or ends its service
    // if it was served with those before it. If it holds none, it wakes 1 ms later.
    fn serve_held(&mut self, consumer: &ConsumerSettings, now: u64) -> Result<(), Refusal>
        requires moment { now ≤ most_count }
        requires consumer { IsConsumer consumer.now }
        ensures life { (s : ActorSettings) → Becomes result (lived s self.new)
            (the_serving (lived s self.old) consumer.now now self.old.held) }
        ensures framed { self.new.number ≡ self.old.number }
    {
        if self.holding.first().is_none() {
            self.wake = Some(now + 1);
            return Ok(());
        }
        match consumer.serving {
            Serving::Each => self.begin(consumer, now, 1),
            Serving::Once { .. } => {
                self.ends = now;
                self.in_service(consumer, now);
                Ok(())
            }
        }
    }

    // The end of a service, after which nothing is forwarded.
    #[inline(always)]
    fn ended(&self, id: MessageId, receipt: Receipt, failed: bool) -> Act
        ensures { result ≡ Act.Serve id receipt failed [] }
    {
        Act::Serve {
            id,
            receipt,
            failed,
            forwards: Listed::new(Vec::new(self.alloc)),
        }
    }

    // Ends a service well.
    #[inline(always)]
    fn serve(
        &mut self,
        home: u32,
        now: u64,
        got: Got,
        forwarding: Option<&Forwarding>,
    ) -> Result<Act, Refusal>
        requires moment { now ≤ most_count }
        requires forwarding { MayBeForward (option_copied forwarding) }
        ensures decision { DecidesAt home result self.old self.new
            (λ a. the_serves a now got (option_copied forwarding.entry)) }
        ensures framed { self.new.number ≡ self.old.number }
    {
        let (id, receipt) = (got.id, got.receipt);
        let Some(forwarding) = forwarding else {
            return Ok(self.ended(id, receipt, false));
        };
        let forwards = self.forward(home, now, got, forwarding)?;
        Ok(Act::Serve {
            id,
            receipt,
            failed: false,
            forwards,
        })
    }

    // A message that was served is forwarded and then deleted.
    #[inline(always)]
    fn settle(
        &mut self,
        consumer: &ConsumerSettings,
        home: u32,
        now: u64,
        got: Got,
    ) -> Result<Act, Refusal>
        requires moment { now ≤ most_count }
        requires consumer { IsConsumer consumer.now }
        ensures decision { DecidesAt home result self.old self.new
            (λ a. the_settles a consumer.now now got a.done) }
        ensures framed { self.new.number ≡ self.old.number }
    {
        self.last_act = LastAct::Served(got.receipt);
        self.serve(home, now, got, consumer.forward.as_ref())
    }

    // The first of the messages of a failed service gets another visibility timeout, in seconds,
    // which may be drawn.
    fn back_off(&mut self, consumer: &ConsumerSettings, got: &Got) -> Result<u64, Refusal>
        requires consumer { IsConsumer consumer.now }
        ensures decision { Lives (Changes got.now.receipt) result self.old self.new
            (λ a. the_backs_off a consumer.now got.now a.failed) }
        ensures framed { self.new.number ≡ self.old.number }
    {
        self.last_act = LastAct::Ended;
        let greatest = backoff_at(consumer.backoff.as_slice(), got.receipt.count);
        if !consumer.jitter {
            return Ok(greatest);
        }
        if self.draws.taken() == MOST_COUNT {
            return Err(Refusal::CountLimit);
        }
        Ok(self.draws.uniform(0, greatest))
    }

    // Ends a service that failed.
    fn fail_service(&mut self, consumer: &ConsumerSettings, id: MessageId, receipt: Receipt) -> Act
        ensures decision { EndsAnywhere id receipt result self.old self.new
            (λ a g. the_fails_service a consumer.now g) }
        ensures framed { self.new.number ≡ self.old.number }
    {
        self.last_act = LastAct::Failed;
        match (consumer.backoff.as_slice().is_empty(), consumer.whole) {
            (true, true) => self.holding.let_go(),
            (true, false) => self.holding.drop_held(),
            (false, true) => self.holding.fail_all(),
            (false, false) => self.holding.fail_first(),
        }
        self.ended(id, receipt, true)
    }

    // Ends a service of one message well, of a consumer whose receives end as a whole. It is apart
    // from services that end by themselves, which nearly all do.
    #[inline(never)]
    fn end_in_whole(
        &mut self,
        consumer: &ConsumerSettings,
        home: u32,
        now: u64,
        id: MessageId,
        receipt: Receipt,
    ) -> Result<Act, Refusal>
        requires moment { now ≤ most_count }
        requires consumer { IsConsumer consumer.now }
        ensures decision { EndsThis home id receipt result self.old self.new
            (ends_all Each consumer.now now) }
        ensures framed { self.new.number ≡ self.old.number }
    {
        self.holding.serve_first();
        if self.holding.first().is_some() {
            self.last_act = LastAct::Ended;
            return Ok(self.ended(id, receipt, false));
        }
        match self.holding.take_done() {
            None => Ok(Act::Nothing),
            Some(got) => self.settle(consumer, home, now, got),
        }
    }

    // Ends a service of all messages held well, of a consumer whose receives end as a whole.
    #[inline(never)]
    fn end_at_once(
        &mut self,
        consumer: &ConsumerSettings,
        home: u32,
        now: u64,
    ) -> Result<Act, Refusal>
        requires moment { now ≤ most_count }
        requires consumer { IsConsumer consumer.now }
        ensures decision { (each : ℕ) → EndsFirst home result self.old self.new
            (ends_all (Once each) consumer.now now) }
        ensures framed { self.new.number ≡ self.old.number }
    {
        match self.holding.serve_all() {
            None => Ok(Act::Nothing),
            Some(got) => self.settle(consumer, home, now, got),
        }
    }

    // The first message that it holds was served. It is forwarded, if the consumer forwards, and then
    // deleted.
    #[inline(never)]
    fn forward_held(
        &mut self,
        consumer: &ConsumerSettings,
        home: u32,
        now: u64,
    ) -> Result<Act, Refusal>
        requires moment { now ≤ most_count }
        requires consumer { IsConsumer consumer.now }
        ensures decision { EndsFirst home result self.old self.new
            (ends_held false consumer.now now) }
        ensures framed { self.new.number ≡ self.old.number }
    {
        match self.holding.take_held() {
            None => Ok(Act::Nothing),
            Some(got) => self.settle(consumer, home, now, got),
        }
    }

    // Ends a service well, of a consumer each of whose services ends by itself.
    #[inline(always)]
    fn settle_held(
        &mut self,
        consumer: &ConsumerSettings,
        home: u32,
        now: u64,
        id: MessageId,
        receipt: Receipt,
    ) -> Result<Act, Refusal>
        requires moment { now ≤ most_count }
        requires consumer { IsConsumer consumer.now }
        ensures decision { EndsThis home id receipt result self.old self.new
            (ends_held false consumer.now now) }
        ensures framed { self.new.number ≡ self.old.number }
    {
        if consumer.forward.is_none() {
            self.holding.drop_held();
            self.last_act = LastAct::Served(receipt);
            return Ok(self.ended(id, receipt, false));
        }
        self.forward_held(consumer, home, now)
    }

    // Ends the service of the first message that it holds, which failed or not.
    #[inline(always)]
    fn end_as(
        &mut self,
        consumer: &ConsumerSettings,
        home: u32,
        now: u64,
        failed: bool,
    ) -> Result<Act, Refusal>
        requires moment { now ≤ most_count }
        requires consumer { IsConsumer consumer.now }
        ensures decision { EndsFirst home result self.old self.new
            (ends_as failed consumer.now now) }
        ensures framed { self.new.number ≡ self.old.number }
    {
        let Some(got) = self.holding.first() else {
            return Ok(Act::Nothing);
        };
        let (id, receipt) = (got.id, got.receipt);
        if failed {
            return Ok(self.fail_service(consumer, id, receipt));
        }
        match (consumer.whole, consumer.serving) {
            (false, _) => self.settle_held(consumer, home, now, id, receipt),
            (true, Serving::Each) => self.end_in_whole(consumer, home, now, id, receipt),
            (true, Serving::Once { .. }) => self.end_at_once(consumer, home, now),
        }
    }

    // Whether the service that ends fails: as was decided when it began, or else drawn now.
    #[inline(always)]
    fn outcome(&mut self, consumer: &ConsumerSettings, now: u64) -> Result<bool, Refusal>
        ensures outcome { (s : ActorSettings) → Drawn result self.new.draws
            (the_outcome consumer.now.fail_service (lived s self.old) consumer.now now) }
        ensures framed { self.new ≡ record self.old { draws = self.new.draws } }
    {
        if consumer.fail_service.is_some() {
            return Ok(self.will_fail);
        }
        if self.draws.taken() == MOST_COUNT {
            return Err(Refusal::CountLimit);
        }
        Ok(self.draw_failure(consumer, now))
    }

    // Ends the service of the first message that it holds.
    #[inline(always)]
    fn end_service(
        &mut self,
        consumer: &ConsumerSettings,
        home: u32,
        now: u64,
    ) -> Result<Act, Refusal>
        requires moment { now ≤ most_count }
        requires consumer { IsConsumer consumer.now }
        ensures decision { EndsFirst home result self.old self.new
            (ends_or_fails consumer.now now) }
        ensures framed { self.new.number ≡ self.old.number }
    {
        let failed = self.outcome(consumer, now)?;
        self.end_as(consumer, home, now, failed)
    }

    // Asks for messages, until it stops.
    fn ask(&mut self, consumer: &ConsumerSettings, now: u64) -> Act
        ensures decision { Lived self.old self.new (λ a b. the_rests a consumer.now now [] [] ≡
            (result, b)) }
        ensures framed { self.new.number ≡ self.old.number }
    {
        if has_come(consumer.stop, now) {
            return Act::Nothing;
        }
        self.last_act = LastAct::Asked;
        Act::Receive {
            max: consumer.batch,
            wait: consumer.wait,
            timeout: consumer.timeout,
        }
    }

    // Without a message to serve it changes a visibility timeout, deletes a message, or asks for
    // messages until it stops.
    fn rest(&mut self, consumer: &ConsumerSettings, home: u32, now: u64) -> Result<Act, Refusal>
        requires moment { now ≤ most_count }
        requires consumer { IsConsumer consumer.now }
        ensures decision { (s : ActorSettings) → s.home ≡ home → Decides result (lived s self.new)
            (the_rests (lived s self.old) consumer.now now self.old.failed self.old.done) }
        ensures framed { self.new.number ≡ self.old.number }
    {
        if let Some(got) = self.holding.take_failed() {
            let timeout = self.back_off(consumer, &got)?;
            return Ok(Act::Change {
                receipt: ReceiptHandle::from(got.receipt),
                timeout,
            });
        }
        match self.holding.take_done() {
            None => Ok(self.ask(consumer, now)),
            Some(got) => self.settle(consumer, home, now, got),
        }
    }

    // A consumer's wake has come. While it serves, it sets the visibility timeout of the message
    // anew, or the service ends.
    #[inline(always)]
    pub(crate) fn consumer_wake(
        &mut self,
        consumer: &ConsumerSettings,
        home: u32,
        now: u64,
    ) -> Result<Act, Refusal>
        requires moment { now ≤ most_count }
        requires consumer { IsConsumer consumer.now }
        ensures decision { DecidesAt home result self.old self.new (λ a. the_consumer_wake
            (woken a) consumer.now now a.held) }
        ensures framed { self.new.number ≡ self.old.number }
    {
        if self.wakes == MOST_COUNT {
            return Err(Refusal::CountLimit);
        }
        self.count_wake();
        if self.holding.is_empty() {
            return Ok(self.ask(consumer, now));
        }
        let Some(got) = self.holding.first() else {
            return self.rest(consumer, home, now);
        };
        if is_gathering(self.last_act) {
            return Ok(self.ask_for_more(consumer, now));
        }
        if goes_on(consumer.heartbeat, self.ends, now) {
            let receipt = got.receipt;
            self.last_act = LastAct::Beat;
            return Ok(Act::Prolong {
                receipt: ReceiptHandle::from(receipt),
                timeout: consumer.timeout,
            });
        }
        self.end_service(consumer, home, now)
    }

    // Begins to serve the messages received, or gathers more. If it holds none, it waits until it
    // receives again.
    pub(crate) fn consumer_got(
        &mut self,
        consumer: &ConsumerSettings,
        now: u64,
        batch: Batch,
    ) -> Result<(), Refusal>
        requires moment { now ≤ most_count }
        requires consumer { IsConsumer consumer.now }
        ensures decision { Lives DoesNothing result self.old self.new
            (λ a. the_consumer_got a consumer.now now batch) }
        ensures framed { self.new.number ≡ self.old.number }
    {
        let messages = batch.into_vec();
        if self.holding.first().is_some() {
            return self.gather_more(messages, consumer, now);
        }
        if messages.is_empty() {
            self.idle(consumer, now);
            return Ok(());
        }
        self.gather_first(consumer, now, messages)
    }

    // After a refused receive it waits, after a service that ended well it deletes the message, and
    // else it serves the next message.
    pub(crate) fn consumer_told(
        &mut self,
        consumer: &ConsumerSettings,
        now: u64,
    ) -> Result<FollowUp, Refusal>
        requires moment { now ≤ most_count }
        requires consumer { IsConsumer consumer.now }
        ensures decision { (s : ActorSettings) → FollowsUp result (lived s self.new)
            (the_consumer_told (lived s self.old) consumer.now now self.old.last_act) }
        ensures framed { self.new.number ≡ self.old.number }
    {
        match self.last_act {
            LastAct::Asked => self.idle(consumer, now),
            LastAct::Gathered => self.gather(consumer, now, consumer.idle)?,
            LastAct::Served(receipt) => {
                self.last_act = LastAct::Ended;
                return Ok(FollowUp::Delete(receipt));
            }
            LastAct::Ended => self.serve_held(consumer, now)?,
            LastAct::Failed => return self.told_of_failure(consumer, now),
            LastAct::Beat => self.in_service(consumer, now),
            LastAct::Parked | LastAct::Decided { .. } | LastAct::Read { .. } => {}
        }
        Ok(FollowUp::Nothing)
    }

    // After a failed service the first of its messages gets another visibility timeout, if it is to
    // have one. Else it serves the next message.
    fn told_of_failure(
        &mut self,
        consumer: &ConsumerSettings,
        now: u64,
    ) -> Result<FollowUp, Refusal>
        requires moment { now ≤ most_count }
        requires consumer { IsConsumer consumer.now }
        ensures decision { (s : ActorSettings) → FollowsUp result (lived s self.new)
            (the_has_failed (lived s self.old) consumer.now now self.old.failed) }
        ensures framed { self.new.number ≡ self.old.number }
    {
        if let Some(got) = self.holding.take_failed() {
            let timeout = self.back_off(consumer, &got)?;
            return Ok(FollowUp::Change {
                receipt: got.receipt,
                timeout,
            });
        }
        self.serve_held(consumer, now)?;
        Ok(FollowUp::Nothing)
    }
}
