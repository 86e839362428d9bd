//! Lives of actors, step by step: the answers that they get and what they do.
ghost use Rattle.std.specs.Prelude.{◌<◌, ◌≤◌, length};
ghost use Rattle.sqs_model.specs.Valid.{AreGroups, IsConsumer, IsForwarding, IsLatency, IsScaler, MayBeFailService, MayBeGroups};
ghost use Rattle.sim_actor.specs.Lives.{IsRole};

use crate::tests::same::same;
use sim_actor::{Actor, FollowUp, Reply};
use sqs_message::{
    Body, Call, HandleForm, Listed, MessageId, Origin, Receipt, ReceiptHandle, Script, ScriptCall,
    Template, Text,
};
use sqs_model::{
    Act, ActorSettings, ConsumerSettings, Distribution, Forwarding, Groups, Outage,
    ProducerSettings, Role, ScalerSettings, Scaling, ScalingStep, Serving, Standing, Stretch,
    Target, WeightedGroup,
};
use sqs_redrive::{Batch, Got, Latency, LeftLoad, Load, Outbound};
use std::alloc::{AllocError, Global};
use std::fmt::Write;
use std::process::Abort;
use std::str;

// The text of some letters.
fn text(rt: &impl Abort, alloc: Global, letters: &str) -> Text {
    Text::new(letters.as_bytes().to_vec(alloc).expect(rt, "memory"))
}

// The letters of a text.
fn letters(text: &Text) -> &str {
    match str::from_utf8(text.as_bytes()) {
        Ok(letters) => letters,
        Err(_) => "not text",
    }
}

// The letters of a text that may be absent.
fn letters_if(text: &Option<Text>) -> &str {
    match text {
        None => "-",
        Some(text) => letters(text),
    }
}

type Shown = Result<(), AllocError>;

// A body.
fn show_body(out: &mut String, body: &Body) -> Shown {
    let text = body.text(*out.allocator())?;
    out.push_str(letters(&text))
}

// A transfer in a line.
fn show_transfer(out: &mut String, sent: &Outbound) -> Shown {
    write!(
        out,
        " at {} from {} {} number {} to {} ",
        sent.at, sent.sender, sent.from, sent.number, sent.to
    )?;
    match &sent.load {
        Load::Forward { body, .. } => show_body(out, body),
        _ => out.push_str("no forward"),
    }
}

// A receipt.
fn show_receipt(out: &mut String, receipt: Receipt) -> Shown {
    let Receipt {
        site,
        number,
        count,
    } = receipt;
    write!(out, "r-{site}-{number}-{count}")
}

// The receipt handle of a call.
fn show_handle(out: &mut String, handle: &ReceiptHandle) -> Shown {
    match handle.form() {
        HandleForm::Made(receipt) => show_receipt(out, *receipt),
        HandleForm::Text(text) => out.push_str(letters(text)),
    }
}

// The end of a service in a line.
fn show_service(out: &mut String, receipt: Receipt, failed: bool, forwards: &[Outbound]) -> Shown {
    out.push_str("serve ")?;
    show_receipt(out, receipt)?;
    write!(out, " {failed}")?;
    for sent in forwards {
        show_transfer(out, sent)?;
    }
    Ok(())
}

// An act in a line.
fn show(out: &mut String, act: &Act) -> Shown {
    match act {
        Act::Send {
            body,
            delay,
            group,
            id,
        } => {
            out.push_str("send ")?;
            show_body(out, body)?;
            write!(
                out,
                " {:?} {} {}",
                *delay,
                letters_if(group),
                letters_if(id)
            )
        }
        Act::Receive { max, wait, timeout } => {
            write!(out, "receive {max} {wait} {:?}", *timeout)
        }
        Act::Delete { receipt } => {
            out.push_str("delete ")?;
            show_handle(out, receipt)
        }
        Act::Change { receipt, timeout } => {
            out.push_str("change ")?;
            show_handle(out, receipt)?;
            write!(out, " {timeout}")
        }
        Act::Prolong { receipt, timeout } => {
            out.push_str("prolong ")?;
            show_handle(out, receipt)?;
            write!(out, " {:?}", *timeout)
        }
        Act::Start { task } => write!(out, "start {task}"),
        Act::Cancel { task } => write!(out, "cancel {task}"),
        Act::Serve {
            receipt,
            failed,
            forwards,
            ..
        } => show_service(out, *receipt, *failed, forwards.as_slice()),
        Act::Scale { from, to } => write!(out, "scale {from} {to}"),
        Act::Nothing => out.push_str("nothing"),
    }
}

// A message of queue 2 that was received once.
fn got(rt: &impl Abort, alloc: Global, number: u64, body: &str) -> Got {
    Got {
        id: MessageId { site: 2, number },
        receipt: Receipt {
            site: 2,
            number,
            count: 1,
        },
        origin: Origin { site: 2, number },
        group: None,
        body: Body::new(alloc, text(rt, alloc, body)).expect(rt, "memory"),
        left: LeftLoad::none(),
    }
}

// The answer that an actor gets, in a table.
#[derive(Clone, Copy)]
enum Told {
    Wake,
    // A wake at which this number is told, and when the scaler wakes next.
    By(u64, Option<u64>),
    Two,
    Empty,
    Waiting,
    Other,
}

// The reply that this means, if it is one; two messages are 4 and 6 with the bodies x and y.
fn reply(rt: &impl Abort, alloc: Global, told: Told) -> Option<Reply> {
    match told {
        Told::Wake | Told::By(..) => None,
        Told::Two => {
            let (first, second) = (got(rt, alloc, 4, "x"), got(rt, alloc, 6, "y"));
            let messages = vec![in alloc; first, second].expect(rt, "memory");
            Some(Reply::Got(Batch::new(messages)))
        }
        Told::Empty => Some(Reply::Got(Batch::new(Vec::new(alloc)))),
        Told::Waiting => Some(Reply::Waiting),
        Told::Other => Some(Reply::Other),
    }
}

// What an actor goes by when it wakes.
fn standing(told: Told) -> Standing {
    match told {
        Told::By(number, next) => Standing { number, next },
        _ => Standing::none(),
    }
}

// The act that an actor does on a reply.
fn act_of(follow_up: FollowUp) -> Act {
    match follow_up {
        FollowUp::Nothing => Act::Nothing,
        FollowUp::Delete(receipt) => Act::Delete {
            receipt: ReceiptHandle::from(receipt),
        },
        FollowUp::Change { receipt, timeout } => Act::Change {
            receipt: ReceiptHandle::from(receipt),
            timeout,
        },
    }
}

// A step of a life: the moment, the answer that the actor gets, its act in a line, and its wake
// after it.
type Step = (u32, Told, &'static str, Option<u64>);

// Takes an actor through the steps of a life.
fn live(rt: &impl Abort, alloc: Global, actor: &mut Actor, steps: &[Step]) {
    for &(now, told, wanted, wake) in steps {
        let act = match reply(rt, alloc, told) {
            None => actor
                .woken(u64::from(now), standing(told))
                .expect(rt, "an act"),
            Some(reply) => act_of(actor.answered(u64::from(now), reply).expect(rt, "an act")),
        };
        let mut line = String::new(alloc);
        show(&mut line, &act).expect(rt, "memory");
        same(rt, (now, line.as_str(), actor.wake()), (now, wanted, wake));
    }
}

// A script call at a moment.
fn at(at: u64, call: Call) -> ScriptCall {
    ScriptCall { at, call }
}

// A script of every call.
fn every_call(rt: &impl Abort, alloc: Global) -> Script
    ensures { length result ≤ 100000 }
{
    let send = Call::Send {
        body: text(rt, alloc, "a{n}"),
        delay: Some(3),
        group: Some(text(rt, alloc, "g")),
        id: None,
    };
    let receive = Call::Receive {
        max: 10,
        wait: 20,
        timeout: None,
    };
    let delete = Call::Delete {
        receipt: text(rt, alloc, "r-0-0-1"),
    };
    let change = Call::Change {
        receipt: text(rt, alloc, "r-0-1-1"),
        timeout: 0,
    };
    let start = Call::Start { task: 4 };
    let cancel = Call::Cancel { task: 5 };
    let calls = vec![in alloc;
        at(10, send),
        at(20, receive),
        at(30, delete),
        at(40, change),
        at(50, start),
        at(60, cancel),
    ];
    Script::new(calls.expect(rt, "memory"))
}

// A template of some letters.
fn template(rt: &impl Abort, alloc: Global, letters: &str) -> Template {
    Template::new(alloc, text(rt, alloc, letters)).expect(rt, "memory")
}

// A producer of three messages.
fn producer(body: Template, gap_min: u32, groups: Option<Groups>, ids: bool) -> ActorSettings
    requires groups { MayBeGroups groups }
    requires most { gap_min ≤ 100 }
    requires some { 1 ≤ gap_min }
    ensures { IsRole result.role }
{
    ActorSettings {
        home: 0,
        role: Role::Producer(ProducerSettings {
            count: 3,
            start: 5,
            gap: Distribution::Uniform(u64::from(gap_min), 100),
            body,
            groups,
            ids,
            delay: Some(9),
            stop: None,
        }),
    }
}

// A consumer at queue 2 that serves for 1 to 100 ms, waits for 1,000 after it got nothing, and
// forwards.
fn consumer(alloc: Global, fail_permille: u64, forwarding: Forwarding) -> ActorSettings
    requires failures { fail_permille ≤ 1000 }
    requires forwarding { IsForwarding forwarding }
    ensures { IsRole result.role }
{
    ActorSettings {
        home: 2,
        role: Role::Consumer(ConsumerSettings {
            start: 7,
            batch: 2,
            gather: 0,
            wait: 5,
            timeout: Some(30),
            service: Distribution::Uniform(1, 100),
            serving: Serving::Each,
            fail_service: None,
            fail_permille,
            idle: 1000,
            forward: Some(forwarding),
            stop: None,
            scaling: None,
            fails_on: None,
            outages: Listed::new(Vec::new(alloc)),
            whole: false,
            backoff: Listed::new(Vec::new(alloc)),
            jitter: false,
            heartbeat: None,
        }),
    }
}

// A forward to queue 3 that takes from `least` to `greatest` milliseconds.
fn to_three(rt: &impl Abort, alloc: Global, least: u64, greatest: u64) -> Forwarding
    requires { IsLatency (record { least = least; greatest = greatest }) }
    ensures { IsForwarding result }
{
    Forwarding {
        to: Listed::new(vec![in alloc; 3].expect(rt, "memory")),
        latency: Latency { least, greatest },
    }
}

#[test]
fn script_makes_each_call_at_its_time(rt: HostRuntime) {
    let settings = ActorSettings {
        home: 0,
        role: Role::Script(every_call(&rt, rt.alloc())),
    };
    let mut actor = Actor::new(rt.alloc(), 1, settings, 0);
    same(&rt, (actor.number(), actor.settings().home), (1, 0));
    same(&rt, actor.wake(), Some(10));
    let life: &[Step] = &[
        (10, Told::Wake, "send a{n} Some(3) g -", Some(20)),
        (10, Told::Other, "nothing", Some(20)),
        (20, Told::Wake, "receive 10 20 None", Some(30)),
        (20, Told::Waiting, "nothing", Some(30)),
        (30, Told::Wake, "delete r-0-0-1", Some(40)),
        (35, Told::Two, "nothing", Some(40)),
        (40, Told::Wake, "change r-0-1-1 0", Some(50)),
        (50, Told::Wake, "start 4", Some(60)),
        (60, Told::Wake, "cancel 5", None),
        (70, Told::Wake, "nothing", None),
    ];
    live(&rt, rt.alloc(), &mut actor, life);
}

// Takes a producer with this number, under seed 0, through a life.
fn produce(rt: &impl Abort, alloc: Global, number: u32, settings: ActorSettings, steps: &[Step])
    requires { IsRole settings.role }
{
    let mut actor = Actor::new(alloc, number, settings, 0);
    same(rt, actor.wake(), Some(5));
    live(rt, alloc, &mut actor, steps);
}

#[test]
fn producer_sends_in_turn_and_stops(rt: HostRuntime) {
    let settings = producer(
        template(&rt, rt.alloc(), "{n}"),
        100,
        Some(Groups::InTurn(2)),
        true,
    );
    let life: &[Step] = &[
        (5, Told::Wake, "send 0 Some(9) g0 7-0", None),
        (5, Told::Other, "nothing", Some(105)),
        (105, Told::Wake, "send 1 Some(9) g1 7-1", None),
        (105, Told::Other, "nothing", Some(205)),
        (205, Told::Wake, "send 2 Some(9) g0 7-2", None),
        (205, Told::Other, "nothing", None),
    ];
    produce(&rt, rt.alloc(), 7, settings, life);
}

#[test]
fn producer_draws_its_gaps(rt: HostRuntime) {
    // The first two words of agent 0 under seed 0 give 68 and 57.
    let settings = producer(template(&rt, rt.alloc(), "b"), 1, None, false);
    let life: &[Step] = &[
        (5, Told::Wake, "send b Some(9) - -", None),
        (5, Told::Other, "nothing", Some(73)),
        (73, Told::Wake, "send b Some(9) - -", None),
        (73, Told::Other, "nothing", Some(130)),
    ];
    produce(&rt, rt.alloc(), 0, settings, life);
}

// Two groups, a and b, with weights from 1 to 99 that are 100 together.
fn two_groups(rt: &impl Abort, alloc: Global, weight: u64) -> Groups
    requires some { 1 ≤ weight }
    requires most { weight ≤ 99 }
    ensures { AreGroups result }
{
    let first = WeightedGroup {
        group: Text::new(vec![in alloc; b'a'].expect(rt, "memory")),
        weight,
    };
    let second = WeightedGroup {
        group: Text::new(vec![in alloc; b'b'].expect(rt, "memory")),
        weight: 100 - weight,
    };
    let groups = vec![in alloc; first, second];
    Groups::ByWeight(Listed::new(groups.expect(rt, "memory")))
}

#[test]
fn producer_draws_a_group_and_then_the_gap(rt: HostRuntime) {
    // The first four words of agent 0 under seed 0 give 67, 56, 89 and 15 of 100.
    let (body, groups) = (
        template(&rt, rt.alloc(), "c"),
        two_groups(&rt, rt.alloc(), 67),
    );
    let settings = producer(body, 1, Some(groups), false);
    let life: &[Step] = &[
        (5, Told::Wake, "send c Some(9) b -", None),
        (5, Told::Other, "nothing", Some(62)),
        (62, Told::Wake, "send c Some(9) b -", None),
        (62, Told::Other, "nothing", Some(78)),
    ];
    produce(&rt, rt.alloc(), 0, settings, life);
    let (body, groups) = (
        template(&rt, rt.alloc(), "c"),
        two_groups(&rt, rt.alloc(), 68),
    );
    let settings = producer(body, 1, Some(groups), false);
    produce(
        &rt,
        rt.alloc(),
        0,
        settings,
        &[(5, Told::Wake, "send c Some(9) a -", None)],
    );
}

// Takes a consumer with number 0, under seed 0, through a life, and then counts a poll of it and
// its wakes.
fn consume(rt: &impl Abort, alloc: Global, settings: ActorSettings, steps: &[Step], wakes: u64)
    requires { IsRole settings.role }
{
    let mut actor = Actor::new(alloc, 0, settings, 0);
    same(rt, actor.wake(), Some(7));
    live(rt, alloc, &mut actor, steps);
    actor.polled().expect(rt, "a count");
    same(rt, (actor.polls(), actor.wakes()), (1, wakes));
}

#[test]
fn consumer_forwards_deletes_fails_and_rests(rt: HostRuntime) {
    // The words of agent 0 under seed 0 give in turn: a service of 68 ms; 563 of 1,000, no failure;
    // a service of 90 ms; 159 of 1,000, a failure. The latency takes no word.
    let receive = "receive 2 5 Some(30)";
    let first = "serve r-2-4-1 false at 575 from 0 2 number 0 to 3 x";
    let life: &[Step] = &[
        (7, Told::Wake, receive, None),
        (7, Told::Two, "nothing", Some(75)),
        (75, Told::Wake, first, None),
        (75, Told::Other, "delete r-2-4-1", None),
        (75, Told::Other, "nothing", Some(165)),
        (165, Told::Wake, "serve r-2-6-1 true", None),
        (165, Told::Other, "nothing", Some(166)),
        (166, Told::Wake, receive, None),
        (166, Told::Waiting, "nothing", None),
        (5166, Told::Empty, "nothing", Some(6166)),
        (6166, Told::Wake, receive, None),
        (6166, Told::Other, "nothing", Some(7166)),
    ];
    let settings = consumer(rt.alloc(), 563, to_three(&rt, rt.alloc(), 500, 500));
    consume(&rt, rt.alloc(), settings, life, 5);
}

#[test]
fn consumer_draws_the_latency_after_the_chance(rt: HostRuntime) {
    // The words of agent 0 under seed 0 give in turn: a service of 68 ms; 563 of 1,000; a latency
    // of 90 ms; a service of 16 ms; 719 of 1,000; a latency of 11 ms.
    let first = "serve r-2-4-1 false at 158 from 0 2 number 0 to 3 x";
    let second = "serve r-2-6-1 false at 95 from 0 2 number 1 to 3 y";
    let life: &[Step] = &[
        (0, Told::Two, "nothing", Some(68)),
        (68, Told::Wake, first, None),
        (68, Told::Other, "delete r-2-4-1", None),
        (68, Told::Other, "nothing", Some(84)),
        (84, Told::Wake, second, None),
    ];
    let settings = consumer(rt.alloc(), 500, to_three(&rt, rt.alloc(), 1, 100));
    consume(&rt, rt.alloc(), settings, life, 2);
}

#[test]
fn consumer_forwards_to_each_queue_of_its_list(rt: HostRuntime) {
    // The words of agent 0 under seed 0 give in turn: a service of 68 ms; 563 of 1,000; latencies
    // of 90, 16 and 72 ms.
    let serve =
        "serve r-2-4-1 false at 158 from 0 2 number 0 to 3 x at 84 from 0 2 number 1 to 2 x at 140 from 0 2 number 2 to 3 x";
    let life: &[Step] = &[
        (0, Told::Two, "nothing", Some(68)),
        (68, Told::Wake, serve, None),
        (68, Told::Other, "delete r-2-4-1", None),
    ];
    let forwarding = Forwarding {
        to: Listed::new(vec![in rt.alloc(); 3, 2, 3].expect(&rt, "memory")),
        latency: Latency {
            least: 1,
            greatest: 100,
        },
    };
    let settings = consumer(rt.alloc(), 500, forwarding);
    let mut actor = Actor::new(rt.alloc(), 0, settings, 0);
    live(&rt, rt.alloc(), &mut actor, life);
}

// A consumer at queue 2 that serves for 1,500 ms, with a heartbeat each second. Services of bodies
// with an x fail, and their batches as a whole, which come back after 5 seconds and then after 60.
// From 1,509 ms on it asks for nothing.
fn failing_consumer(rt: &impl Abort, alloc: Global) -> ActorSettings
    ensures { IsRole result.role }
{
    let timeouts = vec![in alloc; 5, 60].expect(rt, "memory");
    ActorSettings {
        home: 2,
        role: Role::Consumer(ConsumerSettings {
            start: 7,
            batch: 2,
            gather: 0,
            wait: 5,
            timeout: Some(30),
            service: Distribution::Uniform(1500, 1500),
            serving: Serving::Each,
            fail_service: None,
            fail_permille: 0,
            idle: 1000,
            forward: None,
            stop: Some(1509),
            scaling: None,
            fails_on: Some(text(rt, alloc, "x")),
            outages: Listed::new(Vec::new(alloc)),
            whole: true,
            backoff: Listed::new(timeouts),
            jitter: false,
            heartbeat: Some(1000),
        }),
    }
}

#[test]
fn consumer_prolongs_backs_off_as_a_whole_and_stops(rt: HostRuntime) {
    let life: &[Step] = &[
        (7, Told::Wake, "receive 2 5 Some(30)", None),
        (7, Told::Two, "nothing", Some(1007)),
        (1007, Told::Wake, "prolong r-2-4-1 Some(30)", None),
        (1007, Told::Other, "nothing", Some(1507)),
        (1507, Told::Wake, "serve r-2-4-1 true", None),
        (1507, Told::Other, "change r-2-4-1 5", None),
        (1507, Told::Other, "nothing", Some(1508)),
        (1508, Told::Wake, "change r-2-6-1 5", None),
        (1508, Told::Other, "nothing", Some(1509)),
        (1509, Told::Wake, "nothing", None),
    ];
    let settings = failing_consumer(&rt, rt.alloc());
    consume(&rt, rt.alloc(), settings, life, 5);
}

// A consumer that serves for 1 to 100 ms, and asks for two messages. No service fails.
fn plain_consumer(alloc: Global) -> ConsumerSettings
    ensures { IsConsumer result }
{
    ConsumerSettings {
        start: 7,
        batch: 2,
        gather: 0,
        wait: 5,
        timeout: Some(30),
        service: Distribution::Uniform(1, 100),
        serving: Serving::Each,
        fail_service: None,
        fail_permille: 0,
        idle: 1000,
        forward: None,
        stop: None,
        scaling: None,
        fails_on: None,
        outages: Listed::new(Vec::new(alloc)),
        whole: false,
        backoff: Listed::new(Vec::new(alloc)),
        jitter: false,
        heartbeat: None,
    }
}

// Takes a consumer of queue 2 with these settings through a life, as `consume` does.
fn consume_by(
    rt: &impl Abort,
    alloc: Global,
    consumer: ConsumerSettings,
    steps: &[Step],
    wakes: u64,
)
    requires { IsConsumer consumer }
{
    let settings = ActorSettings {
        home: 2,
        role: Role::Consumer(consumer),
    };
    consume(rt, alloc, settings, steps, wakes);
}

#[test]
fn copy_asks_while_its_scaler_says_so(rt: HostRuntime) {
    // The second copy has number 0, and so has this one.
    let mut consumer = plain_consumer(rt.alloc());
    consumer.scaling = Some(Scaling {
        scaler: 9,
        second: 0,
        start: 50,
    });
    let life: &[Step] = &[
        // two copies are wanted, and it is the second
        (7, Told::By(2, Some(60)), "receive 2 5 Some(30)", None),
        (8, Told::Empty, "nothing", Some(1008)),
        // one is: it sleeps until the scaler wakes, and never for no time
        (1008, Told::By(1, Some(2000)), "nothing", Some(2000)),
        (2000, Told::By(1, Some(2000)), "nothing", Some(2001)),
        (2001, Told::By(1, None), "nothing", None),
        // two are again: it starts, and then asks
        (3000, Told::By(2, Some(4000)), "nothing", Some(3050)),
        (3050, Told::By(2, Some(4000)), "receive 2 5 Some(30)", None),
        // what it holds it serves, whatever the scaler says
        (3050, Told::Two, "nothing", Some(3118)),
        (3118, Told::By(0, None), "serve r-2-4-1 false", None),
    ];
    consume_by(&rt, rt.alloc(), consumer, life, 7);
}

// A scaler that reads every 10 s, and wants a copy for each 10 visible messages, from 1 to 5; it
// adds 2 at most at once, and takes one.
fn scaler(reading: u64, cooldown_out: u64, cooldown_in: u64) -> ScalerSettings
    requires reading { reading < 10000 }
    requires added { cooldown_out ≤ 30000 }
    requires taken { cooldown_in ≤ 30000 }
    ensures { IsScaler result }
{
    ScalerSettings {
        start: 5000,
        every: 10_000,
        reading,
        target: Target::PerCopy(10),
        least: 1,
        most: 5,
        most_added: 2,
        most_taken: 1,
        cooldown_out,
        cooldown_in,
    }
}

// Up to so many visible messages so many copies.
fn step(visible: u64, copies: u64) -> ScalingStep {
    ScalingStep { visible, copies }
}

// Takes a scaler of queue 2 through a life.
fn scale(rt: &impl Abort, alloc: Global, scaler: ScalerSettings, steps: &[Step])
    requires { IsScaler scaler }
{
    let settings = ActorSettings {
        home: 2,
        role: Role::Scaler(scaler),
    };
    let mut actor = Actor::new(alloc, 9, settings, 0);
    same(rt, actor.wake(), Some(5000));
    live(rt, alloc, &mut actor, steps);
}

#[test]
fn scaler_adds_and_takes_copies_by_what_is_visible(rt: HostRuntime) {
    let life: &[Step] = &[
        (5000, Told::By(10, None), "nothing", Some(15_000)),
        (15_000, Told::By(11, None), "scale 1 2", Some(25_000)),
        (15_000, Told::Other, "nothing", Some(25_000)),
        (25_000, Told::By(900, None), "scale 2 4", Some(35_000)),
        (35_000, Told::By(900, None), "scale 4 5", Some(45_000)),
        (45_000, Told::By(0, None), "scale 5 4", Some(55_000)),
        (55_000, Told::By(40, None), "nothing", Some(65_000)),
    ];
    scale(&rt, rt.alloc(), scaler(0, 0, 0), life);
}

#[test]
fn scaler_waits_for_its_cooldowns(rt: HostRuntime) {
    // The start of the run counts as a change: it adds none before 15 s, and takes none within 30 s.
    let life: &[Step] = &[
        (5000, Told::By(50, None), "nothing", Some(15_000)),
        (15_000, Told::By(50, None), "scale 1 3", Some(25_000)),
        (25_000, Told::By(50, None), "nothing", Some(35_000)),
        (35_000, Told::By(0, None), "nothing", Some(45_000)),
        (45_000, Told::By(0, None), "scale 3 2", Some(55_000)),
    ];
    scale(&rt, rt.alloc(), scaler(0, 15_000, 30_000), life);
}

#[test]
fn scaler_decides_by_what_it_read_before(rt: HostRuntime) {
    let life: &[Step] = &[
        (5000, Told::By(20, None), "nothing", Some(9000)),
        (9000, Told::By(0, None), "scale 1 2", Some(15_000)),
        (15_000, Told::By(0, None), "nothing", Some(19_000)),
        (19_000, Told::By(90, None), "scale 2 1", Some(25_000)),
    ];
    scale(&rt, rt.alloc(), scaler(4000, 0, 0), life);
}

#[test]
fn scaler_goes_by_the_first_step_that_has_what_is_visible(rt: HostRuntime) {
    // Up to 3 visible messages 2 copies, up to 10 4; past that 5, which is the most.
    let (few, more) = (step(3, 2), step(10, 4));
    let steps = vec![in rt.alloc(); few, more].expect(&rt, "memory");
    let mut by_steps = scaler(0, 0, 0);
    by_steps.target = Target::Steps(Listed::new(steps));
    let life: &[Step] = &[
        (5000, Told::By(3, None), "scale 1 2", Some(15_000)),
        (15_000, Told::By(4, None), "scale 2 4", Some(25_000)),
        (25_000, Told::By(10, None), "nothing", Some(35_000)),
        (35_000, Told::By(11, None), "scale 4 5", Some(45_000)),
        (45_000, Told::By(0, None), "scale 5 4", Some(55_000)),
    ];
    scale(&rt, rt.alloc(), by_steps, life);
}

#[test]
fn messages_served_at_once_end_one_after_another(rt: HostRuntime) {
    // The words of agent 0 under seed 0 give in turn: a service of 68 ms, and 10 more for each of
    // two messages; 563 of 1,000, a failure; 896, none; a service of 16 ms, and 20 more.
    let mut consumer = plain_consumer(rt.alloc());
    consumer.serving = Serving::Once { each: 10 };
    consumer.fail_permille = 600;
    let life: &[Step] = &[
        (7, Told::Wake, "receive 2 5 Some(30)", None),
        (7, Told::Two, "nothing", Some(95)),
        (95, Told::Wake, "serve r-2-4-1 true", None),
        (95, Told::Other, "nothing", Some(96)),
        (96, Told::Wake, "serve r-2-6-1 false", None),
        (96, Told::Other, "delete r-2-6-1", None),
        (96, Told::Other, "nothing", Some(97)),
        (97, Told::Wake, "receive 2 5 Some(30)", None),
        (97, Told::Two, "nothing", Some(133)),
    ];
    consume_by(&rt, rt.alloc(), consumer, life, 4);
}

#[test]
fn a_whole_batch_served_at_once_takes_two_words(rt: HostRuntime) {
    // The words of agent 0 under seed 0 give in turn: a service of 68 ms, and 10 more for each of
    // two messages; 563 of 1,000, no failure of the two; a service of 90 ms, and 20 more.
    let mut consumer = plain_consumer(rt.alloc());
    consumer.serving = Serving::Once { each: 10 };
    consumer.whole = true;
    consumer.fail_permille = 500;
    let life: &[Step] = &[
        (7, Told::Wake, "receive 2 5 Some(30)", None),
        (7, Told::Two, "nothing", Some(95)),
        (95, Told::Wake, "serve r-2-4-1 false", None),
        (95, Told::Other, "delete r-2-4-1", None),
        (95, Told::Other, "nothing", Some(96)),
        (96, Told::Wake, "serve r-2-6-1 false", None),
        (96, Told::Other, "delete r-2-6-1", None),
        (96, Told::Other, "nothing", Some(97)),
        (97, Told::Wake, "receive 2 5 Some(30)", None),
        (97, Told::Two, "nothing", Some(207)),
    ];
    consume_by(&rt, rt.alloc(), consumer, life, 4);
}

#[test]
fn one_body_fails_a_whole_batch_with_timeouts_drawn(rt: HostRuntime) {
    // The words of agent 0 under seed 0 give in turn: a service of 68 ms; 563 of 1,000, no failure
    // by chance; timeouts of 54 and 9 from 0 to 60; a service of 72 ms.
    let mut consumer = plain_consumer(rt.alloc());
    consumer.serving = Serving::Once { each: 0 };
    consumer.whole = true;
    consumer.fail_permille = 500;
    consumer.fails_on = Some(text(&rt, rt.alloc(), "y"));
    consumer.backoff = Listed::new(vec![in rt.alloc(); 60].expect(&rt, "memory"));
    consumer.jitter = true;
    let life: &[Step] = &[
        (7, Told::Wake, "receive 2 5 Some(30)", None),
        (7, Told::Two, "nothing", Some(75)),
        (75, Told::Wake, "serve r-2-4-1 true", None),
        (75, Told::Other, "change r-2-4-1 54", None),
        (75, Told::Other, "nothing", Some(76)),
        (76, Told::Wake, "change r-2-6-1 9", None),
        (76, Told::Other, "nothing", Some(77)),
        (77, Told::Wake, "receive 2 5 Some(30)", None),
        (77, Told::Two, "nothing", Some(149)),
    ];
    consume_by(&rt, rt.alloc(), consumer, life, 4);
}

#[test]
fn consumer_gathers_until_its_time_is_over(rt: HostRuntime) {
    // It gathers for 2,500 ms from 7 on. The first word of agent 0 under seed 0 gives a service of
    // 68 ms.
    let mut consumer = plain_consumer(rt.alloc());
    consumer.batch = 5;
    consumer.gather = 2500;
    let life: &[Step] = &[
        (7, Told::Wake, "receive 5 5 Some(30)", None),
        (7, Told::Two, "nothing", Some(8)),
        (8, Told::Wake, "receive 3 2 Some(30)", None),
        (8, Told::Waiting, "nothing", None),
        (2008, Told::Empty, "nothing", Some(2507)),
        (2507, Told::Wake, "receive 3 0 Some(30)", None),
        (2507, Told::Other, "nothing", Some(2575)),
        (2575, Told::Wake, "serve r-2-4-1 false", None),
    ];
    consume_by(&rt, rt.alloc(), consumer, life, 4);
}

#[test]
fn a_batch_that_was_gathered_is_served_once_it_is_whole(rt: HostRuntime) {
    // The first word of agent 0 under seed 0 gives a service of 68 ms, and 10 more for each of four
    // messages.
    let mut consumer = plain_consumer(rt.alloc());
    consumer.batch = 4;
    consumer.gather = 2500;
    consumer.serving = Serving::Once { each: 10 };
    let life: &[Step] = &[
        (7, Told::Wake, "receive 4 5 Some(30)", None),
        (7, Told::Two, "nothing", Some(8)),
        (8, Told::Wake, "receive 2 2 Some(30)", None),
        (8, Told::Two, "nothing", Some(116)),
        (116, Told::Wake, "serve r-2-4-1 false", None),
    ];
    consume_by(&rt, rt.alloc(), consumer, life, 3);
}

#[test]
fn consumer_that_may_not_ask_again_gathers_no_more(rt: HostRuntime) {
    let mut consumer = plain_consumer(rt.alloc());
    consumer.batch = 5;
    consumer.gather = 2500;
    consumer.stop = Some(8);
    let life: &[Step] = &[
        (7, Told::Wake, "receive 5 5 Some(30)", None),
        (7, Told::Two, "nothing", Some(75)),
    ];
    consume_by(&rt, rt.alloc(), consumer, life, 1);
}

#[test]
fn a_failed_service_takes_a_time_of_its_own(rt: HostRuntime) {
    // The words of agent 0 under seed 0 give in turn: a service of 68 ms; 563 of 1,000, no failure;
    // one of 90 ms; 159, a failure; one of 72 ms; 105, a failure; one of 81 ms; 777, no failure.
    let mut consumer = plain_consumer(rt.alloc());
    consumer.fail_service = Some(5000);
    consumer.fail_permille = 500;
    let life: &[Step] = &[
        (7, Told::Wake, "receive 2 5 Some(30)", None),
        (7, Told::Two, "nothing", Some(75)),
        (75, Told::Wake, "serve r-2-4-1 false", None),
        (75, Told::Other, "delete r-2-4-1", None),
        (75, Told::Other, "nothing", Some(5075)),
        (5075, Told::Wake, "serve r-2-6-1 true", None),
        (5075, Told::Other, "nothing", Some(5076)),
        (5076, Told::Wake, "receive 2 5 Some(30)", None),
        (5076, Told::Two, "nothing", Some(10076)),
        (10076, Told::Wake, "serve r-2-4-1 true", None),
        (10076, Told::Other, "nothing", Some(10157)),
        (10157, Told::Wake, "serve r-2-6-1 false", None),
    ];
    consume_by(&rt, rt.alloc(), consumer, life, 6);
}

#[test]
fn heartbeats_go_on_while_a_service_fails(rt: HostRuntime) {
    // The body of the first message fails, so its service takes 2,500 ms from 7 on. That of the second
    // does not, and takes 1,500.
    let mut consumer = plain_consumer(rt.alloc());
    consumer.service = Distribution::Uniform(1500, 1500);
    consumer.fail_service = Some(2500);
    consumer.fails_on = Some(text(&rt, rt.alloc(), "x"));
    consumer.heartbeat = Some(1000);
    let life: &[Step] = &[
        (7, Told::Two, "nothing", Some(1007)),
        (1007, Told::Wake, "prolong r-2-4-1 Some(30)", None),
        (1007, Told::Other, "nothing", Some(2007)),
        (2007, Told::Wake, "prolong r-2-4-1 Some(30)", None),
        (2007, Told::Other, "nothing", Some(2507)),
        (2507, Told::Wake, "serve r-2-4-1 true", None),
        (2507, Told::Other, "nothing", Some(3507)),
        (3507, Told::Wake, "prolong r-2-6-1 Some(30)", None),
        (3507, Told::Other, "nothing", Some(4007)),
        (4007, Told::Wake, "serve r-2-6-1 false", None),
    ];
    consume_by(&rt, rt.alloc(), consumer, life, 5);
}

#[test]
fn a_whole_batch_that_fails_takes_one_time(rt: HostRuntime) {
    // The body of the second message fails the batch, so it takes 3 ms in all. The words of agent 0
    // under seed 0 give in turn: a service of 68 ms; 563 of 1,000, no failure by chance; one of 90 ms;
    // 159, a failure by chance.
    let mut consumer = plain_consumer(rt.alloc());
    consumer.serving = Serving::Once { each: 10 };
    consumer.whole = true;
    consumer.fail_service = Some(3);
    consumer.fail_permille = 500;
    consumer.fails_on = Some(text(&rt, rt.alloc(), "y"));
    let life: &[Step] = &[
        (7, Told::Wake, "receive 2 5 Some(30)", None),
        (7, Told::Two, "nothing", Some(10)),
        (10, Told::Wake, "serve r-2-4-1 true", None),
        (10, Told::Other, "nothing", Some(11)),
        (11, Told::Wake, "receive 2 5 Some(30)", None),
        (11, Told::Two, "nothing", Some(14)),
        (14, Told::Wake, "serve r-2-4-1 true", None),
    ];
    consume_by(&rt, rt.alloc(), consumer, life, 4);
}

#[test]
fn a_failed_service_of_no_time_takes_a_millisecond(rt: HostRuntime) {
    let mut consumer = plain_consumer(rt.alloc());
    consumer.fail_service = Some(0);
    consumer.fail_permille = 1000;
    let life: &[Step] = &[
        (7, Told::Two, "nothing", Some(8)),
        (8, Told::Wake, "serve r-2-4-1 true", None),
        (8, Told::Other, "nothing", Some(9)),
        (9, Told::Wake, "serve r-2-6-1 true", None),
    ];
    consume_by(&rt, rt.alloc(), consumer, life, 2);
}

// Ends a service of 1 ms at a moment, of a consumer with two outages: from 100 to 200 no service
// fails, from 150 to 300 each one. At any other time `otherwise` of a thousand fail.
fn serve_in_outages(
    rt: &impl Abort,
    alloc: Global,
    moment: u32,
    otherwise: u64,
    fail_service: Option<u64>,
    wanted: &'static str,
)
    requires failures { otherwise ≤ 1000 }
    requires time { MayBeFailService fail_service }
{
    let (first, second) = (
        Stretch { from: 100, to: 200 },
        Stretch { from: 150, to: 300 },
    );
    let outages = vec![in alloc;
        Outage {
            stretch: first,
            permille: 0
        },
        Outage {
            stretch: second,
            permille: 1000
        },
    ];
    let mut consumer = plain_consumer(alloc);
    consumer.service = Distribution::Uniform(1, 1);
    consumer.outages = Listed::new(outages.expect(rt, "memory"));
    consumer.fail_permille = otherwise;
    consumer.fail_service = fail_service;
    let began = moment.saturating_sub(1);
    let life: &[Step] = &[
        (began, Told::Two, "nothing", Some(u64::from(moment))),
        (moment, Told::Wake, wanted, None),
    ];
    consume_by(rt, alloc, consumer, life, 1);
}

#[test]
fn the_first_outage_that_has_a_moment_says_how_many_fail(rt: HostRuntime) {
    for &(moment, otherwise, wanted) in &[
        (99, 1000, "serve r-2-4-1 true"),
        (99, 0, "serve r-2-4-1 false"),
        (100, 1000, "serve r-2-4-1 false"),
        (150, 1000, "serve r-2-4-1 false"),
        (199, 1000, "serve r-2-4-1 false"),
        (200, 0, "serve r-2-4-1 true"),
        (299, 0, "serve r-2-4-1 true"),
        (300, 0, "serve r-2-4-1 false"),
    ] {
        serve_in_outages(&rt, rt.alloc(), moment, otherwise, None, wanted);
    }
}

#[test]
fn an_outage_has_a_service_that_is_decided_when_it_begins(rt: HostRuntime) {
    for &(moment, otherwise, wanted) in &[
        (100, 1000, "serve r-2-4-1 true"),
        (101, 1000, "serve r-2-4-1 false"),
        (200, 0, "serve r-2-4-1 false"),
        (201, 0, "serve r-2-4-1 true"),
        (300, 0, "serve r-2-4-1 true"),
        (301, 0, "serve r-2-4-1 false"),
    ] {
        serve_in_outages(&rt, rt.alloc(), moment, otherwise, Some(1), wanted);
    }
}

// What a producer of messages with this body sends first, with the number 0.
fn try_body(rt: &impl Abort, alloc: Global, body: &str, wanted: &'static str) {
    let settings = producer(template(rt, alloc, body), 100, None, false);
    produce(rt, alloc, 7, settings, &[(5, Told::Wake, wanted, None)]);
}

#[test]
fn each_mark_in_a_body_is_replaced(rt: HostRuntime) {
    for &(body, wanted) in &[
        ("", "send  Some(9) - -"),
        ("{n}", "send 0 Some(9) - -"),
        ("{n}{n}", "send 00 Some(9) - -"),
        ("a{n}b{n}c", "send a0b0c Some(9) - -"),
        ("{{n}}", "send {0} Some(9) - -"),
        ("{n", "send {n Some(9) - -"),
        ("{{n", "send {{n Some(9) - -"),
        ("{n{n}", "send {n0 Some(9) - -"),
        ("{N}n}", "send {N}n} Some(9) - -"),
    ] {
        try_body(&rt, rt.alloc(), body, wanted);
    }
}
