//! Transfers, batches, returns and move tasks.
use crate::tests::same::same;
use Asked::{Cancel, Start, Step};
use Refusal::{NoTask, TaskRunning};
use Rest::{Empty, More, NoSource};
use TaskStatus::{Cancelled, Completed, Failed, Idle, Running};
use sim_clock::{Class, Key, Refusal};
use sqs_message::{Body, Message, MessageId, Origin, Place, Text};
use sqs_redrive::{
    Batch, Latency, Load, MoveTask, Outbound, Policy, Rest, Returned, TaskSettings, TaskStatus,
    on_return,
};
use std::alloc::Global;
use std::process::Abort;

// A body of no bytes.
fn nothing(rt: &impl Abort, alloc: Global) -> Body {
    Body::new(alloc, Text::new(Vec::new(alloc))).expect(rt, "memory")
}

#[test]
fn a_transfer_has_the_key_of_its_arrival(rt: HostRuntime) {
    let transfer = Outbound {
        at: 600,
        sender: 5,
        number: 2,
        from: 0,
        to: 1,
        load: Load::Forward {
            id: MessageId { site: 0, number: 9 },
            body: nothing(&rt, rt.alloc()),
            group: None,
        },
    };
    let key = Key {
        at: 600,
        agent: 5,
        class: Class::Arrival,
        number: 2,
    };
    same(&rt, transfer.key(), key);
}

#[test]
fn a_batch_is_given_back(rt: HostRuntime) {
    let batch = Batch::new(Vec::new(rt.alloc()));
    same(&rt, batch.into_vec().len(), 0);
}

const QUICK: Latency = Latency {
    least: 1,
    greatest: 1,
};

fn received(rt: &impl Abort, alloc: Global, receives: u64) -> Message {
    Message {
        number: 0,
        origin: Origin { site: 0, number: 0 },
        body: nothing(rt, alloc),
        group: None,
        enqueued: 0,
        place: Place::InFlight,
        release: Some(1000),
        receives,
        received: 0,
        source: None,
    }
}

#[test]
fn a_message_leaves_at_the_greatest_count(rt: HostRuntime) {
    let policy = Policy {
        dead_letter: 1,
        max_receives: 2,
        latency: QUICK,
    };
    for &(receives, wanted) in &[
        (0, Returned::Stays),
        (1, Returned::Stays),
        (2, Returned::Leaves),
        (3, Returned::Leaves),
    ] {
        let message = received(&rt, rt.alloc(), receives);
        same(&rt, on_return(&policy, &message), wanted);
    }
}

// What a task is to do at a moment. A step takes three messages.
#[derive(Clone, Copy)]
enum Asked {
    Start(u32),
    Cancel,
    Step(u32, Rest),
}

// The answer of a task, and then its status, its next step, and the numbers of messages and steps
// that it has made since it started.
type Told = (Result<(), Refusal>, TaskStatus, Option<u64>, u64, u64);

// Starts, ends and steps of tasks: each list begins with a task that is idle.
const TASKS: [&[(Asked, Told)]; 5] = [
    &[
        (Cancel, (Err(NoTask), Idle, None, 0, 0)),
        (Start(100), (Ok(()), Running, Some(1100), 0, 0)),
        (Start(200), (Err(TaskRunning), Running, Some(1100), 0, 0)),
    ],
    &[
        (Start(100), (Ok(()), Running, Some(1100), 0, 0)),
        (Cancel, (Ok(()), Cancelled, None, 0, 0)),
    ],
    &[
        (Start(100), (Ok(()), Running, Some(1100), 0, 0)),
        (Step(1100, Empty), (Ok(()), Completed, None, 3, 1)),
    ],
    &[
        (Start(100), (Ok(()), Running, Some(1100), 0, 0)),
        (Step(1100, More), (Ok(()), Running, Some(2100), 3, 1)),
    ],
    &[
        (Start(100), (Ok(()), Running, Some(1100), 0, 0)),
        (Step(1100, NoSource), (Ok(()), Failed, None, 3, 1)),
    ],
];

// Calls a task, which takes a step only while it is running.
fn ask(task: &mut MoveTask, asked: Asked) -> Result<(), Refusal> {
    match asked {
        Start(now) => task.start(u64::from(now)),
        Cancel => task.cancel(),
        Step(now, rest) => {
            if task.is_running() && task.moved() < 1000 && task.steps() < 1000 {
                task.step(u64::from(now), 3, rest);
            }
            Ok(())
        }
    }
}

fn try_task(rt: &impl Abort, task: &mut MoveTask, turns: &[(Asked, Told)]) {
    for &(asked, wanted) in turns {
        let answer = ask(task, asked);
        let (status, next) = (task.status(), task.next_step());
        same(
            rt,
            (answer, status, next, task.moved(), task.steps()),
            wanted,
        );
    }
}

#[test]
fn tasks_run_to_an_end(rt: HostRuntime) {
    for turns in &TASKS {
        let mut task = MoveTask::new(TaskSettings {
            home: 1,
            to: None,
            per_second: 3,
            latency: QUICK,
        });
        same(&rt, (task.quota(), task.settings().home), (3, 1));
        try_task(&rt, &mut task, turns);
    }
}
