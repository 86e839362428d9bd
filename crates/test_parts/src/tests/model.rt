use crate::tests::same::same;
use sqs_message::Call;
use sqs_model::{Act, FinalMessages, FinalTasks, FinalTransfers, Finals};

// The numbers of the start of a task, or of a receive.
fn numbers(act: Act) -> (u64, u64, Option<u64>) {
    match act {
        Act::Start { task } => (u64::from(task), 0, None),
        Act::Receive { max, wait, timeout } => (max, wait, timeout),
        _ => (u64::MAX, 0, None),
    }
}

#[test]
fn a_call_becomes_the_act_that_makes_it(rt: HostRuntime) {
    let start = Call::Start { task: 6 };
    let receive = Call::Receive {
        max: 2,
        wait: 20,
        timeout: Some(0),
    };
    same(
        &rt,
        numbers(Act::of(rt.alloc(), start).expect(&rt, "memory")),
        (6, 0, None),
    );
    same(
        &rt,
        numbers(Act::of(rt.alloc(), receive).expect(&rt, "memory")),
        (2, 20, Some(0)),
    );
}

#[test]
fn finals_hold_lists(rt: HostRuntime) {
    let finals = Finals {
        messages: FinalMessages::new(Vec::new(rt.alloc())),
        transfers: FinalTransfers::new(Vec::new(rt.alloc())),
        tasks: FinalTasks::new(Vec::new(rt.alloc())),
    };
    let lengths = (
        finals.messages.as_slice().len(),
        finals.transfers.as_slice().len(),
        finals.tasks.as_slice().len(),
    );
    same(&rt, lengths, (0, 0, 0));
}
