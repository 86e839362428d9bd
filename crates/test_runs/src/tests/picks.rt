//! Machines of small scenarios, pick by pick.
use crate::tests::same::same;
use sim_clock::Refusal;
use sim_engine::Pick;
use sim_exchange::PartMap;
use sim_scenario::{Scripts, read};
use sim_site::Site;
use sim_windows::Machine;
use sqs_rehearsal::open_machine;
use std::alloc::Global;
use std::process::Abort;

// A message there and back: the first queue's consumer forwards to the second, whose consumer
// forwards to the first, each way of 10 milliseconds.
const THERE_AND_BACK: &[u8] =
    b"version = 1\nhorizon = 100\n[[queue]]\nname = 'a'\n[[queue]]\nname = 'b'\n[[actor]]\nname = 'p'\nkind = 'script'\nqueue = 'a'\ncalls = '''\nat,call,body,group,id,delay,receipt,max,wait,timeout,task\n0,send,abc,,,,,,,,\n'''\n[[actor]]\nname = 'x'\nkind = 'consumer'\nqueue = 'a'\nstart_ms = 1\nservice_min_ms = 14\nservice_max_ms = 14\nidle_ms = 86400000\nforward = 'b'\nlatency_ms = 10\n[[actor]]\nname = 'y'\nkind = 'consumer'\nqueue = 'b'\nstart_ms = 50\nservice_min_ms = 14\nservice_max_ms = 14\nidle_ms = 86400000\nforward = 'a'\nlatency_ms = 10\n";

// The machine of two queues, each in a partition of its own.
fn machine(rt: &impl Abort, alloc: Global, window: u64) -> Result<Machine<Site>, Refusal> {
    let owners = [0, 1].to_vec(alloc).expect(rt, "memory");
    let layout = PartMap::new(2, 2, owners).expect(rt, "a map");
    match read(alloc, THERE_AND_BACK, &Scripts::new(Vec::new(alloc))) {
        Ok(scenario) => open_machine(alloc, scenario, layout, window),
        Err(_) => Err(Refusal::NotToml),
    }
}

// The first window: five handlings of the first queue, none of the second, and the barrier.
const FIRST: [Pick; 7] = [
    Pick::Part(0),
    Pick::Part(0),
    Pick::Part(0),
    Pick::Part(0),
    Pick::Part(0),
    Pick::Part(1),
    Pick::Barrier,
];

// Picks, and the expected state after them.
fn try_play(rt: &impl Abort, machine: &mut Machine<Site>) {
    same(rt, machine.window_end(), 10);
    let played = machine.play(&FIRST).expect(rt, "a play");
    same(rt, (played, machine.window_end()), (5, 35));
    // The send at 0 and the receive at 1; the delete at 15 and the receive at 16 come after the
    // least bound, 10.
    same(rt, machine.rows().len(), 2);
    same(rt, (machine.finished(), machine.spent()), (false, None));
    for _ in 0..100 {
        let picks = [Pick::Part(1), Pick::Part(0), Pick::Barrier];
        machine.play(&picks).expect(rt, "a play");
    }
    same(rt, machine.finished(), true);
}

#[test]
fn a_cycle_bounds_its_own_partition(rt: HostRuntime) {
    let mut machine = machine(&rt, rt.alloc(), 10).expect(&rt, "a machine");
    try_play(&rt, &mut machine);
    let settled = machine.rows().len();
    let ended = machine.into_run().expect(&rt, "a run");
    same(
        &rt,
        (ended.sites.len(), settled <= ended.rows.len()),
        (2, true),
    );
}

// The error, if there is one.
fn refusal_of(machine: Result<Machine<Site>, Refusal>) -> Option<Refusal> {
    match machine {
        Ok(_) => None,
        Err(refusal) => Some(refusal),
    }
}

#[test]
fn no_window_is_longer_than_the_least_latency(rt: HostRuntime) {
    let refused = Refusal::WindowTooLong {
        window: 11,
        least: 10,
    };
    same(&rt, refusal_of(machine(&rt, rt.alloc(), 11)), Some(refused));
}
