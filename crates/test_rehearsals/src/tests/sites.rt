//! Transfers on their way to a site, a partition without sites, and a task that was never started.
use crate::tests::machines::scenario;
use sim_clock::{Class, Key, Refusal};
use sim_engine::Site as _;
use sim_partition::Partition;
use sim_site::{Site, Task};
use sqs_message::{Body, MessageId, Text};
use sqs_redrive::{Latency, Load, Outbound, TaskSettings, TaskStatus};
use sqs_rehearsal::open_world;
use std::alloc::Global;

// The sites of a standard queue and of a FIFO queue, with neither actors nor tasks.
fn two_sites(alloc: Global) -> Option<Vec<Site>> {
    let text = b"version = 1\nhorizon = 90\n[[queue]]\nname = 'q'\n[[queue]]\nname = 'q.fifo'\n";
    let world = open_world(alloc, scenario(alloc, text)?).ok()?;
    Some(world.sites)
}

// Puts a forward of one message on its way.
fn accept(alloc: Global, site: &mut Site, at: u64) -> Result<(), Refusal> {
    let load = Load::Forward {
        id: MessageId { site: 2, number: 0 },
        body: Body::new(alloc, Text::new(Vec::new(alloc)))?,
        group: None,
    };
    let to = site.queue().site();
    site.accept(Outbound {
        at,
        sender: 1,
        number: at,
        from: 2,
        to,
        load,
    })
}

// Puts forwards on their way that arrive at these moments.
fn accept_each(alloc: Global, site: &mut Site, moments: &[u64]) -> Result<(), Refusal> {
    for at in moments {
        accept(alloc, site, *at)?;
    }
    Ok(())
}

// When the forward arrives that is due next; none if another entry or nothing is due next.
fn next_arrival(site: &Site) -> Option<u64> {
    match site.least_due() {
        Some(
            Key {
                at,
                agent: 1,
                class: Class::Arrival,
                number,
            },
        ) if number == at => Some(at),
        _ => None,
    }
}

// Whether what is on its way to a site arrives at these moments, one after another.
fn has_arriving(site: &Site, moments: &[u64]) -> bool {
    let mut arriving = site.arriving();
    for at in moments {
        match arriving.next() {
            Some(transfer) if transfer.at == *at => {}
            _ => return false,
        }
    }
    arriving.next().is_none()
}

// Whether a site that has no task has forwards on their way that arrive at these moments.
fn waits_for(site: &Site, moments: &[u64]) -> bool {
    let is_next = next_arrival(site) == moments.first().copied();
    site.tasks().is_empty() && is_next && has_arriving(site, moments)
}

// Whether nothing waits for a site at first, and forwards that it accepts in one order wait in
// another.
fn has_in_order(alloc: Global, site: &mut Site, accepted: &[u64], waiting: &[u64]) -> bool {
    waits_for(site, &[]) && accept_each(alloc, site, accepted).is_ok() && waits_for(site, waiting)
}

// Whether forwards wait in the order of their moments, of which there are more than stand in a ring:
// each second one is accepted from the first on, and then the others from the last on.
fn has_many_in_order(alloc: Global, site: &mut Site) -> bool {
    for half in 0..150 {
        if accept(alloc, site, 2 * half + 1).is_err() {
            return false;
        }
    }
    for half in 0..150 {
        if accept(alloc, site, 300 - 2 * half).is_err() {
            return false;
        }
    }
    let mut arriving = site.arriving();
    for at in 1..=300 {
        match arriving.next() {
            Some(transfer) if transfer.at == at => {}
            _ => return false,
        }
    }
    arriving.next().is_none()
}

// Whether many forwards wait in the order of their moments at each of some sites.
fn have_many_in_order(alloc: Global, sites: &mut [Site]) -> bool {
    for site in sites {
        if !has_many_in_order(alloc, site) {
            return false;
        }
    }
    true
}

// The numbers of two sites, each if forwards wait at it in the order of their keys.
fn in_order(alloc: Global, sites: &mut [Site]) -> [Option<u32>; 2] {
    let mut numbers = [None; 2];
    for (number, site) in numbers.iter_mut().zip(sites) {
        if has_in_order(alloc, site, &[40, 10, 30], &[10, 30, 40]) {
            *number = Some(site.queue().site());
        }
    }
    numbers
}

#[test]
fn many_transfers_wait_in_the_order_of_their_keys(rt: HostRuntime) {
    match two_sites(rt.alloc()) {
        Some(mut sites) => {
            let are_in_order = have_many_in_order(rt.alloc(), sites.as_mut_slice());
            assert!(rt; are_in_order);
        }
        None => assert!(rt; false),
    }
}

#[test]
fn transfers_wait_in_the_order_of_their_keys(rt: HostRuntime) {
    match two_sites(rt.alloc()) {
        Some(mut sites) => {
            let numbers = in_order(rt.alloc(), sites.as_mut_slice());
            assert!(rt; numbers == [Some(0), Some(1)]);
        }
        None => assert!(rt; false),
    }
}

// Whether nothing is due in a partition without sites.
fn is_idle(alloc: Global) -> bool {
    match Partition::<Site>::new(alloc, Vec::new(alloc)) {
        Ok(partition) => partition.least_due() == None,
        Err(_) => false,
    }
}

#[test]
fn nothing_is_due_without_sites(rt: HostRuntime) {
    assert!(rt; is_idle(rt.alloc()));
}

// What a task reports of itself: its number and status, how many messages it moved, whether it is
// running and what it has due.
fn told_of(task: &Task) -> (u32, TaskStatus, u64, bool, Option<Key>) {
    (
        task.number(),
        task.status(),
        task.moved(),
        task.is_running(),
        task.due(),
    )
}

#[test]
fn tasks_are_idle_before_a_start(rt: HostRuntime) {
    let settings = TaskSettings {
        home: 0,
        to: None,
        per_second: 500,
        latency: Latency {
            least: 1,
            greatest: 1,
        },
    };
    let task = Task::new(3, settings, 7);
    let wanted = (3, TaskStatus::Idle, 0, false, None);
    assert!(rt; told_of(&task) == wanted);
}
