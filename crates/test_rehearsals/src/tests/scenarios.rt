//! The ways and the parts of scenarios that were read. The expected values follow from the rules of
//! the formats.
use crate::tests::machines::{of_version_3, scenario};
use sim_engine::Edge;
use sim_scenario::{Scenario, edges};
use sqs_model::{ActorSettings, Outage, Role, Scaling, Serving, Stretch, Target};
use std::alloc::Global;

// Whether these are the ways of a scenario.
fn has_ways(alloc: Global, scenario: &Scenario, wanted: &[Edge]) -> bool {
    match edges(alloc, scenario) {
        Ok(ways) => ways.as_slice() == wanted,
        Err(_) => false,
    }
}

// A way from one queue to another, and the least time that it takes.
fn way(from: u32, to: u32, least: u64) -> Edge {
    Edge { from, to, least }
}

// The queues are 0 to 3: orders and returns, whose dead letters go to dead, and archive.
#[test]
fn scenarios_give_their_ways(rt: HostRuntime) {
    let text =
        b"version = 2\nhorizon = 90\n[[queue]]\nname = 'orders'\ndead_letter = 'dead'\nmax_receives = 3\nlatency_min_ms = 10\nlatency_max_ms = 15\n[[queue]]\nname = 'returns'\ndead_letter = 'dead'\nmax_receives = 3\nlatency_min_ms = 20\nlatency_max_ms = 25\n[[queue]]\nname = 'dead'\n[[queue]]\nname = 'archive'\n[[actor]]\nname = 'packer'\nkind = 'consumer'\nqueue = 'orders'\nservice_min_ms = 1\nservice_max_ms = 2\nforward = 'archive'\nlatency_min_ms = 30\nlatency_max_ms = 35\n[[actor]]\nname = 'reader'\nkind = 'consumer'\nqueue = 'dead'\nservice_min_ms = 1\nservice_max_ms = 2\n[[actor]]\nname = 'sorter'\nkind = 'consumer'\nqueue = 'archive'\nservice_min_ms = 1\nservice_max_ms = 2\nforward = 'returns'\nlatency_min_ms = 40\nlatency_max_ms = 45\n[[task]]\nname = 'away'\nqueue = 'dead'\nto = 'archive'\nlatency_min_ms = 50\nlatency_max_ms = 55\n[[task]]\nname = 'back'\nqueue = 'dead'\nlatency_min_ms = 60\nlatency_max_ms = 65\n".as_slice();
    let wanted = [
        way(0, 2, 10),
        way(1, 2, 20),
        way(0, 3, 30),
        way(3, 1, 40),
        way(2, 3, 50),
        way(2, 0, 60),
        way(2, 1, 60),
    ];
    match scenario(rt.alloc(), text) {
        Some(scenario) => assert!(rt; has_ways(rt.alloc(), &scenario, &wanted)),
        None => assert!(rt; false),
    }
}

// Whether a scenario has this horizon, seed and sample, and one queue with this visibility timeout
// and this name.
fn has_parts(scenario: Scenario, numbers: (u64, u64, u64), visibility: u64, name: &[u8]) -> bool {
    let is_timed = (scenario.horizon(), scenario.seed(), scenario.sample()) == numbers;
    let parts = scenario.into_parts();
    match (parts.queues.as_slice(), parts.names.as_slice()) {
        ([queue], [text]) => {
            is_timed && queue.visibility == visibility && text.as_bytes() == name
        }
        _ => false,
    }
}

#[test]
fn scenarios_give_their_parts(rt: HostRuntime) {
    let text =
        b"version = 1\nhorizon = 90\nseed = 7\nsample = 5\n[[queue]]\nname = 'q'\nvisibility_s = 3\n";
    match scenario(rt.alloc(), text) {
        Some(scenario) => assert!(rt; has_parts(scenario, (90, 7, 5), 3000, b"q")),
        None => assert!(rt; false),
    }
}

// Whether actors are one consumer with this kind of service, failed ones of 30 ms, these outages,
// and a backoff that is drawn.
fn is_served(actors: &[ActorSettings], serving: Serving, outages: &[Outage]) -> bool {
    match actors {
        [actor] => {
            match &actor.role {
                Role::Consumer(consumer) => {
                    consumer.serving == serving
                        && consumer.fail_service == Some(30)
                        && consumer.outages.as_slice() == outages
                        && consumer.jitter
                }
                _ => false,
            }
        }
        _ => false,
    }
}

#[test]
fn consumers_of_version_3_are_as_their_keys_say(rt: HostRuntime) {
    let text =
        b"version = 3\nhorizon = 90\n[[queue]]\nname = 'q'\n[[actor]]\nname = 'c'\nkind = 'consumer'\nqueue = 'q'\nservice_min_ms = 1\nservice_max_ms = 2\nbatch_service = 'once'\nservice_each_ms = 20\nfail_service_ms = 30\nfails_between_ms = [[10, 20], [5, 5]]\nfails_permille = [900, 300]\nbatch_fails = 'whole'\nbackoff_s = [1]\nbackoff_jitter = 'full'\n".as_slice();
    let outages = [
        Outage {
            stretch: Stretch { from: 10, to: 20 },
            permille: 900,
        },
        Outage {
            stretch: Stretch { from: 5, to: 5 },
            permille: 300,
        },
    ];
    match of_version_3(rt.alloc(), text) {
        Some(scenario) => {
            let parts = scenario.into_parts();
            let once = Serving::Once { each: 20 };
            assert!(rt; is_served(parts.actors.as_slice(), once, &outages));
        }
        None => assert!(rt; false),
    }
}

// What a scaler wants: one copy for each of so many messages, or steps.
#[derive(Clone, Copy)]
enum Wanted {
    PerCopy(u64),
    Steps(&'static [(u64, u64)]),
}

// Whether a scaler wants that.
fn is_wanted(target: &Target, wanted: Wanted) -> bool {
    match (target, wanted) {
        (Target::PerCopy(messages), Wanted::PerCopy(number)) => *messages == number,
        (Target::Steps(steps), Wanted::Steps(pairs)) => {
            let steps = steps.as_slice();
            steps.len() == pairs.len()
                && steps
                    .iter()
                    .zip(pairs)
                    .all(|(step, pair)| (step.visible, step.copies) == *pair)
        }
        _ => false,
    }
}

// Whether an actor is a scaler with these numbers, in the order of its settings, that wants this.
fn is_scaler(actor: &ActorSettings, numbers: [u64; 9], wanted: Wanted) -> bool {
    match &actor.role {
        Role::Scaler(scaler) => {
            let found = [
                scaler.start,
                scaler.every,
                scaler.reading,
                scaler.least as u64,
                scaler.most as u64,
                scaler.most_added as u64,
                scaler.most_taken as u64,
                scaler.cooldown_out,
                scaler.cooldown_in,
            ];
            found == numbers && is_wanted(&scaler.target, wanted)
        }
        _ => false,
    }
}

// Whether an actor is a consumer that is scaled so.
fn is_scaled(actor: &ActorSettings, scaling: Scaling) -> bool {
    match &actor.role {
        Role::Consumer(consumer) => consumer.scaling == Some(scaling),
        _ => false,
    }
}

// Whether actors are those of the test below, by the scalings of both consumers.
fn are_scaled(actors: &[ActorSettings], here: Scaling, there: Scaling) -> bool {
    match actors {
        [first, scaler, worker, other, copy, second, third] => {
            is_scaler(scaler, EVERY_KEY, Wanted::PerCopy(100))
                && is_scaler(other, FEWEST_KEYS, Wanted::Steps(&[(0, 1), (70, 9)]))
                && is_scaled(first, there)
                && is_scaled(copy, there)
                && is_scaled(worker, here)
                && is_scaled(second, here)
                && is_scaled(third, here)
        }
        _ => false,
    }
}

// The numbers of a scaler with every key, and of one with as few as there may be.
const EVERY_KEY: [u64; 9] = [1, 60_000, 20_000, 2, 12, 4, 3, 30_000, 300_000];

const FEWEST_KEYS: [u64; 9] = [0, 5000, 0, 1, 9, 1000, 1000, 0, 0];

// Queue 0 has the scaler 3 and the copies 4, 7 and 8 of a consumer; queue 1 has the copies 2 and 6,
// and behind all of these the scaler 5.
#[test]
fn scalers_and_copies_are_as_their_keys_say(rt: HostRuntime) {
    let text =
        b"version = 3\nhorizon = 90\n[[queue]]\nname = 'q'\n[[queue]]\nname = 'r'\n[[actor]]\nname = 'p'\nkind = 'consumer'\nqueue = 'r'\nservice_min_ms = 1\nservice_max_ms = 2\ncopies = 2\nscaler = 't'\n[[actor]]\nname = 's'\nkind = 'scaler'\nqueue = 'q'\nstart_ms = 1\nevery_s = 60\nreading_s = 20\nvisible_per_copy = 100\ncopies_min = 2\ncopies_max = 12\nadded_max = 4\ntaken_max = 3\ncooldown_out_s = 30\ncooldown_in_s = 300\n[[actor]]\nname = 'w'\nkind = 'consumer'\nqueue = 'q'\nservice_min_ms = 1\nservice_max_ms = 2\ncopies = 3\nscaler = 's'\nscaler_start_ms = 45000\n[[actor]]\nname = 't'\nkind = 'scaler'\nqueue = 'r'\nevery_s = 5\nsteps = [[0, 1], [70, 9]]\ncopies_max = 9\n".as_slice();
    let here = Scaling {
        scaler: 3,
        second: 7,
        start: 45_000,
    };
    let there = Scaling {
        scaler: 5,
        second: 6,
        start: 0,
    };
    match of_version_3(rt.alloc(), text) {
        Some(scenario) => {
            let parts = scenario.into_parts();
            assert!(rt; are_scaled(parts.actors.as_slice(), here, there));
        }
        None => assert!(rt; false),
    }
}
