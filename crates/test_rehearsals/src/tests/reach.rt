//! The queues that no difference between two scenarios reaches, and what is said of them.
use crate::tests::machines::scenario;
use sqs_rehearsal::{queues_out_of_reach, reach_text};
use std::alloc::Global;

/// A queue whose dead letters go to the second one, this one, and one that no way leads to or from.
const THREE: &str = r#"version = 1
horizon = 100
[[queue]]
name = "orders"
visibility_s = 5
dead_letter = "failed"
max_receives = 2
latency_ms = 10
[[queue]]
name = "failed"
[[queue]]
name = "mail"
[[actor]]
name = "worker"
kind = "consumer"
queue = "mail"
service_min_ms = 5
service_max_ms = 9
"#;

/// A text of that scenario and one in its place, whether each queue is out of reach of that
/// difference, and what is said of those that both have by name.
const DIFFERENCES: [(&str, &str, [bool; 3], &str); 7] = [
    (
        "horizon",
        "horizon",
        [true; 3],
        "reach,orders,same\nreach,failed,same\nreach,mail,same\n",
    ),
    (
        "visibility_s = 5",
        "visibility_s = 6",
        [false, false, true],
        "reach,orders,may-differ\nreach,failed,may-differ\nreach,mail,same\n",
    ),
    (
        "\"failed\"\n[[queue]]",
        "\"failed\"\nretention_s = 60\n[[queue]]",
        [true, false, true],
        "reach,orders,same\nreach,failed,may-differ\nreach,mail,same\n",
    ),
    (
        "service_max_ms = 9",
        "service_max_ms = 10",
        [true, true, false],
        "reach,orders,same\nreach,failed,same\nreach,mail,may-differ\n",
    ),
    (
        "horizon = 100\n",
        "horizon = 100\nseed = 7\n",
        [false; 3],
        "reach,orders,may-differ\nreach,failed,may-differ\nreach,mail,may-differ\n",
    ),
    (
        "dead_letter = \"failed\"\nmax_receives = 2\nlatency_ms = 10\n",
        "",
        [false, false, true],
        "reach,orders,may-differ\nreach,failed,may-differ\nreach,mail,same\n",
    ),
    (
        "\"mail\"",
        "\"post\"",
        [true; 3],
        "reach,orders,same\nreach,failed,same\n",
    ),
];

/// The queues out of reach, and what is said of them, between that scenario and one with other texts.
fn told(alloc: Global, old: &str, new: &str) -> Option<(Vec<bool>, Vec<u8>)> {
    let first = scenario(alloc, THREE.as_bytes())?;
    let other = THREE.replace(alloc, old, new).ok()?;
    let second = scenario(alloc, other.as_bytes())?;
    let marks = queues_out_of_reach(alloc, &first, &second).ok()?;
    Some((marks, reach_text(alloc, &first, &second).ok()?))
}

#[test]
fn differences_reach_along_the_ways(rt: HostRuntime) {
    for (old, new, marks, text) in DIFFERENCES {
        match told(rt.alloc(), old, new) {
            Some((found, said)) => {
                assert!(rt; found.as_slice() == marks.as_slice(), "{new}");
                assert!(rt; said.as_slice() == text.as_bytes(), "{new}");
            }
            None => assert!(rt; false, "{new}"),
        }
    }
}
