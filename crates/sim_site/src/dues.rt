//! The lesser of two keys, the next wake of some actors, and the next step of a site's tasks.
ghost use Rattle.std.specs.Prelude.{◌≡◌, flat_map};
ghost use Rattle.sim_clock.specs.Order.{least, lesser as the_lesser};
ghost use Rattle.sqs_model.specs.Dues.{actor_dues, task_dues};

use crate::agents::{Task, wake_of};
use sim_actor::Actor;
use sim_clock::{Key, lesser};

/// The lesser of two keys that may be absent, where it stands; of two equal keys the first.
#[inline(always)]
pub fn lesser_of<'a>(first: &'a Option<Key>, second: &'a Option<Key>) -> &'a Option<Key>
    ensures { result.now ≡ the_lesser first.now second.now }
{
    let Some(key) = second else {
        return first;
    };
    match first {
        Some(least) if !key.is_before(least) => first,
        _ => second,
    }
}

/// The key of the least wake of some actors.
pub fn least_wake_of(actors: &[Actor]) -> Option<Key>
    ensures { result ≡ least (flat_map actor_dues actors.now) }
{
    let mut best = None;
    for i in (0..actors.len()).rev() {
        best = lesser(wake_of(&actors[i]), best);
    }
    best
}

/// The key of the least step of the running tasks.
pub fn least_step(tasks: &[Task]) -> Option<Key>
    ensures { result ≡ least (flat_map task_dues tasks.now) }
{
    let mut best = None;
    for i in (0..tasks.len()).rev() {
        best = lesser(tasks[i].due(), best);
    }
    best
}
