//! Partitions and rosters of three counters, worked out by hand.
ghost use Rattle.std.specs.Prelude.{◌≡◌, ◌<◌, ◌≤◌};
ghost use Rattle.sim_engine.specs.Limits.{most_count};

use crate::tests::same::same;
use sim_clock::{Agenda, Class, Key, Refusal};
use sim_engine::{Effects, Site};
use sim_partition::{Partition, Roster};
use sim_ring::{Counter, Token, Told};
use std::alloc::{AllocError, Global};
use std::process::Abort;

// A counter with this number, to which nothing is on its way.
fn counter(alloc: Global, number: u32) -> Counter
    ensures number { result.number ≡ number }
    ensures takes_time { 1 ≤ result.way }
{
    Counter {
        number,
        next: 0,
        way: 5,
        count: 0,
        arriving: Agenda::new(alloc),
    }
}

// A partition of the counters 2, 3 and 9.
fn open_three(rt: &impl Abort, alloc: Global) -> Partition<Counter> {
    let first = counter(alloc, 2);
    let second = counter(alloc, 3);
    let third = counter(alloc, 9);
    let sites = vec![in alloc; first, second, third].expect(rt, "memory");
    Partition::new(alloc, sites).expect(rt, "memory")
}

// A token to a counter, with its arrival, its sender and its number.
fn token(to: u32, at: u64, sender: u32, number: u64) -> Token {
    let key = Key {
        at,
        agent: sender,
        class: Class::Arrival,
        number,
    };
    Token { key, to }
}

// Puts tokens on their way to a partition, whose counters accept them at once or later.
fn deliver(
    partition: &mut Partition<Counter>,
    tokens: Vec<Token>,
    later: bool,
) -> Result<(), Refusal> {
    if later {
        partition.deliver_later(tokens)
    } else {
        partition.deliver(tokens)
    }
}

// Handles the least entry due, at a moment.
fn step_at(partition: &mut Partition<Counter>, now: u64) -> Result<Effects<Told, Token>, Refusal>
    requires { now ≤ most_count }
{
    match partition.least_due() {
        Some(key) if key.at == now => partition.step(),
        _ => Err(Refusal::BadMap),
    }
}

// Compares the moment and the sender of the least entry due.
fn try_due(rt: &impl Abort, partition: &Partition<Counter>, wanted: Option<(u64, u32)>) {
    let due = match partition.least_due() {
        None => None,
        Some(key) => Some((key.at, key.agent)),
    };
    same(rt, due, wanted);
}

// Handles the least entry due at 10 milliseconds: one row and one token. No more is due before
// then.
fn try_step(rt: &impl Abort, partition: &mut Partition<Counter>) {
    let made = step_at(partition, 10).expect(rt, "a handling");
    same(rt, (made.rows.len(), made.sent.len()), (1, 1));
}

// Runs to a moment, and compares the counters of the rows. Each sends its token on.
fn try_run(rt: &impl Abort, partition: &mut Partition<Counter>, end: u64, wanted: &[u32])
    requires { end ≤ most_count }
{
    let made = partition.run_to(end).expect(rt, "a run");
    same(
        rt,
        (made.rows.len(), made.sent.len()),
        (wanted.len(), wanted.len()),
    );
    for (row, &number) in made.rows.iter().zip(wanted) {
        same(rt, row.number, number);
    }
}

// Tokens of one moment, each to another counter, and one to a counter that is not there.
fn at_once() -> [Token; 4] {
    [
        token(9, 10, 2, 0),
        token(4, 5, 1, 1),
        token(2, 10, 9, 0),
        token(3, 10, 3, 0),
    ]
}

// Tokens of one sender.
fn of_one_sender() -> [Token; 4] {
    [
        token(3, 20, 1, 7),
        token(9, 20, 1, 2),
        token(4, 5, 1, 1),
        token(9, 10, 1, 8),
    ]
}

// Opens a partition to which tokens are on their way, and handles the first that is due. Nothing
// more is due before a moment, and there these counters get theirs.
fn try_tokens(
    rt: &impl Abort,
    alloc: Global,
    tokens: [Token; 4],
    later: bool,
    first: (u64, u32),
    moment: u64,
    wanted: &[u32],
) -> Partition<Counter>
    requires { moment < most_count }
{
    let mut partition = open_three(rt, alloc);
    try_due(rt, &partition, None);
    let tokens = Vec::from_array(alloc, tokens).expect(rt, "memory");
    deliver(&mut partition, tokens, later).expect(rt, "a delivery");
    try_due(rt, &partition, Some(first));
    try_step(rt, &mut partition);
    try_run(rt, &mut partition, moment, &[]);
    try_run(rt, &mut partition, moment + 1, wanted);
    try_due(rt, &partition, None);
    partition
}

#[test]
fn entries_of_one_moment_go_by_key(rt: HostRuntime) {
    let partition = try_tokens(&rt, rt.alloc(), at_once(), false, (10, 2), 10, &[3, 2]);
    same(&rt, partition.spent(), None);
}

// A roster of the counters 2, 3 and 9.
fn roster_of_three(rt: &impl Abort, alloc: Global) -> Roster<Counter> {
    let first = counter(alloc, 2);
    let second = counter(alloc, 3);
    let third = counter(alloc, 9);
    let sites = vec![in alloc; first, second, third].expect(rt, "memory");
    Roster::new(alloc, sites).expect(rt, "memory")
}

// Handles the least entry due of a roster, at a moment.
fn step_into_at(
    roster: &mut Roster<Counter>,
    effects: &mut Effects<Told, Token>,
    now: u64,
) -> Result<(), Refusal>
    requires { now ≤ most_count }
{
    match roster.least_due() {
        Some(key) if key.at == now => roster.step_into(effects),
        _ => Err(Refusal::BadMap),
    }
}

#[test]
fn a_roster_appends_what_it_makes(rt: HostRuntime) {
    let mut roster = roster_of_three(&rt, rt.alloc());
    // Of two tokens the later one is due next, since the counter of the other is not there.
    let sooner = [token(9, 7, 1, 3), token(4, 5, 1, 1)];
    let due = roster.least_due_after(&sooner).map_or(0, |key| key.at);
    same(&rt, due, 7);
    let tokens = Vec::from_array(rt.alloc(), at_once()).expect(&rt, "memory");
    roster.deliver(tokens).expect(&rt, "a delivery");
    let mut effects = Effects::new(rt.alloc());
    step_into_at(&mut roster, &mut effects, 10).expect(&rt, "a handling");
    step_into_at(&mut roster, &mut effects, 10).expect(&rt, "a handling");
    same(&rt, (effects.rows.len(), effects.sent.len()), (2, 2));
    let made = roster.run_to(11).expect(&rt, "a run");
    effects.rows.extend(made.rows).expect(&rt, "memory");
    for (row, number) in effects.rows.iter().zip([9, 3, 2]) {
        same(&rt, row.number, number);
    }
    same(&rt, roster.spent(), None);
    same(&rt, roster.into_sites().len(), 3);
}

#[test]
fn tokens_arrive_where_they_go(rt: HostRuntime) {
    // Of two with one moment and one sender the lesser number comes first.
    let partition = try_tokens(&rt, rt.alloc(), of_one_sender(), true, (10, 1), 20, &[9, 3]);
    same(&rt, partition.into_sites().expect(&rt, "memory").len(), 3);
}

#[test]
fn tokens_for_later_are_on_their_way(rt: HostRuntime) {
    let mut partition = open_three(&rt, rt.alloc());
    let tokens = Vec::from_array(rt.alloc(), at_once()).expect(&rt, "memory");
    deliver(&mut partition, tokens, true).expect(&rt, "a delivery");
    let sites = partition.into_sites().expect(&rt, "memory");
    for counter in &sites {
        let due = match counter.least_due() {
            None => None,
            Some(key) => Some(key.at),
        };
        same(&rt, due, Some(10));
    }
}

// The most that a counter counts.
const MOST: u64 = 4_611_686_018_427_387_903;

// A partition of one counter that has counted as much as it may. A token is on its way to it.
fn open_full(rt: &impl Abort, alloc: Global) -> Partition<Counter> {
    let mut full = counter(alloc, 2);
    full.count = MOST;
    let sites = vec![in alloc; full].expect(rt, "memory");
    let mut partition = Partition::new(alloc, sites).expect(rt, "memory");
    let tokens = Vec::from_array(alloc, [token(2, 10, 1, 0)]).expect(rt, "memory");
    deliver(&mut partition, tokens, false).expect(rt, "a delivery");
    partition
}

// Runs past the token, and compares what the run is refused with.
fn try_refused(rt: &impl Abort, partition: &mut Partition<Counter>, wanted: Refusal) {
    let refused = match partition.run_to(11) {
        Ok(_) => None,
        Err(refusal) => Some(refusal),
    };
    same(rt, refused, Some(wanted));
}

#[test]
fn a_partition_of_one_site_says_what_spent_it(rt: HostRuntime) {
    let mut partition = open_full(&rt, rt.alloc());
    try_due(&rt, &partition, Some((10, 1)));
    try_refused(&rt, &mut partition, Refusal::CountLimit);
    try_refused(&rt, &mut partition, Refusal::CountLimit);
    same(&rt, partition.spent(), Some(Refusal::CountLimit));
    try_due(&rt, &partition, None);
    let none = deliver(&mut partition, Vec::new(rt.alloc()), false);
    same(&rt, none, Err(Refusal::CountLimit));
}
