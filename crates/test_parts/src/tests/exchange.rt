//! Partitions, transfers, rows and distances, worked out by hand.
ghost use Rattle.std.specs.Prelude.{◌≡◌};

use crate::tests::same::same;
use sim_clock::{Class, Key, Refusal};
use sim_engine::Edge;
use sim_exchange::{Distances, Lists, PartMap, exchange, merge_rows};
use sim_ring::{Counter, Token, Told};
use std::alloc::{AllocError, Global};
use std::process::Abort;

// The numbers of queues and of partitions, and the partition of each queue. Then the map's number
// of partitions and the partitions of the queues 0 to 3, or the error.
const MAPS: [(usize, u32, &[u32], Result<[u32; 5], Refusal>); 8] = [
    (3, 2, &[1, 0, 1], Ok([2, 1, 0, 1, 0])),
    (1, 256, &[255], Ok([256, 255, 0, 0, 0])),
    // A partition with no queue.
    (2, 2, &[0, 0], Ok([2, 0, 0, 0, 0])),
    // No partitions, and too many.
    (0, 0, &[], Err(Refusal::BadMap)),
    (1, 257, &[0], Err(Refusal::BadMap)),
    // A queue without a partition, and more partitions than queues.
    (2, 2, &[0], Err(Refusal::BadMap)),
    (2, 2, &[0, 1, 1], Err(Refusal::BadMap)),
    // No such partition.
    (2, 2, &[0, 2], Err(Refusal::BadMap)),
];

fn parts_of(map: Result<PartMap, Refusal>) -> Result<[u32; 5], Refusal> {
    match map {
        Ok(map) => Ok([
            map.parts(),
            map.part_of(0),
            map.part_of(1),
            map.part_of(2),
            map.part_of(3),
        ]),
        Err(refusal) => Err(refusal),
    }
}

#[test]
fn a_map_gives_each_queue_a_partition(rt: HostRuntime) {
    for &(queues, parts, owners, wanted) in &MAPS {
        let owners = owners.to_vec(rt.alloc()).expect(&rt, "memory");
        same(&rt, parts_of(PartMap::new(queues, parts, owners)), wanted);
    }
}

// A token that arrives at a counter at a moment, with its sender and how many the sender sent
// before.
fn token(at: u64, sender: u32, number: u64, to: u32) -> Token {
    Token {
        key: Key {
            at,
            agent: sender,
            class: Class::Arrival,
            number,
        },
        to,
    }
}

// Compares the moment, sender, number and destination of each token.
fn try_tokens(rt: &impl Abort, found: &[Token], wanted: &[(u64, u32, u64, u32)]) {
    same(rt, found.len(), wanted.len());
    for (one, &wanted) in found.iter().zip(wanted) {
        let key = one.key;
        same(rt, (key.at, key.agent, key.number, one.to), wanted);
    }
}

// The tokens that the partitions 0 and 1 send.
fn sent(alloc: Global) -> Result<Vec<Vec<Token>>, AllocError> {
    let first = vec![in alloc; token(50, 1, 0, 3), token(50, 0, 3, 0), token(40, 9, 0, 2)]?;
    let second = vec![in alloc;
        token(50, 0, 1, 1),
        token(50, 0, 2, 2),
        token(50, 1, 0, 2),
        token(30, 5, 7, 0),
    ]?;
    Ok(vec![in alloc; first, second]?)
}

// The tokens that each of them gets. Two tokens have one key: the one that came first stays first.
const DEALT: [&[(u64, u32, u64, u32)]; 2] = [
    &[(30, 5, 7, 0), (50, 0, 1, 1), (50, 0, 3, 0)],
    &[(40, 9, 0, 2), (50, 0, 2, 2), (50, 1, 0, 3), (50, 1, 0, 2)],
];

#[test]
fn each_partition_gets_its_transfers_in_order(rt: HostRuntime) {
    // Counters 0 and 1 are in partition 0, counters 2 and 3 in partition 1.
    let owners = [0, 0, 1, 1].to_vec(rt.alloc()).expect(&rt, "memory");
    let layout = PartMap::new(4, 2, owners).expect(&rt, "a map");
    let sent = sent(rt.alloc()).expect(&rt, "memory");
    let lists = exchange::<Counter>(rt.alloc(), sent, &layout).expect(&rt, "memory");
    same(&rt, lists.len(), 2);
    for (found, &wanted) in lists.iter().zip(&DEALT) {
        try_tokens(&rt, found, wanted);
    }
}

// A row of a handling at a moment, at a site, with the number of its list.
fn row(at: u64, site: u32, list: u64) -> Told {
    Told {
        key: Key {
            at,
            agent: 7,
            class: Class::Wake,
            number: 0,
        },
        number: site,
        count: list,
    }
}

// Merges lists of rows, and compares moment, site and list of each row.
fn try_merge(rt: &impl Abort, alloc: Global, lists: Vec<Vec<Told>>, wanted: &[(u64, u32, u64)]) {
    let mut kept = Vec::new(alloc);
    for list in lists {
        let list = Lists::of(alloc, list).expect(rt, "memory");
        kept.push(list).expect(rt, "memory");
    }
    let rows = merge_rows::<Counter>(alloc, kept).expect(rt, "memory");
    same(rt, rows.len(), wanted.len());
    for (row, &wanted) in rows.iter().zip(wanted) {
        same(rt, (row.key.at, row.number, row.count), wanted);
    }
}

fn three_lists(alloc: Global) -> Result<Vec<Vec<Told>>, AllocError> {
    let first = vec![in alloc; row(10, 2, 0), row(20, 0, 0)]?;
    let second = vec![in alloc; row(10, 1, 1), row(10, 2, 1), row(30, 1, 1)]?;
    let third = vec![in alloc; row(10, 0, 2), row(20, 0, 2)]?;
    Ok(vec![in alloc; first, second, third]?)
}

#[test]
fn rows_come_by_key_and_site(rt: HostRuntime) {
    let wanted = [
        (10, 0, 2),
        (10, 1, 1),
        (10, 2, 0),
        (10, 2, 1),
        (20, 0, 0),
        (20, 0, 2),
        (30, 1, 1),
    ];
    let lists = three_lists(rt.alloc()).expect(&rt, "memory");
    try_merge(&rt, rt.alloc(), lists, &wanted);
}

// Two lists without rows, before and after one with a row.
fn about_one(alloc: Global) -> Result<Vec<Vec<Told>>, AllocError> {
    let rows = vec![in alloc; row(10, 2, 1)]?;
    Ok(vec![in alloc; Vec::new(alloc), rows, Vec::new(alloc)]?)
}

#[test]
fn lists_with_no_rows_change_nothing(rt: HostRuntime) {
    try_merge(&rt, rt.alloc(), Vec::new(rt.alloc()), &[]);
    let lists = about_one(rt.alloc()).expect(&rt, "memory");
    try_merge(&rt, rt.alloc(), lists, &[(10, 2, 1)]);
}

// The numbers below 54 in lists of 20, 1, 17, 0 and 16.
fn numbers(rt: &impl Abort, alloc: Global) -> Lists<u64> {
    let mut lists = Lists::new(alloc);
    for (from, to) in [(0, 20), (20, 21), (21, 38), (38, 38), (38, 54)] {
        let mut list = Vec::new(alloc);
        for number in from..to {
            list.push(number).expect(rt, "memory");
        }
        lists.add(list).expect(rt, "memory");
    }
    lists
}

// Compares the elements of some lists, one after another, with the numbers below 54.
fn try_numbers(rt: &impl Abort, alloc: Global, lists: &[Vec<u64>]) {
    let mut all = Vec::new(alloc);
    for list in lists {
        all.extend_from_slice(list).expect(rt, "memory");
    }
    same(rt, all.len(), 54);
    for (found, wanted) in all.iter().zip(0..54) {
        same(rt, *found, wanted);
    }
}

#[test]
fn lists_stay_in_their_order(rt: HostRuntime) {
    let lists = numbers(&rt, rt.alloc());
    try_numbers(&rt, rt.alloc(), lists.as_lists());
    let lists = lists.into_lists();
    try_numbers(&rt, rt.alloc(), &lists);
    let one = numbers(&rt, rt.alloc())
        .into_one(rt.alloc())
        .expect(&rt, "memory");
    try_numbers(&rt, rt.alloc(), &[one]);
}

// The distance from one partition to another, if there is one.
type Distance = (u32, u32, Option<u64>);

// What is due in each partition, the partition, the horizon, and the bound.
type Bound = (&'static [Option<u64>], u32, u32, u64);

fn try_bounds(rt: &impl Abort, layout: &PartMap, distances: &Distances, bounds: &[Bound])
    requires { distances.now.parts ≡ layout.now.parts }
{
    for &(dues, part, horizon, bound) in bounds {
        assert!(rt; dues.len() == layout.parts() as usize);
        same(rt, distances.bound(dues, part, u64::from(horizon)), bound);
    }
}

// Computes the distances over ways between queues, each with its least latency of 1 to 900,000
// milliseconds, and compares them. The partitions have the numbers of the queues.
fn try_ways(
    rt: &impl Abort,
    layout: &PartMap,
    alloc: Global,
    ways: &[(u32, u32, u64)],
    wanted: (&[Distance], &[Bound]),
) {
    let mut edges = Vec::new(alloc);
    for &(from, to, least) in ways {
        edges.push(Edge { from, to, least }).expect(rt, "memory");
    }
    assert!(rt;
        edges
            .iter()
            .all(|way| 1 <= way.least && way.least <= 900_000)
    );
    let distances = Distances::new(alloc, &edges, layout).expect(rt, "memory");
    for &(from, to, distance) in wanted.0 {
        same(
            rt,
            (from, to, distances.between(from, to)),
            (from, to, distance),
        );
    }
    try_bounds(rt, layout, &distances, wanted.1);
}

// The partitions of some queues.
fn layout(rt: &impl Abort, alloc: Global, parts: u32, owners: &[u32]) -> PartMap {
    let queues = owners.len();
    let owners = owners.to_vec(alloc).expect(rt, "memory");
    PartMap::new(queues, parts, owners).expect(rt, "a map")
}

#[test]
fn a_cycle_comes_back(rt: HostRuntime) {
    let ways = [(0, 1, 10), (1, 0, 10)];
    let distances = [
        (0, 0, Some(20)),
        (0, 1, Some(10)),
        (1, 0, Some(10)),
        (1, 1, Some(20)),
    ];
    let bounds: [Bound; 6] = [
        (&[Some(0), None], 0, 100, 20),
        (&[Some(0), None], 1, 100, 10),
        (&[Some(0), None], 0, 5, 6),
        (&[None, None], 0, 100, 101),
        (&[Some(35), Some(20)], 1, 100, 40),
        (&[Some(u64::MAX), None], 1, 100, 101),
    ];
    let apart = layout(&rt, rt.alloc(), 2, &[0, 1]);
    try_ways(&rt, &apart, rt.alloc(), &ways, (&distances, &bounds));
}

#[test]
fn a_way_through_a_third_partition_may_be_shorter(rt: HostRuntime) {
    let ways = [
        (0, 1, 500),
        (2, 1, 200),
        (0, 2, 150),
        (0, 1, 450),
        (0, 2, 100),
    ];
    let distances = [
        (0, 1, Some(300)),
        (0, 2, Some(100)),
        (2, 1, Some(200)),
        (1, 0, None),
        (0, 0, None),
    ];
    let apart = layout(&rt, rt.alloc(), 3, &[0, 1, 2]);
    try_ways(&rt, &apart, rt.alloc(), &ways, (&distances, &[]));
}

#[test]
fn a_way_within_a_partition_leads_back_to_it(rt: HostRuntime) {
    let ways = [(0, 1, 500)];
    let distances = [(0, 0, Some(500)), (0, 1, None)];
    let bounds: [Bound; 1] = [(&[Some(7)], 0, 1000, 507)];
    let together = layout(&rt, rt.alloc(), 1, &[0, 0]);
    try_ways(&rt, &together, rt.alloc(), &ways, (&distances, &bounds));
}
