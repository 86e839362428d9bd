//! Marks of a few places, worked out by hand.
ghost use Rattle.std.specs.Prelude.{◌≡◌, IfOk, length};

use crate::tests::same::same;
use sim_clock::{Class, Key};
use sim_index::{Mark, MarkedList, Marks, NO_MARK};
use std::alloc::{AllocError, Global};
use std::process::Abort;

// A wake at a moment, if there is one.
fn wake(at: Option<u64>) -> Option<Key> {
    match at {
        None => None,
        Some(at) => Some(Key {
            at,
            agent: 3,
            class: Class::Wake,
            number: 0,
        }),
    }
}

// What is due at a moment, and a message on these flags.
fn mark(at: Option<u64>, flags: u32) -> Mark {
    Mark {
        due: wake(at),
        flags,
    }
}

fn try_nothing(rt: &impl Abort, marks: &Marks, places: usize) {
    let told = (marks.leaves().len(), *marks.least(), marks.place_of_least());
    let found = (marks.has_on(1), marks.next(0, 1));
    same(rt, (told, found), ((places, None, None), (false, None)));
}

#[test]
fn tells_nothing_of_no_places(rt: HostRuntime) {
    try_nothing(&rt, &Marks::new(rt.alloc()), 0);
}

#[test]
fn tells_nothing_of_empty_places(rt: HostRuntime) {
    let marks = Marks::of(rt.alloc(), 1, &[]).expect(&rt, "memory");
    try_nothing(&rt, &marks, 1);
}

// Eight places of which the first five have these marks.
fn eight(alloc: Global, five: &[Mark; 5]) -> Result<Marks, AllocError>
    ensures { IfOk result (λ m. length m ≡ 8) }
{
    Marks::of(alloc, 8, five)
}

// What is put at a place, and then the least key due and the first place that has it.
const PUTS: [(usize, Option<u64>, u32, u64, usize); 5] = [
    (3, Some(7), 2, 7, 2),
    // Two places left of it get the same, and then less.
    (1, Some(7), 2, 7, 1),
    (0, Some(6), 1, 6, 0),
    (1, None, 0, 6, 0),
    (0, None, 0, 7, 2),
];

fn try_puts(rt: &impl Abort, marks: &mut Marks)
    requires { length marks.old ≡ 8 }
{
    for &(place, at, flags, least, first) in &PUTS {
        assert!(rt; place < marks.leaves().len());
        marks.put(place, &mark(at, flags));
        let told = (marks.leaves().len(), *marks.least(), marks.place_of_least());
        same(rt, told, (8, wake(Some(least)), Some(first)));
    }
}

#[test]
fn finds_the_first_of_the_least(rt: HostRuntime) {
    let five = [
        mark(None, 1),
        mark(Some(9), 2),
        mark(Some(7), 4),
        mark(Some(7), 2),
        mark(Some(8), 1),
    ];
    let mut marks = eight(rt.alloc(), &five).expect(&rt, "memory");
    try_puts(&rt, &mut marks);
}

// The place from which to look, the flags, and the first place that has a message with one of them.
const NEXTS: [(usize, u32, Option<usize>); 8] = [
    (0, 1, Some(0)),
    (1, 1, Some(4)),
    (1, 2, Some(1)),
    (2, 2, Some(3)),
    (0, 12, Some(3)),
    (4, 2, None),
    (8, 7, None),
    (0, 8, None),
];

fn try_nexts(rt: &impl Abort, marks: &Marks) {
    for &(from, flags, next) in &NEXTS {
        assert!(rt; from <= marks.leaves().len());
        same(rt, (from, marks.next(from, flags)), (from, next));
    }
}

// Flags, and whether any place has a message with one of them.
const FLAGS: [(u32, bool); 4] = [(1, true), (12, true), (8, false), (0, false)];

fn try_hosts(rt: &impl Abort, marks: &Marks) {
    for &(flags, on) in &FLAGS {
        same(rt, (flags, marks.has_on(flags)), (flags, on));
    }
}

#[test]
fn finds_the_next_on_a_host(rt: HostRuntime) {
    let five = [
        mark(None, 1),
        mark(None, 2),
        mark(None, 0),
        mark(None, 6),
        mark(None, 1),
    ];
    let marks = eight(rt.alloc(), &five).expect(&rt, "memory");
    try_nexts(&rt, &marks);
    try_hosts(&rt, &marks);
}

// Twenty values, each with a mark: the later a value comes, the earlier it is due.
fn twenty(alloc: Global) -> Result<MarkedList<u64>, AllocError> {
    let mut list = MarkedList::new(alloc);
    for value in 0..20 {
        list.push(value, &mark(Some(100 - value), 1 << (value % 4)))?;
    }
    Ok(list)
}

// The values of a list, the moments at which they are due, and the least of those with its place.
fn try_values(rt: &impl Abort, list: &MarkedList<u64>, wanted: &[(u64, Option<u64>)]) {
    same(rt, list.values().len(), wanted.len());
    for (place, &(value, at)) in wanted.iter().enumerate() {
        assert!(rt; place < list.values().len());
        let found = (list.values()[place], list.mark_at(place).due);
        same(rt, (place, found), (place, (value, wake(at))));
    }
}

#[test]
fn a_list_grows(rt: HostRuntime) {
    let list = twenty(rt.alloc()).expect(&rt, "memory");
    same(&rt, (list.values().len(), list.mark_at(20)), (20, NO_MARK));
    same(
        &rt,
        (list.least(), list.place_of_least()),
        (wake(Some(81)), Some(19)),
    );
    same(&rt, (list.has_on(8), list.has_on(16)), (true, false));
    assert!(&rt; list.values().len() == 20);
    let told = (list.next(0, 8), list.next(4, 9), list.next(19, 1));
    same(&rt, told, (Some(3), Some(4), None));
}

#[test]
fn a_list_is_made_of_values(rt: HostRuntime) {
    let values = Vec::from_array(rt.alloc(), [9, 4, 7]).expect(&rt, "memory");
    let list = MarkedList::of(rt.alloc(), values, |value| mark(Some(*value), 1));
    let list = list.expect(&rt, "memory");
    try_values(&rt, &list, &[(9, Some(9)), (4, Some(4)), (7, Some(7))]);
    same(
        &rt,
        (list.place_of_least(), list.mark_at(3)),
        (Some(1), NO_MARK),
    );
}

#[test]
fn a_list_is_changed(rt: HostRuntime) {
    let mut list = MarkedList::new(rt.alloc());
    list.reserve().expect(&rt, "memory");
    list.push(5, &mark(Some(9), 1)).expect(&rt, "memory");
    list.push(6, &mark(Some(7), 1)).expect(&rt, "memory");
    assert!(&rt; list.values().len() == 2);
    *list.value_mut(0) += 10;
    list.set_mark(1, &mark(None, 2));
    try_values(&rt, &list, &[(15, Some(9)), (6, None)]);
    same(
        &rt,
        (list.place_of_least(), list.next(0, 2)),
        (Some(0), Some(1)),
    );
    let values = list.into_values();
    same(&rt, (values.len(), values[1]), (2, 6));
}

#[test]
fn some_values_stay(rt: HostRuntime) {
    let mut list = twenty(rt.alloc()).expect(&rt, "memory");
    list.retain(|value| *value % 6 == 1).expect(&rt, "memory");
    let wanted = [(1, Some(99)), (7, Some(93)), (13, Some(87)), (19, Some(81))];
    try_values(&rt, &list, &wanted);
    same(
        &rt,
        (list.least(), list.place_of_least()),
        (wake(Some(81)), Some(3)),
    );
}

#[test]
fn nearly_all_values_stay(rt: HostRuntime) {
    let mut list = twenty(rt.alloc()).expect(&rt, "memory");
    list.retain(|value| *value != 19).expect(&rt, "memory");
    same(
        &rt,
        (list.values().len(), list.mark_at(18).due, list.mark_at(19)),
        (19, wake(Some(82)), NO_MARK),
    );
    same(
        &rt,
        (list.least(), list.place_of_least()),
        (wake(Some(82)), Some(18)),
    );
}

#[test]
fn a_list_is_cleared(rt: HostRuntime) {
    let mut list = MarkedList::new(rt.alloc());
    list.push(5, &NO_MARK).expect(&rt, "memory");
    list.clear();
    same(&rt, (list.values().len(), list.least()), (0, None));
    same(&rt, *list.least_due(), None);
}
