use crate::tests::same::same;
use sim_clock::{Agenda, Class, Key, Refusal, lesser};
use std::process::Abort;

fn key(at: u64, agent: u32, class: Class, number: u64) -> Key {
    Key {
        at,
        agent,
        class,
        number,
    }
}

#[test]
fn keys_compare_by_moment_agent_class_and_number(rt: HostRuntime) {
    let ascending = [
        key(5, 9, Class::Step, 9),
        key(6, 1, Class::Arrival, 7),
        key(6, 2, Class::Expiry, 3),
        key(6, 2, Class::Release, 0),
        key(6, 2, Class::Release, 1),
        key(6, 2, Class::Sample, 0),
        key(7, 0, Class::Expiry, 0),
    ];
    for i in 0..6 {
        let (first, second) = (ascending[i], ascending[i + 1]);
        let before = (first.is_before(&second), second.is_before(&first));
        same(&rt, (i, before), (i, (true, false)));
        same(&rt, (i, first.is_before(&first)), (i, false));
    }
}

#[test]
fn the_lesser_of_two_keys(rt: HostRuntime) {
    let first = Some(key(6, 2, Class::Expiry, 3));
    let second = Some(key(6, 2, Class::Release, 0));
    let found = [
        lesser(second, first),
        lesser(None, first),
        lesser(first, None),
    ];
    same(&rt, found, [first; 3]);
}

fn try_agenda(rt: &impl Abort, agenda: &mut Agenda) {
    same(rt, (agenda.peek(), agenda.pop_least()), (None, None));
    for &at in &[40, 10, 30, 10, 20] {
        agenda.push(key(at, 0, Class::Wake, 0)).expect(rt, "memory");
    }
    for &at in &[10, 10, 20, 30, 40] {
        let least = Some(key(at, 0, Class::Wake, 0));
        same(rt, (agenda.peek(), agenda.pop_least()), (least, least));
    }
    same(rt, (agenda.peek(), agenda.pop_least()), (None, None));
}

#[test]
fn agenda_gives_the_least_key_first(rt: HostRuntime) {
    try_agenda(&rt, &mut Agenda::new(rt.alloc()));
}

// The refusals that are displayed as their names, and their numbers.
const NAMED: [(Refusal, u8, &str); 26] = [
    (Refusal::OverLimit, 1, "OverLimit"),
    (Refusal::MessageNotInflight, 2, "MessageNotInflight"),
    (Refusal::ReceiptHandleIsInvalid, 3, "ReceiptHandleIsInvalid"),
    (Refusal::BadTimeout, 4, "BadTimeout"),
    (Refusal::MissingGroup, 5, "MissingGroup"),
    (Refusal::MissingDeduplication, 6, "MissingDeduplication"),
    (Refusal::BadDelay, 7, "BadDelay"),
    (Refusal::TaskRunning, 8, "TaskRunning"),
    (Refusal::NoTask, 9, "NoTask"),
    (Refusal::NotToml, 10, "NotToml"),
    (Refusal::UnknownKey, 11, "UnknownKey"),
    (Refusal::MissingKey, 12, "MissingKey"),
    (Refusal::WrongType, 13, "WrongType"),
    (Refusal::OutOfRange, 14, "OutOfRange"),
    (Refusal::BadName, 15, "BadName"),
    (Refusal::NameTwice, 16, "NameTwice"),
    (Refusal::UnknownQueue, 17, "UnknownQueue"),
    (Refusal::KindMismatch, 18, "KindMismatch"),
    (Refusal::TooMany, 19, "TooMany"),
    (Refusal::BadScript, 20, "BadScript"),
    (Refusal::BadMap, 31, "BadMap"),
    (Refusal::BadWorkers, 32, "BadWorkers"),
    (Refusal::CountLimit, 33, "CountLimit"),
    (Refusal::Memory, 34, "Memory"),
    (Refusal::NoWorker, 35, "NoWorker"),
    (Refusal::Write, 36, "Write"),
];

#[test]
fn refusals_have_numbers_and_names(rt: HostRuntime) {
    for &(refusal, code, name) in &NAMED {
        let shown = refusal.to_string(rt.alloc()).expect(&rt, "memory");
        same(&rt, (refusal.code(), refusal.name()), (code, name));
        same(&rt, shown.as_str(), name);
    }
}

#[test]
fn a_window_that_is_too_long_is_shown_with_its_bound(rt: HostRuntime) {
    let window = Refusal::WindowTooLong {
        window: 501,
        least: 500,
    };
    let shown = window.to_string(rt.alloc()).expect(&rt, "memory");
    same(&rt, (window.code(), window.name()), (30, "WindowTooLong"));
    same(&rt, shown.as_str(), "WindowTooLong 501 500");
}
