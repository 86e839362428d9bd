//! Machines of partitions, pick by pick, and the run on one list whose result each has.
ghost use Rattle.std.specs.Prelude.{◌≡◌, ◌≤◌, IfOk, IfSome, false};
ghost use Rattle.sim_records.specs.Writers.{has_failed};

use crate::tests::worked::{
    IDLE_TIME, LATENCY_BETWEEN_BOUNDS, MOVED_BACK, ONE_FORWARD, ONE_REDRIVE, THERE_AND_BACK,
    THREE_QUEUES, Worked,
};
use sim_clock::Refusal;
use sim_draw::Draws;
use sim_engine::Pick;
use sim_exchange::PartMap;
use sim_records::{Names, ToWriter, write_finals, write_header, write_rows};
use sim_report::Report;
use sim_scenario::{Draft, Newest, Scenario, Scripts, read};
use sim_site::Site;
use sim_windows::{Ended, Machine, RowSink};
use sqs_message::{Row, Text};
use sqs_rehearsal::{finals_of, open_machine, run_alone};
use std::alloc::{AllocError, Global};
use std::fmt::Write;
use std::process::Abort;

/// Writes the log of a run, and then the state at its end; counts its rows.
#[derive(Drop)]
struct Logged {
    alloc: Global,
    names: Names,
    out: ToWriter<Vec<u8>>,
    report: Report,
}

impl RowSink<Row> for Logged {
    ghost use Rattle.std.specs.Prelude.{◌≡◌, false};
    ghost use Rattle.sim_records.specs.Writers.{has_failed};

    ghost ready = { λ logged. has_failed logged.out ≡ false };

    ghost took = { λ _ _ _. Unit {0} };

    ghost broke = { λ _ _ _ _. Unit {0} };

    fn take(&mut self, rows: &[Row]) -> Result<(), Refusal> {
        write_rows(self.alloc, &mut self.out, rows, &self.names)?;
        self.report.add(rows)?;
        Ok(())
    }

    ghost unchanged = { λ _. record {} };

    ghost took_both = { λ _ _ _ _ _ _ _. record {} };

    ghost broke_later = { λ _ _ _ _ _ _ _ _. record {} };
}

impl Logged {
    /// Writes the state of these sites at the end, and the report.
    fn end(&mut self, sites: &[Site]) -> Result<(), Refusal>
        requires { has_failed self.old.out ≡ false }
    {
        let finals = finals_of(self.alloc, sites)?;
        write_finals(self.alloc, &mut self.out, &finals, &self.names)?;
        self.report.write_report(self.alloc, &mut self.out, &finals)
    }

    /// Writes everything of a run that has ended.
    fn write_run(&mut self, ended: &Ended<Site>) -> Result<(), Refusal>
        requires { has_failed self.old.out ≡ false }
    {
        self.take(ended.rows.as_slice())?;
        self.end(ended.sites.as_slice())
    }

    /// Runs a scenario on one list, and writes everything as it goes on.
    fn run(&mut self, scenario: Scenario) -> Result<(), Refusal>
        requires { has_failed self.old.out ≡ false }
    {
        let sites = run_alone(self.alloc, scenario, self)?;
        self.end(sites.as_slice())
    }
}

/// The scenario of a text without script files.
pub fn scenario(alloc: Global, text: &[u8]) -> Option<Scenario> {
    read(alloc, text, &Scripts::new(Vec::new(alloc))).ok()
}

/// The same, if version 3 may be read, too.
pub fn of_version_3(alloc: Global, text: &[u8]) -> Option<Scenario> {
    let draft = Draft::parse_upto(alloc, Newest::Third, text).ok()?;
    draft.read(alloc, &Scripts::new(Vec::new(alloc))).ok()
}

/// Copies of names.
pub fn copies(alloc: Global, names: &[Text]) -> Result<Vec<Text>, AllocError> {
    let mut copies = Vec::new(alloc);
    for name in names {
        copies.push(name.copy(alloc)?)?;
    }
    Ok(copies)
}

/// The report of no rows of a scenario.
fn fresh_report(alloc: Global, scenario: &Scenario) -> Result<Report, AllocError> {
    let queues = scenario.queues().len();
    let names = copies(alloc, &scenario.names()[..queues])?;
    Report::new(alloc, names, None)
}

/// A log of a scenario that has only its header.
fn fresh_log(alloc: Global, scenario: &Scenario) -> Result<Logged, Refusal>
    ensures { IfOk result (λ logged. has_failed logged.out ≡ false) }
{
    let names = Names::new(copies(alloc, scenario.names())?);
    let report = fresh_report(alloc, scenario)?;
    let mut out = ToWriter::new(Vec::new(alloc));
    write_header(alloc, &mut out)?;
    Ok(Logged {
        alloc,
        names,
        out,
        report,
    })
}

/// The bytes that a scenario's run on one list writes.
fn one_list(alloc: Global, text: &[u8]) -> Option<Vec<u8>> {
    let scenario = scenario(alloc, text)?;
    let mut logged = fresh_log(alloc, &scenario).ok()?;
    logged.run(scenario).ok()?;
    Some(logged.out.into_inner())
}

/// Whether these are the expected log and ending.
fn is_wanted(told: &Option<Vec<u8>>, wanted: Worked) -> bool {
    match told {
        Some(told) => told.as_slice().strip_prefix(wanted.log) == Some(wanted.ending),
        None => false,
    }
}

/// The map of `queues` queues that are assigned to `parts` partitions in turn.
pub fn in_turn(alloc: Global, queues: usize, parts: u32) -> Result<PartMap, Refusal> {
    let mut owners = Vec::new(alloc);
    let mut part: u32 = 0;
    for _ in 0..queues {
        owners.push(part)?;
        let next = part.saturating_add(1);
        part = if next < parts { next } else { 0 };
    }
    PartMap::new(queues, parts, owners)
}

/// The machine of a scenario, its queues in `parts` partitions in turn.
fn machine(
    alloc: Global,
    scenario: Scenario,
    parts: u32,
    window: u64,
) -> Result<Machine<Site>, Refusal> {
    let layout = in_turn(alloc, scenario.queues().len(), parts)?;
    open_machine(alloc, scenario, layout, window)
}

/// The machine of a text, and its log.
fn opened(alloc: Global, text: &[u8], parts: u32, window: u64) -> Option<(Machine<Site>, Logged)>
    ensures { IfSome result (λ p. has_failed p.1.out ≡ false) }
{
    let scenario = scenario(alloc, text)?;
    let logged = fresh_log(alloc, &scenario).ok()?;
    let machine = machine(alloc, scenario, parts, window).ok()?;
    Some((machine, logged))
}

/// The pick of a partition, and of a barrier by the number after theirs.
fn pick(number: u32, parts: u32) -> Pick {
    if number < parts {
        Pick::Part(number)
    } else {
        Pick::Barrier
    }
}

/// Picks each partition, and then a barrier. Returns how many picks took effect.
fn pick_each(machine: &mut Machine<Site>, parts: u32) -> Result<u64, Refusal> {
    let mut effects: u64 = 0;
    for number in 0..=parts {
        effects = effects.saturating_add(machine.play(&[pick(number, parts)])?);
    }
    Ok(effects)
}

/// Plays on until the machine is finished. Returns how many picks took effect.
fn play_on(machine: &mut Machine<Site>, parts: u32) -> Option<u64> {
    let mut effects: u64 = 0;
    for _ in 0..1_000_000 {
        if machine.finished() {
            return Some(effects);
        }
        effects = effects.saturating_add(pick_each(machine, parts).ok()?);
    }
    None
}

/// Writes the result of a finished machine.
fn write_end(machine: Machine<Site>, logged: &mut Logged) -> Result<(), Refusal>
    requires { has_failed logged.old.out ≡ false }
{
    let ended = machine.into_run()?;
    logged.write_run(&ended)
}

/// The bytes of the result of a finished machine.
fn told_by(machine: Machine<Site>, mut logged: Logged) -> Option<Vec<u8>>
    requires { has_failed logged.out ≡ false }
{
    write_end(machine, &mut logged).ok()?;
    Some(logged.out.into_inner())
}

/// Some picks, how many of them take effect, and the end of the window after them.
type Play<'a> = (&'a [Pick], u64, u64);

/// Whether picks take effect in this way.
fn take_effect(machine: &mut Machine<Site>, plays: &[Play<'_>]) -> bool {
    for (picks, effects, end) in plays {
        match machine.play(picks) {
            Ok(count) if count == *effects && machine.window_end() == *end => {}
            _ => return false,
        }
    }
    true
}

/// Whether a scenario's machine behaves as expected: its window ends here at first, lists of picks
/// take effect so one after another, and playing on gives what the scenario writes. It picks three
/// partitions, even if there is no third.
fn comes_to(
    alloc: Global,
    (parts, window): (u32, u64),
    end: u64,
    plays: &[Play<'_>],
    wanted: Worked,
) -> bool {
    match opened(alloc, wanted.text, parts, window) {
        Some((mut machine, logged)) => {
            let is_so = machine.window_end() == end
                && take_effect(&mut machine, plays)
                && play_on(&mut machine, 3).is_some();
            let told = told_by(machine, logged);
            is_so && is_wanted(&told, wanted)
        }
        None => false,
    }
}

#[test]
fn an_arrival_waits_for_the_barrier(rt: HostRuntime) {
    let (first, second) = (Pick::Part(0), Pick::Part(1));
    let plays: [Play<'_>; 3] = [
        (&[first, first, Pick::Barrier], 3, 2001),
        (&[first, second, Pick::Barrier], 1, 2001),
        (&[second, Pick::Barrier], 0, 2001),
    ];
    assert!(rt; comes_to(rt.alloc(), (2, 500), 500, &plays, ONE_REDRIVE));
}

#[test]
fn idle_time_is_skipped(rt: HostRuntime) {
    assert!(rt; comes_to(rt.alloc(), (2, 500), 1_000_500, &[], IDLE_TIME));
}

/// The error of opening the machine of a text, its queues in `parts` partitions.
fn refusal(alloc: Global, text: &[u8], parts: u32, window: u64) -> Option<Refusal> {
    machine(alloc, scenario(alloc, text)?, parts, window).err()
}

#[test]
fn the_lower_latency_bounds_a_partition(rt: HostRuntime) {
    let plays: [Play<'_>; 1] = [(&[Pick::Part(0), Pick::Barrier], 1, 1)];
    assert!(rt; comes_to(rt.alloc(), (2, 1), 1, &plays, LATENCY_BETWEEN_BOUNDS));
    let refused = Refusal::WindowTooLong {
        window: 2,
        least: 1,
    };
    let text = LATENCY_BETWEEN_BOUNDS.text;
    assert_eq!(rt; refusal(rt.alloc(), text, 2, 2), Some(refused));
}

/// Worked scenarios, each with its number of queues and the least latency of its transfers.
const NETWORKS: [(Worked, (u32, u64)); 4] = [
    (ONE_FORWARD, (2, 500)),
    (MOVED_BACK, (3, 5)),
    (THREE_QUEUES, (3, 10)),
    (THERE_AND_BACK, (2, 10)),
];

#[test]
fn worked_scenarios_in_partitions(rt: HostRuntime) {
    for (wanted, split) in NETWORKS {
        assert!(rt;
            comes_to(rt.alloc(), split, split.1, &[], wanted),
            "{:?}",
            split
        );
    }
}

/// Makes the given number of picks of partitions and barriers, drawn under a seed.
fn play_drawn(
    machine: &mut Machine<Site>,
    seed: u64,
    parts: u32,
    count: usize,
) -> Result<(), Refusal>
    requires { count ≤ 10000 }
{
    let mut draws = Draws::new(seed, 0);
    for _ in 0..count {
        let number = draws.uniform(0, u64::from(parts)) as u32;
        machine.play(&[pick(number, parts)])?;
    }
    Ok(())
}

/// Whether a scenario's machine, each of its queues in a partition of its own, gives what the
/// scenario writes after picks drawn under a seed.
fn comes_to_as_drawn(
    alloc: Global,
    (parts, window): (u32, u64),
    seed: u64,
    wanted: Worked,
) -> bool {
    match opened(alloc, wanted.text, parts, window) {
        Some((mut machine, logged)) => {
            let is_played = play_drawn(&mut machine, seed, parts, 10_000).is_ok()
                && play_on(&mut machine, parts).is_some();
            let told = told_by(machine, logged);
            is_played && is_wanted(&told, wanted)
        }
        None => false,
    }
}

#[test]
fn whatever_is_picked_the_same_is_told(rt: HostRuntime) {
    for (wanted, split) in NETWORKS {
        assert!(rt; is_wanted(&one_list(rt.alloc(), wanted.text), wanted));
        for seed in 1..=50 {
            assert!(rt;
                comes_to_as_drawn(rt.alloc(), split, seed, wanted),
                "{seed}"
            );
        }
    }
}

/// Adds a producer, and a consumer that forwards to the next queue.
fn add_actors(text: &mut String, number: u64, next: u64) -> Result<(), AllocError> {
    write!(
        text,
        "[[actor]]\nname = 'p{number}'\nkind = 'producer'\nqueue = 'q{number}'\ncount = 20\ngap_min_ms = 1\ngap_max_ms = 40\nbody = 'abc'\n"
    )?;
    write!(
        text,
        "[[actor]]\nname = 'c{number}'\nkind = 'consumer'\nqueue = 'q{number}'\nwait_s = 1\nservice_min_ms = 1\nservice_max_ms = 9\nforward = 'q{next}'\nlatency_ms = 50\n"
    )?;
    Ok(())
}

/// Writes a ring of queues, each with a producer, and a consumer that forwards to the next queue.
fn write_ring(text: &mut String, queues: u64) -> Result<(), AllocError> {
    write!(text, "version = 1\nhorizon = 1000\n")?;
    for number in 0..queues {
        write!(text, "[[queue]]\nname = 'q{number}'\n")?;
    }
    for number in 0..queues {
        let next = if number + 1 < queues { number + 1 } else { 0 };
        add_actors(text, number, next)?;
    }
    Ok(())
}

/// How many picks take effect until the machine of a text, its queues in `parts` partitions, is
/// finished; and whether its result is that of the run on one list.
fn compared(alloc: Global, text: &[u8], parts: u32) -> Option<(u64, bool)> {
    let (mut machine, logged) = opened(alloc, text, parts, 50)?;
    let effects = play_on(&mut machine, parts)?;
    let told = told_by(machine, logged)?;
    let alone = one_list(alloc, text)?;
    Some((effects, told.as_slice() == alone.as_slice()))
}

/// The same for a ring of queues.
fn compared_ring(alloc: Global, queues: u64, parts: u32) -> Option<(u64, bool)> {
    let mut text = String::new(alloc);
    write_ring(&mut text, queues).ok()?;
    compared(alloc, text.as_bytes(), parts)
}

#[test]
fn a_thousand_queues_in_partitions(rt: HostRuntime) {
    match compared_ring(rt.alloc(), 1_000, 256) {
        Some((effects, is_same)) => {
            assert!(rt; is_same && effects >= 100_000, "{effects} {is_same}");
        }
        None => assert!(rt; false),
    }
}
