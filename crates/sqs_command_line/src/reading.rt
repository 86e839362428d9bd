//! Reads the command line from its words.
ghost use Rattle.std.specs.Prelude.{◌≡◌, [], IfErr, IfOk, MatchResult, map};
ghost use Rattle.clap.specs.Words.{fault_of, found_of, one_of, rows_of, subcommand_of, subcommand_rows_of};
ghost use Rattle.sqs_command_line.specs.Lines.{AsksForThird, HasNumbers, HasWanted, IsCheck, IsCompare, IsFaultOf, IsFigures, IsLine, IsLineOf, IsReadable, IsReadableOf, IsRun, IsWanted, TellsNumber};
ghost use Rattle.sqs_command_line.specs.Programs.{program};

use crate::asked::{CheckLine, CompareLine, FiguresLine, Line, LineFault, RunLine, WantedLine};
use crate::commands::command;
use clap::ArgMatches;
use std::alloc::Global;

// What `clap` found is no subcommand or no number.
#[derive(Clone, Copy)]
struct Unread;

// The time of an option, if it was given.
fn time(matches: &ArgMatches, id: &str) -> Result<Option<u64>, Unread>
    ensures { TellsNumber 64 (one_of id.now (rows_of (found_of matches.now))) result }
{
    match matches.try_get_one::<u64>(id) {
        Ok(time) => Ok(time),
        Err(_) => Err(Unread),
    }
}

// The number of an option, if it was given.
fn number(matches: &ArgMatches, id: &str) -> Result<Option<u32>, Unread>
    ensures { TellsNumber 32 (one_of id.now (rows_of (found_of matches.now))) result }
{
    match matches.try_get_one::<u32>(id) {
        Ok(number) => Ok(number),
        Err(_) => Err(Unread),
    }
}

// What is wanted of figures.
fn wanted_line(matches: &ArgMatches) -> Result<WantedLine, Unread>
    ensures { MatchResult result (IsWanted (rows_of (found_of matches.now)))
        (λ u. ¬ HasWanted (rows_of (found_of matches.now))) }
{
    Ok(WantedLine {
        from: time(matches, "from")?,
        to: time(matches, "to")?,
        backlog: time(matches, "backlog")?,
        window_figures: time(matches, "window-figures")?,
    })
}

// Whether version 3 of scenarios is asked for.
fn version_3(matches: &ArgMatches) -> bool
    ensures { AsksForThird (rows_of (found_of matches.now)) result }
{
    let v3 = matches.get_flag("v3");
    let preview = matches.get_flag("preview");
    v3 | preview
}

// What `run` asks for.
fn run_line<'a>(matches: &ArgMatches<'a>) -> Result<RunLine<'a>, Unread>
    ensures { MatchResult result (IsRun (rows_of (found_of matches.now)))
        (λ u. ¬ HasNumbers (rows_of (found_of matches.now))) }
{
    let window = time(matches, "window")?;
    let parts = number(matches, "parts")?;
    let workers = number(matches, "workers")?;
    let wanted = wanted_line(matches)?;
    Ok(RunLine {
        window,
        parts,
        map: matches.get_str("map"),
        workers,
        log: matches.get_str("log"),
        scripts: matches.get_str("scripts"),
        figures: matches.get_flag("figures"),
        wanted,
        version_3: version_3(matches),
        quiet: matches.get_flag("quiet"),
        scenario: matches.get_str("scenario"),
    })
}

// What `check` asks for.
fn check_line<'a>(matches: &ArgMatches<'a>) -> CheckLine<'a>
    ensures { IsCheck (rows_of (found_of matches.now)) result }
{
    CheckLine {
        scripts: matches.get_str("scripts"),
        version_3: version_3(matches),
        scenario: matches.get_str("scenario"),
    }
}

// What `compare` asks for.
fn compare_line<'a>(matches: &ArgMatches<'a>) -> CompareLine<'a>
    ensures { IsCompare (rows_of (found_of matches.now)) result }
{
    CompareLine {
        scripts: matches.get_str("scripts"),
        reach: matches.get_flag("reach"),
        version_3: version_3(matches),
        first: matches.get_str("first"),
        second: matches.get_str("second"),
    }
}

// What `figures` asks for.
fn figures_line<'a>(matches: &ArgMatches<'a>) -> Result<FiguresLine<'a>, Unread>
    ensures { MatchResult result (IsFigures (rows_of (found_of matches.now)))
        (λ u. ¬ HasWanted (rows_of (found_of matches.now))) }
{
    let wanted = wanted_line(matches)?;
    Ok(FiguresLine {
        scripts: matches.get_str("scripts"),
        wanted,
        version_3: version_3(matches),
        scenario: matches.get_str("scenario"),
        log: matches.get_str("log"),
    })
}

// The line of a subcommand's name and matches.
fn line_of_subcommand<'a>(name: &str, matches: &ArgMatches<'a>) -> Result<Line<'a>, Unread>
    ensures { MatchResult result (IsLine name.now (rows_of (found_of matches.now)))
        (λ u. ¬ IsReadable (name.now, rows_of (found_of matches.now))) }
{
    if name == "run" {
        return Ok(Line::Run(run_line(matches)?));
    }
    if name == "check" {
        return Ok(Line::Check(check_line(matches)));
    }
    if name == "compare" {
        return Ok(Line::Compare(compare_line(matches)));
    }
    if name == "figures" {
        return Ok(Line::Figures(figures_line(matches)?));
    }
    Err(Unread)
}

// The line of the matches.
fn line_of<'a>(matches: &ArgMatches<'a>) -> Result<Line<'a>, Unread>
    ensures { MatchResult result (IsLineOf (subcommand_rows_of matches.now))
        (λ u. ¬ IsReadableOf (subcommand_rows_of matches.now)) }
{
    match matches.subcommand() {
        Some((name, found)) => line_of_subcommand(name, found),
        None => Err(Unread),
    }
}

/// The command line that some words are; the program's name is the first. Times are milliseconds.
///
/// # Errors
///
/// `Words` if the words have a fault by `clap`'s rules, whose kind it has, if they ask for help, or
/// if memory was refused. If the rules find no fault, only memory can have run out.
pub fn line<'a>(alloc: Global, words: &'a [&'a str]) -> Result<Line<'a>, LineFault>
    ensures line { IfOk result (λ l.
        (fault_of program (map (λ w. w.now) words.entry.now) ≡ [])
        × IsLineOf (subcommand_of program (map (λ w. w.now) words.entry.now)) l) }
    ensures fault { IfErr result (IsFaultOf (map (λ w. w.now) words.entry.now)) }
{
    let command = match command(alloc) {
        Ok(command) => command,
        Err(refused) => return Err(LineFault::Words(refused.into())),
    };
    let matches = command.try_get_matches_from(words)?;
    match line_of(&matches) {
        Ok(line) => Ok(line),
        Err(Unread) => unreachable!(),
    }
}
