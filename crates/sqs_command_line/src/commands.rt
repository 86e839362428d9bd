//! The program's commands, as `clap` takes them.
ghost use Rattle.std.specs.Prelude.{◌≡◌, IfOk, false};
ghost use Rattle.clap.specs.Words.{app_of, new_app, rule_of};
ghost use Rattle.clap.specs.declared.builder.command.Command.TheViews.{out-Command as fields_of};
ghost use Rattle.sqs_command_line.specs.Programs.{bare, check_app, compare_app, figures_app, flag_rule, moment_rule, number_rule, option_rule, place_rule, program, run_app, run_files, run_options, time_rule, with_version_3, with_wanted};

use clap::{Arg, ArgAction, Command};
use std::alloc::{AllocError, Global};

/// The help of the scripts' folder.
const SCRIPTS_HELP: &str = "The folder of the scripts [default: .]";

/// The help of the newest version.
const V3_HELP: &str = "Read version 3 of scenarios, too";

/// The help of what a comparison says of reach.
const REACH_HELP: &str = "Say behind the comparison which queues cannot differ";

/// The help of the scenario.
const SCENARIO_HELP: &str = "The scenario's file, or - [default: standard input]";

/// The text below the help of `run`.
const RUN_HELP: &str =
    "Reads a scenario (TOML) and the scripts that it names (CSV). Writes the log, the final queues and
the report (CSV), in this order, to standard output, and with --figures or an option of theirs figures
behind them. A fault is one line on standard error.

Status:
  0  done
  1  the scenario is refused, or a file can't be read
  2  the command line is not understood
  3  the run is refused: map, window, workers, a count at its limit, out of memory
  4  a write failed

Example:
  sqs_rehearse run --log log.csv scenario.toml > report.csv";

/// The text below the help of `check`.
const CHECK_HELP: &str =
    "Reads a scenario (TOML) and the scripts that it names (CSV). Writes one line to standard output:
how many queues, actors and tasks there are, and the longest window. The first fault of a text that is
no scenario is one line on standard error, with its place.

Status:
  0  a scenario
  1  the scenario is refused, or a file can't be read
  2  the command line is not understood
  3  out of memory
  4  a write failed

Example:
  sqs_rehearse check --scripts calls scenario.toml";

/// The text below the help of `compare`.
const COMPARE_HELP: &str =
    "Rehearses both scenarios. Writes a line (CSV) to standard output for each queue and column of the
report: compare, queue, column, the first's value, the second's, the difference. With --reach it then
writes a line for each queue of both: reach, queue, and same if no difference reaches it, or may-differ.
A fault is one line on standard error.

Status:
  0  done
  1  a scenario is refused, or a file can't be read
  2  the command line is not understood
  3  a run is refused: a count at its limit, out of memory
  4  a write failed

Example:
  sqs_rehearse compare --reach today.toml tomorrow.toml";

/// The text below the help of `figures`.
const FIGURES_HELP: &str =
    "Reads a scenario (TOML), the scripts that it names, and a log of its run (CSV), to its end or to the
final queues behind it. Writes the figures of the log's rows (CSV) to standard output, as run --figures
writes them. A fault is one line on standard error; of a log it says in which line it is.

Status:
  0  done
  1  the scenario is refused, the log is none of it, or a file can't be read
  2  the command line is not understood
  3  out of memory
  4  a write failed

Example:
  sqs_rehearse figures --from 60000 scenario.toml log.csv";

// An option with a value.
fn option<'a>(alloc: Global, name: &'a str, help: &'a str) -> Arg<'a>
    ensures rule { rule_of result ≡ option_rule name.entry.now }
    ensures local { result.global ≡ false }
{
    Arg::new(alloc, name)
        .long(name)
        .action(ArgAction::Set)
        .help(help)
}

// An option with a number of 32 bits.
fn number<'a>(alloc: Global, name: &'a str, help: &'a str) -> Arg<'a>
    ensures rule { rule_of result ≡ number_rule name.entry.now }
    ensures local { result.global ≡ false }
{
    option(alloc, name, help).value_parser(clap::value_parser!(u32))
}

// An option with a time of at least 1 ms.
fn time<'a>(alloc: Global, name: &'a str, help: &'a str) -> Arg<'a>
    ensures rule { rule_of result ≡ time_rule name.entry.now }
    ensures local { result.global ≡ false }
{
    option(alloc, name, help).value_parser(clap::value_parser!(u64).range(1..))
}

// An option with a moment.
fn moment<'a>(alloc: Global, name: &'a str, help: &'a str) -> Arg<'a>
    ensures rule { rule_of result ≡ moment_rule name.entry.now }
    ensures local { result.global ≡ false }
{
    option(alloc, name, help).value_parser(clap::value_parser!(u64))
}

// An option without a value.
fn flag<'a>(alloc: Global, name: &'a str, help: &'a str) -> Arg<'a>
    ensures rule { rule_of result ≡ flag_rule name.entry.now }
    ensures local { result.global ≡ false }
{
    Arg::new(alloc, name)
        .long(name)
        .action(ArgAction::SetTrue)
        .help(help)
}

// A positional word.
fn place<'a>(alloc: Global, name: &'a str, required: bool, help: &'a str) -> Arg<'a>
    ensures rule { rule_of result ≡ place_rule required name.entry.now }
    ensures local { result.global ≡ false }
{
    Arg::new(alloc, name)
        .required(required)
        .action(ArgAction::Set)
        .help(help)
}

// A command with texts for its help, above and below its words.
fn named<'a>(alloc: Global, name: &'a str, about: &'a str, more: &'a str) -> Command<'a>
    ensures app { app_of result ≡ new_app name.entry.now }
    ensures local { (fields_of result).has_globals ≡ false }
{
    Command::new(alloc, name).about(about).after_help(more)
}

// The command `run`, with the options of how it runs.
fn run_options<'a>(alloc: Global) -> Result<Command<'a>, AllocError>
    ensures app { IfOk result (λ c. app_of c ≡ run_options) }
    ensures local { IfOk result (λ c. (fields_of c).has_globals ≡ false) }
{
    let command = named(
        alloc,
        "run",
        "Rehearses a scenario: log, final queues and report",
        RUN_HELP,
    );
    let command = command.arg(time(
        alloc,
        "window",
        "The window in milliseconds [default: the least latency]",
    ))?;
    let command = command.arg(number(alloc, "parts", "The number of partitions [default: 1]"))?;
    let command = command.arg(option(
        alloc,
        "map",
        "The partition of each queue, for example 0,1,0",
    ))?;
    let command = command.arg(number(alloc, "workers", "The number of workers [default: 1]"))?;
    Ok(command)
}

// The command `run`, also with the options of what it reads and writes.
fn run_files<'a>(alloc: Global) -> Result<Command<'a>, AllocError>
    ensures app { IfOk result (λ c. app_of c ≡ run_files) }
    ensures local { IfOk result (λ c. (fields_of c).has_globals ≡ false) }
{
    let command = run_options(alloc)?;
    let command = command.arg(option(
        alloc,
        "log",
        "Write the log to this file, or - [default: standard output]",
    ))?;
    let command = command.arg(option(alloc, "scripts", SCRIPTS_HELP))?;
    Ok(command)
}

// A command, also with the options of what is wanted of figures.
fn with_wanted<'a>(alloc: Global, command: Command<'a>) -> Result<Command<'a>, AllocError>
    requires { (fields_of command).has_globals ≡ false }
    ensures app { IfOk result (λ c. app_of c ≡ with_wanted (app_of command.entry)) }
    ensures local { IfOk result (λ c. (fields_of c).has_globals ≡ false) }
{
    let command = command.arg(moment(
        alloc,
        "from",
        "The first millisecond of the figures [default: 0]",
    ))?;
    let command = command.arg(moment(
        alloc,
        "to",
        "The last millisecond of the figures [default: the horizon]",
    ))?;
    let command = command.arg(moment(
        alloc,
        "backlog",
        "More messages than these that wait are a backlog [default: 10]",
    ))?;
    let command = command.arg(time(
        alloc,
        "window-figures",
        "How long the windows of the figures are, in milliseconds [default: 300000]",
    ))?;
    Ok(command)
}

// A command, also with the options by which version 3 of scenarios is read.
fn with_version_3<'a>(alloc: Global, command: Command<'a>) -> Result<Command<'a>, AllocError>
    requires { (fields_of command).has_globals ≡ false }
    ensures app { IfOk result (λ c. app_of c ≡ with_version_3 (app_of command.entry)) }
    ensures local { IfOk result (λ c. (fields_of c).has_globals ≡ false) }
{
    let command = command.arg(flag(alloc, "v3", V3_HELP))?;
    let command = command.arg(flag(alloc, "preview", "The former name of --v3"))?;
    Ok(command)
}

// The command `run`.
fn run_command<'a>(alloc: Global) -> Result<Command<'a>, AllocError>
    ensures app { IfOk result (λ c. app_of c ≡ run_app) }
    ensures local { IfOk result (λ c. (fields_of c).has_globals ≡ false) }
{
    let command = run_files(alloc)?;
    let command = command.arg(flag(alloc, "figures", "Write figures behind the report"))?;
    let command = with_wanted(alloc, command)?;
    let command = with_version_3(alloc, command)?;
    let command = command.arg(flag(alloc, "quiet", "Show no progress, even on a terminal"))?;
    let command = command.arg(place(alloc, "scenario", false, SCENARIO_HELP))?;
    Ok(command)
}

// The command `check`.
fn check_command<'a>(alloc: Global) -> Result<Command<'a>, AllocError>
    ensures app { IfOk result (λ c. app_of c ≡ check_app) }
    ensures local { IfOk result (λ c. (fields_of c).has_globals ≡ false) }
{
    let command = named(
        alloc,
        "check",
        "Checks a scenario, and prints its first fault",
        CHECK_HELP,
    );
    let command = command.arg(option(alloc, "scripts", SCRIPTS_HELP))?;
    let command = with_version_3(alloc, command)?;
    let command = command.arg(place(alloc, "scenario", false, SCENARIO_HELP))?;
    Ok(command)
}

// The command `compare`.
fn compare_command<'a>(alloc: Global) -> Result<Command<'a>, AllocError>
    ensures app { IfOk result (λ c. app_of c ≡ compare_app) }
    ensures local { IfOk result (λ c. (fields_of c).has_globals ≡ false) }
{
    let command = named(
        alloc,
        "compare",
        "Compares the reports of two scenarios",
        COMPARE_HELP,
    );
    let command = command.arg(option(alloc, "scripts", SCRIPTS_HELP))?;
    let command = command.arg(flag(alloc, "reach", REACH_HELP))?;
    let command = with_version_3(alloc, command)?;
    let command = command.arg(place(alloc, "first", true, "The scenario to compare with"))?;
    let command = command.arg(place(alloc, "second", true, "The scenario to compare"))?;
    Ok(command)
}

// The command `figures`.
fn figures_command<'a>(alloc: Global) -> Result<Command<'a>, AllocError>
    ensures app { IfOk result (λ c. app_of c ≡ figures_app) }
    ensures local { IfOk result (λ c. (fields_of c).has_globals ≡ false) }
{
    let command = named(
        alloc,
        "figures",
        "Writes the figures of a log",
        FIGURES_HELP,
    );
    let command = command.arg(option(alloc, "scripts", SCRIPTS_HELP))?;
    let command = with_wanted(alloc, command)?;
    let command = with_version_3(alloc, command)?;
    let command = command.arg(place(alloc, "scenario", true, "The scenario's file"))?;
    let command = command.arg(place(
        alloc,
        "log",
        false,
        "The log's file, or - [default: standard input]",
    ))?;
    Ok(command)
}

// The whole program.
pub fn command<'a>(alloc: Global) -> Result<Command<'a>, AllocError>
    ensures app { IfOk result (λ c. app_of c ≡ program) }
    ensures local { IfOk result (λ c. (fields_of c).has_globals ≡ false) }
{
    let command = Command::new(alloc, "sqs_rehearse").subcommand_required(true);
    let command = command.subcommand(run_command(alloc)?)?;
    let command = command.subcommand(check_command(alloc)?)?;
    let command = command.subcommand(compare_command(alloc)?)?;
    let command = command.subcommand(figures_command(alloc)?)?;
    Ok(command)
}
