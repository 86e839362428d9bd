//! The comparison of two scenarios, in one text.
ghost use Rattle.std.specs.Prelude.{IfErr, IfOk};
ghost use Rattle.sim_scenario.specs.Drafts.{newest_of};
ghost use Rattle.sim_scenario.specs.Gives.{Gives};
ghost use Rattle.sqs_formats.specs.Scenario.{scenario_upto};
ghost use Rattle.sqs_page.specs.Comparisons.{IsComparisonOf, OfTexts, States, Stops};
ghost use Rattle.sqs_rehearsal.specs.Outcomes.{IsOutcomeOf};

use sim_clock::Refusal;
use sim_records::ToWriter;
use sim_scenario::{Draft, Newest, ReadError, Scenario, Scripts};
use sqs_rehearsal::{Fault, Outcome, compare};
use std::alloc::Global;

/// Which of two scenarios is refused, and why. If memory is refused, either may be named.
#[derive(Drop)]
pub enum Stop {
    /// The first one.
    First(Fault),
    /// The second one.
    Second(Fault),
}

// Reads a scenario of a version up to the newest one.
fn read(
    alloc: Global,
    newest: Newest,
    text: &[u8],
    scripts: &Scripts,
) -> Result<Scenario, ReadError>
    ensures { Gives (λ s. s) result (scenario_upto (newest_of newest) scripts.now text.now) }
{
    Draft::parse_upto(alloc, newest, text)?.read(alloc, scripts)
}

// Reads two scenarios with the same script files.
fn read_both(
    alloc: Global,
    newest: Newest,
    first: &[u8],
    second: &[u8],
    scripts: &Scripts,
) -> Result<(Scenario, Scenario), Stop>
    ensures first { IfOk result (λ both. States newest scripts.now first.now both.0) }
    ensures second { IfOk result (λ both. States newest scripts.now second.now both.1) }
    ensures stops { IfErr result (Stops newest first.now second.now scripts.now) }
{
    match read(alloc, newest, first, scripts) {
        Ok(first) => match read(alloc, newest, second, scripts) {
            Ok(second) => Ok((first, second)),
            Err(error) => Err(Stop::Second(Fault::from(error))),
        },
        Err(error) => Err(Stop::First(Fault::from(error))),
    }
}

// Runs two scenarios, one after the other.
fn run_both(alloc: Global, first: Scenario, second: Scenario) -> Result<(Outcome, Outcome), Stop>
    ensures first { IfOk result (λ both. IsOutcomeOf first both.0) }
    ensures second { IfOk result (λ both. IsOutcomeOf second both.1) }
    ensures stops { OfTexts first second (λ newest a b files.
        IfErr result (Stops newest a b files)) }
{
    match Outcome::of(alloc, first) {
        Ok(first) => match Outcome::of(alloc, second) {
            Ok(second) => Ok((first, second)),
            Err(refusal) => Err(Stop::Second(Fault::Refused(refusal))),
        },
        Err(refusal) => Err(Stop::First(Fault::Refused(refusal))),
    }
}

/// The comparison of two scenarios with the same script files, or which of them is refused and why.
/// Both are of versions up to the newest one, and are read before the first one is run.
pub fn comparison(
    alloc: Global,
    newest: Newest,
    first: &[u8],
    second: &[u8],
    scripts: &Scripts,
) -> Result<Vec<u8>, Stop>
    ensures written { IfOk result (λ output.
        IsComparisonOf newest first.now second.now scripts.now output.items) }
    ensures stops { IfErr result (Stops newest first.now second.now scripts.now) }
{
    let (first, second) = read_both(alloc, newest, first, second, scripts)?;
    let (first, second) = run_both(alloc, first, second)?;
    let mut output = ToWriter::new(Vec::new(alloc));
    match compare(alloc, &mut output, &first, &second) {
        Ok(()) => Ok(output.into_inner()),
        Err(_) => Err(Stop::First(Fault::Refused(Refusal::Memory))),
    }
}
