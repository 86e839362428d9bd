//! The steps of a rehearsal: what comes before its run, and what comes after it.
ghost use Rattle.std.specs.Prelude.{◌≡◌, false, OnOk};
ghost use Rattle.sqs_rehearsal.specs.Steps.{Begins, BeginsAsAsked, Ends};
ghost use Rattle.sqs_rehearsal.specs.Writers.{seen};

use crate::ending::write_ending;
use crate::options::{Options, Split};
use crate::outcome::{copies, flush, fresh_report};
use crate::recorder::Recorder;
use crate::rehearsal::Fault;
use crate::watch::Watch;
use sim_clock::Refusal;
use sim_records::{Names, Out, write_header};
use sim_report::Report;
use sim_scenario::Scenario;
use sim_site::Site;
use std::alloc::Global;
use std::sync::Arc;

/// A rehearsal whose run is to follow.
#[derive(Drop)]
pub struct Begun {
    /// The allocator of the run.
    pub alloc: Global,
    /// The horizon of the run, in milliseconds.
    pub horizon: u64,
    /// How the run is split.
    pub split: Split,
    /// The names of all agents, by number.
    pub names: Arc<Names, Global>,
    /// The report, of no rows yet.
    pub counts: Report,
}

/// A rehearsal whose run has come to its end.
#[derive(Drop)]
pub struct Ended {
    /// The allocator of the run.
    pub alloc: Global,
    /// The names of all agents, by number.
    pub names: Arc<Names, Global>,
    /// The report of all rows.
    pub counts: Report,
    /// The sites of the last world, by number.
    pub sites: Vec<Site>,
}

/// Begins a rehearsal: looks whether it can be split as asked, and writes the header of the log.
///
/// # Errors
///
/// Those of `Options::split`, and `Memory` if a growth is refused: nothing is written. `Write` if
/// the writer fails: a prefix of the header is written.
pub fn begin<L: Out>(
    alloc: Global,
    scenario: &Scenario,
    options: &Options,
    log: &mut L,
) -> Result<Begun, Refusal>
    requires { (L.state log.old).failed ≡ false }
    ensures works { OnOk result ((L.state log.new).failed ≡ false) }
    ensures begins { BeginsAsAsked scenario.now options.now (seen L.state log.old log.new) result }
{
    let horizon = scenario.horizon();
    let split = options.split(alloc, scenario)?;
    let names = Names::new(copies(alloc, scenario.names())?);
    let names = Arc::new(alloc, names)?;
    let counts = fresh_report(alloc, scenario, options.figures)?;
    write_header(alloc, log)?;
    Ok(Begun {
        alloc,
        horizon,
        split,
        names,
        counts,
    })
}

/// A recorder with these parts, of a run up to this horizon.
pub fn recording<'a, L: Out, P: Watch>(
    alloc: Global,
    names: &'a Names,
    log: &'a mut L,
    counts: &'a mut Report,
    watch: &'a mut P,
    horizon: u64,
) -> Recorder<'a, L, P>
    ensures names { result.names.now ≡ names.now }
    ensures log { (result.out.ghost_name ≡ log.entry.ghost_name) × (result.out.now
        ≡ log.entry.now) }
    ensures counts { (result.report.ghost_name ≡ counts.entry.ghost_name)
        × (result.report.now ≡ counts.entry.now) }
{
    Recorder {
        alloc,
        names,
        out: log,
        report: counts,
        watch,
        horizon,
    }
}

impl Ended {
    /// Ends the rehearsal: flushes the log, and writes the state at the end and the report.
    ///
    /// # Errors
    ///
    /// `Memory` if a growth is refused, `Write` if a writer fails: a prefix of the rest is written.
    pub fn end<L: Out, R: Out>(self, log: &mut L, report: &mut R) -> Result<(), Fault>
        requires log { (L.state log.old).failed ≡ false }
        requires report { (R.state report.old).failed ≡ false }
        ensures { Ends self (L.state log.old) (L.state log.new)
            (seen R.state report.old report.new) result }
    {
        flush(log)?;
        let sites = self.sites.as_slice();
        write_ending(self.alloc, report, sites, &self.names, &self.counts)?;
        Ok(())
    }
}
