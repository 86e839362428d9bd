//! The reader between two lines of a log.
ghost use Rattle.std.specs.Prelude.{◌≡◌, ◌<◌, ◌↔◌, ◌∷◌, [], All, IfErr, IfOk, IfSome, IsTrue, OnOk};
ghost use Rattle.sqs_formats.specs.Rows.{Names as AgentNames, line, row_fields};
ghost use Rattle.sim_report.specs.Figured.{FiguresState};
ghost use Rattle.sim_logs.specs.Logs.{IsFaultAt, IsNext, IsRowOf, IsWritten, agent_in};

use crate::columns::has_its_columns;
use crate::fault::LogFault;
use crate::fields::row_of;
use crate::parts::Numbers;
use sim_records::{Names, Printer};
use sim_report::{Fact, Figures};
use sqs_message::{Detail, Row, Text};
use std::alloc::{AllocError, Global};
use std::marker::Model;
use std::sync::Arc;

// The numbers of agents, by their names.
fn numbers_of(alloc: Global, names: &[Text]) -> Result<Numbers, AllocError> {
    let mut numbers = Numbers::with_capacity(alloc, names.len())?;
    for (number, name) in names.iter().enumerate() {
        let key = name.as_bytes().to_vec(alloc)?;
        if let Ok(number) = u32::try_from(number) {
            numbers.insert(key, number)?;
        }
    }
    Ok(numbers)
}

// Whether the agents of a row are among so many.
fn has_agents(row: &Row, agents: usize) -> bool
    ensures { IsTrue result
        ↔ All (λ n. n < agents) (row.now.queue ∷ row.now.agent ∷ agent_in row.now.detail) }
{
    let named = match row.detail {
        Detail::Queue(number) | Detail::Task(number) => number,
        _ => row.agent,
    };
    (row.queue as usize) < agents && (row.agent as usize) < agents && (named as usize) < agents
}

/// The reader between two lines: the names of all agents, the figures so far, and the moment of the
/// last row.
#[derive(Drop)]
pub(crate) struct Reading {
    alloc: Global,
    printer: Printer,
    numbers: Numbers,
    // How many agents there are.
    agents: usize,
    figures: Figures,
    latest: u64,
}

impl Model for Reading {
    ghost use Rattle.std.specs.Prelude.{◌≡◌, length};
    ghost use Rattle.sim_logs.specs.Logs.{ReadingState};

    ghost Value = { ReadingState };

    ghost view = { λ r. record { names = r.printer; figures = r.figures; latest = r.latest } };

    ghost invariant = { λ r. r.agents ≡ length r.printer };
}

impl Reading {
    /// The reader behind the header of a log.
    pub(crate) fn new(alloc: Global, names: Names, figures: Figures) -> Result<Reading, AllocError>
        ensures { IfOk result (λ r. r ≡ record { names = names; figures = figures; latest = 0 }) }
    {
        let numbers = numbers_of(alloc, names.as_slice())?;
        let agents = names.as_slice().len();
        Ok(Reading {
            alloc,
            printer: Printer::new(alloc, Arc::new(alloc, names)?),
            numbers,
            agents,
            figures,
            latest: 0,
        })
    }

    // The row of which this is the line, if its fields give one.
    fn row_of(&mut self, text: &[u8]) -> Result<Option<Row>, AllocError>
        ensures row { IfOk result (λ found. IfSome found (IsRowOf self.old.names text.now)) }
        ensures same { self.new ≡ self.old }
    {
        let Some(row) = row_of(self.alloc, text, &self.numbers)? else {
            return Ok(None);
        };
        if !has_its_columns(&row) || !has_agents(&row, self.agents) {
            return Ok(None);
        }
        let printed = self.printer.print(&row)?;
        if printed.as_slice() != text {
            return Ok(None);
        }
        Ok(Some(row))
    }

    /// Takes in the line with this number: the next row.
    pub(crate) fn take(&mut self, text: &[u8], line: u64) -> Result<(), LogFault>
        ensures next { OnOk result (IsNext self.old self.new text.now) }
        ensures fault { IfErr result (IsFaultAt self.old text.now line) }
    {
        let Some(row) = self.row_of(text)? else {
            return Err(LogFault::NoRow { line });
        };
        if row.key.at < self.latest {
            return Err(LogFault::Earlier { line });
        }
        self.figures.take(&Fact::of(&row))?;
        self.latest = row.key.at;
        Ok(())
    }

    /// The figures of all rows so far.
    pub(crate) fn into_figures(self) -> Figures
        ensures { result ≡ self.figures }
    {
        self.figures
    }
}
