//! Rows with their lines, which the workers make that made the rows.
ghost use Rattle.std.specs.Arc.{arc_value};
ghost use Rattle.std.specs.Prelude.{◌≡◌};

use crate::limited::count_of;
use sim_clock::Key;
use sim_engine::{Mapped, RowMapper};
use sim_records::{LineText, Names, Printer};
use sim_report::Fact;
use sim_site::Site;
use sqs_message::Row;
use std::alloc::{AllocError, Global};
use std::marker::Model;
use std::sync::Arc;

/// All that the log and the report need of a row.
#[derive(Drop)]
pub struct PrintedRow {
    key: Key,
    fact: Fact,
    received: u64,
    line: LineText,
}

impl Model for PrintedRow {
    ghost use Rattle.sqs_rehearsal.specs.Printed.{Printed};

    ghost Value = { Printed };

    ghost view = { λ p. record { key = p.key; fact = p.fact; received = p.received; line = p.line.items } };
}

impl PrintedRow {
    /// The moment of the row, in milliseconds.
    pub fn at(&self) -> u64
        ensures { result ≡ self.now.key.at }
    {
        self.key.at
    }

    /// What the row says to the report.
    pub fn fact(&self) -> &Fact
        ensures { result.now ≡ self.now.fact }
    {
        &self.fact
    }

    /// How often the message of the row was received, by the row's receipt.
    pub fn received(&self) -> u64
        ensures { result ≡ self.now.received }
    {
        self.received
    }

    /// The row's line of the log.
    pub fn line(&self) -> &[u8]
        ensures { result.now ≡ self.now.line }
    {
        self.line.as_slice()
    }
}

/// Makes printed rows. Contracts see the names of all agents, by number.
#[derive(Drop)]
pub struct RowPrinter {
    printer: Printer,
}

impl Model for RowPrinter {
    ghost use Rattle.std.specs.Prelude.{List, ℕ};

    ghost Value = { List (List ℕ) };

    ghost view = { λ p. p.printer };
}

impl RowPrinter {
    /// A printer with these names.
    pub fn new(alloc: Global, names: Arc<Names, Global>) -> RowPrinter
        ensures { result ≡ arc_value names }
    {
        RowPrinter {
            printer: Printer::new(alloc, names),
        }
    }
}

impl RowMapper<Site> for RowPrinter {
    ghost use Rattle.sqs_rehearsal.specs.Printed.{printed_keeps, row_mapping};

    type New = PrintedRow;

    ghost mapping = { row_mapping };

    fn map(&mut self, row: &Row) -> Result<PrintedRow, AllocError> {
        let line = self.printer.print(row)?;
        Ok(PrintedRow {
            key: row.key,
            fact: Fact::of(row),
            received: count_of(row),
            line,
        })
    }

    fn key(new: &PrintedRow) -> Key {
        new.key
    }

    fn site(new: &PrintedRow) -> u32 {
        new.fact.count.queue
    }

    ghost keeps = { printed_keeps };
}

/// A queue whose rows are printed as they are made.
pub type PrintedSite = Mapped<Site, RowPrinter>;
