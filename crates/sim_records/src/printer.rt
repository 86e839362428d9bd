//! Lines of rows, made on any thread.
ghost use Rattle.std.specs.Arc.{arc_value};
ghost use Rattle.std.specs.Prelude.{◌≡◌, IfOk};
ghost use Rattle.sqs_formats.specs.Rows.{line, row_fields};

use crate::line::Line;
use crate::names::Names;
use crate::record::make_lines;
use smallvec::SmallVec;
use sqs_message::Row;
use std::alloc::{AllocError, Global};
use std::marker::Model;
use std::slice::from_ref;
use std::sync::Arc;

/// The text of a line. Up to 72 bytes are in the value itself, and most lines are no longer.
pub type LineText = SmallVec<u8, 72>;

/// Makes the lines of rows, as `write_rows` writes them. Printers on several threads may have the
/// same names. Contracts see the names.
#[derive(Drop)]
pub struct Printer {
    alloc: Global,
    names: Arc<Names, Global>,
    // The memory in which a line is made.
    line: Line,
}

impl Model for Printer {
    ghost use Rattle.std.specs.Arc.{arc_value};
    ghost use Rattle.std.specs.Prelude.{List, ℕ};

    ghost Value = { List (List ℕ) };

    ghost view = { λ p. arc_value p.names };
}

impl Printer {
    /// A printer with the names of all agents, by number.
    pub fn new(alloc: Global, names: Arc<Names, Global>) -> Printer
        ensures { result ≡ arc_value names }
    {
        Printer {
            alloc,
            names,
            line: Line::new(alloc),
        }
    }

    /// The line of a row.
    ///
    /// # Errors
    ///
    /// `AllocError` if a growth is refused.
    pub fn print(&mut self, row: &Row) -> Result<LineText, AllocError>
        ensures line { IfOk result (λ text. text.items ≡ line (row_fields self.old row.now)) }
        ensures same { self.new ≡ self.old }
    {
        self.line.clear(0)?;
        make_lines(&mut self.line, from_ref(row), &self.names)?;
        SmallVec::from_slice(self.alloc, self.line.as_slice())
    }
}
