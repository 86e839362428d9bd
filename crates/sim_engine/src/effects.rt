//! The effects of handlings: rows, and transfers to other sites.
ghost use Rattle.std.specs.Prelude.{◌++◌, ◌∷◌, ◌≡◌, OnOk, []};

use std::alloc::{AllocError, Global};

/// The rows made and the transfers sent so far, in order: by one handling, or by several one after
/// another.
#[derive(Drop)]
pub struct Effects<R, T> {
    pub rows: Vec<R>,
    pub sent: Vec<T>,
}

impl<R: Drop, T: Drop> Effects<R, T> {
    /// No rows and no transfers.
    pub fn new(alloc: Global) -> Effects<R, T>
        ensures rows { result.rows.items ≡ [] }
        ensures sent { result.sent.items ≡ [] }
    {
        Effects {
            rows: Vec::new(alloc),
            sent: Vec::new(alloc),
        }
    }

    /// Adds a row.
    ///
    /// # Errors
    ///
    /// `AllocError` if memory runs out.
    pub fn say(&mut self, row: R) -> Result<(), AllocError>
        ensures rows { OnOk result (self.new.rows.items ≡ self.old.rows.items ++ row ∷ []) }
        ensures sent { self.new.sent ≡ self.old.sent }
    {
        self.rows.push(row)?;
        Ok(())
    }

    /// Adds a transfer.
    ///
    /// # Errors
    ///
    /// `AllocError` if memory runs out.
    pub fn send(&mut self, transfer: T) -> Result<(), AllocError>
        ensures sent { OnOk result (self.new.sent.items ≡ self.old.sent.items ++ transfer ∷ []) }
        ensures rows { self.new.rows ≡ self.old.rows }
    {
        self.sent.push(transfer)?;
        Ok(())
    }

    /// Adds a transfer and the row that reports it.
    ///
    /// # Errors
    ///
    /// `AllocError` if memory runs out.
    pub fn say_sent(&mut self, row: R, transfer: T) -> Result<(), AllocError>
        ensures rows { OnOk result (self.new.rows.items ≡ self.old.rows.items ++ row ∷ []) }
        ensures sent { OnOk result (self.new.sent.items ≡ self.old.sent.items ++ transfer ∷ []) }
    {
        self.say(row)?;
        self.send(transfer)
    }
}
