//! The place of a key.
ghost use Rattle.std.specs.Prelude.{◌≡◌, ◌++◌, [], IfOk, codes, string_bytes};
ghost use Rattle.sqs_formats.specs.Keys.{item_place};

use std::alloc::{AllocError, Global};
use std::marker::Model;

/// The table of a key. Contracts see the text that comes before the key in its place: nothing at
/// the top table, and for example `queue[12].` at the table of an item. This text is made only if
/// there is a fault to report.
#[derive(Drop)]
pub(crate) struct Place {
    // The list of the item and its number; none for the top table.
    item: Option<(&'static str, usize)>,
}

impl Model for Place {
    ghost use Rattle.std.specs.Prelude.{List, ℕ};
    ghost use Rattle.sim_scenario.specs.Place.{before_key};

    ghost Value = { List ℕ };

    ghost view = { λ p. before_key p.item };
}

/// The place of an item of a list, for example `queue[12]`.
pub(crate) fn item_place(alloc: Global, list: &str, number: usize) -> Result<String, AllocError>
    ensures { IfOk result (λ s. string_bytes s ≡ item_place list.now number) }
{
    format!(in alloc; "{list}[{number}]")
}

impl Place {
    /// The top table.
    pub(crate) fn top() -> Place
        ensures { result ≡ [] }
    {
        Place { item: None }
    }

    /// The table that an item of a list is.
    pub(crate) fn item(list: &'static str, number: usize) -> Place
        ensures { result ≡ item_place list.now number ++ codes "." }
    {
        Place {
            item: Some((list, number)),
        }
    }

    /// The same table.
    pub(crate) fn copy(&self) -> Place
        ensures { result ≡ self.now }
    {
        Place { item: self.item }
    }

    /// The place of a key.
    pub(crate) fn of(&self, alloc: Global, key: &str) -> Result<String, AllocError>
        ensures { IfOk result (λ s. string_bytes s ≡ self.now ++ key.now) }
    {
        match self.item {
            None => String::from_str(alloc, key),
            Some((list, number)) => {
                let mut place = item_place(alloc, list, number)?;
                place.push_str(".")?;
                place.push_str(key)?;
                Ok(place)
            }
        }
    }
}
