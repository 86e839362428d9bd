//! The items of a list, each a table.
ghost use Rattle.std.specs.Prelude.{◌≤◌, length, map};
ghost use Rattle.toml.specs.View.{view};
ghost use Rattle.sqs_formats.specs.Keys.{each};
ghost use Rattle.sim_scenario.specs.Gives.{Gives};
ghost use Rattle.sim_scenario.specs.Sections.{table_of};

use crate::fault::ReadError;
use crate::section::Section;
use std::alloc::Global;
use toml::Value;

/// What the items of a list are.
pub(crate) trait ItemType {
    ghost use Rattle.std.specs.Prelude.{ℕ, ◌<◌};
    ghost use Rattle.sqs_formats.specs.Keys.{Says, Table};
    ghost use Rattle.sim_scenario.specs.Gives.{Gives};
    ghost use Rattle.sim_scenario.specs.Sections.{table_of};

    /// What an item says.
    type Item: Drop;

    // What the definitions read in the item of a number.
    ghost says: { Self → ℕ → Table → Says Self.Item };

    /// Reads the item of a number.
    fn read(&self, number: usize, section: &Section<'_>) -> Result<Self::Item, ReadError>
        requires { number < 11000 }
        ensures { Gives (λ x. x) result (says self.now number (table_of section.now)) };
}

/// Reads all items of a list.
pub(crate) fn each<T: ItemType>(
    alloc: Global,
    list: &'static str,
    values: &[Value],
    of: &T,
) -> Result<Vec<T::Item>, ReadError>
    requires { length values.now ≤ 11000 }
    ensures { Gives (λ v. v.items) result
        (each list.now (T.says of.now) 0 (map view values.now)) }
{
    let mut items = Vec::with_capacity(alloc, values.len())?;
    for (i, value) in values.iter().enumerate() {
        let section = Section::item(alloc, list, i, value)?;
        items.push(of.read(i, &section)?)?;
    }
    Ok(items)
}
