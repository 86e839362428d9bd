//! The script files that a scenario's text names.
ghost use Rattle.std.specs.Prelude.{◌≡◌, [], IfOk, codes, filter_map, map, option_map};
ghost use Rattle.toml.specs.Data.{get_member};
ghost use Rattle.toml.specs.View.{table_view, view};
ghost use Rattle.sqs_formats.specs.Scenario.{actors_in, script_name as the_script_name};

use crate::names::is_script_name;
use crate::outline::text_in;
use crate::section::member;
use sqs_message::Text;
use std::alloc::{AllocError, Global};
use toml::{Table, Value};

/// The name of the script file in an item, if it is well-formed.
fn script_name(item: &Value) -> Option<&str>
    ensures { option_map (λ s. s.now) result ≡ the_script_name (view item.now) }
{
    let name = text_in(item, "script");
    if is_script_name(name.as_bytes()) {
        Some(name)
    } else {
        None
    }
}

/// The items at `actor`.
#[tactic(auto, using(crate::proofs::ListItems::in_order_is))]
pub(crate) fn actor_items<'a>(table: &'a Table) -> &'a [Value]
    ensures { map view result.now ≡ actors_in (get_member (codes "actor") (table_view table.now)) }
{
    match member(table, "actor") {
        None => &[],
        Some(value) => match value.as_array() {
            None => &[],
            Some(values) => values.as_slice(),
        },
    }
}

/// The names in items.
pub(crate) fn names_in(alloc: Global, items: &[Value]) -> Result<Vec<Text>, AllocError>
    ensures { IfOk result (λ v. v.items ≡ filter_map the_script_name (map view items.now)) }
{
    let mut names = Vec::new(alloc);
    for item in items {
        let Some(name) = script_name(item) else {
            continue;
        };
        names.push(Text::new(name.as_bytes().to_vec(alloc)?))?;
    }
    Ok(names)
}
