//! The copies of actors: how many there are, and their names.
ghost use Rattle.std.specs.Prelude.{◌≡◌, ◌-◌, ◌≤◌, ◌++◌, IfOk, OnOk, codes, length, map};
ghost use Rattle.std.specs.List.{sum, sum_by};
ghost use Rattle.toml.specs.View.{view};
ghost use Rattle.sqs_formats.specs.Copies.{copies_asked, copies_within, copy_name, copy_names, fitting as the_fitting, names_taken};
ghost use Rattle.sqs_formats.specs.Keys.{text_in};
ghost use Rattle.sim_scenario.specs.Naming.{names_in};
ghost use Rattle.sim_scenario.specs.Counted.{copies_before};

use crate::outline::text_in;
use crate::section::member;
use itoa::Buffer;
use sqs_message::Text;
use std::alloc::{AllocError, Global};
use toml::Value;

/// The number of copies that the item of an actor asks for.
fn copies_asked(version: u64, item: &Value) -> u64
    ensures { result ≡ copies_asked version (view item.now) }
{
    if version < 3 {
        return 0;
    }
    let Some(table) = item.as_table() else {
        return 0;
    };
    let Some(value) = member(table, "copies") else {
        return 0;
    };
    match value.as_integer() {
        Some(n) => { if 1 <= n && n <= 1000 { n as u64 } else { 0 } }
        None => 0,
    }
}

/// So many copies if all but the first have room; otherwise none.
fn fitting(room: u64, asked: u64) -> u64
    ensures { result ≡ the_fitting room asked }
{
    if asked.saturating_sub(1) <= room {
        asked
    } else {
        0
    }
}

/// The numbers of copies that actors have, if there is room for so many agents besides the first
/// copies.
pub(crate) fn copies_within(
    alloc: Global,
    version: u64,
    room: u64,
    actors: &[Value],
) -> Result<Vec<u64>, AllocError>
    ensures { IfOk result (λ v.
        v.items ≡ copies_within room (map (copies_asked version) (map view actors.now))) }
{
    let mut left = room;
    let mut copies = Vec::with_capacity(alloc, actors.len())?;
    for actor in actors {
        let fitting = fitting(left, copies_asked(version, actor));
        left -= fitting.saturating_sub(1);
        copies.push(fitting)?;
    }
    Ok(copies)
}

/// The name of a copy, as NAME-2.
fn copy_name(alloc: Global, name: &[u8], n: u64) -> Result<Text, AllocError>
    ensures { IfOk result (λ t. t ≡ copy_name name.now n) }
{
    let mut buffer = Buffer::new();
    let digits = buffer.format(n);
    let mut bytes = name.to_vec(alloc)?;
    bytes.push(b'-')?;
    bytes.extend_from_slice(digits.as_bytes())?;
    Ok(Text::new(bytes))
}

/// Appends the names of copies to other names.
fn push_copy_names(
    alloc: Global,
    names: &mut Vec<Text>,
    name: &[u8],
    copies: u64,
) -> Result<(), AllocError>
    requires { copies ≤ 32000 }
    ensures { OnOk result
        (names.new.items ≡ names.old.items ++ copy_names name.now copies) }
{
    for n in 0..copies {
        names.push(copy_name(alloc, name, n + 1)?)?;
    }
    Ok(())
}

/// The names of copies, from NAME-1 on.
pub(crate) fn copy_names(alloc: Global, name: &[u8], copies: u64) -> Result<Vec<Text>, AllocError>
    requires { copies ≤ 32000 }
    ensures { IfOk result (λ v. v.items ≡ copy_names name.now copies) }
{
    let mut names = Vec::new(alloc);
    push_copy_names(alloc, &mut names, name, copies)?;
    Ok(names)
}

/// Appends the names that actors take to other names: each its own, and then those of its copies.
pub(crate) fn push_names_taken(
    alloc: Global,
    names: &mut Vec<Text>,
    actors: &[Value],
    copies: &[u64],
) -> Result<(), AllocError>
    requires same { length copies.now ≡ length actors.now }
    requires few { sum copies.now ≤ 32000 }
    ensures { OnOk result (names.new.items ≡ names.old.items
        ++ names_taken (names_in actors.now) copies.now) }
{
    for (i, actor) in actors.iter().enumerate() {
        let name = text_in(actor, "name").as_bytes();
        names.push(Text::new(name.to_vec(alloc)?))?;
        push_copy_names(alloc, names, name, copies[i])?;
    }
    Ok(())
}

/// For each actor, how many copies the actors before it have.
pub(crate) fn copies_before(alloc: Global, copies: &[u64]) -> Result<Vec<usize>, AllocError>
    requires { sum copies.now ≤ 32000 }
    ensures { IfOk result (λ v. v.items ≡ copies_before copies.now) }
{
    let mut before = Vec::with_capacity(alloc, copies.len())?;
    let mut total = 0;
    for count in copies {
        before.push(total)?;
        total += *count as usize;
    }
    Ok(before)
}

/// How many copies there are besides the first one of each actor.
pub(crate) fn total_beside(copies: &[u64]) -> usize
    requires { sum copies.now ≤ 32000 }
    ensures value { result ≡ sum_by (λ n. n - 1) copies.now }
    ensures few { result ≤ sum copies.now }
{
    let mut total = 0;
    for count in copies {
        total += count.saturating_sub(1) as usize;
    }
    total
}
