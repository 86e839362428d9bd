//! The entries by key: how one is looked up and added.
ghost use Rattle.std.specs.Prelude.{IfOk, None, OnErr, OnOk, [], ◌++◌, ◌∷◌, ◌≡◌};
ghost use Rattle.indexmap.specs.IndexMap.{IsUnique, get};
ghost use Rattle.sqs_dedup.specs.Window.{number_at, same_key};

use crate::key::ScopedId;
use indexmap::IndexMap;
use std::alloc::{AllocError, Global};

/// When an entry ends, and the message that it is for.
#[derive(Clone, Copy, Drop)]
pub struct Held {
    pub end: u64,
    pub number: u64,
}

// The number in the entry of a key, if the entry lives at a moment. If there are no entries, the
// key is not hashed.
pub fn number_at(entries: &IndexMap<ScopedId, Held>, now: u64, key: &ScopedId) -> Option<u64>
    ensures { result ≡ number_at now (get same_key entries.now key.now) }
{
    if entries.is_empty() {
        return None;
    }
    let held = entries.get(key)?;
    if now < held.end {
        Some(held.number)
    } else {
        None
    }
}

// Adds the entry of a new key after the others.
pub fn add(
    entries: &mut IndexMap<ScopedId, Held>,
    key: ScopedId,
    held: Held,
) -> Result<(), AllocError>
    requires { get same_key entries.old key ≡ None }
    ensures added { OnOk result (entries.new.entries ≡ entries.old.entries ++ (key, held) ∷ []) }
    ensures unchanged { OnErr result (entries.new.entries ≡ entries.old.entries) }
    ensures distinct { IsUnique same_key entries.new }
{
    entries.insert(key, held)?;
    Ok(())
}

// A map with the entry of one key.
pub fn only(
    alloc: Global,
    key: ScopedId,
    held: Held,
) -> Result<IndexMap<ScopedId, Held>, AllocError>
    ensures added { IfOk result (λ m. m.entries ≡ (key, held) ∷ []) }
    ensures distinct { IfOk result (IsUnique same_key) }
{
    let mut entries = IndexMap::new(alloc);
    add(&mut entries, key, held)?;
    Ok(entries)
}
