//! The window and its calls.
ghost use Rattle.std.specs.Prelude.{All, None, OnErr, OnOk, [], ◌++◌, ◌+◌, ◌∷◌, ◌≡◌, ◌≤◌};
ghost use Rattle.std.specs.Option.{option_map};
ghost use Rattle.sqs_model.specs.Answers.{most_count};
ghost use Rattle.sqs_model.specs.Calls.{living_entries};
ghost use Rattle.sqs_model.specs.Longest.{deduplication_interval};
ghost use Rattle.sqs_dedup.specs.Window.{living_among, with_entry_of};

use crate::held::{Held, add, number_at, only};
use crate::key::ScopedId;
use indexmap::IndexMap;
use sqs_model::DEDUPLICATION_INTERVAL;
use std::alloc::{AllocError, Global};
use std::marker::Model;
use std::mem;

/// The deduplication entries of a FIFO queue (Developer Guide: exactly-once processing). Contracts
/// see it as the list of the entries that lived when the last one was entered, in the order in
/// which they came. Times are milliseconds.
///
/// Entries go to a map of recent ones. Once the first of these has ended, all earlier ones have,
/// and the recent ones become the earlier ones. So entries are never removed one by one, and at
/// most about ten minutes of entries are held.
#[derive(Drop)]
pub struct Dedup {
    earlier: IndexMap<ScopedId, Held>,
    recent: IndexMap<ScopedId, Held>,
    // The moment at which the map of recent entries began.
    began: u64,
    // The moment of the last entry.
    last: u64,
    alloc: Global,
}

impl Model for Dedup {
    ghost use Rattle.std.specs.Prelude.{List};
    ghost use Rattle.sqs_model.specs.Queue.{Entry};
    ghost use Rattle.sqs_dedup.specs.Window.{IsWindow, window};

    ghost Value = { List Entry };

    ghost view = { λ d. window d.earlier.entries d.recent.entries d.last };

    ghost invariant = { λ d. IsWindow d.earlier.entries d.recent.entries d.began d.last };
}

impl Dedup {
    /// A window without entries.
    pub fn new(alloc: Global) -> Dedup
        ensures { result ≡ [] }
    {
        Dedup {
            earlier: IndexMap::new(alloc),
            recent: IndexMap::new(alloc),
            began: 0,
            last: 0,
            alloc,
        }
    }

    /// The number of the message that was accepted with this id in its scope, if its entry is still
    /// alive. A send with this id is then a duplicate of that message (`SendMessage`:
    /// `MessageDeduplicationId`). It allocates nothing.
    pub fn living(&self, now: u64, key: &ScopedId) -> Option<u64>
        ensures { result
            ≡ option_map (λ e. e.number) (living_among now key.now.scope key.now.id self.now) }
    {
        let moment = now.max(self.last);
        match number_at(&self.earlier, moment, key) {
            Some(number) => Some(number),
            None => number_at(&self.recent, moment, key),
        }
    }

    /// Enters the message with this number, accepted with this id in its scope. The entry lives for
    /// 5 minutes; entries that have ended go.
    ///
    /// # Errors
    ///
    /// `AllocError` if memory runs out; nothing changes then.
    pub fn enter(&mut self, now: u64, key: ScopedId, number: u64) -> Result<(), AllocError>
        requires moment { now ≤ most_count }
        requires no_earlier { All (λ e. e.end ≤ now + deduplication_interval) self.old }
        requires none_living { living_among now key.scope key.id self.old ≡ None }
        ensures entered { OnOk result (self.new ≡ with_entry_of now key number self.old) }
        ensures unchanged { OnErr result (self.new ≡ self.old) }
    {
        let held = Held {
            end: now + DEDUPLICATION_INTERVAL,
            number,
        };
        if now.saturating_sub(self.began) < DEDUPLICATION_INTERVAL {
            add(&mut self.recent, key, held)?;
        } else {
            let fresh = only(self.alloc, key, held)?;
            self.earlier = mem::replace(&mut self.recent, fresh);
            self.began = now;
        }
        self.last = now;
        Ok(())
    }
}
