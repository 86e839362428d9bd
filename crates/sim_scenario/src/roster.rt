//! Texts in order, each found by its bytes.
ghost use Rattle.std.specs.Prelude.{◌≡◌, IfOk};
ghost use Rattle.sqs_formats.specs.Keys.{is_among};
ghost use Rattle.sqs_formats.specs.Outline.{place_among};
ghost use Rattle.sim_scenario.specs.Firsts.{AreFirsts};

use indexmap::IndexMap;
use sqs_message::Text;
use std::alloc::{AllocError, Global};
use std::marker::Model;

/// Texts in order, of which some may be equal. Contracts see it as their list. To find one by its
/// bytes takes no longer if there are more.
#[derive(Drop)]
pub(crate) struct Roster {
    texts: Vec<Text>,
    // The index of the first of equal texts, by their bytes.
    firsts: IndexMap<Vec<u8>, usize>,
}

impl Model for Roster {
    ghost use Rattle.std.specs.Prelude.{List, ℕ};
    ghost use Rattle.sim_scenario.specs.Firsts.{AreFirsts};

    ghost Value = { List (List ℕ) };

    ghost view = { λ r. r.texts.items };

    ghost invariant = { λ r. AreFirsts r.firsts.entries r.texts.items };
}

/// The first index of each of some texts.
fn firsts_of(alloc: Global, texts: &[Text]) -> Result<IndexMap<Vec<u8>, usize>, AllocError>
    ensures { IfOk result (λ m. AreFirsts m.entries texts.now) }
{
    let mut firsts = IndexMap::with_capacity(alloc, texts.len())?;
    for (place, text) in texts.iter().enumerate() {
        let bytes = text.as_bytes();
        if firsts.contains_key(bytes) {
            continue;
        }
        let key = bytes.to_vec(alloc)?;
        firsts.insert(key, place)?;
    }
    Ok(firsts)
}

impl Roster {
    /// The roster of these texts. It fails only if memory runs out.
    pub(crate) fn new(alloc: Global, texts: Vec<Text>) -> Result<Roster, AllocError>
        ensures { IfOk result (λ r. r ≡ texts.items) }
    {
        let firsts = firsts_of(alloc, texts.as_slice())?;
        Ok(Roster { texts, firsts })
    }

    /// The texts.
    pub(crate) fn as_slice(&self) -> &[Text]
        ensures { result.now ≡ self.now }
    {
        self.texts.as_slice()
    }

    /// The first index of a text.
    pub(crate) fn place(&self, bytes: &[u8]) -> Option<usize>
        ensures { result ≡ place_among self.now bytes.now }
    {
        self.firsts.get(bytes).copied()
    }

    /// Whether a text is among them.
    pub(crate) fn has(&self, bytes: &[u8]) -> bool
        ensures { result ≡ is_among self.now bytes.now }
    {
        self.firsts.contains_key(bytes)
    }
}
