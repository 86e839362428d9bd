//! The names of agents.
ghost use Rattle.std.specs.Prelude.{◌≡◌, IfSome};
ghost use Rattle.sqs_formats.specs.Rows.{name_at};
ghost use Rattle.sim_records.specs.Lines.{AreWordsOf, IsPlainName, none_quoted};

use crate::quotes::needs_quotes;
use crate::word::{KeptWord, Word};
use sqs_message::Text;
use std::alloc::Global;
use std::marker::Model;

// Whether none of these needs quotes as a field.
fn none_needs_quotes(texts: &[Text]) -> bool
    ensures { result ≡ none_quoted texts.now }
{
    texts.iter().all(|text| !needs_quotes(text.as_bytes()))
}

// The words of names, by number. If memory for them is refused, there are none.
fn words_of(alloc: Global, texts: &[Text]) -> Vec<Option<KeptWord>>
    ensures { AreWordsOf texts.now result.items }
{
    let words = texts.iter().map(|text| KeptWord::plain(text.as_bytes()));
    match words.collect(alloc) {
        Ok(words) => words,
        Err(_) => Vec::new(alloc),
    }
}

/// The names of all agents, by number. Contracts see it as the list of them.
#[derive(Drop)]
pub struct Names {
    texts: Vec<Text>,
    // The words of names, by number, or none of them: a word is put into a line by a copy of
    // constant size.
    words: Vec<Option<KeptWord>>,
    // Whether none of them needs quotes as a field: determined once, and not at each row.
    are_plain: bool,
}

impl Model for Names {
    ghost use Rattle.std.specs.Prelude.{◌≡◌, List, ℕ};
    ghost use Rattle.sim_records.specs.Lines.{AreWordsOf, none_quoted};

    ghost Value = { List (List ℕ) };

    ghost view = { λ n. n.texts.items };

    ghost invariant = { λ n. AreWordsOf n.texts.items n.words.items × (n.are_plain ≡ none_quoted n.texts.items) };
}

impl Names {
    /// The names; the first has number 0.
    pub fn new(texts: Vec<Text>) -> Names
        ensures { result ≡ texts.items }
    {
        let are_plain = none_needs_quotes(texts.as_slice());
        let words = words_of(*texts.allocator(), texts.as_slice());
        Names {
            texts,
            words,
            are_plain,
        }
    }

    /// All names, by number.
    pub fn as_slice(&self) -> &[Text]
        ensures { result.now ≡ self.now }
    {
        self.texts.as_slice()
    }

    /// Whether none of them needs quotes as a field.
    pub(crate) fn are_plain(&self) -> bool
        ensures { result ≡ none_quoted self.now }
    {
        self.are_plain
    }

    /// The name of an agent, if it is kept as a word. It needs no quotes.
    #[inline(always)]
    pub(crate) fn word(&self, number: u32) -> Option<Word<'_>>
        ensures { IfSome result (IsPlainName self.now number) }
    {
        match self.words.as_slice().get(number as usize) {
            Some(Some(word)) => Some(word.word()),
            _ => None,
        }
    }

    /// The name of an agent; empty if no agent has the number.
    pub fn name(&self, number: u32) -> &[u8]
        ensures { result.now ≡ name_at self.now number }
    {
        match self.texts.as_slice().get(number as usize) {
            Some(text) => text.as_bytes(),
            None => b"",
        }
    }
}
