//! Words and digests of the log, which are copied by a constant number of bytes.
ghost use Rattle.std.specs.Option.{is_some};
ghost use Rattle.std.specs.Prelude.{◌≡◌, ◌≤◌, ◌<◌, ◌+◌, ◌&&◌, ◌++◌, ◌∷◌, ◌-◌, IfSome, drop, length, nat_le, not, take};
ghost use Rattle.csv.specs.Writing.{comma, default_writer, needs_quotes};
ghost use Rattle.hex.specs.Hex.{encode_lower};
ghost use Rattle.sim_records.specs.Lines.{IsPlain};

use crate::quotes::needs_quotes;
use std::marker::Model;

/// The number of bytes that are copied for a word; its own bytes are the last of them.
pub(crate) const WORD: usize = 16;

/// The length of the text of a digest: two digits a byte.
pub(crate) const DIGEST: usize = 32;

/// A word, with bytes before it that do not belong to it. Contracts see its own bytes.
#[derive(Drop)]
pub(crate) struct Word<'a> {
    bytes: &'a [u8; WORD],
    len: usize,
}

impl<'a> Model for Word<'a> {
    ghost use Rattle.std.specs.Prelude.{List, ℕ, ◌≤◌, ◌-◌, drop};

    ghost Value = { List ℕ };

    ghost view = { λ w. drop (16 - w.len) w.bytes.now };

    ghost invariant = { λ w. w.len ≤ 16 };
}

impl<'a> Word<'a> {
    /// The word that the last `len` of these bytes are.
    #[inline(always)]
    pub(crate) fn new(bytes: &'a [u8; WORD], len: usize) -> Word<'a>
        requires { len ≤ WORD }
        ensures { result ≡ drop (WORD - len) bytes.now }
    {
        Word { bytes, len }
    }
}

/// A word that owns its bytes, to be kept. Contracts see its own bytes.
#[derive(Drop)]
pub(crate) struct KeptWord {
    bytes: [u8; WORD],
    len: usize,
}

impl Model for KeptWord {
    ghost use Rattle.std.specs.Prelude.{List, ℕ, ◌≤◌, ◌-◌, drop};

    ghost Value = { List ℕ };

    ghost view = { λ w. drop (16 - w.len) w.bytes };

    ghost invariant = { λ w. w.len ≤ 16 };
}

impl KeptWord {
    /// The word with a text; none if the text is too long for a word or needs quotes.
    pub(crate) fn plain(text: &[u8]) -> Option<KeptWord>
        ensures word { IfSome result (λ w. (w ≡ text.now) × IsPlain w) }
        ensures told { is_some result
            ≡ nat_le (length text.now) 16 && not (needs_quotes default_writer text.now) }
    {
        if text.len() > WORD || needs_quotes(text) {
            return None;
        }
        let len = text.len();
        let mut bytes = [0; WORD];
        bytes[WORD - len..].copy_from_slice(text);
        Some(KeptWord { bytes, len })
    }

    /// The same word, by reference.
    #[inline(always)]
    pub(crate) fn word(&self) -> Word<'_>
        ensures { result ≡ self.now }
    {
        Word::new(&self.bytes, self.len)
    }
}

// Puts these bytes before the text that begins at `end`.
#[inline(always)]
fn put_bytes(text: &mut [u8], end: usize, bytes: &[u8; WORD])
    requires room { WORD ≤ end }
    requires within { end ≤ length text.old }
    ensures written { drop (end - WORD) text.new ≡ bytes.now ++ drop end text.old }
    ensures long { length bytes.now ≡ WORD }
{
    text[end - WORD..end].copy_from_slice(bytes);
}

/// Puts the `len` bytes of the text that begin at `from` before those that begin at `end` once more.
/// Returns where they begin.
#[inline(always)]
pub(crate) fn put_again(text: &mut [u8], end: usize, from: usize, len: usize) -> usize
    requires short { len ≤ WORD }
    requires room { WORD ≤ end }
    requires behind { end ≤ from }
    requires within { from + len ≤ length text.old }
    ensures written { drop result text.new ≡ take len (drop from text.old) ++ drop end text.old }
    ensures before { result + len ≡ end }
{
    let until = from + len;
    let mut bytes = [0; WORD];
    bytes.copy_from_slice(&text[until - WORD..until]);
    put_bytes(text, end, &bytes);
    end - len
}

/// Puts a comma and a word before the text that begins at `end`. Returns where they begin.
#[inline(always)]
pub(crate) fn put_word(text: &mut [u8], end: usize, word: Word) -> usize
    requires room { WORD < end }
    requires within { end ≤ length text.old }
    ensures written { drop result text.new ≡ comma ∷ (word.entry ++ drop end text.old) }
    ensures most { end ≤ result + (WORD + 1) }
    ensures before { result < end }
{
    // An array of its own can't overlap the text, so it is copied at once.
    let bytes: [u8; WORD] = *word.bytes;
    put_bytes(text, end, &bytes);
    let start = end - word.len - 1;
    text[start] = b',';
    start
}

/// Puts a comma and a digest in lower-case hexadecimal before the text that begins at `end`.
/// Returns where they begin.
#[inline(always)]
pub(crate) fn put_digest(text: &mut [u8], end: usize, md5: &[u8; 16]) -> usize
    requires room { DIGEST < end }
    requires within { end ≤ length text.old }
    ensures written { drop result text.new ≡ comma ∷ (encode_lower md5.now ++ drop end text.old) }
    ensures before { end ≡ result + (DIGEST + 1) }
{
    let start = end - DIGEST;
    match hex::encode_to_slice(md5, &mut text[start..end]) {
        Ok(()) => {}
        Err(_) => unreachable!(),
    }
    text[start - 1] = b',';
    start - 1
}
