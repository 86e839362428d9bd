//! Texts with a number in place of each mark.
ghost use Rattle.std.specs.Prelude.{◌≡◌, ◌≤◌, ◌++◌, ◌∷◌, List, MatchOption, OnOk, [], drop, false, length, take, ℕ};
ghost use Rattle.std.specs.Fmt.{decimal};
ghost use Rattle.std.specs.Str.{bytes_eq};
ghost use Rattle.sqs_message.specs.Bodies.{contains as the_contains, filled, has_mark};

use itoa::Buffer;
use std::alloc::AllocError;
use std::marker::Model;

/// Whether bytes begin with `{n}`.
pub fn has_mark(bytes: &[u8]) -> bool
    ensures { result ≡ has_mark bytes.now }
{
    bytes.len() >= 3 && bytes[0] == b'{' && bytes[1] == b'n' && bytes[2] == b'}'
}

// The number of bytes before the next brace, in bytes that do not begin with `{n}`: they are copied
// as they are.
fn plain_count(bytes: &[u8]) -> usize
    requires some { 1 ≤ length bytes.now }
    requires plain { has_mark bytes.now ≡ false }
    ensures some { 1 ≤ result }
    ensures within { result ≤ length bytes.now }
    ensures plain { (n : List ℕ)
        → filled n bytes.now ≡ take result bytes.now ++ filled n (drop result bytes.now) }
{
    let mut count = 1;
    while count < bytes.len() && bytes[count] != b'{' {
        count += 1;
    }
    count
}

// Writes a text with each `{n}` replaced by a number in decimal, from left to right.
pub(crate) fn fill(out: &mut Vec<u8>, n: u64, text: &[u8]) -> Result<(), AllocError>
    ensures { OnOk result (out.new.items ≡ filled (decimal n) text.now) }
{
    let mut buffer = Buffer::new();
    let digits = buffer.format(n);
    out.clear();
    let mut rest = text;
    while !rest.is_empty() {
        if has_mark(rest) {
            out.extend_from_slice(digits.as_bytes())?;
            rest = &rest[3..];
        } else {
            let (plain, others) = rest.split_at(plain_count(rest));
            out.extend_from_slice(plain)?;
            rest = others;
        }
    }
    Ok(())
}

// What is left of a text in which digits replace each mark: first of the digits that replaced the
// last one, and then of the text.
#[derive(Drop)]
struct Rest<'a> {
    digits: &'a [u8],
    number: &'a [u8],
    text: &'a [u8],
}

impl<'a> Model for Rest<'a> {
    ghost use Rattle.std.specs.Prelude.{List, ℕ, ◌++◌};
    ghost use Rattle.sqs_message.specs.Bodies.{filled};

    ghost Value = { List ℕ };

    ghost view = { λ r. r.number.now ++ filled r.digits.now r.text.now };
}

impl<'a> Rest<'a> {
    // The same rest.
    fn again(&self) -> Rest<'_>
        ensures { result ≡ self.now }
    {
        Rest {
            digits: self.digits,
            number: self.number,
            text: self.text,
        }
    }

    // Takes its first byte off.
    fn next(&mut self) -> Option<u8>
        ensures { MatchOption result
            ((self.old ≡ []) × (self.new ≡ [])) (λ byte. self.old ≡ byte ∷ self.new) }
    {
        while self.number.is_empty() && has_mark(self.text) {
            self.number = self.digits;
            self.text = &self.text[3..];
        }
        if let Some((first, others)) = self.number.split_first() {
            self.number = others;
            return Some(*first);
        }
        let (first, others) = self.text.split_first()?;
        self.text = others;
        Some(*first)
    }

    // Whether it begins with a part.
    fn begins(&self, part: &[u8]) -> bool
        ensures { result ≡ bytes_eq part.now (take (length part.now) self.now) }
    {
        let mut rest = self.again();
        let mut left = part;
        while let Some((first, others)) = left.split_first() {
            if rest.next() != Some(*first) {
                return false;
            }
            left = others;
        }
        true
    }
}

// Whether bytes contain a part.
pub(crate) fn contains(part: &[u8], bytes: &[u8]) -> bool
    ensures { result ≡ the_contains part.now bytes.now }
{
    let mut rest = bytes;
    while let Some((_, others)) = rest.split_first() {
        if rest.starts_with(part) {
            return true;
        }
        rest = others;
    }
    part.is_empty()
}

// Whether a text with each `{n}` replaced by digits contains a part.
#[tactic(auto, using(crate::proofs::Filled::begun, crate::proofs::Filled::not_begun))]
pub(crate) fn contains_filled(part: &[u8], digits: &[u8], text: &[u8]) -> bool
    ensures { result ≡ the_contains part.now (filled digits.now text.now) }
{
    let mut rest = Rest {
        digits,
        number: &[],
        text,
    };
    loop {
        if rest.begins(part) {
            return true;
        }
        if rest.next().is_none() {
            return false;
        }
    }
}
