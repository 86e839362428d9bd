//! Numbers in decimal, as fields of a comparison.
ghost use Rattle.std.specs.Prelude.{◌≡◌, ◌++◌, codes};
ghost use Rattle.std.specs.Fmt.{decimal};
ghost use Rattle.sqs_formats.specs.Rows.{text_if};
ghost use Rattle.sqs_formats.specs.Comparison.{difference_if};

use itoa::Integer;
use std::marker::Model;

// The greatest length of a number with a sign before it.
const LONGEST: usize = 40;

/// The text of a number; empty if there is none. Contracts see its bytes.
#[derive(Drop)]
pub(crate) struct NumberText {
    // The text is at its end, from `start` on.
    bytes: [u8; LONGEST],
    start: usize,
}

impl Model for NumberText {
    ghost use Rattle.std.specs.Prelude.{List, ℕ, ◌≤◌, drop};

    ghost Value = { List ℕ };

    ghost view = { λ t. drop t.start t.bytes };

    ghost invariant = { λ t. t.start ≤ 40 };
}

impl NumberText {
    // The text of a number.
    fn decimal(number: u128) -> NumberText
        ensures { result ≡ decimal number }
    {
        let mut bytes = [0; LONGEST];
        let start = number.write(&mut bytes);
        NumberText { bytes, start }
    }

    /// A number in decimal, if there is one.
    pub(crate) fn new(number: Option<u128>) -> NumberText
        ensures { result ≡ text_if decimal number }
    {
        match number {
            Some(number) => NumberText::decimal(number),
            None => NumberText {
                bytes: [0; LONGEST],
                start: LONGEST,
            },
        }
    }

    /// The second number minus the first, in decimal; empty if either is absent.
    pub(crate) fn difference(first: Option<u128>, second: Option<u128>) -> NumberText
        ensures { result ≡ difference_if first second }
    {
        match (first, second) {
            (Some(first), Some(second)) if first <= second => NumberText::decimal(second - first),
            (Some(first), Some(second)) => NumberText::negative(first - second),
            _ => NumberText::new(None),
        }
    }

    // The text of a number with a minus sign.
    fn negative(number: u128) -> NumberText
        ensures { result ≡ codes "-" ++ decimal number }
    {
        let mut bytes = [0; LONGEST];
        let start = number.write(&mut bytes) - 1;
        bytes[start] = b'-';
        NumberText { bytes, start }
    }

    /// Its bytes.
    pub(crate) fn as_bytes(&self) -> &[u8]
        ensures { result.now ≡ self.now }
    {
        &self.bytes[self.start..]
    }
}
