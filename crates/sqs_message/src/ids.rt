//! Ids of messages, their origins and receipts, and their texts.
ghost use Rattle.std.specs.Prelude.{◌≡◌, ◌<◌, ◌^◌, ℕ, List, ◌++◌, ◌∷◌, IfOk, IfSome, IsSomeAnd, Some, codes, string_bytes};
ghost use Rattle.std.specs.Fmt.{decimal};
ghost use Rattle.sqs_message.specs.Ids.{HasNoDash, is_plain};

use std::alloc::{AllocError, Global};

/// The id of a message in one stay in a queue: `m-SITE-NUMBER`.
#[derive(Clone, Copy, Debug, PartialEq, Eq)]
pub struct MessageId {
    /// The queue's number.
    pub site: u32,
    /// How many messages came to that queue before.
    pub number: u64,
}

impl MessageId {
    ghost use Rattle.sqs_message.specs.Ids.{id_text};

    /// Its text, as in `m-0-12`.
    ///
    /// # Errors
    ///
    /// `AllocError` if memory runs out.
    pub fn text(&self, alloc: Global) -> Result<String, AllocError>
        ensures { IfOk result (λ s. string_bytes s ≡ id_text self.now) }
    {
        format!(in alloc; "m-{}-{}", self.site, self.number)
    }
}

/// Where a message was first accepted: `o-SITE-NUMBER`. The message keeps it over redrives and
/// moves.
#[derive(Clone, Copy, Debug, PartialEq, Eq)]
pub struct Origin {
    /// The number of the queue that accepted it.
    pub site: u32,
    /// Its number there.
    pub number: u64,
}

impl Origin {
    ghost use Rattle.sqs_message.specs.Ids.{origin_text};

    /// Its text, as in `o-0-12`.
    ///
    /// # Errors
    ///
    /// `AllocError` if memory runs out.
    pub fn text(&self, alloc: Global) -> Result<String, AllocError>
        ensures { IfOk result (λ s. string_bytes s ≡ origin_text self.now) }
    {
        format!(in alloc; "o-{}-{}", self.site, self.number)
    }
}

/// The receipt handle of one receive of a message: `r-SITE-NUMBER-COUNT`.
#[derive(Clone, Copy, Debug, PartialEq, Eq)]
pub struct Receipt {
    /// The queue's number.
    pub site: u32,
    /// The message's number there.
    pub number: u64,
    /// The message's receive count with this receive, from 1.
    pub count: u64,
}

impl Receipt {
    ghost use Rattle.sqs_message.specs.Ids.{Fits, receipt_text, read_receipt};
    ghost use Rattle.sqs_message.specs.declared.ids.Receipt.{Receipt};

    /// Its text, as in `r-0-12-1`.
    ///
    /// # Errors
    ///
    /// `AllocError` if memory runs out.
    pub fn text(&self, alloc: Global) -> Result<String, AllocError>
        ensures { IfOk result (λ s. string_bytes s ≡ receipt_text self.now) }
    {
        format!(in alloc; "r-{}-{}-{}", self.site, self.number, self.count)
    }

    /// The receipt with a text: numbers in decimal without leading zeros, the site below 2^32, the
    /// others below 2^62, the count at least 1. No other text is a receipt.
    pub fn read(text: &str) -> Option<Receipt>
        ensures sound { IfSome result (λ r. Fits r × (text.now ≡ receipt_text r)) }
        ensures complete { (r : Receipt) → Fits r → text.now ≡ receipt_text r → result ≡ Some r }
        ensures named { result ≡ read_receipt text.now }
    {
        Receipt::read_numbers(text)
    }

    // The receipt with its text: itself, if its numbers are in the ranges of `read`.
    pub(crate) fn fitting(self) -> Option<Receipt>
        ensures { result ≡ read_receipt (receipt_text self) }
    {
        Receipt::within(self.site as u64, self.number, self.count)
    }

    // The same, number by number.
    fn read_numbers(text: &str) -> Option<Receipt>
        ensures sound { IfSome result (λ r. Fits r × (text.now ≡ receipt_text r)) }
        ensures complete { (r : Receipt) → Fits r → text.now ≡ receipt_text r → result ≡ Some r }
    {
        match after_mark(text) {
            None => None,
            Some(rest) => match numbered(rest) {
                None => None,
                Some((site, rest)) => match numbered(rest) {
                    None => None,
                    Some((message, rest)) => match number(rest) {
                        None => None,
                        Some(count) => Receipt::within(site, message, count),
                    },
                },
            },
        }
    }

    // The receipt with three numbers, if they are in range.
    fn within(site: u64, number: u64, count: u64) -> Option<Receipt>
        ensures sound { IfSome result
            (λ r. Fits r × (r.site ≡ site) × (r.number ≡ number) × (r.count ≡ count)) }
        ensures complete { (r : Receipt) → Fits r → r.site ≡ site → r.number ≡ number
            → r.count ≡ count → result ≡ Some r }
    {
        if site < 1 << 32 && number < 1 << 62 && 1 <= count && count < 1 << 62 {
            Some(Receipt {
                site: site as u32,
                number,
                count,
            })
        } else {
            None
        }
    }
}

// Whether a text begins like a decimal number: no sign, and no zero before other digits.
fn is_plain(text: &[u8]) -> bool
    ensures { result ≡ is_plain text.now }
{
    let length = text.len();
    0 < length && (b'0' < text[0] || (text[0] == b'0' && length == 1))
}

// The number with a decimal text, which has no leading zero.
fn number(text: &str) -> Option<u64>
    ensures sound { IfSome result (λ n. text.now ≡ decimal n) }
    ensures complete { (n : ℕ) → n < 2 ^ 64 → text.now ≡ decimal n → result ≡ Some n }
{
    if !is_plain(text.as_bytes()) {
        return None;
    }
    match text.parse::<u64>() {
        Ok(n) => Some(n),
        Err(_) => None,
    }
}

// The parts of a text before and after its first dash.
fn parts(text: &str) -> Option<(&str, &str)>
    ensures sound { IfSome result (λ p. text.now ≡ p.0.now ++ 45 ∷ p.1.now) }
    ensures complete { (front back : List ℕ) → HasNoDash front → text.now ≡ front ++ 45 ∷ back
        → IsSomeAnd result (λ p. (p.0.now ≡ front) × (p.1.now ≡ back)) }
{
    text.split_once('-')
}

// The number before a text's first dash, and what follows it.
#[tactic(auto, using(crate::proofs::Dashes::decimal_no_dash))]
fn numbered(text: &str) -> Option<(u64, &str)>
    ensures sound { IfSome result (λ p. text.now ≡ decimal p.0 ++ 45 ∷ p.1.now) }
    ensures complete { (n : ℕ) (rest : List ℕ) → n < 2 ^ 64 → text.now ≡ decimal n ++ 45 ∷ rest
        → IsSomeAnd result (λ p. (p.0 ≡ n) × (p.1.now ≡ rest)) }
{
    match parts(text) {
        None => None,
        Some((front, rest)) => match number(front) {
            None => None,
            Some(n) => Some((n, rest)),
        },
    }
}

// The text after `r-`.
fn after_mark(text: &str) -> Option<&str>
    ensures sound { IfSome result (λ s. text.now ≡ codes "r-" ++ s.now) }
    ensures complete { (rest : List ℕ) → text.now ≡ codes "r-" ++ rest
        → IsSomeAnd result (λ s. s.now ≡ rest) }
{
    text.strip_prefix("r-")
}
