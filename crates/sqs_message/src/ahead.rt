//! The MD5s of a template's next bodies.
ghost use Rattle.std.specs.Prelude.{◌≡◌, IfOk, IfSome, length};
ghost use Rattle.std.specs.Arc.{arc_value};
ghost use Rattle.std.specs.Fmt.{decimal};
ghost use Rattle.md5.specs.Md5.{md5};
ghost use Rattle.sqs_message.specs.Bodies.{filled};
ghost use Rattle.sqs_message.specs.Beside.{AreDigestsFrom};

use crate::body::Source;
use crate::digest::body_md5;
use crate::filling::fill;
use crate::lanes::{LANES, SHORT, md5_of_four, pad};
use std::alloc::{AllocError, Global};
use std::marker::Model;
use std::sync::Arc;

// The bytes of a block.
fn block(bytes: &[u8]) -> [u8; 64]
    requires { length bytes.now ≡ 64 }
    ensures { result ≡ bytes.now }
{
    let mut block = [0; 64];
    block.copy_from_slice(bytes);
    block
}

// The MD5s of the four bodies made of a text and the numbers from one on, if all of them are short.
// Their bytes are written into `room`.
fn digests_from(
    room: &mut Vec<u8>,
    number: u64,
    text: &[u8],
) -> Result<Option<[[u8; 16]; LANES]>, AllocError>
    ensures { IfOk result (λ digests. IfSome digests (AreDigestsFrom number text.now)) }
{
    if number > u64::MAX - LANES as u64 {
        return Ok(None);
    }
    let mut padded = [[0; 64]; LANES];
    'each: for l in 0..LANES {
        fill(room, number + l as u64, text)?;
        if SHORT < room.len() {
            return Ok(None);
        }
        pad(room)?;
        padded[l] = block(room.as_slice());
    }
    Ok(Some(md5_of_four(&padded)))
}

/// The MD5s of the bodies that a producer sends next: short ones are computed four at a time.
/// Contracts see nothing of it.
#[derive(Drop)]
pub struct Ahead {
    // Where the bytes of a body are written.
    room: Vec<u8>,
    // The text of the bodies whose MD5s are known, and the number of the first of them.
    source: Option<Arc<Source>>,
    first: u64,
    digests: [[u8; 16]; LANES],
}

impl Model for Ahead {
    ghost use Rattle.std.specs.Prelude.{IfSome, ⊤};
    ghost use Rattle.std.specs.Arc.{arc_value};
    ghost use Rattle.sqs_message.specs.Beside.{AreDigestsFrom};

    ghost Value = { ⊤ };

    ghost view = { λ _. tt };

    ghost invariant = { λ a. IfSome a.source (λ s. AreDigestsFrom a.first (arc_value s).text a.digests) };
}

impl Ahead {
    /// Nothing known ahead.
    pub fn new(alloc: Global) -> Ahead {
        Ahead {
            room: Vec::new(alloc),
            source: None,
            first: 0,
            digests: [[0; 16]; LANES],
        }
    }

    // The MD5 of the body made of a text and a number, if it is known.
    fn known(&self, source: &Source, number: u64) -> Option<[u8; 16]>
        ensures { IfSome result (λ digest. digest ≡ md5 (filled (decimal number) source.now.text)) }
    {
        let known = self.source.as_ref()?;
        let place = number.checked_sub(self.first)? as usize;
        if place < LANES && known.text == source.text {
            Some(self.digests[place])
        } else {
            None
        }
    }

    // Computes the MD5s of four bodies made of a text, that with this number first, which it returns.
    // Nothing if one of them is long.
    fn read(&mut self, source: &Arc<Source>, number: u64) -> Result<Option<[u8; 16]>, AllocError>
        ensures { IfOk result (λ first. IfSome first
            (λ digest. digest ≡ md5 (filled (decimal number) (arc_value source.now).text))) }
    {
        let text = source.text.as_bytes();
        let Some(digests) = digests_from(&mut self.room, number, text)? else {
            return Ok(None);
        };
        let source = Arc::try_clone(source)?;
        self.source = Some(source);
        self.first = number;
        self.digests = digests;
        Ok(Some(digests[0]))
    }

    // Computes the MD5 of the body made of a text and a number.
    fn single(&mut self, source: &Source, number: u64) -> Result<[u8; 16], AllocError>
        ensures { IfOk result (λ digest. digest ≡ md5 (filled (decimal number) source.now.text)) }
    {
        fill(&mut self.room, number, source.text.as_bytes())?;
        Ok(body_md5(self.room.as_slice()))
    }

    /// The MD5 of the body made of a text and a number. `left` is how many bodies of the text are
    /// still to come, with this one.
    ///
    /// # Errors
    ///
    /// `AllocError` if memory runs out.
    pub(crate) fn digest(
        &mut self,
        source: &Arc<Source>,
        number: u64,
        left: u64,
    ) -> Result<[u8; 16], AllocError>
        ensures { IfOk result
            (λ digest. digest ≡ md5 (filled (decimal number) (arc_value source.now).text)) }
    {
        if let Some(digest) = self.known(source, number) {
            return Ok(digest);
        }
        if LANES as u64 <= left && source.text.as_bytes().len() <= SHORT {
            if let Some(digest) = self.read(source, number)? {
                return Ok(digest);
            }
        }
        self.single(source, number)
    }
}
