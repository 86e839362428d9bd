//! Bodies of messages.
ghost use Rattle.std.specs.Prelude.{◌≡◌, IfOk};
ghost use Rattle.std.specs.Cmp.{partial_equiv_from_equiv};
ghost use Rattle.std.specs.Cmp.Lexicographic.{nat_list_eq_equiv};
ghost use Rattle.std.specs.Fmt.{decimal};
ghost use Rattle.std.specs.Str.{bytes_eq};
ghost use Rattle.md5.specs.Md5.{md5 as md5_of};
ghost use Rattle.sqs_message.specs.Bodies.{contains, filled};

use crate::ahead::Ahead;
use crate::digest::body_md5;
use crate::filling::{contains, contains_filled, fill};
use crate::text::Text;
use itoa::Buffer;
use std::alloc::{AllocError, Global};
use std::marker::Model;
use std::sync::Arc;

/// A text of which bodies are made.
#[derive(Drop)]
pub struct Source {
    pub(crate) text: Text,
    /// Whether a message's number replaces each `{n}` in it.
    pub(crate) numbered: bool,
}

/// The text of which a producer makes the bodies of its messages: each `{n}` in it is replaced by a
/// message's number. Contracts see it as the list of its bytes.
#[derive(Drop)]
pub struct Template {
    source: Arc<Source>,
}

impl Model for Template {
    ghost use Rattle.std.specs.Prelude.{List, true, ℕ, ◌≡◌};
    ghost use Rattle.std.specs.Arc.{arc_value};

    ghost Value = { List ℕ };

    ghost view = { λ t. (arc_value t.source).text };

    ghost invariant = { λ t. (arc_value t.source).numbered ≡ true };
}

impl Template {
    /// The template with the bytes of a text.
    ///
    /// # Errors
    ///
    /// `AllocError` if memory runs out.
    pub fn new(alloc: Global, text: Text) -> Result<Template, AllocError>
        ensures { IfOk result (λ t. t ≡ text) }
    {
        let source = Source {
            text,
            numbered: true,
        };
        Ok(Template {
            source: Arc::new(alloc, source)?,
        })
    }

    /// The body of the message with a number. `left` is how many bodies are still to come, with this
    /// one: the MD5s of the next four may be computed together, and stay in `ahead`.
    ///
    /// # Errors
    ///
    /// `AllocError` if memory runs out.
    pub fn body(&self, number: u64, left: u64, ahead: &mut Ahead) -> Result<Body, AllocError>
        ensures { IfOk result (λ b. b ≡ filled (decimal number) self.now) }
    {
        let md5 = ahead.digest(&self.source, number, left)?;
        Ok(Body {
            source: Arc::try_clone(&self.source)?,
            number,
            md5,
        })
    }
}

impl PartialEq for Template {
    ghost eq = { bytes_eq };

    ghost laws = { partial_equiv_from_equiv nat_list_eq_equiv };

    fn eq(&self, other: &Template) -> bool {
        self.source.text == other.source.text
    }
}

impl Eq for Template {
    ghost laws = { nat_list_eq_equiv };
}

/// The body of a message, as what it is made of: a text, which other bodies may share, and a number.
/// It has its MD5, which is computed once. Contracts see it as the list of its bytes.
#[derive(Drop)]
pub struct Body {
    source: Arc<Source>,
    number: u64,
    md5: [u8; 16],
}

impl Model for Body {
    ghost use Rattle.std.specs.Prelude.{List, ℕ, ◌≡◌};
    ghost use Rattle.md5.specs.Md5.{md5 as md5_of};
    ghost use Rattle.sqs_message.specs.Sources.{made_of};
    ghost use Rattle.std.specs.Arc.{arc_value};

    ghost Value = { List ℕ };

    ghost view = { λ b. made_of (arc_value b.source).numbered (arc_value b.source).text b.number };

    ghost invariant = { λ b. b.md5 ≡ md5_of (made_of (arc_value b.source).numbered (arc_value b.source).text b.number) };
}

impl Body {
    /// The body with the bytes of a text.
    ///
    /// # Errors
    ///
    /// `AllocError` if memory runs out.
    pub fn new(alloc: Global, text: Text) -> Result<Body, AllocError>
        ensures { IfOk result (λ b. b ≡ text) }
    {
        let md5 = body_md5(text.as_bytes());
        let source = Source {
            text,
            numbered: false,
        };
        Ok(Body {
            source: Arc::new(alloc, source)?,
            number: 0,
            md5,
        })
    }

    /// Its bytes.
    ///
    /// # Errors
    ///
    /// `AllocError` if memory runs out.
    pub fn text(&self, alloc: Global) -> Result<Text, AllocError>
        ensures { IfOk result (λ t. t ≡ self.now) }
    {
        if !self.source.numbered {
            return self.source.text.copy(alloc);
        }
        let mut bytes = Vec::new(alloc);
        fill(&mut bytes, self.number, self.source.text.as_bytes())?;
        Ok(Text::new(bytes))
    }

    /// Whether its bytes contain these.
    pub fn contains(&self, part: &[u8]) -> bool
        ensures { result ≡ contains part.now self.now }
    {
        let text = self.source.text.as_bytes();
        if !self.source.numbered {
            return contains(part, text);
        }
        let mut buffer = Buffer::new();
        contains_filled(part, buffer.format(self.number).as_bytes(), text)
    }

    /// Its MD5, which SQS returns in `MD5OfMessageBody`.
    pub fn md5(&self) -> [u8; 16]
        ensures { result ≡ md5_of self.now }
    {
        self.md5
    }

    /// A body with the same bytes. It shares the text.
    ///
    /// # Errors
    ///
    /// `AllocError` if 2^63 bodies share the text.
    pub fn copy(&self) -> Result<Body, AllocError>
        ensures { IfOk result (λ b. b ≡ self.now) }
    {
        Ok(Body {
            source: Arc::try_clone(&self.source)?,
            number: self.number,
            md5: self.md5,
        })
    }
}
