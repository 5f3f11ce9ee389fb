ghost use Rattle.std.specs.Prelude.{◌≡◌, ◌+◌, ◌≤◌, length, IfOk};
ghost use Rattle.std.specs.Option.{option_copied};
ghost use Rattle.wire_message.specs.Texts.{span_len, IsSpanOf, texts_at};

use crate::sizes::{MAX_FRONT, MAX_HEAD, Sizes};
use crate::{Span, TextsAt};
use base::{SharedBytes, count_blanks};
use std::alloc::AllocError;
use std::marker::Model;

/// The texts of a published message as they stand in one block. One more owner copies nothing. A clause sees the four
/// texts. It has 24 bytes, since it is moved often.
#[derive(Debug)]
pub struct MessageText {
    /// From the subject's first byte to the payload's last.
    text: SharedBytes,
    sizes: Sizes,
}

impl Drop for MessageText {
    #[inline(always)]
    fn drop(self) {
        let Self { text: _, sizes: _ } = self;
    }
}

impl Model for MessageText {
    ghost use Rattle.wire_message.specs.Texts;

    ghost Value = { Texts.Texts };

    ghost view = { λ m. Texts.texts_stored m.text m.sizes };

    ghost invariant = { λ m. Texts.AreWithin m.sizes m.text };
}

impl MessageText {
    /// The texts at these places of a text. `AllocError` where 8,192 bytes or more stand before the header block and the
    /// payload, or the header block has 2^25 or more.
    pub fn new(text: SharedBytes, at: TextsAt) -> Result<MessageText, AllocError>
        requires subject { at.subject ≤ length text }
        requires reply { IsSpanOf text at.subject at.reply }
        requires block { at.head + at.payload ≤ length text }
        ensures { IfOk result (λ m. m ≡ texts_at text at) }
    {
        let reply = span_len(at.reply);
        let front = text.len() - at.payload - at.head;
        if at.subject >= MAX_FRONT
            || reply >= MAX_FRONT
            || front >= MAX_FRONT
            || at.head >= MAX_HEAD
        {
            return Err(AllocError);
        }
        let sizes = Sizes::new(at.subject, reply, front, at.head);
        Ok(MessageText { text, sizes })
    }

    /// The subject that it is published on.
    pub fn subject(&self) -> &[u8]
        ensures { result.now ≡ self.now.subject }
    {
        &self.text.as_slice()[..self.sizes.subject()]
    }

    /// The reply subject, if it has one.
    #[inline(always)]
    pub fn reply(&self) -> Option<&[u8]>
        ensures { option_copied result ≡ self.now.reply }
    {
        let len = self.sizes.reply();
        if len == 0 {
            None
        } else {
            let behind = &self.text.as_slice()[self.sizes.subject()..];
            let start = count_blanks(behind);
            Some(&behind[start..start + len])
        }
    }

    /// The header block, which is empty where it has none.
    pub fn head(&self) -> &[u8]
        ensures { result.now ≡ self.now.head }
    {
        let start = self.sizes.front();
        &self.text.as_slice()[start..start + self.sizes.head()]
    }

    /// The payload.
    pub fn payload(&self) -> &[u8]
        ensures { result.now ≡ self.now.payload }
    {
        let _bound = self.text.len();
        let start = self.sizes.front() + self.sizes.head();
        &self.text.as_slice()[start..]
    }

    /// One more owner. `AllocError` where there are too many to count.
    pub fn again(&self) -> Result<MessageText, AllocError>
        ensures { IfOk result (λ same. same ≡ self.now) }
    {
        Ok(MessageText {
            text: self.text.again()?,
            sizes: self.sizes.again(),
        })
    }
}

/// How long a text at a span is, or 0 where there is none.
fn span_len(span: Option<Span>) -> usize
    ensures { result ≡ span_len span }
{
    match span {
        None => 0,
        Some(span) => span.end.saturating_sub(span.start),
    }
}
