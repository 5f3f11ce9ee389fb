ghost use Rattle.std.specs.Prelude.{◌≡◌, ◌<◌};
ghost use Rattle.wire_message.specs.Stored.{stored};

use std::marker::Model;

/// The bytes of a subject, of a reply subject, and of all that stands before a header block are fewer than these.
pub const MAX_FRONT: usize = 8_192;

/// The bytes of a header block are fewer than these.
pub const MAX_HEAD: usize = 33_554_432;

/// The sizes of a message's texts, in eight bytes: 13 bits for each of the first three, and 25 for the header block.
#[derive(Debug, Drop)]
pub struct Sizes {
    number: u64,
}

impl Model for Sizes {
    ghost use Rattle.wire_message.specs.Stored;

    ghost Value = { Stored.Stored };

    ghost view = { λ s. Stored.stored_in s.number };
}

impl Sizes {
    /// The bytes of the subject, of the reply subject, or 0 where there is none, of all that stands before the
    /// header block, and of that.
    #[tactic(auto, using(crate::proofs::StoredLemmas::all_stored))]
    pub fn new(subject: usize, reply: usize, front: usize, head: usize) -> Sizes
        requires subject { subject < 8192 }
        requires reply { reply < 8192 }
        requires front { front < 8192 }
        requires head { head < 33554432 }
        ensures { result ≡ stored subject reply front head }
    {
        Sizes {
            number: ((head as u64 * 8_192 + front as u64) * 8_192 + reply as u64) * 8_192
                + subject as u64,
        }
    }

    /// The bytes of the subject.
    pub fn subject(&self) -> usize
        ensures { result ≡ self.now.subject }
    {
        (self.number % 8_192) as usize
    }

    /// The bytes of the reply subject, or 0 where there is none.
    pub fn reply(&self) -> usize
        ensures { result ≡ self.now.reply }
    {
        (self.number / 8_192 % 8_192) as usize
    }

    /// The bytes before the header block.
    pub fn front(&self) -> usize
        ensures { result ≡ self.now.front }
    {
        (self.number / 67_108_864 % 8_192) as usize
    }

    /// The bytes of the header block.
    pub fn head(&self) -> usize
        ensures { result ≡ self.now.head }
    {
        (self.number / 549_755_813_888) as usize
    }
    /// The same sizes.
    pub fn again(&self) -> Sizes
        ensures { result ≡ self.now }
    {
        Sizes {
            number: self.number,
        }
    }
}
