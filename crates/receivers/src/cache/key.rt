//! A publisher and a subject, of whose messages something is cached.
ghost use Rattle.std.specs.Prelude.{◌≡◌, ◌==◌, ◌&&◌, IfOk, length, nat_eq, true};
ghost use Rattle.std.specs.Cmp.Lexicographic.{pointwise};
ghost use Rattle.receivers.specs.cache.Key.{IsOf};

use base::NoMemory;
use std::alloc::Global;

/// Under what receivers are cached: a publisher's connection, and the text of a subject.
#[derive(Drop)]
pub(crate) struct CacheKey {
    conn: u64,
    subject: Vec<u8>,
}

impl CacheKey {
    /// Returns the key of nobody's messages, on no subject. It takes no memory.
    pub fn nothing(alloc: Global) -> CacheKey {
        CacheKey {
            conn: 0,
            subject: Vec::new(alloc),
        }
    }

    /// Returns the key of a connection's messages on a subject with this text. `NoMemory` where memory could not be had.
    pub fn of(alloc: Global, conn: u64, text: &[u8]) -> Result<CacheKey, NoMemory>
        ensures { IfOk result (λ key. IsOf key conn text.now) }
    {
        let subject = Vec::from_slice(alloc, text)?;
        Ok(CacheKey { conn, subject })
    }

    /// Sets the publisher and the text of the subject. Without memory the text is shorter, or empty.
    pub fn set(&mut self, conn: u64, text: &[u8]) {
        self.conn = conn;
        self.subject.clear();
        let _ = self.subject.extend_from_slice(text);
    }

    /// Returns how many bytes the subject has: none where there is no subject.
    pub fn subject_len(&self) -> usize
        ensures { result ≡ length self.now.subject.items }
    {
        self.subject.len()
    }

    /// Returns whether it is the key of this publisher and the subject with this text.
    #[inline(always)]
    pub fn is_of(&self, conn: u64, text: &[u8]) -> bool
        ensures tests { result ≡ ((self.now.conn == conn) && pointwise nat_eq self.now.subject.items text.now) }
        ensures same { result ≡ true → IsOf self.now conn text.now }
    {
        self.conn == conn && self.subject.as_slice() == text
    }
}
