ghost use Rattle.std.specs.Prelude.{◌≡◌, ◌==◌, ◌<◌, ◌≤◌, ◌^◌, length, take, drop, slice_range, IfOk, IfErr};

use std::alloc::{AllocError, AllocFailed, Global};
use std::marker::Model;
use std::ops::Range;
use std::sync::Arc;

/// A part of a block of bytes with several owners. One more owner of the block, of the same part or of a part of it,
/// takes no memory and copies nothing. A clause sees the part's bytes. It has 16 bytes, since it is moved often.
#[derive(Debug)]
pub struct SharedBytes {
    block: Arc<Vec<u8>>,
    start: u32,
    end: u32,
}

impl Drop for SharedBytes {
    #[inline(always)]
    fn drop(self) {
        let Self {
            block: _,
            start: _,
            end: _,
        } = self;
    }
}

impl Model for SharedBytes {
    ghost use Rattle.std.specs.Prelude.{List, ℕ, ◌≤◌, length, slice_range};
    ghost use Rattle.std.specs.Arc.{arc_value};

    ghost Value = { List ℕ };

    ghost view = { λ b. slice_range (arc_value b.block).items b.start b.end };

    ghost invariant = { λ b. (b.start ≤ b.end) × (b.end ≤ length (arc_value b.block).items) };
}

impl SharedBytes {
    /// All bytes of a vector, which aren't copied. The vector is handed back where memory could not be had, or it has
    /// 2^32 bytes or more.
    pub fn from_vec(alloc: Global, bytes: Vec<u8>) -> Result<SharedBytes, AllocFailed<Vec<u8>>>
        ensures ok { IfOk result (λ b. b ≡ bytes.items) }
        ensures err { IfErr result (λ refused. refused.value.items ≡ bytes.items) }
    {
        let Ok(end) = u32::try_from(bytes.len()) else {
            return Err(AllocFailed { value: bytes });
        };
        Ok(SharedBytes {
            block: Arc::new(alloc, bytes)?,
            start: 0,
            end,
        })
    }

    /// A copy of these bytes. `AllocError` where memory could not be had, or there are 2^32 bytes or more.
    pub fn copy_from_slice(alloc: Global, bytes: &[u8]) -> Result<SharedBytes, AllocError>
        ensures { IfOk result (λ b. b ≡ bytes.now) }
    {
        Ok(SharedBytes::from_vec(alloc, Vec::from_slice(alloc, bytes)?)?)
    }

    /// The bytes.
    pub fn as_slice(&self) -> &[u8]
        ensures { result.now ≡ self.now }
    {
        &self.block[self.start as usize..self.end as usize]
    }

    /// How many bytes there are.
    pub fn len(&self) -> usize
        ensures value { result ≡ length self.now }
        ensures bound { result < 2 ^ 32 }
    {
        (self.end - self.start) as usize
    }

    /// Whether there is no byte.
    pub fn is_empty(&self) -> bool
        ensures { result ≡ (length self.now == 0) }
    {
        self.start == self.end
    }

    /// One more owner. `AllocError` where there are too many to count.
    pub fn again(&self) -> Result<SharedBytes, AllocError>
        ensures { IfOk result (λ same. same ≡ self.now) }
    {
        Ok(SharedBytes {
            block: Arc::try_clone(&self.block)?,
            start: self.start,
            end: self.end,
        })
    }

    /// One more owner, of a part. `AllocError` where there are too many to count.
    pub fn part(&self, range: Range<usize>) -> Result<SharedBytes, AllocError>
        requires ordered { range.start ≤ range.end }
        requires within { range.end ≤ length self.now }
        ensures { IfOk result (λ part. part ≡ slice_range self.now range.start range.end) }
    {
        let mut part = self.again()?;
        part.truncate(range.end);
        part.advance(range.start);
        Ok(part)
    }

    /// Drops the first bytes.
    pub fn advance(&mut self, count: usize)
        requires { count ≤ length self.old }
        ensures { self.new ≡ drop count self.old }
    {
        let _bound = self.len();
        self.start += count as u32;
    }

    /// Drops what stands behind the first bytes, as many as there are.
    pub fn truncate(&mut self, len: usize)
        ensures { self.new ≡ take len self.old }
    {
        if len < self.len() {
            self.end = self.start + len as u32;
        }
    }
}
