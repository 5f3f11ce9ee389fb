ghost use Rattle.std.specs.Prelude.{◌≡◌, ◌/◌};
ghost use Rattle.server_state.specs.history.Bytes.{is_passed};
ghost use Rattle.server_state.specs.history.Rotating.{is_same};

use std::sync::atomic::{AtomicU64, Ordering};

/// What the entries keep that the history holds, in bytes, as far as it was added; and how often the history was rotated: a
/// rotation hands its entries out, and it begins anew.
#[derive(Drop)]
pub struct Kept {
    half: u64,
    bytes: AtomicU64,
    rotations: AtomicU64,
    /// How often it had been rotated once the latest look at it was over.
    looked: AtomicU64,
}

/// That bytes were added to those that are kept. `Kept::add` alone makes it, so who has one has added its bytes. What else stood
/// there when they were added is what the atomics gave; no clause says that they gave it.
#[derive(Clone, Copy, Debug)]
pub struct Added {
    /// How many bytes were added.
    bytes: u64,
    /// Half of what may be kept.
    half: u64,
    /// What was counted before.
    before: u64,
    /// What was counted once whoever added took it away, 0 where it didn't: others may have taken it away before.
    taken: u64,
}

impl Added {
    /// Returns whether whoever added is to rotate the history: half of what may be kept is passed, and nobody else took it away.
    pub fn is_passed(&self) -> bool
        ensures { result ≡ is_passed self.now.half self.now.before self.now.bytes self.now.taken }
    {
        self.before.saturating_add(self.bytes) >= self.half && self.taken >= self.half
    }
}

/// How often the history had been rotated when a port looked, and once the look before was over. `Kept::look` alone makes
/// it; no clause says that the atomics gave what stood there.
#[derive(Clone, Copy, Debug)]
pub struct Look {
    rotations: u64,
    before: u64,
}

impl Look {
    /// Returns whether it was not rotated between the two looks.
    pub fn is_same(&self) -> bool
        ensures { result ≡ is_same self.now.rotations self.now.before }
    {
        self.rotations == self.before
    }
}

impl Kept {
    /// Returns the count of a history that keeps nothing. It may keep `most` bytes: those of the entries that it holds, and
    /// those that the last rotation handed out.
    pub fn new(most: u64) -> Kept
        ensures { result.half ≡ most / 2 }
    {
        Kept {
            half: most / 2,
            bytes: AtomicU64::new(0),
            rotations: AtomicU64::new(0),
            looked: AtomicU64::new(0),
        }
    }

    /// Counts bytes more. Where half of what may be kept is passed it counts from none, so that one who adds alone is to
    /// rotate the history.
    pub(crate) fn add(&self, bytes: u64) -> Added
        ensures bytes { result.bytes ≡ bytes }
        ensures half { result.half ≡ self.now.half }
    {
        let before = self.bytes.fetch_add(bytes, Ordering::SeqCst);
        let taken = if before.saturating_add(bytes) >= self.half {
            self.bytes.swap(0, Ordering::SeqCst)
        } else {
            0
        };
        Added {
            bytes,
            half: self.half,
            before,
            taken,
        }
    }

    /// Counts half of what may be kept once more, where the history could not be rotated: whoever adds bytes next is
    /// to try it.
    pub fn restore(&self) {
        let _ = self.bytes.fetch_add(self.half, Ordering::SeqCst);
    }

    /// Notes that the history was rotated, and returns how often it was.
    pub(crate) fn note_rotation(&self) -> u64 {
        self.bytes.store(0, Ordering::SeqCst);
        self.rotations
            .fetch_add(1, Ordering::SeqCst)
            .saturating_add(1)
    }

    /// Looks whether the history was rotated since the look before. If it wasn't, whoever looks rotates it, and the next look is
    /// after that.
    pub(crate) fn look(&self) -> Look {
        let rotations = self.rotations.load(Ordering::SeqCst);
        let before = self.looked.swap(rotations, Ordering::SeqCst);
        if rotations == before {
            self.looked
                .store(rotations.saturating_add(1), Ordering::SeqCst);
        }
        Look { rotations, before }
    }

    /// Returns how many bytes were added since the history was rotated last.
    pub(crate) fn bytes(&self) -> u64 {
        self.bytes.load(Ordering::SeqCst)
    }

    /// Returns how often the history was rotated.
    pub(crate) fn rotations(&self) -> u64 {
        self.rotations.load(Ordering::SeqCst)
    }
}
