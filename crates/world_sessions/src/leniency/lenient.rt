ghost use Rattle.std.specs.Prelude.{◌≡◌, ℕ};
ghost use Rattle.world_sessions.specs.leniency.Held.{Terms, to_all};

/// On what terms a step may be made.
pub trait Lenient {
    /// The terms, for clauses.
    ghost terms: { Self → Terms };

    /// Returns whether it may tell of a connection that it is full.
    fn lets(&self, conn: u64) -> bool
        ensures { result ≡ (terms self.now).lets conn };

    /// Returns how many bytes may wait for a connection whose outbox its message enters, where that counts.
    fn room(&self) -> Option<usize>
        ensures { result ≡ (terms self.now).room };
}

/// A step may tell of everybody that they are full, and whatever waits for them: none is held back.
#[derive(Clone, Copy, Debug)]
pub struct LenientToAll;

impl Lenient for LenientToAll {
    ghost terms = { λ _. to_all };

    #[inline(always)]
    fn lets(&self, _conn: u64) -> bool {
        true
    }

    #[inline(always)]
    fn room(&self) -> Option<usize> {
        None
    }
}
