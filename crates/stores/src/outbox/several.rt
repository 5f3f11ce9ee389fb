//! What waits as one element, and may be several in a row.
ghost use Rattle.std.specs.Prelude.{◌≡◌, ◌≤◌, ◌<◌, ◌∷◌, [], List, length, take, drop, IfOk};

use base::NoMemory;
use std::alloc::Global;

/// An element that is several in a row, one at least. A clause sees each of them.
pub trait Several: Sized {
    /// What it is several of.
    type Item;

    ghost each: { Self → List Self.Item };

    /// The element that is this one alone.
    fn one(item: Self::Item) -> Self
        ensures { each result ≡ item ∷ [] };

    /// How many it is, one at least.
    fn count(&self) -> usize
        ensures all { result ≡ length (each self.now) }
        ensures some { 1 ≤ result };

    /// The first so many of it, or all of it, for one more owner. `NoMemory` where memory could not be had.
    fn first_part(&self, alloc: Global, count: usize) -> Result<Self, NoMemory>
        requires some { 1 ≤ count }
        requires within { count ≤ length (each self.now) }
        ensures { IfOk result (λ part. each part ≡ take count (each self.now)) };

    /// Leaves the first so many out, fewer than it is. It takes no memory.
    fn leave_out(&mut self, count: usize)
        requires { count < length (each self.old) }
        ensures { each self.new ≡ drop count (each self.old) };
}
