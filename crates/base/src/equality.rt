//! Whether two values are equal, of types that a clause sees as something else than their fields.
ghost use Rattle.std.specs.Prelude.{◌≡◌};
ghost use Rattle.std.specs.Bool.{Decides};

use crate::{Items, Pieces, Shared, SharedText};
use bytes::Bytes;

/// What can be compared with another of its kind.
pub trait Alike {
    /// Whether it is equal to the other.
    fn is_like(&self, other: &Self) -> bool
        ensures { Decides result (self.now ≡ other.now) };
}

impl Alike for u64 {
    fn is_like(&self, other: &u64) -> bool {
        *self == *other
    }
}

impl<T: Alike> Alike for Option<T> {
    fn is_like(&self, other: &Option<T>) -> bool {
        match self {
            None => match other {
                None => true,
                Some(_) => false,
            },
            Some(one) => match other {
                None => false,
                Some(two) => one.is_like(two),
            },
        }
    }
}

impl<T: Alike> Alike for Shared<T> {
    fn is_like(&self, other: &Shared<T>) -> bool {
        self.get().is_like(other.get())
    }
}

impl<T: Alike> Alike for Items<T> {
    fn is_like(&self, other: &Items<T>) -> bool {
        are_alike(self.as_slice(), other.as_slice())
    }
}

impl Alike for Bytes {
    fn is_like(&self, other: &Bytes) -> bool {
        are_same_bytes(self.as_slice(), other.as_slice())
    }
}

impl Alike for SharedText {
    fn is_like(&self, other: &SharedText) -> bool {
        are_same_bytes(self.as_slice(), other.as_slice())
    }
}

/// Whether two lists have the same elements in the same order.
pub fn are_alike<T: Alike>(all: &[T], others: &[T]) -> bool
    ensures { Decides result (all.now ≡ others.now) }
{
    if all.len() != others.len() {
        return false;
    }
    for index in 0..all.len() {
        if !all[index].is_like(&others[index]) {
            return false;
        }
    }
    true
}

/// Whether two texts have the same bytes.
pub fn are_same_bytes(one: &[u8], other: &[u8]) -> bool
    ensures { Decides result (one.now ≡ other.now) }
{
    one == other
}

/// Whether two texts have the same pieces.
pub fn are_same_pieces(mut some: Pieces, mut others: Pieces) -> bool
    ensures { Decides result (some.entry ≡ others.entry) }
{
    while let Some(piece) = some.next_piece() {
        match others.next_piece() {
            None => return false,
            Some(other) => {
                if !are_same_bytes(piece, other) {
                    return false;
                }
            }
        }
    }
    others.next_piece().is_none()
}
