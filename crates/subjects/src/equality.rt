//! Whether two subjects or patterns are equal.
ghost use Rattle.std.specs.Prelude.{◌≡◌};

use crate::{Pattern, Subject, SubjectRef};
use base::{Alike, are_same_bytes, are_same_pieces};

impl Alike for Pattern {
    // (two patterns are equal exactly where their texts are)
    fn is_like(&self, other: &Pattern) -> bool {
        // The tokens tell the prover that both are patterns, so each is that of its text.
        let _ = self.tokens();
        let _ = other.tokens();
        self.bytes() == other.bytes()
    }
}

impl Alike for Subject {
    fn is_like(&self, other: &Subject) -> bool {
        are_same_pieces(self.tokens(), other.tokens())
    }
}

impl Alike for SubjectRef<'_> {
    fn is_like(&self, other: &Self) -> bool {
        are_same_pieces(self.tokens(), other.tokens())
    }
}
