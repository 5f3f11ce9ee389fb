ghost use Rattle.std.specs.Prelude.{◌≡◌};
ghost use Rattle.subjects.specs.Subject.{covers, in_set, overlaps};

use crate::tokens::{is_star, is_tail, same_token};
use base::Pieces;

/// Whether the subject with these tokens is one of the pattern's.
pub fn in_set(mut pattern: Pieces, mut subject: Pieces) -> bool
    ensures { result ≡ in_set pattern.entry subject.entry }
{
    while let Some(p) = pattern.next_piece() {
        let Some(s) = subject.next_piece() else {
            return false;
        };
        if is_tail(p) {
            return true;
        }
        if !(is_star(p) || same_token(p, s)) {
            return false;
        }
    }
    subject.next_piece().is_none()
}

/// Whether every subject of the second pattern is one of the first's.
pub fn covers(mut first: Pieces, mut second: Pieces) -> bool
    ensures { result ≡ covers first.entry second.entry }
{
    while let Some(q) = first.next_piece() {
        let Some(p) = second.next_piece() else {
            return false;
        };
        if is_tail(q) {
            return true;
        }
        if is_tail(p) || !(is_star(q) || same_token(q, p)) {
            return false;
        }
    }
    second.next_piece().is_none()
}

/// Whether some subject is one of both patterns.
pub fn overlaps(mut first: Pieces, mut second: Pieces) -> bool
    ensures { result ≡ overlaps first.entry second.entry }
{
    while let Some(q) = first.next_piece() {
        let Some(p) = second.next_piece() else {
            return false;
        };
        if is_tail(q) || is_tail(p) {
            return true;
        }
        if !(is_star(q) || is_star(p) || same_token(q, p)) {
            return false;
        }
    }
    second.next_piece().is_none()
}
