//! Hashes of patterns, which tell of most that they don't cover another.
ghost use Rattle.std.specs.Prelude.{◌≡◌, List, false};
ghost use Rattle.subjects.specs.Subject.{Token, covers, is_wildcard};
ghost use Rattle.subjects.specs.Fingerprint.{with_byte, hash_of, joined, IsFingerprintOf};

use crate::tokens::{is_star, is_tail};
use base::Pieces;

/// The hashes of a pattern's first tokens.
#[derive(Clone, Copy, Debug)]
pub(crate) struct Fingerprint {
    /// The hash of the first token; 0 if that is a wildcard.
    front: u32,
    /// The hash of the first two tokens; `front` where the second is a wildcard or missing.
    whole: u32,
}

/// A hash with one byte more.
fn with_byte(hash: u32, byte: u8) -> u32
    ensures { result ≡ with_byte hash byte }
{
    hash.wrapping_mul(31).wrapping_add(byte as u32)
}

/// A hash of a token.
fn hash_of(token: &[u8]) -> u32
    ensures { result ≡ hash_of token.now }
{
    let mut hash = 7;
    for byte in token {
        hash = with_byte(hash, *byte);
    }
    hash
}

/// A hash of two tokens, by theirs.
fn joined(one: u32, other: u32) -> u32
    ensures { result ≡ joined one other }
{
    one.wrapping_mul(131).wrapping_add(other)
}

/// Whether a token is a wildcard.
fn is_wildcard(token: &[u8]) -> bool
    ensures { result ≡ is_wildcard token.now }
{
    is_star(token) || is_tail(token)
}

impl Fingerprint {
    /// The hashes of a pattern with these tokens.
    pub fn of(mut tokens: Pieces) -> Fingerprint
        ensures { IsFingerprintOf tokens.entry result }
    {
        match tokens.next_piece() {
            None => Fingerprint { front: 0, whole: 0 },
            Some(first) => {
                if is_wildcard(first) {
                    return Fingerprint { front: 0, whole: 0 };
                }
                let front = hash_of(first);
                match tokens.next_piece() {
                    None => Fingerprint {
                        front,
                        whole: front,
                    },
                    Some(second) => {
                        if is_wildcard(second) {
                            return Fingerprint {
                                front,
                                whole: front,
                            };
                        }
                        Fingerprint {
                            front,
                            whole: joined(front, hash_of(second)),
                        }
                    }
                }
            }
        }
    }

    /// Whether a pattern with this fingerprint may cover one with the other. `false` is certain.
    #[tactic(auto, using(crate::proofs::Fingerprints::misses))]
    pub fn may_cover(self, other: Fingerprint) -> bool
        ensures { (q p : List Token) → IsFingerprintOf q self → IsFingerprintOf p other → result ≡ false → covers q p ≡ false }
    {
        self.whole == 0 || self.whole == other.whole || self.whole == other.front
    }
}
