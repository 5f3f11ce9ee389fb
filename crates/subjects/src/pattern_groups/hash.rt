//! Hashes of the literal tokens that a pattern begins with.
ghost use Rattle.std.specs.Prelude.{◌≡◌, option_copied};
ghost use Rattle.base.specs.Pieces.{pieces_left};
ghost use Rattle.subjects.specs.Fingerprint.{with_byte, hash_from};
ghost use Rattle.subjects.specs.pattern_groups.Hashes.{front_from, IsPast};

use crate::{Pattern, is_star, is_tail};

/// The hash of no token.
pub(crate) const NONE: u32 = 7;

/// A hash with one byte more.
#[inline(always)]
fn with_byte(hash: u32, byte: u8) -> u32
    ensures { result ≡ with_byte hash byte }
{
    hash.wrapping_mul(31).wrapping_add(byte as u32)
}

/// A hash with the bytes of a token more.
pub(crate) fn with_token(hash: u32, token: &[u8]) -> u32
    ensures { result ≡ hash_from hash token.now }
{
    let mut all = hash;
    for byte in token {
        all = with_byte(all, *byte);
    }
    all
}

/// Returns the hash of a token and the literal tokens that a pattern behind it begins with. Whatever has a subject behind that
/// token has the hash of the token and some of the subject's first tokens, so many as stand before its own first wildcard.
pub fn hash_under(token: &[u8], pattern: &Pattern) -> u32
    ensures { result ≡ front_from (hash_from 7 token.now) pattern.now }
{
    let mut tokens = pattern.tokens();
    let mut hash = with_token(NONE, token);
    while let Some(token) = tokens.next_piece() {
        if is_star(token) || is_tail(token) {
            return hash;
        }
        hash = with_token(hash, token);
    }
    hash
}

/// A hash with the first token of a text, and the text behind that token's dot where it has one.
#[inline(always)]
pub(crate) fn past_token(hash: u32, text: &[u8]) -> (u32, Option<&[u8]>)
    ensures { IsPast hash text.now result.0 (pieces_left 46 (option_copied result.1)) }
{
    let mut all = hash;
    for at in 0..text.len() {
        let byte = text[at];
        if byte == b'.' {
            return (all, Some(&text[at + 1..]));
        }
        all = with_byte(all, byte);
    }
    (all, None)
}
