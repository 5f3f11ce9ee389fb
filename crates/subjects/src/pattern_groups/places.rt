//! At which places a pattern has literal tokens, and the hash of a text's tokens at places.
ghost use Rattle.std.specs.Prelude.{◌≡◌, ◌≤◌, ◌<◌, ◌^◌};
ghost use Rattle.subjects.specs.Subject.{tokens_of};
ghost use Rattle.subjects.specs.pattern_groups.Places.{AreLiteral, hash_at};

use crate::pattern_groups::hash::past_token;
use crate::{Pattern, is_star, is_tail};
use base::Pieces;

/// How many of a pattern's first tokens are looked at.
const MOST: u32 = 32;

/// Which of a pattern's literal tokens are meant.
#[derive(Clone, Copy, Debug)]
pub(crate) enum Literals {
    /// Those before the first wildcard.
    Leading,
    /// All of them.
    All,
}

impl Literals {
    /// The places of these tokens of a pattern, a bit each: the lowest is the first token's.
    pub fn places(self, pattern: &Pattern) -> u32
        ensures { AreLiteral result pattern.now }
    {
        self.places_in(pattern.tokens(), MOST)
    }

    /// The same among so many of some tokens.
    #[tactic(auto, using(crate::proofs::pattern_groups::Literal::none, crate::proofs::pattern_groups::Literal::one_more, crate::proofs::pattern_groups::Literal::one_past))]
    fn places_in(self, mut tokens: Pieces<'_>, most: u32) -> u32
        requires { most ≤ 32 }
        ensures literal { AreLiteral result tokens.entry }
        ensures bound { result < 2 ^ most }
    {
        if most == 0 {
            return 0;
        }
        let Some(token) = tokens.next_piece() else {
            return 0;
        };
        if is_tail(token) {
            return 0;
        }
        if !is_star(token) {
            return 2 * self.places_in(tokens, most - 1) + 1;
        }
        match self {
            Literals::Leading => 0,
            Literals::All => 2 * self.places_in(tokens, most - 1),
        }
    }
}

/// The hash of a text's tokens at places.
#[inline(always)]
#[tactic(auto, using(crate::proofs::pattern_groups::Literal::nothing, crate::proofs::pattern_groups::Literal::past_one))]
pub(crate) fn hash_at(places: u32, text: &[u8]) -> u32
    ensures { result ≡ hash_at places (tokens_of text.now) }
{
    let mut hash = places;
    let mut left = places;
    let mut rest = Some(text);
    while let Some(text) = rest {
        if left == 0 {
            return hash;
        }
        let (more, behind) = past_token(hash, text);
        if left % 2 == 1 {
            hash = more;
        }
        left /= 2;
        rest = behind;
    }
    hash
}

/// The hash of a pattern's tokens at places.
pub(crate) fn hash_of(places: u32, pattern: &Pattern) -> u32
    ensures { result ≡ hash_at places pattern.now }
{
    // The tokens tell the prover that they are those of a pattern.
    let _ = pattern.tokens();
    hash_at(places, pattern.bytes())
}
