ghost use Rattle.std.specs.Prelude.{◌≡◌, ◌↔◌, IsTrue};

use crate::fingerprint::Fingerprint;
use crate::outside::{Tail, sample_text};
use crate::tokens::tokens_in;
use crate::{SubjectError, SubjectRef, compare, faults};
use base::{Copying, NoMemory, Pieces, SharedBytes};
use std::alloc::Global;
use std::marker::Model;

/// A subject that may have wildcards, as a subscription and a permission have it. A clause sees its tokens.
///
/// ```
/// let orders = Pattern::parse(rt.alloc(), b"orders.*.eu")?;
/// let all = Pattern::parse(rt.alloc(), b"orders.>")?;
/// assert!(rt; orders.matches(&Subject::parse(rt.alloc(), b"orders.new.eu")?.lend()));
/// assert!(rt; all.covers(&orders));
/// assert!(rt; !orders.covers(&all));
/// ```
///
/// `matches`, `covers` and `overlaps` take no memory and look at each byte of both texts once at most. `covers` compares two
/// fingerprints first, which settle most questions.
#[derive(Debug)]
pub struct Pattern {
    text: SharedBytes,
    // They tell of most patterns that they don't cover another.
    fingerprint: Fingerprint,
}

impl Drop for Pattern {
    #[inline(always)]
    fn drop(self) {
        let Self {
            text: _,
            fingerprint: _,
        } = self;
    }
}

impl Model for Pattern {
    ghost use Rattle.std.specs.Prelude.{List, ℕ};

    ghost Value = { List (List ℕ) };

    ghost use Rattle.subjects.specs.Subject.{tokens_of, IsPattern};
    ghost use Rattle.subjects.specs.Fingerprint.{IsFingerprintOf};

    ghost view = { λ p. tokens_of p.text };

    ghost invariant = { λ p. IsPattern (tokens_of p.text) × IsFingerprintOf (tokens_of p.text) p.fingerprint };
}

impl Pattern {
    ghost use Rattle.std.specs.Prelude.{◌≡◌, ◌↔◌, IfOk, IsTrue, MatchOption, None, Ok, option_map, true};
    ghost use Rattle.std.specs.Bool.{OnFalse};
    ghost use Rattle.subjects.specs.Outside.{outside, IsOutside};
    ghost use Rattle.subjects.specs.Subject.{in_set, covers, Covers, Lacks, overlaps, Overlaps, text_of, tokens_of, IsPattern};
    ghost use Rattle.subjects.specs.Fault.{pattern_fault, IsParse, AcceptsExactly};

    /// The pattern of a text. Exactly the texts whose tokens are a pattern are accepted, where memory allows. Else
    /// the text's first fault, in the order of `SubjectError`; `NoMemory` is of a text without fault.
    pub fn parse(alloc: Global, text: &[u8]) -> Result<Pattern, SubjectError>
        ensures tokens { IsParse text.now (pattern_fault text.now) result }
        ensures grammar { AcceptsExactly (IsPattern (tokens_of text.now)) result }
    {
        match faults::pattern_fault(text) {
            Some(fault) => Err(fault),
            None => Ok(Pattern {
                text: SharedBytes::copy_from_slice(alloc, text)?,
                fingerprint: Fingerprint::of(tokens_in(text)),
            }),
        }
    }

    /// The text that the pattern was parsed from.
    pub fn bytes(&self) -> &[u8]
        ensures { result.now ≡ text_of self.now }
    {
        self.text.as_slice()
    }

    /// Whether the subject is one of the pattern's.
    pub fn matches(&self, subject: &SubjectRef<'_>) -> bool
        ensures { result ≡ in_set self.now subject.now }
    {
        compare::in_set(self.tokens(), subject.tokens())
    }

    /// Whether the subject with this text is one of the pattern's. A text that is no subject is judged by its
    /// tokens all the same.
    pub fn matches_text(&self, text: &[u8]) -> bool
        ensures { result ≡ in_set self.now (tokens_of text.now) }
    {
        compare::in_set(self.tokens(), tokens_in(text))
    }

    /// Whether every subject of `other` is one of this pattern's. Where not, this one lacks a subject of `other`.
    pub fn covers(&self, other: &Pattern) -> bool
        ensures test { result ≡ covers self.now other.now }
        ensures inclusion { IsTrue result ↔ Covers self.now other.now }
        ensures missing { OnFalse result (Lacks self.now other.now) }
    {
        // The loan tells the prover what the other's type keeps: its tokens are a pattern.
        let _ = &other.text;
        self.has_whole(other)
    }

    /// The test of `covers`: by the fingerprints first, which tell of most, and then token by token.
    fn has_whole(&self, other: &Pattern) -> bool
        ensures { result ≡ covers self.now other.now }
    {
        // The loans tell the prover what the type keeps of both: these are their fingerprints.
        let _ = &self.text;
        let _ = &other.text;
        if !self.fingerprint.may_cover(other.fingerprint) {
            return false;
        }
        let covers = compare::covers(self.tokens(), other.tokens());
        covers
    }

    /// Returns the text of a subject of `other` that this pattern hasn't, or `None` exactly where it covers `other`, which
    /// takes no memory. It has the tokens of `other`, but `a` for each `*`, or `b` where this pattern has the literal `a`
    /// at that place; a last `>` becomes one such token, or two where this pattern has the subject with one. So it has at
    /// most 513 tokens. `NoMemory` where memory could not be had.
    pub fn outside(&self, alloc: Global, other: &Pattern) -> Result<Option<Vec<u8>>, NoMemory>
        ensures rule { IfOk result (λ found. option_map (λ text. text.items) found ≡ option_map text_of (outside self.now other.now)) }
        ensures meaning { IfOk result (λ found. MatchOption found (Covers self.now other.now) (λ text. IsOutside self.now other.now text.items)) }
        ensures covered { Covers self.now other.now → result ≡ Ok None }
    {
        if self.covers(other) {
            return Ok(None);
        }
        let shorter = sample_text(alloc, self.tokens(), other.tokens(), Tail::One)?;
        if !self.matches_text(shorter.as_slice()) {
            return Ok(Some(shorter));
        }
        let longer = sample_text(alloc, self.tokens(), other.tokens(), Tail::Two)?;
        Ok(Some(longer))
    }

    /// Whether some subject is one of both patterns.
    pub fn overlaps(&self, other: &Pattern) -> bool
        ensures test { result ≡ overlaps self.now other.now }
        ensures common { IsTrue result ↔ Overlaps self.now other.now }
    {
        // The loans tell the prover what the type keeps of both: their tokens are patterns.
        let _ = &self.text;
        let _ = &other.text;
        compare::overlaps(self.tokens(), other.tokens())
    }

    /// The tokens in order.
    pub fn tokens(&self) -> Pieces<'_>
        ensures tokens { result ≡ self.now }
        ensures grammar { IsPattern self.now }
    {
        tokens_in(self.text.as_slice())
    }
}

impl Copying for Pattern {
    fn copy(&self, alloc: Global) -> Result<Pattern, NoMemory> {
        Ok(Pattern {
            text: self.text.again()?,
            fingerprint: self.fingerprint,
        })
    }
}
