ghost use Rattle.std.specs.Prelude.{◌≡◌, IsTrue, List, true};
ghost use Rattle.std.specs.Bool.{OnTrue};
ghost use Rattle.subjects.specs.Subject.{Token, in_set, covers, tokens_of};
ghost use Rattle.permissions.specs.Indexes.{HasHashes};

use subjects::{Pattern, SubjectRef};

/// What a permission is asked for: one subject, or all subjects of a pattern.
pub(crate) trait SubjectSet {
    ghost use Rattle.std.specs.Prelude.{List, Bool};

    ghost is_within: { List Token → Self → Bool };

    /// Whether the entry's pattern matches the subject, or covers the pattern.
    fn is_in(&self, entry: &Pattern) -> bool
        ensures { result ≡ is_within entry.now self.now };

    /// Its text. It has the hashes of each entry that it is in.
    fn text(&self) -> &[u8]
        ensures { (entry : List Token) → is_within entry self.now ≡ true → HasHashes entry (tokens_of result.now) };
}

impl SubjectSet for SubjectRef<'_> {
    ghost is_within = { in_set };

    fn is_in(&self, entry: &Pattern) -> bool {
        has_subject(entry, self)
    }

    fn text(&self) -> &[u8] {
        text_of_subject(self)
    }
}

impl SubjectSet for Pattern {
    ghost is_within = { covers };

    fn is_in(&self, entry: &Pattern) -> bool {
        entry.covers(self)
    }

    fn text(&self) -> &[u8] {
        text_of_pattern(self)
    }
}

/// Whether an entry has a subject: by the same text first, and then token by token.
#[inline(always)]
fn has_subject(entry: &Pattern, subject: &SubjectRef<'_>) -> bool
    ensures { result ≡ in_set entry.now subject.now }
{
    if is_same(entry, subject) {
        return true;
    }
    let has = entry.matches(subject);
    has
}

/// Whether a pattern has the same text as a subject. Then it has the subject.
#[inline(always)]
#[tactic(auto, using(crate::proofs::Found::same_text))]
fn is_same(entry: &Pattern, subject: &SubjectRef<'_>) -> bool
    ensures { OnTrue result (in_set entry.now subject.now ≡ true) }
{
    // The tokens tell the prover that they are those of a pattern, and of a subject.
    let _ = entry.tokens();
    let _ = subject.tokens();
    let same = entry.bytes() == subject.bytes();
    same
}

/// The text of a subject.
#[inline(always)]
#[tactic(auto, using(crate::proofs::Found::subject_hashes))]
fn text_of_subject<'a>(subject: &'a SubjectRef<'_>) -> &'a [u8]
    ensures { (entry : List Token) → in_set entry subject.now ≡ true → HasHashes entry (tokens_of result.now) }
{
    // The tokens tell the prover that they are those of a subject.
    let _ = subject.tokens();
    let text = subject.bytes();
    text
}

/// The text of a pattern.
#[inline(always)]
#[tactic(auto, using(crate::proofs::Found::pattern_hashes))]
fn text_of_pattern(pattern: &Pattern) -> &[u8]
    ensures { (entry : List Token) → covers entry pattern.now ≡ true → HasHashes entry (tokens_of result.now) }
{
    // The tokens tell the prover that they are those of a pattern.
    let _ = pattern.tokens();
    let text = pattern.bytes();
    text
}
