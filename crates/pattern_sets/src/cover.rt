//! Reasons, and whether one of them has all questions of another.
ghost use Rattle.std.specs.Prelude.{◌≡◌, ◌&&◌, ◌||◌, IfOk, length, map, nat_lt, not};
ghost use Rattle.std.specs.List.{slice_index_or};
ghost use Rattle.subjects.specs.Subject.{covers};
ghost use Rattle.pattern_sets.specs.Judging.{has_all, is_within, subject_of};

use crate::search::Reason;
use base::NoMemory;
use std::alloc::Global;
use std::marker::Model;
use subjects::Pattern;
use subjects::pattern_groups::{PatternIndex, Patterns};

/// Some reasons with the index of their subjects. A clause sees the reasons.
#[derive(Drop)]
pub struct Cover<'a> {
    reasons: Vec<Reason<'a>>,
    index: PatternIndex,
}

impl<'a> Model for Cover<'a> {
    ghost use Rattle.std.specs.Prelude.{List, map};
    ghost use Rattle.subjects.specs.pattern_groups.Places.{IsIndexOf};
    ghost use Rattle.pattern_sets.specs.Judging.{subject_of};
    ghost use Rattle.pattern_sets.specs.declared.search.Reason.{Reason};

    ghost Value = { List Reason };

    ghost view = { λ c. c.reasons.items };

    ghost invariant = { λ c. IsIndexOf (map subject_of c.reasons.items) c.index };
}

/// Reasons that are asked whether they have all questions of another. Those before an index may have the same.
#[derive(Drop)]
struct Wider<'a, 'b> {
    reasons: &'b [Reason<'a>],
    than: &'b Reason<'a>,
    at: usize,
}

impl<'a, 'b> Patterns for Wider<'a, 'b> {
    ghost count = { λ w. length w.reasons.now };

    ghost passes = { λ w i. has_all w.at w.than.now i (slice_index_or w.reasons.now i w.than.now) };

    fn passes(&self, index: usize) -> bool {
        let other = &self.reasons[index];
        is_within(self.than, other) && (index < self.at || !is_within(other, self.than))
    }
}

impl<'a> Cover<'a> {
    ghost use Rattle.std.specs.Prelude.{◌≡◌, IfOk, length};
    ghost use Rattle.pattern_sets.specs.Judging.{IsCovered, IsFirstCover, IsFirstWider};

    /// These reasons. `NoMemory` where memory could not be had.
    pub fn of(alloc: Global, reasons: Vec<Reason<'a>>) -> Result<Cover<'a>, NoMemory>
        ensures { IfOk result (λ cover. cover ≡ reasons.entry.items) }
    {
        let subjects = subjects_of(alloc, reasons.as_slice())?;
        let index = PatternIndex::of(alloc, subjects.as_slice())?;
        Ok(Cover { reasons, index })
    }

    /// The reasons.
    pub fn reasons(&self) -> &[Reason<'a>]
        ensures { result.now ≡ self.now }
    {
        self.reasons.as_slice()
    }

    /// Whether one of the reasons has all questions of another.
    pub fn has(&self, reason: &Reason<'_>) -> bool
        ensures { IsCovered self.now reason.now result }
    {
        match self.first(reason) {
            Some(_) => true,
            None => false,
        }
    }

    /// The least index of a reason that has all questions of another, if one has.
    #[tactic(auto, using(crate::proofs::Covering::first_of_all))]
    pub fn first(&self, reason: &Reason<'_>) -> Option<usize>
        ensures { IsFirstCover self.now reason.now result }
    {
        self.first_wider(reason, self.reasons.len())
    }

    /// The least index of a reason that has all questions of the one at an index: one before it, or one that has more. A
    /// reason that isn't among them has an index behind all.
    pub fn first_wider(&self, reason: &Reason<'_>, at: usize) -> Option<usize>
        ensures { IsFirstWider at self.now reason.now result }
    {
        first_wider(self.reasons.as_slice(), &self.index, reason, at)
    }
}

ghost use Rattle.subjects.specs.pattern_groups.Places.{IsIndexOf};
ghost use Rattle.pattern_sets.specs.Judging.{IsFirstWider};

/// The first of some reasons, by their index, that has all of another.
#[tactic(auto, using(crate::proofs::Covering::as_many, crate::proofs::Covering::is_first))]
fn first_wider(
    reasons: &[Reason<'_>],
    index: &PatternIndex,
    reason: &Reason<'_>,
    at: usize,
) -> Option<usize>
    requires { IsIndexOf (map subject_of reasons.now) index.now }
    ensures { IsFirstWider at reasons.now reason.now result }
{
    // (the tokens tell the prover that they are those of a pattern)
    let _ = reason.subject.tokens();
    let text = reason.subject.bytes();
    let asked = Wider {
        reasons,
        than: reason,
        at,
    };
    let least = index.least(text, &asked);
    least
}

/// The patterns of the subjects of reasons.
fn subjects_of<'a>(alloc: Global, reasons: &[Reason<'a>]) -> Result<Vec<&'a Pattern>, NoMemory>
    ensures { IfOk result (λ subjects. map (λ p. p.now) subjects.items ≡ map subject_of reasons.now) }
{
    let mut subjects = Vec::with_capacity(alloc, reasons.len())?;
    for reason in reasons {
        subjects.push(reason.subject)?;
    }
    Ok(subjects)
}

/// Whether a reason has no question that another hasn't.
fn is_within(reason: &Reason<'_>, other: &Reason<'_>) -> bool
    ensures { result ≡ is_within reason.now other.now }
{
    other.subject.covers(reason.subject) && other.queue.covers(reason.queue)
}
