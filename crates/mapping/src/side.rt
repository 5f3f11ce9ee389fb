//! One side of a mapping, and the way from it to the other.
ghost use Rattle.std.specs.Prelude.{◌≡◌, [], IfOk, false, length, map, nat_lt, true};
ghost use Rattle.subjects.specs.Subject.{IsSubject, in_set};
ghost use Rattle.mapping.specs.Pairs.{IsMapped, are_within, carried, count_stars, filled, numbered};
ghost use Rattle.mapping.specs.Sides.{AreSides, other_side};
ghost use Rattle.mapping.specs.templates.Text.{with_tokens};

use crate::MapError;
use crate::given::Given;
use crate::templates::{is_longer, push_token, push_tokens};
use base::NoMemory;
use std::alloc::Global;
use subjects::{Pattern, Subject, SubjectRef, is_star, is_tail};

/// A pattern, and how its wildcards stand in the other side's.
pub(crate) struct Side {
    pub pattern: Pattern,
    /// Of each `*` in order, the number of the other side's `*` with the same token, from 1.
    pub references: Vec<usize>,
    /// The most tokens of a subject whose other side has at most 512.
    pub most: usize,
}

impl Drop for Side {
    fn drop(self) {
        let Self {
            pattern: _,
            references: _,
            most: _,
        } = self;
    }
}

/// A subject of the first side as one of the second. `None` where its pattern hasn't the subject; `TooLong` where the
/// result would have more than 512 tokens; `NoMemory` where memory could not be had for a result.
pub(crate) fn carry(
    alloc: Global,
    from: &Side,
    to: &Side,
    subject: &SubjectRef<'_>,
) -> Result<Option<Subject>, MapError>
    requires { AreSides from.now to.now }
    ensures { IsMapped (carried from.now.pattern to.now.pattern to.now.references.items subject.now) result }
{
    if !from.pattern.matches(subject) {
        return Ok(None);
    }
    if is_too_long(from, subject) {
        return Err(MapError::TooLong);
    }
    match other_side(alloc, from, to, subject) {
        Ok(other) => Ok(Some(other)),
        Err(_) => Err(MapError::NoMemory),
    }
}

/// The other side of a subject that the first side's pattern has, and that isn't too long.
fn other_side(
    alloc: Global,
    from: &Side,
    to: &Side,
    subject: &SubjectRef<'_>,
) -> Result<Subject, NoMemory>
    requires sides { AreSides from.now to.now }
    requires grammar { IsSubject subject.now }
    requires member { in_set from.now.pattern subject.now ≡ true }
    requires short { nat_lt from.now.most (length subject.now) ≡ false }
    ensures { IfOk result (λ other. other ≡ other_side from.now to.now subject.now) }
{
    let given = Given::of(alloc, &from.pattern, from.references.len(), subject)?;
    let size = (subject.bytes().len() + to.pattern.bytes().len()).saturating_sub(
        from.pattern.bytes().len(),
    );
    let text = filled_text(alloc, to, &given, size)?;
    let other = Subject::from_valid(alloc, text)?;
    Ok(other)
}

/// Whether a subject has too many tokens for its other side.
fn is_too_long(side: &Side, subject: &SubjectRef<'_>) -> bool
    ensures test { result ≡ nat_lt side.now.most (length subject.now) }
    ensures grammar { IsSubject subject.now }
{
    let tokens = subject.tokens();
    side.most < 512 && is_longer(tokens, side.most)
}

/// The text of a pattern in which tokens stand for the wildcards. It has `size` bytes: as many as the subject that
/// the tokens are of, if the patterns are as long.
fn filled_text(
    alloc: Global,
    to: &Side,
    given: &Given<'_>,
    size: usize,
) -> Result<Vec<u8>, NoMemory>
    requires count { count_stars to.now.pattern ≡ length to.now.references.items }
    requires within { are_within (length given.now.stars.items) to.now.references.items ≡ true }
    ensures { IfOk result (λ text. text.items ≡ with_tokens []
        (filled to.now.pattern (map (numbered (map (λ s. s.now) given.now.stars.items)) to.now.references.items) given.now.tail)) }
{
    let mut text = Vec::with_capacity(alloc, size)?;
    let mut at = 0;
    let mut places = to.pattern.tokens();
    while let Some(place) = places.next_piece() {
        if is_tail(place) {
            push_tokens(&mut text, given.tail.again())?;
            return Ok(text);
        }
        if is_star(place) {
            push_token(&mut text, given.stars[to.references[at] - 1])?;
            at += 1;
        } else {
            push_token(&mut text, place)?;
        }
    }
    Ok(text)
}
