//! A pattern, filled with what stands in a subject for the wildcards of another.
ghost use Rattle.std.specs.Prelude.{◌≡◌, ◌≤◌, [], IfOk, length, map, true};
ghost use Rattle.subjects.specs.Subject.{in_set};
ghost use Rattle.mapping.specs.templates.Text.{with_tokens};
ghost use Rattle.mapping.specs.templates.Wildcards.{are_within, count_stars};
ghost use Rattle.mapping.specs.Pairs.{filled, numbered, stars_of, tail_of};

use crate::templates::{push_token, push_tokens};
use base::{NoMemory, Pieces};
use std::alloc::Global;
use subjects::{Pattern, SubjectRef, is_star, is_tail};

/// Returns the token that stands in a subject of the pattern for the `*` with this number, from 1.
pub(crate) fn star_in<'a>(pattern: &Pattern, subject: &SubjectRef<'a>, number: usize) -> &'a [u8]
    requires { 1 ≤ number }
    ensures { result.now ≡ numbered (stars_of pattern.now subject.now) number }
{
    let mut left = number;
    let mut tokens = subject.tokens();
    let mut places = pattern.tokens();
    while let Some(place) = places.next_piece() {
        if is_tail(place) {
            return &[];
        }
        match tokens.next_piece() {
            None => return &[],
            Some(token) => {
                if is_star(place) {
                    if left == 1 {
                        return token;
                    }
                    left -= 1;
                }
            }
        }
    }
    &[]
}

/// Returns the tokens that stand in a subject of the pattern for its `>`.
pub(crate) fn tail_in<'a>(pattern: &Pattern, subject: &SubjectRef<'a>) -> Pieces<'a>
    ensures { result ≡ tail_of pattern.now subject.now }
{
    let mut tail = subject.tokens();
    let mut places = pattern.tokens();
    while let Some(place) = places.next_piece() {
        if is_tail(place) {
            return tail;
        }
        if tail.next_piece().is_none() {
            return tail;
        }
    }
    tail
}

/// Returns the text of the local pattern, in which the tokens of a subject of the outer one stand for the wildcards.
pub(crate) fn filled_text(
    alloc: Global,
    outer: &Pattern,
    local: &Pattern,
    references: &[usize],
    subject: &SubjectRef<'_>,
) -> Result<Vec<u8>, NoMemory>
    requires count { count_stars local.now ≡ length references.now }
    requires within { are_within (count_stars outer.now) references.now ≡ true }
    ensures { IfOk result (λ text. text.items ≡ with_tokens []
        (filled local.now (map (numbered (stars_of outer.now subject.now)) references.now) (tail_of outer.now subject.now))) }
{
    let size = (subject.bytes().len() + local.bytes().len()).saturating_sub(outer.bytes().len());
    let mut text = Vec::with_capacity(alloc, size)?;
    let mut at = 0;
    let mut places = local.tokens();
    while let Some(place) = places.next_piece() {
        if is_tail(place) {
            push_tokens(&mut text, tail_in(outer, subject))?;
            return Ok(text);
        }
        if is_star(place) {
            push_token(&mut text, star_in(outer, subject, references[at]))?;
            at += 1;
        } else {
            push_token(&mut text, place)?;
        }
    }
    Ok(text)
}
