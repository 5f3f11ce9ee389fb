//! The part of a pattern that has subjects of one length.
ghost use Rattle.std.specs.Prelude.{◌≡◌, ◌++◌, IfOk, OnOk, is_some, map, true};
ghost use Rattle.std.specs.List.{list_all};
ghost use Rattle.std.specs.Option.{option_map};
ghost use Rattle.subjects.specs.Subject.{is_token};
ghost use Rattle.pattern_sets.specs.Samples.{filled, part};

use base::NoMemory;
use std::alloc::Global;
use subjects::{Pattern, is_tail};

/// How many tokens are asked about, and whether the last of them is `>`.
#[derive(Clone, Copy, Debug, PartialEq, Eq)]
pub struct Length {
    pub tokens: usize,
    pub has_tail: bool,
}

/// The part of a reason that has one length.
#[derive(Drop)]
pub(crate) struct Part<'a> {
    pub tokens: Vec<&'a [u8]>,
    pub queue: &'a Pattern,
    ghost valid: { list_all is_token (map (λ t. t.now) tokens.items) ≡ true },
}

/// Returns the part of a pattern of this length, if it has one: its own tokens, and for its `>` as many `*` as are
/// missing. Where the length has a tail, only a pattern that ends in `>` has a part, and the last token stays `>`.
/// `NoMemory` where memory could not be had.
pub fn part_of<'a>(
    alloc: Global,
    pattern: &'a Pattern,
    length: Length,
) -> Result<Option<Vec<&'a [u8]>>, NoMemory>
    ensures { IfOk result (λ found. option_map (λ tokens. map (λ t. t.now) tokens.items) found ≡ part length.has_tail length.tokens pattern.now) }
{
    if !has_part(pattern, length) {
        return Ok(None);
    }
    let mut part = Vec::with_capacity(alloc, length.tokens)?;
    let mut left = length.tokens;
    let mut rest = pattern.tokens();
    while let Some(token) = rest.next_piece() {
        if is_tail(token) {
            fill(&mut part, left, length.has_tail)?;
            return Ok(Some(part));
        }
        part.push(token)?;
        left -= 1;
    }
    Ok(Some(part))
}

/// Whether a pattern has a part of this length.
fn has_part(pattern: &Pattern, length: Length) -> bool
    ensures { result ≡ is_some (part length.has_tail length.tokens pattern.now) }
{
    let mut left = length.tokens;
    let mut rest = pattern.tokens();
    while let Some(token) = rest.next_piece() {
        if left == 0 {
            return false;
        }
        if is_tail(token) {
            return true;
        }
        left -= 1;
    }
    left == 0 && !length.has_tail
}

/// Appends what a last `>` becomes: so many `*`, of which the last stays `>` where a tail is asked about.
fn fill(part: &mut Vec<&[u8]>, tokens: usize, has_tail: bool) -> Result<(), NoMemory>
    ensures { OnOk result (map (λ t. t.now) part.new.items ≡ map (λ t. t.now) part.old.items ++ filled has_tail tokens) }
{
    let mut left = tokens;
    while left > 1 {
        part.push(b"*")?;
        left -= 1;
    }
    if left == 1 {
        part.push(if has_tail { b">" } else { b"*" })?;
    }
    Ok(())
}
