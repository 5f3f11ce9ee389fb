//! A token that no pattern of a list has.
ghost use Rattle.std.specs.Prelude.{◌≡◌, ◌+◌, ◌≤◌, false, length, map, replicate, true, IfOk};
ghost use Rattle.std.specs.List.{list_any};
ghost use Rattle.subjects.specs.Subject.{is_literal, same_token};
ghost use Rattle.pattern_sets.specs.Laws.{has_token};
ghost use Rattle.pattern_sets.specs.Longest.{longest_text};

use base::NoMemory;
use std::alloc::Global;
use subjects::Pattern;

/// How many tokens are tried first.
const SHORT: usize = 7;

/// Returns a literal token that none of these patterns has: the first of `x y z x0 x1 x2 x3` that is none of theirs, or
/// else a run of `x` that is longer than each of theirs. `NoMemory` where memory could not be had.
pub fn fresh_token(alloc: Global, patterns: &[&Pattern]) -> Result<Vec<u8>, NoMemory>
    ensures literal { IfOk result (λ token. is_literal token.items ≡ true) }
    ensures fresh { IfOk result (λ token. list_any (λ p. has_token token.items p.now) patterns.now ≡ false) }
{
    for number in 0..SHORT {
        let token = short_token(number);
        if !is_token_of_any(token, patterns) {
            let fresh = Vec::from_slice(alloc, token)?;
            return Ok(fresh);
        }
    }
    long_token(alloc, patterns)
}

/// Returns one of the tokens that are tried first.
fn short_token(number: usize) -> &'static [u8]
    ensures { is_literal result.now ≡ true }
{
    match number {
        0 => b"x",
        1 => b"y",
        2 => b"z",
        3 => b"x0",
        4 => b"x1",
        5 => b"x2",
        _ => b"x3",
    }
}

/// Returns a run of `x` that is longer than each token of these patterns.
fn long_token(alloc: Global, patterns: &[&Pattern]) -> Result<Vec<u8>, NoMemory>
    ensures literal { IfOk result (λ token. is_literal token.items ≡ true) }
    ensures fresh { IfOk result (λ token. list_any (λ p. has_token token.items p.now) patterns.now ≡ false) }
{
    let bytes = longest_in(patterns);
    let run = run_of(alloc, bytes)?;
    Ok(run)
}

/// Returns a run of `x` that is longer than each token of these patterns, so that none begins with it. `NoMemory` where
/// memory could not be had.
pub fn fresh_prefix(alloc: Global, patterns: &[&Pattern]) -> Result<Vec<u8>, NoMemory> {
    let mut prefix = Vec::from_slice(alloc, b"x")?;
    for _ in 0..longest_in(patterns) {
        if !is_front_in_any(prefix.as_slice(), patterns) {
            return Ok(prefix);
        }
        prefix.push(b'x')?;
    }
    Ok(prefix)
}

/// Whether a token of one of these patterns begins so.
fn is_front_in_any(front: &[u8], patterns: &[&Pattern]) -> bool {
    patterns.iter().any(|pattern| is_front_in(front, pattern))
}

/// Whether a token of a pattern begins so.
fn is_front_in(front: &[u8], pattern: &Pattern) -> bool {
    let mut tokens = pattern.tokens();
    while let Some(token) = tokens.next_piece() {
        if token.starts_with(front) {
            return true;
        }
    }
    false
}

/// Whether a token is one of some pattern's.
fn is_token_of_any(token: &[u8], patterns: &[&Pattern]) -> bool
    ensures { result ≡ list_any (λ p. has_token token.now p.now) patterns.now }
{
    patterns.iter().any(|pattern| is_token_of(token, pattern))
}

/// Whether a token is one of a pattern's.
fn is_token_of(token: &[u8], pattern: &Pattern) -> bool
    ensures { result ≡ has_token token.now pattern.now }
{
    let mut tokens = pattern.tokens();
    while let Some(one) = tokens.next_piece() {
        if are_same(one, token) {
            return true;
        }
    }
    false
}

/// Whether two tokens have the same bytes.
fn are_same(one: &[u8], other: &[u8]) -> bool
    ensures { result ≡ same_token one.now other.now }
{
    one == other
}

/// How many bytes the longest of these patterns has. No token has more.
fn longest_in(patterns: &[&Pattern]) -> usize
    ensures { result ≡ longest_text (map (λ p. p.now) patterns.now) }
{
    let mut most = 0;
    for pattern in patterns {
        most = most.max(pattern.bytes().len());
    }
    most
}

/// Returns a run of `x` with one byte more than so many.
fn run_of(alloc: Global, bytes: usize) -> Result<Vec<u8>, NoMemory>
    ensures { IfOk result (λ run. run.items ≡ replicate (bytes + 1) 120) }
{
    let mut run = Vec::from_slice(alloc, b"x")?;
    while run.len() <= bytes {
        run.push(b'x')?;
    }
    Ok(run)
}
