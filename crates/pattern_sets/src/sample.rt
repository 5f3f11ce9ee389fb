//! The sample of what two parts of patterns have in common.
ghost use Rattle.std.specs.Prelude.{◌≡◌, ◌∷◌, ◌++◌, [], IfOk, OnOk, length, map};
ghost use Rattle.std.specs.Bool.{OnTrue};
ghost use Rattle.std.specs.Option.{option_map};
ghost use Rattle.subjects.specs.Subject.{text_of};
ghost use Rattle.pattern_sets.specs.Samples.{agree, either, either_each, meet, sample};

use base::NoMemory;
use itoa::Buffer;
use std::alloc::Global;
use subjects::is_star;

/// Returns the text of the sample of two parts of one length: at each place the literal that either has there, and
/// where both have `*` the fresh token. `None` where they have no subject in common. `NoMemory` where memory could
/// not be had.
pub fn sample_of(
    alloc: Global,
    one: &[&[u8]],
    other: &[&[u8]],
    fresh: &[u8],
) -> Result<Option<Vec<u8>>, NoMemory>
    ensures { IfOk result (λ found. option_map (λ text. text.items) found ≡ option_map text_of (sample fresh.now (map (λ t. t.now) one.now) (map (λ t. t.now) other.now))) }
{
    if !meet(one, other) {
        return Ok(None);
    }
    let text = common_text(alloc, one, other, fresh)?;
    Ok(Some(text))
}

/// Returns the text of the sample of two parts that have something in common.
fn common_text(
    alloc: Global,
    one: &[&[u8]],
    other: &[&[u8]],
    fresh: &[u8],
) -> Result<Vec<u8>, NoMemory>
    requires { length one.now ≡ length other.now }
    ensures { IfOk result (λ text. text.items ≡ text_of (either_each fresh.now (map (λ t. t.now) one.now) (map (λ t. t.now) other.now))) }
{
    let mut text = Vec::new(alloc);
    for at in 0..one.len() {
        push_token(&mut text, either(one[at], other[at], fresh))?;
    }
    let _last_dot = text.pop();
    Ok(text)
}

/// Returns the same with a token for each place that is `*` in both, the prefix with `1`, `2` and so on behind it, so
/// that it can be seen where a mapping moves each. `NoMemory` where memory could not be had.
pub fn numbered_sample(
    alloc: Global,
    one: &[&[u8]],
    other: &[&[u8]],
    prefix: &[u8],
) -> Result<Option<Vec<u8>>, NoMemory> {
    if !meet(one, other) {
        return Ok(None);
    }
    let mut text = Vec::new(alloc);
    let mut number: u64 = 0;
    for at in 0..one.len() {
        let token = either(one[at], other[at], b"");
        if token.is_empty() {
            number = number.saturating_add(1);
            text.extend_from_slice(prefix)?;
            text.extend_from_slice(Buffer::new().format(number).as_bytes())?;
        }
        push_token(&mut text, token)?;
    }
    let _last_dot = text.pop();
    Ok(Some(text))
}

/// Whether two parts of one length have a subject in common.
fn meet(one: &[&[u8]], other: &[&[u8]]) -> bool
    ensures value { result ≡ meet (map (λ t. t.now) one.now) (map (λ t. t.now) other.now) }
    ensures lengths { OnTrue result (length one.now ≡ length other.now) }
{
    if one.len() != other.len() {
        return false;
    }
    for at in 0..one.len() {
        if !agree(one[at], other[at]) {
            return false;
        }
    }
    true
}

/// Whether some token is one of both.
fn agree(one: &[u8], other: &[u8]) -> bool
    ensures { result ≡ agree one.now other.now }
{
    is_star(one) || is_star(other) || one == other
}

/// Returns the literal of two tokens that agree, or the fresh token where both are `*`.
fn either<'a>(one: &'a [u8], other: &'a [u8], fresh: &'a [u8]) -> &'a [u8]
    ensures { result.now ≡ either fresh.now one.now other.now }
{
    if is_star(one) {
        if is_star(other) { fresh } else { other }
    } else {
        one
    }
}

/// Appends a token and a dot.
fn push_token(text: &mut Vec<u8>, token: &[u8]) -> Result<(), NoMemory>
    ensures { OnOk result (text.new.items ≡ text.old.items ++ (token.now ++ (46 ∷ []))) }
{
    text.extend_from_slice(token)?;
    text.push(b'.')?;
    Ok(())
}
