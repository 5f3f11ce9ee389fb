//! What the tokens of a template stand for.
ghost use Rattle.std.specs.Prelude.{◌≡◌};
ghost use Rattle.mapping.specs.templates.Template.{part_of, begins_with, ends_with, is_braced, numbered_or_bad, dollar_part, braced_part};

use base::decimal::short_number;
use base::number_of;
use subjects::{is_star, is_tail};

/// What a token of a template stands for.
#[derive(Clone, Copy, Debug)]
pub(crate) enum Part {
    /// Itself.
    Literal,
    /// The token of the next wildcard.
    Star,
    /// The tokens of the final `>`.
    Tail,
    /// The token of the wildcard with this number, from 1.
    Numbered(usize),
    /// Nothing: no template has it.
    Bad,
}

impl Part {
    ghost use Rattle.std.specs.Prelude.{◌≡◌};
    ghost use Rattle.mapping.specs.templates.Template.{is_bad_part, is_star_part, is_numbered_part};

    /// Whether it is `*`.
    pub fn is_star(self) -> bool
        ensures { result ≡ is_star_part self }
    {
        matches!(self, Part::Star)
    }

    /// Whether it refers to a wildcard by its number.
    pub fn is_numbered(self) -> bool
        ensures { result ≡ is_numbered_part self }
    {
        matches!(self, Part::Numbered(_))
    }

    /// Whether no template has it.
    pub fn is_bad(self) -> bool
        ensures { result ≡ is_bad_part self }
    {
        matches!(self, Part::Bad)
    }
}

/// The part that a token is.
pub(crate) fn part_of(token: &[u8]) -> Part
    ensures { result ≡ part_of token.now }
{
    if is_star(token) {
        Part::Star
    } else if is_tail(token) {
        Part::Tail
    } else if begins_with(token, b"$") {
        dollar_part(&token[1..])
    } else if begins_with(token, b"{{") {
        braced_part(token)
    } else {
        Part::Literal
    }
}

/// The part that `$` and these bytes are.
fn dollar_part(digits: &[u8]) -> Part
    ensures { result ≡ dollar_part digits.now }
{
    match number_of(digits) {
        None => Part::Literal,
        Some(_) => numbered_or_bad(digits),
    }
}

/// The part that a token is which begins `{{`.
fn braced_part(token: &[u8]) -> Part
    ensures { result ≡ braced_part token.now }
{
    if token.len() < 14 {
        return Part::Bad;
    }
    if !is_braced(token) {
        return Part::Bad;
    }
    numbered_or_bad(&token[11..token.len() - 3])
}

/// Whether a token is `{{wildcard(`, something and `)}}`.
fn is_braced(token: &[u8]) -> bool
    ensures { result ≡ is_braced token.now }
{
    begins_with(token, b"{{wildcard(") && ends_with(token, b")}}")
}

/// The wildcard that one to three digits number.
fn numbered_or_bad(digits: &[u8]) -> Part
    ensures { result ≡ numbered_or_bad digits.now }
{
    match short_number(digits, 3) {
        None => Part::Bad,
        Some(number) => Part::Numbered(number as usize),
    }
}

/// Whether a text begins with another.
fn begins_with(text: &[u8], front: &[u8]) -> bool
    ensures { result ≡ begins_with front.now text.now }
{
    front.len() <= text.len() && &text[..front.len()] == front
}

/// Whether a text ends with another.
fn ends_with(text: &[u8], end: &[u8]) -> bool
    ensures { result ≡ ends_with end.now text.now }
{
    end.len() <= text.len() && &text[text.len() - end.len()..] == end
}
