//! How many tokens and wildcards there are.
ghost use Rattle.std.specs.Prelude.{◌≡◌, ◌≤◌, length, nat_lt};
ghost use Rattle.subjects.specs.Subject.{IsPattern};
ghost use Rattle.mapping.specs.templates.Wildcards.{count_stars, has_tail};

use base::Pieces;
use subjects::{Pattern, is_star, is_tail};

/// Whether there are more than `most` tokens.
pub fn is_longer(tokens: Pieces, most: usize) -> bool
    ensures { result ≡ nat_lt most (length tokens.entry) }
{
    let mut tokens = tokens;
    let mut left = most;
    while tokens.next_piece().is_some() {
        if left == 0 {
            return true;
        }
        left -= 1;
    }
    false
}

/// How many tokens a pattern has.
pub fn count_tokens(pattern: &Pattern) -> usize
    ensures count { result ≡ length pattern.now }
    ensures bound { result ≤ 512 }
    ensures grammar { IsPattern pattern.now }
{
    let mut count = 0;
    let mut tokens = pattern.tokens();
    while tokens.next_piece().is_some() {
        count += 1;
    }
    count
}

/// How many `*`s a pattern has.
pub fn count_stars(pattern: &Pattern) -> usize
    ensures count { result ≡ count_stars pattern.now }
    ensures bound { result ≤ 512 }
{
    let mut count = 0;
    let mut tokens = pattern.tokens();
    while let Some(token) = tokens.next_piece() {
        if is_star(token) {
            count += 1;
        }
    }
    count
}

/// Whether one of these tokens is `>`.
pub(crate) fn has_tail(tokens: Pieces) -> bool
    ensures { result ≡ has_tail tokens.entry }
{
    let mut tokens = tokens;
    while let Some(token) = tokens.next_piece() {
        if is_tail(token) {
            return true;
        }
    }
    false
}
