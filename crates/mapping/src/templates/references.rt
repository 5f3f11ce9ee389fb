//! The wildcards that a template refers to.
ghost use Rattle.std.specs.Prelude.{◌≡◌, ◌<◌, ◌≤◌, ◌++◌, ◌∷◌, [], length};
ghost use Rattle.subjects.specs.Subject.{tokens_of};
ghost use Rattle.mapping.specs.templates.Wildcards.{are_within, contains, has_each, has_repeat, refers_to_each};
ghost use Rattle.mapping.specs.templates.Template.{number_at, number_behind, references_of};

use crate::templates::part::{Part, part_of};
use base::Pieces;
use std::marker::Model;

/// The numbers of wildcards, from 1, in the order of a template's references. They take no memory, since a template is
/// judged before any is taken. A clause sees them as a list.
pub struct References {
    numbers: [usize; 512],
    count: usize,
}

impl Drop for References {
    fn drop(self) {
        let Self {
            numbers: _,
            count: _,
        } = self;
    }
}

impl Model for References {
    ghost use Rattle.std.specs.Prelude.{List, ℕ, ◌≤◌, take};

    ghost Value = { List ℕ };

    ghost view = { λ r. take r.count r.numbers };

    ghost invariant = { λ r. r.count ≤ 512 };
}

impl References {
    /// The references of a template, which has at most 512 tokens.
    pub fn of(template: &[u8]) -> References
        requires { length (tokens_of template.now) ≤ 512 }
        ensures { result ≡ references_of (tokens_of template.now) }
    {
        let mut references = References {
            numbers: [0; 512],
            count: 0,
        };
        let mut next = 1;
        let mut tokens = Pieces::of(template, b'.');
        while let Some(token) = tokens.next_piece() {
            let part = part_of(token);
            if let Some(number) = number_at(next, part) {
                references.push(number);
            }
            next = number_behind(next, part);
        }
        references
    }

    fn push(&mut self, number: usize)
        requires { length self.old < 512 }
        ensures { self.new ≡ self.old ++ number ∷ [] }
    {
        self.numbers[self.count] = number;
        self.count += 1;
    }

    /// The numbers in order.
    pub fn as_slice(&self) -> &[usize]
        ensures { result.now ≡ self.now }
    {
        &self.numbers[..self.count]
    }
}

/// The number that a part refers to, where the next `*` refers to `next`.
fn number_at(next: usize, part: Part) -> Option<usize>
    ensures { result ≡ number_at next part }
{
    match part {
        Part::Star => Some(next),
        Part::Numbered(number) => Some(number),
        Part::Literal => None,
        Part::Tail => None,
        Part::Bad => None,
    }
}

/// The number that the next `*` behind a part refers to.
fn number_behind(next: usize, part: Part) -> usize
    requires { next ≤ 512 }
    ensures { result ≡ number_behind next part }
{
    if part.is_star() { next + 1 } else { next }
}

/// Whether a number stands twice.
pub(crate) fn has_repeat(numbers: &[usize]) -> bool
    ensures { result ≡ has_repeat numbers.now }
{
    for at in 0..numbers.len() {
        if contains(&numbers[at + 1..], numbers[at]) {
            return true;
        }
    }
    false
}

/// Whether each number is at least 1 and at most `count`, and each such number is among them.
pub(crate) fn refers_to_each(count: usize, numbers: &[usize]) -> bool
    requires { count ≤ 512 }
    ensures { result ≡ refers_to_each count numbers.now }
{
    are_within(count, numbers) && has_each(count, numbers)
}

fn are_within(count: usize, numbers: &[usize]) -> bool
    ensures { result ≡ are_within count numbers.now }
{
    numbers.iter().all(|n| 1 <= *n && *n <= count)
}

fn has_each(count: usize, numbers: &[usize]) -> bool
    requires { count ≤ 512 }
    ensures { result ≡ has_each count numbers.now }
{
    for number in 1..count + 1 {
        if !contains(numbers, number) {
            return false;
        }
    }
    true
}

/// Whether a number is among these.
fn contains(numbers: &[usize], number: usize) -> bool
    ensures { result ≡ contains number numbers.now }
{
    numbers.contains(&number)
}
