//! Subjects that one pattern has and another hasn't.
ghost use Rattle.std.specs.Prelude.{◌≡◌, ◌∷◌, [], ◌++◌, IfOk, OnOk};
ghost use Rattle.subjects.specs.Outside.{behind, dotted, sample, stand_in, stand_ins};
ghost use Rattle.subjects.specs.Subject.{text_of};

use crate::tokens::{is_star, is_tail, same_token};
use base::{NoMemory, Pieces};
use std::alloc::Global;

/// How many tokens stand for a last `>`.
#[derive(Clone, Copy, Debug)]
pub(crate) enum Tail {
    One,
    Two,
}

/// Returns the text of a subject of the second pattern that the first one avoids, as far as it can: a literal stays, and
/// each token that a wildcard stands for differs from the first pattern's literal at its place. `NoMemory` where memory
/// could not be had.
pub(crate) fn sample_text(
    alloc: Global,
    mut first: Pieces,
    mut second: Pieces,
    tail: Tail,
) -> Result<Vec<u8>, NoMemory>
    ensures { IfOk result (λ text. text.items ≡ text_of (sample (stand_ins tail) first.entry second.entry)) }
{
    let mut text = Vec::new(alloc);
    while let Some(token) = second.next_piece() {
        if is_tail(token) {
            push_tail(&mut text, first, tail)?;
            break;
        }
        let standing = next_stand_in(&mut first);
        push_token(&mut text, if is_star(token) { standing } else { token })?;
    }
    let _last_dot = text.pop();
    Ok(text)
}

/// Appends the tokens that stand for a last `>`.
fn push_tail(text: &mut Vec<u8>, mut first: Pieces, tail: Tail) -> Result<(), NoMemory>
    ensures { OnOk result (text.new.items ≡ text.old.items ++ dotted (stand_ins tail first.entry)) }
{
    push_token(text, next_stand_in(&mut first))?;
    match tail {
        Tail::One => Ok(()),
        Tail::Two => push_token(text, next_stand_in(&mut first)),
    }
}

/// Appends a token and a dot.
fn push_token(text: &mut Vec<u8>, token: &[u8]) -> Result<(), NoMemory>
    ensures { OnOk result (text.new.items ≡ text.old.items ++ dotted (token.now ∷ [])) }
{
    text.extend_from_slice(token)?;
    text.push(b'.')?;
    Ok(())
}

/// Takes the next token of the first pattern, and returns one that differs from it if it is a literal: `a`, or `b` where
/// it is `a`.
fn next_stand_in(first: &mut Pieces) -> &'static [u8]
    ensures token { result.now ≡ stand_in first.old }
    ensures rest { first.new ≡ behind first.old }
{
    match first.next_piece() {
        None => b"a",
        Some(token) => { if same_token(token, b"a") { b"b" } else { b"a" } }
    }
}
