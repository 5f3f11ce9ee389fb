//! Texts made of tokens.
ghost use Rattle.std.specs.Prelude.{◌≡◌, [], IfOk, OnOk};
ghost use Rattle.subjects.specs.Subject.{tokens_of};
ghost use Rattle.mapping.specs.templates.Template.{local_of, local_token};
ghost use Rattle.mapping.specs.templates.Text.{with_token, with_tokens};

use crate::templates::part::part_of;
use base::{NoMemory, Pieces};
use std::alloc::Global;

/// Appends a token, behind a dot where it isn't the first.
pub fn push_token(text: &mut Vec<u8>, token: &[u8]) -> Result<(), NoMemory>
    ensures { OnOk result (text.new.items ≡ with_token text.old.items token.now) }
{
    if !text.is_empty() {
        text.push(b'.')?;
    }
    text.extend_from_slice(token)?;
    Ok(())
}

/// Appends tokens in order.
pub fn push_tokens(text: &mut Vec<u8>, tokens: Pieces) -> Result<(), NoMemory>
    ensures { OnOk result (text.new.items ≡ with_tokens text.old.items tokens.entry) }
{
    let mut left = tokens;
    while let Some(token) = left.next_piece() {
        push_token(text, token)?;
    }
    Ok(())
}

/// The text of a template's local pattern.
pub fn local_text(alloc: Global, template: &[u8]) -> Result<Vec<u8>, NoMemory>
    ensures { IfOk result (λ text. text.items ≡ with_tokens [] (local_of (tokens_of template.now))) }
{
    let mut text = Vec::with_capacity(alloc, template.len())?;
    let mut tokens = Pieces::of(template, b'.');
    while let Some(token) = tokens.next_piece() {
        push_token(&mut text, local_token(token))?;
    }
    Ok(text)
}

/// The token of the local pattern at the place of a template's.
fn local_token(token: &[u8]) -> &[u8]
    ensures { result.now ≡ local_token token.now }
{
    if part_of(token).is_numbered() {
        b"*"
    } else {
        token
    }
}
