ghost use Rattle.std.specs.Prelude.{◌≡◌};
ghost use Rattle.std.specs.List.{list_all};
ghost use Rattle.subjects.specs.Fault.{pattern_fault, subject_fault};
ghost use Rattle.subjects.specs.Shape.{HasShape};
ghost use Rattle.subjects.specs.Subject.{is_text_byte};

use crate::SubjectError;
use crate::tokens::{is_star, is_tail, tokens_in};

/// What is wrong with a text as a pattern, in the order of `SubjectError`; never `NoMemory`. It takes no memory.
pub fn pattern_fault(text: &[u8]) -> Option<SubjectError>
    ensures { result ≡ pattern_fault text.now }
{
    first_fault(text, &shape_of(text))
}

/// What is wrong with a text as a subject.
pub fn subject_fault(text: &[u8]) -> Option<SubjectError>
    ensures { result ≡ subject_fault text.now }
{
    let shape = shape_of(text);
    match first_fault(text, &shape) {
        None if shape.has_wildcard => Some(SubjectError::Wildcard),
        fault => fault,
    }
}

// What one walk over a text's tokens finds.
#[derive(Drop)]
struct Shape {
    has_empty_token: bool,
    has_tail_last: bool,
    has_too_many_tokens: bool,
    has_wildcard: bool,
}

fn first_fault(text: &[u8], shape: &Shape) -> Option<SubjectError>
    requires { HasShape shape.now text.now }
    ensures { result ≡ pattern_fault text.now }
{
    if text.is_empty() {
        Some(SubjectError::Empty)
    } else if !has_text_bytes(text) {
        Some(SubjectError::BadByte)
    } else if shape.has_empty_token {
        Some(SubjectError::EmptyToken)
    } else if !shape.has_tail_last {
        Some(SubjectError::WildcardNotLast)
    } else if shape.has_too_many_tokens {
        Some(SubjectError::TooManyTokens)
    } else {
        None
    }
}

fn has_text_bytes(text: &[u8]) -> bool
    ensures { result ≡ list_all is_text_byte text.now }
{
    text.iter().all(|b| !(*b == 0 || *b == b'\t' || *b == b'\n' || *b == b'\r' || *b == b' '))
}

fn shape_of(text: &[u8]) -> Shape
    ensures { HasShape result text.now }
{
    let mut tokens = tokens_in(text);
    let mut has_empty_token = false;
    let mut has_wildcard = false;
    let mut has_tail_before = false;
    let mut was_tail = false;
    let mut count: u16 = 0;
    while let Some(token) = tokens.next_piece() {
        has_empty_token = has_empty_token || token.is_empty();
        has_tail_before = has_tail_before || was_tail;
        was_tail = is_tail(token);
        has_wildcard = has_wildcard || was_tail || is_star(token);
        if count <= 512 {
            count += 1;
        }
    }
    Shape {
        has_empty_token,
        has_tail_last: !has_tail_before,
        has_too_many_tokens: 512 < count,
        has_wildcard,
    }
}
