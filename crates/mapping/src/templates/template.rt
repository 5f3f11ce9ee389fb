//! What is wrong with a template.
ghost use Rattle.std.specs.Prelude.{◌≡◌, ◌≤◌, nat_lt, length};
ghost use Rattle.subjects.specs.Subject.{tokens_of};
ghost use Rattle.mapping.specs.templates.Fault.{is_spelled, references_fault, template_fault, differ};
ghost use Rattle.mapping.specs.templates.Template.{HasKinds, has_bad_part};

use crate::templates::MappingError;
use crate::templates::lengths::{count_stars, has_tail, is_longer};
use crate::templates::part::part_of;
use crate::templates::references::{References, has_repeat, refers_to_each};
use base::Pieces;
use subjects::{Pattern, SubjectError, pattern_fault};

/// The first fault of a text as a template for the subjects of a pattern, or none. It takes no memory.
pub fn template_fault(pattern: &Pattern, text: &[u8]) -> Option<MappingError>
    ensures { result ≡ template_fault pattern.now text.now }
{
    if !is_spelled(pattern_fault(text)) || has_bad_part(text) {
        Some(MappingError::BadTemplate)
    } else if is_longer(Pieces::of(text, b'.'), 512) {
        Some(MappingError::TooLong)
    } else if has_tail(Pieces::of(text, b'.')) != has_tail(pattern.tokens()) {
        Some(MappingError::TailMismatch)
    } else {
        references_fault(count_stars(pattern), References::of(text).as_slice())
    }
}

/// Whether a text is a pattern's, or has but too many tokens, by its fault as one.
fn is_spelled(fault: Option<SubjectError>) -> bool
    ensures { result ≡ is_spelled fault }
{
    match fault {
        None => true,
        Some(SubjectError::TooManyTokens) => true,
        Some(_) => false,
    }
}

fn references_fault(count: usize, references: &[usize]) -> Option<MappingError>
    requires { count ≤ 512 }
    ensures { result ≡ references_fault count references.now }
{
    if has_repeat(references) {
        Some(MappingError::WildcardTwice)
    } else if !refers_to_each(count, references) {
        Some(MappingError::WildcardCount)
    } else {
        None
    }
}

// Which parts a text has.
#[derive(Drop)]
struct Kinds {
    has_bad: bool,
    has_star: bool,
    has_numbered: bool,
}

/// Whether a text has a part that no template has, or `*` beside a number.
fn has_bad_part(text: &[u8]) -> bool
    ensures { result ≡ has_bad_part (tokens_of text.now) }
{
    let kinds = kinds_of(text);
    kinds.has_bad || (kinds.has_star && kinds.has_numbered)
}

fn kinds_of(text: &[u8]) -> Kinds
    ensures { HasKinds result (tokens_of text.now) }
{
    let mut kinds = Kinds {
        has_bad: false,
        has_star: false,
        has_numbered: false,
    };
    let mut tokens = Pieces::of(text, b'.');
    while let Some(token) = tokens.next_piece() {
        let part = part_of(token);
        kinds.has_bad = kinds.has_bad || part.is_bad();
        kinds.has_star = kinds.has_star || part.is_star();
        kinds.has_numbered = kinds.has_numbered || part.is_numbered();
    }
    kinds
}
