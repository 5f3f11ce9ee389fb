//! The local pattern of a template.
ghost use Rattle.std.specs.Prelude.{◌≡◌, IfOk, true, false, length, nat_lt};
ghost use Rattle.subjects.specs.Subject.{tokens_of};
ghost use Rattle.subjects.specs.Fault.{pattern_fault};
ghost use Rattle.mapping.specs.templates.Fault.{is_spelled};
ghost use Rattle.mapping.specs.templates.Template.{local_of, references_of};

use crate::templates::{References, local_text};
use base::NoMemory;
use std::alloc::Global;
use subjects::Pattern;

/// The local pattern of a template.
#[derive(Drop)]
pub struct Local {
    /// The pattern.
    pub pattern: Pattern,
    /// Of each of its `*` in order, the number of the wildcard with the same token, from 1.
    pub references: Vec<usize>,
}

/// The local pattern of a template that is spelled as one and has at most 512 tokens. `NoMemory` where memory could not be
/// had.
pub fn local_of(alloc: Global, template: &[u8]) -> Result<Local, NoMemory>
    requires spelled { is_spelled (pattern_fault template.now) ≡ true }
    requires few { nat_lt 512 (length (tokens_of template.now)) ≡ false }
    ensures pattern { IfOk result (λ local. local.pattern ≡ local_of (tokens_of template.now)) }
    ensures references { IfOk result (λ local. local.references.items ≡ references_of (tokens_of template.now)) }
{
    let numbers = References::of(template);
    let references = Vec::from_slice(alloc, numbers.as_slice())?;
    let text = local_text(alloc, template)?;
    let pattern = parsed(alloc, text.as_slice())?;
    Ok(Local {
        pattern,
        references,
    })
}

/// The pattern of a text that has no fault as one.
pub(crate) fn parsed(alloc: Global, text: &[u8]) -> Result<Pattern, NoMemory>
    ensures { IfOk result (λ pattern. pattern ≡ tokens_of text.now) }
{
    match Pattern::parse(alloc, text) {
        Ok(pattern) => Ok(pattern),
        Err(_) => Err(NoMemory),
    }
}
