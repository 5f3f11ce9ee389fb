//! What is wrong with a template of a mapping in one direction.
ghost use Rattle.std.specs.Prelude.{◌≡◌, false, length, nat_lt};
ghost use Rattle.subjects.specs.Subject.{tokens_of};
ghost use Rattle.mapping.specs.templates.Wildcards.{are_within};
ghost use Rattle.mapping.specs.one_way.Fault.{one_way_fault, outside_fault, refers_outside};

use crate::templates::{MappingError, References, count_stars, template_fault};
use subjects::Pattern;

/// Returns the first fault of a text as a template in one direction for the subjects of a pattern, or none: the template may
/// refer to a wildcard twice or not at all, and `WildcardCount` is a number that no wildcard has. It takes no memory.
pub fn one_way_fault(pattern: &Pattern, template: &[u8]) -> Option<MappingError>
    ensures { result ≡ one_way_fault pattern.now template.now }
{
    match template_fault(pattern, template) {
        None => None,
        Some(MappingError::WildcardTwice) => outside_fault(pattern, template),
        Some(MappingError::WildcardCount) => outside_fault(pattern, template),
        Some(fault) => Some(fault),
    }
}

/// Returns the fault of a template that refers to a wildcard which the pattern hasn't.
fn outside_fault(pattern: &Pattern, template: &[u8]) -> Option<MappingError>
    requires { nat_lt 512 (length (tokens_of template.now)) ≡ false }
    ensures { result ≡ outside_fault pattern.now template.now }
{
    if refers_outside(pattern, template) {
        Some(MappingError::WildcardCount)
    } else {
        None
    }
}

fn refers_outside(pattern: &Pattern, template: &[u8]) -> bool
    requires { nat_lt 512 (length (tokens_of template.now)) ≡ false }
    ensures { result ≡ refers_outside pattern.now template.now }
{
    !are_within(count_stars(pattern), References::of(template).as_slice())
}

/// Whether each number is at least 1 and at most `count`.
fn are_within(count: usize, numbers: &[usize]) -> bool
    ensures { result ≡ are_within count numbers.now }
{
    numbers.iter().all(|n| 1 <= *n && *n <= count)
}
