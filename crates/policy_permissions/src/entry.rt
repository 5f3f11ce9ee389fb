//! An entry of a permission list.
ghost use Rattle.std.specs.Prelude.{◌≡◌, ◌==◌, not, position, option_copied, option_map};
ghost use Rattle.policy_permissions.specs.Entry.{behind_spaces, entry_parts};
ghost use Rattle.policy_walk.specs.Fault.{Gives};
ghost use Rattle.policy_permissions.specs.Permissions.{entry_from, parts_from, pattern_from, queue_from};

use policy_doc::permission_doc::PermEntry;
use policy_walk::{ConfigFault, Path};
use std::alloc::Global;
use subjects::Pattern;
use subjects::texts::pattern_if;

/// What the entries of a list decide: a subscribe entry may have a queue part.
#[derive(Clone, Copy, Debug)]
pub enum Side {
    /// A publish.
    Publish,
    /// A subscription and its deliveries.
    Subscribe,
}

/// The entry of a text. `BadSubject` where it isn't a pattern or, of a subscribe entry, a pattern, one or more
/// spaces and a queue pattern.
pub(crate) fn entry_from(
    alloc: Global,
    side: Side,
    path: &Path,
    text: &[u8],
) -> Result<PermEntry, ConfigFault>
    ensures { Gives (λ x. x) result (entry_from side path.now text.now) }
{
    match side {
        Side::Publish => Ok(parts_from(alloc, path, text, None)?),
        Side::Subscribe => {
            let (subject, queue) = entry_parts(text);
            Ok(parts_from(alloc, path, subject, queue)?)
        }
    }
}

/// The entry of a pattern's text and a queue part's, if there is one.
fn parts_from(
    alloc: Global,
    path: &Path,
    subject: &[u8],
    queue: Option<&[u8]>,
) -> Result<PermEntry, ConfigFault>
    ensures { Gives (λ x. x) result (parts_from path.now (subject.now, option_copied queue.entry)) }
{
    let subject = pattern_from(alloc, path, subject)?;
    let queue = queue_from(alloc, path, queue)?;
    Ok(PermEntry { subject, queue })
}

/// The queue part of a text, if there is one.
fn queue_from(
    alloc: Global,
    path: &Path,
    text: Option<&[u8]>,
) -> Result<Option<Pattern>, ConfigFault>
    ensures { Gives (λ x. x) result (queue_from path.now (option_copied text.entry)) }
{
    match text {
        None => Ok(None),
        Some(text) => Ok(Some(pattern_from(alloc, path, text)?)),
    }
}

/// The pattern of a text. `BadSubject` where it is none, `NoMemory` where memory could not be had.
pub fn pattern_from(alloc: Global, path: &Path, text: &[u8]) -> Result<Pattern, ConfigFault>
    ensures { Gives (λ x. x) result (pattern_from path.now text.now) }
{
    match pattern_if(alloc, text)? {
        Some(pattern) => Ok(pattern),
        None => Err(ConfigFault::BadSubject(path.copy(alloc)?)),
    }
}

/// The text up to the first space and, where there is one, what stands behind it and those that follow it.
pub fn entry_parts(text: &[u8]) -> (&[u8], Option<&[u8]>)
    ensures { (result.0.now, option_copied result.1) ≡ entry_parts text.now }
{
    match first_space(text) {
        None => (text, None),
        Some(at) => (&text[..at], Some(behind_spaces(&text[at..]))),
    }
}

/// What stands behind the spaces at a text's front.
fn behind_spaces(text: &[u8]) -> &[u8]
    ensures { result.now ≡ behind_spaces text.now }
{
    match first_other(text) {
        None => &[],
        Some(at) => &text[at..],
    }
}

fn first_space(text: &[u8]) -> Option<usize>
    ensures { result ≡ position (λ b. b == 32) text.now }
{
    text.iter().position(|b| *b == b' ')
}

fn first_other(text: &[u8]) -> Option<usize>
    ensures { result ≡ position (λ b. not (b == 32)) text.now }
{
    text.iter().position(|b| *b != b' ')
}
