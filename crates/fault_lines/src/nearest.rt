//! The name that may be meant by one that isn't known.
use base::NoMemory;
use std::alloc::Global;
use strsim::levenshtein;

/// How many bytes a name may have for which another is looked for, and how many others are.
const MOST_BYTES: usize = 64;

const MOST_NAMES: usize = 1_000;

/// Returns the first of the names that differ least from a name, by no more than a third of its bytes. `None` where
/// the name is one of them, or no name is near. `NoMemory` where memory could not be had.
pub(crate) fn nearest_to<'n>(
    alloc: Global,
    name: &str,
    names: &[&'n str],
) -> Result<Option<&'n str>, NoMemory> {
    let most = name.len().min(MOST_BYTES) / 3;
    let mut least = most.max(1).saturating_add(1);
    let mut nearest = None;
    for other in names.iter().take(MOST_NAMES) {
        let distance = distance_of(alloc, name, other)?;
        if distance < least {
            least = distance;
            nearest = Some(*other);
        }
    }
    if least == 0 { Ok(None) } else { Ok(nearest) }
}

/// Returns how many letters one name has to change to be another. Of long names it is more than any of them has.
fn distance_of(alloc: Global, name: &str, other: &str) -> Result<usize, NoMemory> {
    if name.len() > MOST_BYTES || other.len() > MOST_BYTES {
        return Ok(usize::MAX);
    }
    Ok(levenshtein(alloc, name, other)?)
}
