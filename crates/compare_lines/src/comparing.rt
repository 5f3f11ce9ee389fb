//! Two policies' texts, compared.
use crate::{json_of, text_of};
use base::NoMemory;
use compare::{PolicyFile, changes_of};
use policy_text::reload::ReloadFault;
use std::alloc::Global;

/// Why two policies can't be compared.
#[derive(Drop)]
pub enum CompareFault {
    /// The old policy has a fault.
    Old(ReloadFault),
    /// The old policy has none, and the new one has.
    New(ReloadFault),
    /// Memory could not be had.
    NoMemory,
}

impl From<NoMemory> for CompareFault {
    ghost use Rattle.std.specs.Prelude.{◌≡◌};
    ghost use Rattle.compare_lines.specs.declared.comparing.CompareFault.TheVariants.{NoMemory};

    ghost from_gives = { λ _ e. e ≡ NoMemory };

    fn from(_refused: NoMemory) -> CompareFault {
        CompareFault::NoMemory
    }
}

/// Returns the lines of the changes between the policies of two texts, as `text_of` or as `json_of` has them.
pub fn lines_between(
    alloc: Global,
    old: &[u8],
    new: &[u8],
    json: bool,
) -> Result<Vec<u8>, CompareFault> {
    let old = match PolicyFile::of(alloc, old) {
        Ok(old) => old,
        Err(fault) => return Err(CompareFault::Old(fault)),
    };
    let new = match PolicyFile::of(alloc, new) {
        Ok(new) => new,
        Err(fault) => return Err(CompareFault::New(fault)),
    };
    let changes = changes_of(alloc, &old, &new)?;
    let lines = if json {
        json_of(alloc, &changes)?
    } else {
        text_of(alloc, &changes)?
    };
    Ok(lines)
}
