//! Keys that stand twice in one object.
ghost use Rattle.std.specs.Prelude.{◌≡◌, ◌++◌, IfOk, OnOk, map};
ghost use Rattle.policy_notes.specs.positions.Repeats.{repeated, repeated_at, repeats_of};

use crate::positions::spots::Spot;
use base::NoMemory;
use std::alloc::Global;
use std::collections::BTreeMap;

/// A key that stands in one object again.
#[derive(Clone, Copy, Debug)]
pub struct Repeat<'x> {
    /// The key as a path prints it, behind a `/`.
    pub name: &'x str,
    /// Where it stood before, and where it stands again: indexes of bytes.
    pub first: usize,
    pub again: usize,
}

/// Appends a spot whose name was seen before in its object or list, if it was, with where.
fn push_repeat<'x>(
    repeats: &mut Vec<Repeat<'x>>,
    spot: &'x Spot,
    first: Option<usize>,
) -> Result<(), NoMemory>
    ensures { OnOk result (map repeated repeats.new.items ≡ map repeated repeats.old.items ++ repeated_at spot.now first) }
{
    match first {
        None => Ok(()),
        Some(first) => {
            repeats.push(Repeat {
                name: spot.name.as_str(),
                first,
                again: spot.at,
            })?;
            Ok(())
        }
    }
}

/// The keys among these spots of a text that stand in one object again, each with where it stood before, in the order of the
/// spots. `NoMemory` where memory could not be had.
pub fn repeats_of<'x>(alloc: Global, spots: &'x [Spot]) -> Result<Vec<Repeat<'x>>, NoMemory>
    ensures { IfOk result (λ repeats. map repeated repeats.items ≡ repeats_of spots.now) }
{
    let mut seen = BTreeMap::new(alloc);
    let mut repeats = Vec::new(alloc);
    for spot in spots {
        let first = seen.insert((spot.container, spot.name.as_str()), spot.at)?;
        push_repeat(&mut repeats, spot, first)?;
    }
    Ok(repeats)
}
