//! What a path names among the spots of a text.
ghost use Rattle.std.specs.Prelude.{◌≡◌, ◌++◌, None, codes};
ghost use Rattle.std.specs.Str.{bytes_eq};
ghost use Rattle.policy_notes.specs.positions.Names.{at_of, begin_of, is_named, last_of, later_if, named_from};

use crate::positions::spots::Spot;
use base::Pieces;
use policy_walk::Path;

/// Where something stands that a part of a path names, and where its value begins.
#[derive(Clone, Copy, Debug)]
pub(crate) struct Found {
    at: usize,
    value: usize,
}

/// Whether a spot is that of this part of a path, in the object or list that begins there.
fn is_named(container: usize, part: &[u8], spot: &Spot) -> bool
    ensures { result ≡ is_named container part.now spot.now }
{
    spot.container == container && has_name(spot.name.as_str().as_bytes(), part)
}

/// Whether a spot's name is `/` and this part of a path.
fn has_name(name: &[u8], part: &[u8]) -> bool
    ensures { result ≡ bytes_eq name.now (codes "/" ++ part.now) }
{
    match name.strip_prefix(b"/") {
        None => false,
        Some(rest) => rest == part,
    }
}

/// This spot, if it is named so, or else what was found before it.
fn later(container: usize, part: &[u8], spot: &Spot, found: Option<Found>) -> Option<Found>
    ensures { result ≡ later_if (is_named container part.now spot.now) spot.now found }
{
    if is_named(container, part, spot) {
        Some(Found {
            at: spot.at,
            value: spot.value,
        })
    } else {
        found
    }
}

/// The last spot of an object or list that has this name. Of equal keys the last counts.
#[tactic(auto, unfolding(crate::specs::positions::Names::last_of))]
fn last_of(spots: &[Spot], container: usize, part: &[u8]) -> Option<Found>
    ensures { result ≡ last_of container part.now None spots.now }
{
    let mut found = None;
    for spot in spots {
        found = later(container, part, spot, found);
    }
    found
}

/// Where stands what these parts of a path name, each in what the one before it names, the first in the object or list that
/// begins there.
#[tactic(auto, unfolding(crate::specs::positions::Names::named_from))]
fn named_from(spots: &[Spot], begin: usize, mut parts: Pieces<'_>) -> Option<usize>
    ensures { result ≡ named_from spots.now begin None parts.entry }
{
    let mut at = None;
    let mut container = begin;
    while let Some(part) = parts.next_piece() {
        match last_of(spots, container, part) {
            None => return at,
            Some(found) => {
                at = Some(found.at);
                container = found.value;
            }
        }
    }
    at
}

/// The object or list that a text is begins where its first spot says.
fn begin_of(spots: &[Spot]) -> usize
    ensures { result ≡ begin_of spots.now }
{
    match spots.first() {
        None => 0,
        Some(spot) => spot.container,
    }
}

/// Where begins what a path names among the spots of a text: a member's key, or an item. Where the path names nothing it is
/// the longest front of it that names something, and `None` where there is none.
pub fn at_of(spots: &[Spot], path: &Path) -> Option<usize>
    ensures { result ≡ at_of spots.now path.now }
{
    let mut parts = Pieces::of(path.as_str().as_bytes(), b'/');
    // (nothing stands before the first `/`)
    let _ = parts.next_piece();
    named_from(spots, begin_of(spots), parts)
}
