//! Where in a policy's text something stands, by one index.
use crate::positions::{Place, Spot, spots_of};
use base::{NoMemory, Pieces};
use policy_walk::Path;
use std::alloc::Global;
use std::cmp::Ordering;

/// The index of a text's places.
#[derive(Drop)]
pub struct Places {
    /// The members and items, by where their object or list begins, then by name, then by place.
    spots: Vec<Spot>,
    /// Where each line but the first begins.
    lines: Vec<usize>,
}

impl Places {
    /// Returns the index of a JSON text. `NoMemory` where memory could not be had.
    pub fn of(alloc: Global, text: &str) -> Result<Places, NoMemory> {
        let mut spots = spots_of(alloc, text)?;
        spots.sort_unstable_by(|one, other| order_of(one, other));
        let lines = lines_of(alloc, text.as_bytes())?;
        Ok(Places { spots, lines })
    }

    /// Returns the place of what a path names, or of the longest front of it that names something. `None` where no
    /// front does.
    pub fn place_of(&self, path: &Path) -> Option<Place> {
        let at = self.at_of(path)?;
        Some(self.place_at(at))
    }

    /// Returns where what a path names begins.
    fn at_of(&self, path: &Path) -> Option<usize> {
        let mut parts = Pieces::of(path.as_str().as_bytes(), b'/');
        // (nothing stands before the first `/`)
        let _ = parts.next_piece();
        let mut container = self.spots.as_slice().first()?.container;
        let mut at = None;
        while let Some(part) = parts.next_piece() {
            match self.named(container, part) {
                None => return at,
                Some(spot) => {
                    at = Some(spot.at);
                    container = spot.value;
                }
            }
        }
        at
    }

    /// Returns the last spot of an object or list that has this name. Of equal keys the last counts.
    fn named(&self, container: usize, part: &[u8]) -> Option<&Spot> {
        let spots = self.spots.as_slice();
        let behind = match spots.binary_search_by(|spot| side_of(spot, container, part)) {
            Ok(at) => at,
            Err(at) => at,
        };
        if behind == 0 {
            return None;
        }
        let spot = spots.get(behind - 1)?;
        if spot.container == container && name_of(spot) == part {
            Some(spot)
        } else {
            None
        }
    }

    /// Returns the place of a byte.
    fn place_at(&self, at: usize) -> Place {
        let lines = self.lines.as_slice();
        let before = match lines.binary_search_by(|begin| side_of_line(*begin, at)) {
            Ok(count) => count,
            Err(count) => count,
        };
        let begin = if before == 0 {
            0
        } else {
            match lines.get(before - 1) {
                None => 0,
                Some(begin) => *begin,
            }
        };
        Place {
            line: before.saturating_add(1),
            column: at.saturating_sub(begin).saturating_add(1),
        }
    }
}

/// Which of two spots comes first.
fn order_of(one: &Spot, other: &Spot) -> Ordering {
    one.container
        .cmp(&other.container)
        .then(name_of(one).cmp(name_of(other)))
        .then(one.at.cmp(&other.at))
}

/// Whether a spot comes before the end of those with a name in an object or list.
fn side_of(spot: &Spot, container: usize, part: &[u8]) -> Ordering {
    match spot.container.cmp(&container) {
        Ordering::Equal => match name_of(spot).cmp(part) {
            Ordering::Greater => Ordering::Greater,
            _ => Ordering::Less,
        },
        order => order,
    }
}

/// Whether a line begins before a byte or at it.
fn side_of_line(begin: usize, at: usize) -> Ordering {
    if begin <= at {
        Ordering::Less
    } else {
        Ordering::Greater
    }
}

/// Returns a spot's name without the `/`.
fn name_of(spot: &Spot) -> &[u8] {
    let name = spot.name.as_str().as_bytes();
    match name.strip_prefix(b"/") {
        None => name,
        Some(rest) => rest,
    }
}

/// Returns where each line of a text but the first begins.
fn lines_of(alloc: Global, text: &[u8]) -> Result<Vec<usize>, NoMemory> {
    let mut lines = Vec::new(alloc);
    for at in 0..text.len() {
        if text[at] == b'\n' {
            lines.push(at + 1)?;
        }
    }
    Ok(lines)
}
