//! Where something stands in a policy's text: the line and column of what a path names, and of keys that stand twice in one
//! object.

mod names;
mod place;
mod places;
mod repeats;
mod spots;
mod starts;

pub use names::at_of;
pub use place::{Place, place_at};
pub use places::Places;
pub use repeats::{Repeat, repeats_of};
pub use spots::{Spot, spots_of};
