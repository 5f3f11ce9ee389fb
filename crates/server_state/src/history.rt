//! How many bytes the history's entries are counted for, and when the history is rotated.

mod kept;
mod own;
mod rotation;

pub use kept::{Added, Kept, Look};
pub use rotation::Rotation;
