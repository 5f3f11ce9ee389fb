//! Patterns found by their literal tokens, so that only those that can have a subject are asked.

mod groups;
mod hash;
mod index;
mod links;
mod patterns;
mod places;

pub use groups::Groups;
pub use hash::hash_under;
pub use index::PatternIndex;
pub use patterns::Patterns;
