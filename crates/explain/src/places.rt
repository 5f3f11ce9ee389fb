//! Where in a policy's text the entry stands that decides a question (docs/POLICY.md, "Explaining a verdict").

mod place;
mod verdict;

pub use place::deciding_place;
