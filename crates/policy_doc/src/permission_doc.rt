//! What a user may do, as a policy writes it down: its permission lists, and its terms for responses.

mod document;
mod equality;

pub use document::{Direction, PermDoc, PermEntry, Terms};
