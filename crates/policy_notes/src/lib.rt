//! What an operator is told of a policy's text beside its fault's line: where the fault is, and which keys an object has
//! twice (docs/POLICY.md, "Where a fault stands"). It judges nothing, and knows no connection: the faults are those of
//! `policy_text`.
#![tactic(auto)]

mod notes;
pub mod paths;
mod place;
pub mod positions;
mod twin;

pub use notes::{Notes, notes_of};
pub use place::place_of;
