//! A policy made ready to be asked: each of its users with compiled permissions, and the views of a message across its import
//! rows. It knows no text of a policy, and nothing that changes between two reloads.
#![tactic(auto)]

pub mod imports;
mod ready;

pub use ready::{CompiledPolicy, User};
