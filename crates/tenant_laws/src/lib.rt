//! Laws of tenants: a closed set of accounts sees nothing of what the others do. They have no code, and know no thread.
#![tactic(auto)]

mod laws;
pub mod parts;
pub mod worlds;

pub use laws::{others_are_unseen, tenants_are_isolated};
