//! Which accounts of a policy exchange messages at all: its smallest closed sets, and each as a policy of its own
//! (docs/POLICY.md, "Tenants that exchange nothing"). It knows nothing of what they send.
#![tactic(auto)]

mod joining;
mod lines;
pub mod parts;
mod sets;

pub use lines::lines_of;
pub use sets::closed_sets;
