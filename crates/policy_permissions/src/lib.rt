//! The permissions of a user, as an operator writes them in JSON (docs/POLICY.md, "Permissions"). It knows neither accounts
//! nor what a permission means.
#![tactic(auto)]

mod direction;
mod entry;
mod responses;

pub use direction::permissions_under;
pub use entry::{Side, entry_parts, pattern_from};
pub use responses::{duration_of, is_bound};
