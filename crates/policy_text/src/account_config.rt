//! Policies as an operator writes them: JSON text (docs/POLICY.md).

mod account;
mod document;
mod user;

pub use document::{MOST_BYTES, read_policy};
pub use user::is_hashed;
