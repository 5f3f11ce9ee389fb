//! Verdicts that were given under the policy in force, for when they are asked again.

mod asked;
mod cache;
mod verdicts;

pub use asked::{Action, Asking};
pub use cache::VerdictCache;
pub use verdicts::Verdicts;
