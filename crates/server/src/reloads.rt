//! The threads that install policies.

mod installs;
mod reading;
mod reloads;

pub use installs::Installs;
pub use reading::{NextPolicy, next_policy};
pub(crate) use reading::{tell_refused, tell_warnings};
pub use reloads::Reloads;
