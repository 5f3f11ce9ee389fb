//! The rows in which subscriptions stand, by rising id, and the ids by account and subject, and by connection and sid. It
//! knows neither sessions nor permissions.
#![tactic(auto)]

pub mod ids;
mod keeps;
mod rows;
mod shared;
mod subscription;

pub use keeps::Keeps;
pub use rows::{RowValues, Rows};
pub use shared::SharedSubscription;
pub use subscription::Subscription;
