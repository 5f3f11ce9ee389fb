//! Sessions and subscriptions as they were at a moment: copied in plain lists, and compared. What can be shared is
//! shared.

mod session;
mod standing;
mod subscription;

pub use session::{PlainSession, plain_sessions};
pub use standing::{Standing, standing_all};
pub use subscription::{PlainSubscription, plain_subscriptions};
