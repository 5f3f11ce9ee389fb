//! Whom a message is for: the subscriptions that may be sent it, less those that queue groups leave out.

mod finding;
mod naming;
mod standing;

pub use finding::{Receivers, Seen, Sending};
