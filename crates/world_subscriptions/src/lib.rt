//! The standing subscriptions: who has which, those that have a subject, how many messages each has received, and the members
//! of queue groups. It doesn't know who may be sent a message.
#![tactic(auto)]

mod address;
mod change;
pub mod groups;
mod new_subscription;
pub mod queue_choice;
mod sids;
mod subscriptions;
mod trees;

pub use address::{address_each, addressed_to};
pub use new_subscription::NewSubscription;
pub use subscriptions::Subscriptions;
pub use world_rows::{Keeps, RowValues, SharedSubscription, Subscription};
