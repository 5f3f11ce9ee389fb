//! The subscriptions that may be sent a message in a view, and those that are cached for the next one. It changes no table,
//! and knows no outbox.
#![tactic(auto)]

pub mod cache;
pub mod views;
