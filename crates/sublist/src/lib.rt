//! The subscriptions that a subject reaches, found by the tokens of their patterns. It knows neither whose a subscription is
//! nor a message.
#![tactic(auto)]

mod branch;
mod error;
mod ids;
mod node;
mod tree;

pub use error::{Absent, InsertError};
pub use tree::Sublist;
