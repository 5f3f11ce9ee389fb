//! A message as it is published: its texts, whose subjects are known to be subjects. It knows neither who sent it nor whom it
//! is for.
#![tactic(auto)]

mod equality;
mod message;

pub use message::{Message, Sid};
