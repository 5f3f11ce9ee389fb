//! Policies and commands that tests share. They have no clause, and know no hub.
#![tactic(auto)]

mod commands;
mod policies;
mod services;

pub use commands::{connect, connect_as, message, publish, request, sub};
pub use policies::{Given, ready_of};
