//! One connection: it turns its client's bytes into events for a port, and answers and deliveries into bytes
//! (docs/PROTOCOL.md). It knows the port by its trait alone, no socket and no other connection.
#![tactic(auto)]

mod conn;
mod context;
mod drain;
mod invalid;
mod output;
mod run;
mod serve;
mod submit;
mod turn;

pub use conn::Conn;
pub use events::Words;
pub use output::{Output, Stall};
