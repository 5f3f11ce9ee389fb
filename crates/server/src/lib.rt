//! A server from its first policy to its end: its hub, its listener and its threads are made, policies are put in force, it
//! serves, and it prints a line for each policy and for its end. It knows no command line, and no file but that of its policy.
#![tactic(auto)]

mod keepalive;
mod opening;
pub mod policy_source;
pub mod reloads;
mod server;
mod settings;
mod starting;
mod threads;

pub use server::{GateSource, Outputs, serve_clients};
pub use server_loop::StatsOutput;
pub use server_port::gates::Open;
pub use settings::{ProgramFacts, Settings};
