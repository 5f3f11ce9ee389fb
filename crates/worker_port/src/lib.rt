//! What a worker asks of its port to the hub, how far a round has come, and why a server stops. It knows no hub and no socket.
#![tactic(auto)]

mod course;
pub mod fault;
mod port;

pub use course::{Course, Why};
pub use port::WorkerPort;
