//! A server's port to the hub: its gates, the round's share, and the rotation of the history. It knows no socket.
#![tactic(auto)]

mod entering;
pub mod gates;
mod granting;
mod handing;
mod looks;
mod port;
mod runs;

pub use port::{Access, ServerPort};
pub use shared_hub::{Run, SharedHub};
