//! A connection of a worker: its client with its socket, what is due to it, what may be done about it next, and the queues
//! that it is in. It knows no other connection.
#![tactic(auto)]

mod blocked;
mod closing;
mod connection;
mod counted;
mod fresh;
mod heard;
pub mod pacing;
mod queue;
mod reading;
mod saying;
pub mod turns;
mod writing;

pub use blocked::Blocked;
pub use closing::Input;
pub use connection::{Connection, Queued};
pub use fresh::is_fresh;
pub use queue::Queue;
pub use reading::ConnectionTurn;
pub use writing::Written;
