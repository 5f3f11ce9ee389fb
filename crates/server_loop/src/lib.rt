//! One worker of a server: it takes what others have left for it, reads from its sockets, and writes to them. It reaches the
//! hub through its port alone, and knows no hub.
#![tactic(auto)]

pub mod accepting;
mod drains;
mod ending;
mod hearing;
mod mail;
mod opening;
mod removing;
mod rounds;
mod stats;
mod telling;
mod turns;
mod worker;

pub use server_stats::{Stats, StatsOutput};
pub use worker::{Start, WAKER, Worker};
