//! What a server counts of its clients, by account: each worker's counts, their sums, the two texts that tell them, and when and
//! where these go (docs/OPERATING.md, "Numbers"). It knows no socket, no hub and no file.
#![tactic(auto)]

mod board;
mod counting;
mod counts;
mod looks;
mod output;
mod tally;
pub mod texts;

pub use board::{Board, Sums};
pub use counting::Counting;
pub use counts::{Account, AccountCounts, TurnCounts, WorkerCounts};
pub use looks::{HubCounts, HubLooks, SessionCounts};
pub use output::{Shared, Stats, StatsOutput};
pub use tally::Tally;
