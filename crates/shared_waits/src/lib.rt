//! Who waits for whom under one hub, what several messages in one hold of the lock come to, and receipts of what was
//! answered. All of it is plain values, and knows no lock and no hub.
#![tactic(auto)]

mod laws;
mod patience;
pub mod receipts;
pub mod runs;
mod waits;

pub use laws::charges_bounded;
pub use patience::Patience;
pub use waits::{Outboxes, Waits};
