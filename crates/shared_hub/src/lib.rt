//! A hub for many threads: its lock, the seats whose events are steps of it, and the receipts of what was answered
//! (docs/GUARANTEE.md, "Threads"). It knows no socket and no worker.
#![tactic(auto)]

mod audit;
mod counts;
pub mod desk;
mod port;
mod shared_hub;
mod unlocked;

pub use crate::desk::{Audit, Blank, Desk, Run, RunContext, Seat, Told, size_of};
pub use audit::AuditFault;
pub use counts::{HubCounts, SessionCounts};
pub use hub::{Caps, Hub, Segment};
pub use port::SharedPort;
pub use shared_hub::SharedHub;
pub use shared_waits::receipts::Receipt;
pub use unlocked::{Parts, Unlocked};
