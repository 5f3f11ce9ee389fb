//! What lies under the lock of a hub that threads share: the hub, the book of its entries, and the seats that enter events
//! (docs/GUARANTEE.md, "Threads").

mod audit;
mod bounds;
mod desk;
mod laws;
mod run_context;
mod told;
mod views;

pub use audit::Audit;
pub use bounds::size_of;
pub use desk::{Desk, Run, Seat};
pub use laws::bounded;
pub use run_context::RunContext;
pub use std::sync::ledger::Blank;
pub use told::Told;
