//! The sessions in order of connecting, each with its outbox and grants, and what a reload makes of them. It knows no
//! subscription and no history.
#![tactic(auto)]

pub mod deliveries;
pub mod leniency;
mod renewal;
mod same_lists;
mod sessions;

pub use crate::deliveries::Session;
pub use sessions::Sessions;
pub use stores::outbox::{Batch, Outbox};
