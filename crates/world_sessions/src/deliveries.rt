//! A session with its outbox, and what deliveries meet there: told before they are handed over, and met as they are.

mod noting;
mod plan;
mod session;

pub use plan::{ByConnection, place_in, plan_all, plan_one};
pub use session::Session;
