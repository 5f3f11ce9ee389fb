//! The outbox of a session: what waits for a client, oldest first, and no more than its capacity.

mod batch;
mod bounded;
mod several;

pub use batch::Batch;
pub use bounded::Outbox;
pub use several::Several;
