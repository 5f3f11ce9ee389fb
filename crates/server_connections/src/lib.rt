//! The connections of a worker: a table of them by keys that it picks, and queues of those that have some kind of work. It
//! knows no hub.
#![tactic(auto)]

mod connections;
mod drains;
mod fresh;
mod giving;
mod holding;
mod lingering;
mod pending;
mod stalled;
mod stuck;
mod turns;
mod work;

pub use connections::Connections;
pub use drains::Drained;
pub use fresh::Fresh;
pub use giving::GivesWay;
pub use lingering::Lingering;
pub use stalled::Stalled;
pub use turns::Reads;
