//! Whom the messages of publishers on subjects are for, cached for their next ones.

mod cache;
mod cached;
mod drawn;
mod finding;
mod key;

pub use cache::ReceiverCache;
pub use drawn::{Drawn, DrawnCache};
pub use finding::{drawn_of, others_of};
