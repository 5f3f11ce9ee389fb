//! The ids of subscriptions, found by their account and a subject, and by their connection and sid.

mod cached_ids;
mod id_cache;
mod sids;
mod trees;

pub use sids::{Own, Sids};
pub use trees::Trees;
