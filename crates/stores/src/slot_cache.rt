//! A cache in slots, each found by a plain hash of what is asked for.

mod hash;
mod slots;

pub use hash::{hash_of_number, hash_of_texts};
pub use slots::SlotCache;
