//! Places to keep values in: a queue of fixed capacity, a list by connection, slots for what is cached, and slots by rising
//! number. It knows nothing of what is kept there.
#![tactic(auto)]

pub mod connections;
pub mod numbered_slots;
pub mod outbox;
pub mod slot_cache;
