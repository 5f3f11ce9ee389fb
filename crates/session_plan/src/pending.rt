//! What waits at a connection: frames for their turn, and deliveries for their texts.

mod delivery;
mod frames;
mod owed;
mod writing;

pub use delivery::write_delivery;
pub use frames::Frames;
pub use owed::{Owed, make_room};
pub use writing::write_front;
