//! Gates, where threads that serve may be held.

mod gate;

pub use gate::{Gate, GateClosed, Open, Point};
