//! Connections in an order of their own, each found by its number at once.

mod connected;
mod connections;

pub use connected::Connected;
pub use connections::Connections;
