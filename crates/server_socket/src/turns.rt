//! The work on one ready connection: its client's bytes in, what it is told out. It is generic over what is read and
//! written, so that it can be shown with devices that fail.

mod client;
mod turn;

pub use client::{Client, ReadContext};
pub use turn::Turn;
