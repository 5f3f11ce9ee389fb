//! How much a worker reads, takes and writes at a time, and what is due to a connection.

mod awaited;
mod due;
mod laws;
mod slice;

pub use awaited::{Awaited, PIECE, batch, many};
pub use due::Due;
pub use laws::bounded;
pub use slice::Slice;
