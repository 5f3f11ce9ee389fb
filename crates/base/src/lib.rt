//! What every crate of natsd shares: lists that clauses compare, values with several owners, pieces and numbers of texts,
//! the error of no memory, and equality. It knows nothing of NATS, and no crate stands below it.
#![tactic(auto)]

mod blanks;
mod boxed;
pub mod decimal;
mod digits;
mod equality;
mod items;
pub mod list_laws;
mod no_memory;
mod pieces;
mod shared;
mod shared_bytes;

pub use blanks::{count_blanks, is_blank};
pub use boxed::Boxed;
pub use digits::number_of;
pub use equality::{Alike, are_alike, are_same_bytes, are_same_pieces};
pub use items::{Copying, Items};
pub use no_memory::NoMemory;
pub use pieces::Pieces;
pub use shared::{Shared, SharedText};
pub use shared_bytes::SharedBytes;
