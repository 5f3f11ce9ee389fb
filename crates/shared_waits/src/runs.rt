//! Messages of one connection that enter one after the other while a lock is held (docs/GUARANTEE.md, "Threads").

mod hold;
mod posts;

pub use hold::{Hold, was_published};
pub use posts::{Posts, word_of};
