//! What a server prints: lines that wait for a thread of their own, which writes them as far as they are taken. So who has
//! something to print goes on where nobody reads it.

mod outlet;
mod prints;

pub use outlet::print_all;
pub use prints::Prints;
