//! A history as it is kept: a list of records, each of which is entries, seen as the list of these. It knows nothing of the
//! worlds between them.
#![tactic(auto)]

mod history;

pub use history::{History, Record};
