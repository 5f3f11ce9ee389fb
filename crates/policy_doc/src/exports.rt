//! What an account offers to others: its exports, and which of them an import may take.

mod admission;
mod document;

pub use admission::may_import;
pub use document::{ExportDoc, Kind, ResponseTerms, Row};
