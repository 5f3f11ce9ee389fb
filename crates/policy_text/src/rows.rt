//! The exports and imports of an account, as an operator writes them in JSON (docs/POLICY.md, "Exports and imports").

mod export_row;
mod import_row;
mod names;
mod terms;

pub use export_row::exports_under;
pub use import_row::imports_under;
pub use names::{account_name_from, has_name_length, is_account_name, kind_of};
