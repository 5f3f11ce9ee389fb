//! Where a published message is seen: in its publisher's account, across import rows in other accounts, and as a response in
//! the account of a request.

mod crossing;
mod laws;
mod making;
mod rows;
mod view;

pub use laws::{crosses_by_pairs, rows_are_exported, views_come_by_rows};
pub use rows::{ImportRow, Rows};
pub use view::{ViewItem, Way};
