//! Policy documents: accounts, their users and what each user may do, what accounts export and import; and the policies that
//! are valid. It knows no text of a policy and gives no verdict.
#![tactic(auto)]

mod accounts;
mod builtin;
mod document;
mod equality;
pub mod exports;
mod fault;
mod import_rows;
pub mod permission_doc;
mod policy;
mod unique;

pub use crate::exports::{ExportDoc, Kind, ResponseTerms, Row};
pub use crate::permission_doc::{Direction, PermDoc, PermEntry, Terms};
pub use account_mappings::AccountMap;
pub use accounts::Accounts;
pub use document::{AccountDoc, Counts, ImportDoc, NamedAccount, PolicyDoc, UserDoc, Version};
pub use fault::{Place, PolicyFault};
pub use import_rows::import_fault;
pub use policy::Policy;
pub use unique::stands_before;
