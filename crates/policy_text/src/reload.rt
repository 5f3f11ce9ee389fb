//! A policy from its text to one that is ready to be asked, or the text's first fault. No hub is touched.

mod account_name;
mod fault;
mod policy;

pub use account_name::AccountName;
pub use fault::ReloadFault;
pub use policy::{prepare, read_valid_policy};
