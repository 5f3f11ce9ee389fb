//! A subject that an account's old and new mappings send on differently, and where each sends it. It knows no account and no
//! policy.
#![tactic(auto)]

mod changing;
mod shares;

pub use changing::{MappingChange, mapping_change};
pub use shares::{Share, ShareTo};
