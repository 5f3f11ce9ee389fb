//! JSON texts as values: what the text of a policy and the options of a CONNECT are read with. It knows no key and no shape
//! of either.
#![tactic(auto)]

mod read;

pub use read::{JsonError, read_json};
