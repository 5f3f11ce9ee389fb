//! An operator's line for each fault of a policy, also of a text that is no JSON
//! (docs/POLICY.md, "Every fault"). It knows no file; `policy_text` decides which fault refuses
//! a policy.
#![tactic(auto)]

mod document;
mod lines;
mod nearest;
pub mod no_json;
mod rows;
mod words;

pub use document::faults_of_document;
pub use lines::fault_lines;
