//! Every fault of a policy's text as a document, each with what is wanted instead (docs/POLICY.md, "Every fault"). It knows no
//! file; `policy_text` decides which fault refuses a policy.
#![tactic(auto)]

mod finding;
mod walk;

pub use finding::{Finding, Wanted};
pub use walk::faults_of_value;
