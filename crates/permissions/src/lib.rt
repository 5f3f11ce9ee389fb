//! What a user may publish, subscribe to and be sent: the verdicts of its permission lists, and what is kept of them for the
//! next ones. It knows no session and no message.
#![tactic(auto)]

mod compiled;
mod decision;
pub mod deny_marks;
mod equality;
mod indexed;
mod laws;
mod subject_set;
mod verdict;
pub mod verdict_cache;

pub use compiled::Compiled;
pub use decision::is_for;
pub use laws::{each_has_reason, one_verdict};
pub use verdict::{By, Verdict};
