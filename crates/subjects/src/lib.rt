//! Subjects, patterns with wildcards, how they compare, and lists of patterns that are searched by literal tokens. It knows
//! no account, no user and no message.
#![tactic(auto)]

mod bytewise;
mod compare;
mod equality;
mod error;
mod faults;
mod fingerprint;
mod outside;
mod pattern;
pub mod pattern_groups;
mod subject;
mod subject_ref;
pub mod texts;
mod tokens;

pub use error::SubjectError;
pub use faults::pattern_fault;
pub use pattern::Pattern;
pub use subject::Subject;
pub use subject_ref::SubjectRef;
pub use tokens::{is_star, is_tail};
