//! What two users' permission lists judge differently: a question of each kind that one of them allows and the other
//! refuses. It knows no account and no policy.
//!
//! Only samples are asked (`pattern_sets`), by the lists' own verdicts. It takes at most the product of the lists'
//! lengths; where they differ in a few entries, it takes a few questions.
#![tactic(auto)]

mod changes;
mod form;
mod judging;
mod kind;
mod reasons;
mod refusing;

pub use changes::{MessageChange, changes_between};
pub use judging::verdict_on;
pub use kind::MessageKind;
pub use pattern_sets::Asked;
pub use reasons::first_between;
