//! Why a policy allows or denies something, and where the entry stands that decides, for an operator who asks
//! (docs/POLICY.md, "Explaining a verdict"). It knows no session, no subscription and no history.
#![tactic(auto)]

mod asking;
mod explanation;
mod fault;
mod laws;
mod lines;
mod path;
pub mod places;
mod reason;
mod view;

pub use asking::{explain_delivery, explain_publish, explain_subscribe};
pub use explanation::{Explanation, Uncovered, write_verdict};
pub use fault::ExplainFault;
pub use laws::shows_what_entries_lack;
pub use lines::path_lines;
pub use path::{PathShare, SentAs, explain_path};
pub use view::{View, ViewKind};
