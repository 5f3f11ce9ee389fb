//! A walk over the JSON of a policy: where it is, its objects by their tables, its texts, lists and durations, and what is at
//! fault (docs/POLICY.md, "Objects" and "Faults"). It knows no key of a policy.
#![tactic(auto)]

mod duration;
mod fault;
mod list;
mod object;
mod paths;
mod text;

pub use duration::read_duration;
pub use fault::ConfigFault;
pub use list::{Reader, each_of, list_of, list_under};
pub use object::{judge, members_of};
pub use paths::Path;
pub use text::{items_of, required_of, required_text_of, text_of};
