//! The reply subjects on which a user may respond: since when, and how many responses have passed. It knows no session and no
//! clock: the moment is what its caller says.
#![tactic(auto)]

mod ended;
mod grant_table;
mod grants;
mod plain;
mod replies;
mod subject_key;
mod terms;

pub use ended::GrantEnd;
pub use grants::Grants;
pub use plain::PlainGrant;
pub use replies::{Note, Replies};
