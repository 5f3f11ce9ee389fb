//! What a change of policy changes: what users may do, what accounts exchange, and where messages are sent on, each
//! with a question that the two policies answer differently. It knows no session and no line's text.
#![tactic(auto)]

mod accounts;
mod answers;
mod change;
mod changes;
mod exchanges;
mod lists;
mod mappings;
mod members;
mod policy_file;
mod rows;
mod services;
mod sets;
mod users;

pub use change::{
    AccountChange, Becoming, Change, Changes, ExchangeChange, Judged, ListChange, ServiceTerms,
    UserChange,
};
pub use changes::changes_of;
pub use mapping_changes::{MappingChange, Share, ShareTo};
pub use policy_file::PolicyFile;
