use base::Shared;
use bytes::Bytes;
use events::Sid;
use subjects::{Pattern, Subject};

/// A subscription that is to stand.
#[derive(Drop)]
pub struct NewSubscription {
    /// The connection whose session is to have it.
    pub conn: u64,
    /// The name of the account of that session's user.
    pub account: Bytes,
    /// What it asks for.
    pub subject: Shared<Pattern>,
    /// The queue group that it is to be a member of, if it is of one.
    pub queue: Option<Subject>,
    /// The client's own id for it.
    pub sid: Sid,
}
