use base::Shared;
use bytes::Bytes;
use messages::Sid;
use subjects::{Pattern, Subject};

/// A subscription that stands.
pub struct Subscription {
    /// The number of the entry that made it. They rise, so the oldest has the least.
    pub id: u64,
    /// The connection whose session has it.
    pub conn: u64,
    /// The name of the account of that session's user.
    pub account: Bytes,
    /// What it asks for.
    pub subject: Shared<Pattern>,
    /// The queue group that it is a member of, if it is of one.
    pub queue: Option<Subject>,
    /// The client's own id for it.
    pub sid: Sid,
    /// How many messages it has received since its SUB. It stays at 2^64 - 1.
    pub received: u64,
    /// How many it is to receive in all, where an UNSUB has said so.
    pub most: Option<u64>,
}

impl Drop for Subscription {
    #[inline(always)]
    fn drop(self) {
        let Self {
            id: _,
            conn: _,
            account: _,
            subject: _,
            queue: _,
            sid: _,
            received: _,
            most: _,
        } = self;
    }
}
