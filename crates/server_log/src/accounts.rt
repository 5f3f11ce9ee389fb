//! Which account a client acts for.
use crate::log::{ServerLog, account_of, user_named};
use bytes::Bytes;
use events::{Command, Entry};
use std::sync::Wait;

impl ServerLog<'_> {
    /// Returns the account of the user whose CONNECT an entry is, by the policy in force at it. There is none if four policies
    /// have followed since, or without memory.
    pub fn account_of_connect<R: Wait>(&self, rt: &R, entry: &Entry) -> Option<Bytes> {
        match &entry.event.what {
            Command::Connect {
                user: Some(name),
                ..
            } => {
                let policy = self.policy_of(rt, entry.epoch);
                account_of(user_named(&policy, Some(name.as_slice())))
            }
            _ => None,
        }
    }
}
