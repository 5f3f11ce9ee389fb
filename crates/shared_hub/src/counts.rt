//! What a server's operator is told of a hub that threads share.
use crate::{Run, SharedHub};
use std::sync::Wait;

/// How much stands in a hub, whoever is connected.
#[derive(Clone, Copy, Debug, PartialEq, Eq)]
pub struct HubCounts {
    /// How many entries its history holds.
    pub entries: usize,
    /// Which policy is in force, counted from 1.
    pub epoch: u128,
}

/// How much a connection's session has.
#[derive(Clone, Copy, Debug, PartialEq, Eq)]
pub struct SessionCounts {
    /// How many subscriptions of it stand.
    pub subscriptions: usize,
    /// How many deliveries wait for it.
    pub waiting: usize,
}

impl<L: Run> SharedHub<L> {
    /// How much stands in the hub. The lock is held for a moment.
    pub fn counts<R: Wait>(&self, rt: &R) -> HubCounts {
        let desk = self.desk.lock(rt);
        let hub = desk.hub();
        HubCounts {
            entries: hub.history().len(),
            epoch: hub.epoch(),
        }
    }

    /// How much a connection's session has, if there is one. The lock is held for a moment.
    pub fn counts_of<R: Wait>(&self, rt: &R, conn: u64) -> Option<SessionCounts> {
        let desk = self.desk.lock(rt);
        let hub = desk.hub();
        let (waiting, _) = hub.waiting(conn)?;
        Some(SessionCounts {
            subscriptions: hub.subscribed(conn),
            waiting,
        })
    }
}
