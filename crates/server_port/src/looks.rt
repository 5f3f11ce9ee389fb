//! What a port sees of the hub for the server's operator.
use crate::gates::Gate;
use crate::port::ServerPort;
use server_stats::{HubCounts, HubLooks, SessionCounts};
use shared_hub::Run;
use std::sync::Wait;

impl<L: Run, R: Wait, G: Gate + Drop> HubLooks for ServerPort<'_, L, R, G> {
    fn look(&self) -> HubCounts {
        let counts = self.shared.counts(self.rt);
        HubCounts {
            entries: counts.entries as u64,
            epoch: u64::try_from(counts.epoch).unwrap_or(u64::MAX),
        }
    }

    fn look_at(&self, conn: u64) -> Option<SessionCounts> {
        let counts = self.shared.counts_of(self.rt, conn)?;
        Some(SessionCounts {
            subscriptions: counts.subscriptions as u64,
            waiting: counts.waiting as u64,
        })
    }
}
