//! The hub as the waits see it, and the waits as the hub's step sees them.
ghost use Rattle.std.specs.Prelude.{◌≡◌};

use hub::{Hub, Lenient};
use shared_waits::{Outboxes, Waits};

/// The outboxes of a hub.
#[derive(Drop)]
pub(crate) struct HubOutboxes<'a> {
    pub hub: &'a Hub,
}

impl Outboxes for HubOutboxes<'_> {
    ghost use Rattle.shared_hub.specs.desk.Waits.{waiting_in};

    ghost waiting = { λ o conn. waiting_in o.hub.now.world conn };

    fn waiting(&self, conn: u64) -> usize {
        match self.hub.waiting(conn) {
            None => 0,
            Some((waiting, _)) => waiting,
        }
    }
}

/// The terms of a step at a moment: it may tell of a full outbox if the patience with its connection is used up then, and so
/// many bytes may wait where its message enters.
#[derive(Drop)]
pub(crate) struct AtMoment<'a> {
    pub waits: &'a Waits,
    pub moment: u64,
    pub room: Option<usize>,
}

impl Lenient for AtMoment<'_> {
    ghost use Rattle.shared_waits.specs.Waiting.{is_out_with};

    ghost terms = { λ at. record { lets = is_out_with at.waits.now at.moment; room = at.room } };

    #[inline(always)]
    fn lets(&self, conn: u64) -> bool {
        self.waits.is_out(conn, self.moment)
    }

    #[inline(always)]
    fn room(&self) -> Option<usize> {
        self.room
    }
}
