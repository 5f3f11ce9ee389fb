/// What a hub has, whoever is connected.
#[derive(Clone, Copy, Debug, PartialEq, Eq)]
pub struct HubCounts {
    /// How many entries its history holds.
    pub entries: u64,
    /// Which policy is in force, counted from 1.
    pub epoch: u64,
}

/// What a hub has of a session.
#[derive(Clone, Copy, Debug, PartialEq, Eq)]
pub struct SessionCounts {
    /// How many subscriptions of it stand.
    pub subscriptions: u64,
    /// How many messages wait in its outbox.
    pub waiting: u64,
}

/// A hub that can be looked at. Others may change it between two looks.
pub trait HubLooks {
    /// Returns what it has, whoever is connected.
    fn look(&self) -> HubCounts;

    /// Returns what it has of a connection's session, if there is one.
    fn look_at(&self, conn: u64) -> Option<SessionCounts>;
}
