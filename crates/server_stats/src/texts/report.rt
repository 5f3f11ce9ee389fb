use crate::counts::{Account, WorkerCounts};
use crate::looks::HubCounts;

/// What is told of a server.
#[derive(Clone, Copy)]
pub struct Report<'a> {
    /// When it was added up, in milliseconds since 1970.
    pub at: u64,
    /// How many sockets of clients are open.
    pub connections: u64,
    pub others: WorkerCounts,
    pub hub: HubCounts,
    /// How many bytes the history's entries keep, about, and how often it was rotated.
    pub history_bytes: u64,
    pub rotations: u64,
    pub accounts: &'a [Account],
}
