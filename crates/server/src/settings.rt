/// What a server is started with.
#[derive(Clone, Copy, Debug)]
pub struct Settings<'a> {
    /// Where clients connect: an address and a port.
    pub listen: &'a str,
    /// How many threads serve clients.
    pub workers: u64,
    /// How many deliveries may wait for a session.
    pub outbox: u64,
    /// How many entries the history may hold.
    pub history: u64,
    /// How many bytes the entries of the history may keep, about.
    pub history_bytes: u64,
    /// How many connections may be open.
    pub connections: u64,
    /// For how many seconds a client may be silent before the system probes whether it is still there, or 0 where it
    /// isn't to.
    pub keepalive: u64,
    /// Whether clients are told of their subscriptions that a reload removes.
    pub tells_removed: bool,
    /// What is told of the program at the start.
    pub program: ProgramFacts<'a>,
}

/// What a program knows of itself.
#[derive(Clone, Copy, Debug)]
pub struct ProgramFacts<'a> {
    /// Its version.
    pub version: &'a str,
    /// The commit that it was built of, and whether it is proved, where that is known.
    pub commit: Option<&'a [u8]>,
    pub is_proved: Option<bool>,
    /// The file that it takes policies of, unless they come on standard input.
    pub policy: Option<&'a str>,
}
