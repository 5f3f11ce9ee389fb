// How much is drained before sockets are looked at again.
ghost use Rattle.std.specs.Prelude.{◌≡◌};
ghost use Rattle.server_socket.specs.pacing.Slice.{is_spent, less, whole};

/// What may still be drained before the sockets are looked at again.
#[derive(Clone, Copy, Debug)]
pub struct Slice {
    /// So many connections,
    pub connections: usize,
    /// so many deliveries,
    pub deliveries: usize,
    /// and so many bytes of messages.
    pub bytes: usize,
}

impl Slice {
    /// Returns a whole slice: some milliseconds' work.
    pub fn whole() -> Slice
        ensures { result ≡ whole }
    {
        Slice {
            connections: 256,
            deliveries: 4096,
            bytes: 1_048_576,
        }
    }

    /// Returns what is left once a connection has had so many deliveries, with so many bytes.
    pub fn less(self, deliveries: usize, bytes: usize) -> Slice
        ensures { result ≡ less self deliveries bytes }
    {
        Slice {
            connections: self.connections.saturating_sub(1),
            deliveries: self.deliveries.saturating_sub(deliveries),
            bytes: self.bytes.saturating_sub(bytes),
        }
    }

    /// Returns whether one of the three is used up.
    pub fn is_spent(self) -> bool
        ensures { result ≡ is_spent self }
    {
        self.connections == 0 || self.deliveries == 0 || self.bytes == 0
    }
}
