// Connections whose turn could not be ended, which is tried again.
ghost use Rattle.std.specs.Prelude.{◌≡◌};

use crate::connections::Connections;

/// That a connection was put among those whose turn could not be ended. Who puts it there makes this, and nobody else.
#[derive(Clone, Copy, Debug)]
pub struct Stalled {
    key: usize,
}

impl Connections {
    ghost use Rattle.std.specs.Prelude.{Bool};
    ghost use Rattle.server_socket.specs.Queues.{added};

    /// Puts a connection among those whose turn could not be ended. Without memory it isn't there.
    pub fn stall(&mut self, key: usize) -> Stalled
        ensures key { result.key ≡ key }
        ensures stalled { (could : Bool) × (self.new ≡ record self.old { stalled = added could key self.old.stalled }) }
    {
        let _ = self.stalled.add(key);
        Stalled { key }
    }
}
