ghost use Rattle.std.specs.Prelude.{◌≡◌};
ghost use Rattle.server_socket.specs.turns.Turns.{is_over};

use session_conn::Stall;

/// How a turn of a connection ended.
#[derive(Clone, Copy, Debug, PartialEq, Eq)]
pub enum Turn {
    /// What was asked is done, and what it gave is written.
    Done,
    /// Nothing has come to be read. All is written.
    Idle,
    /// Bytes wait until the writer takes more. Nothing is read or drained before. Whether frames wait too, says the connection.
    Waits,
    /// Memory lacked, the history is full, or a frame is held back: the next turn goes on with it. What it gave is written.
    Stalled(Stall),
    /// The connection has closed, and all is written, its closing text too.
    Closed,
    /// The client has sent its last byte.
    Ended,
    /// The reader or the writer has failed.
    Failed,
    /// Memory lacked for a piece that was read, so that the client's bytes are lost.
    Lost,
}

impl Turn {
    /// Whether the connection is to be ended.
    pub fn is_over(self) -> bool
        ensures { result ≡ is_over self }
    {
        match self {
            Turn::Closed | Turn::Ended | Turn::Failed | Turn::Lost => true,
            Turn::Done | Turn::Idle | Turn::Waits => false,
            Turn::Stalled(_) => false,
        }
    }
}
