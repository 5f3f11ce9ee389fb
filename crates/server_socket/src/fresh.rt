//! Fresh clients, of which no CONNECT was accepted: how much of theirs is kept.
ghost use Rattle.std.specs.Prelude.{◌≡◌, false};
ghost use Rattle.server_socket.specs.turns.Turns.{is_over};
ghost use Rattle.server_socket.specs.Fresh.{IsBounded, is_fresh};

use crate::connection::Connection;
use crate::turns::Turn;
use session_conn::Conn;
use std::alloc::Global;
use wire_write::ServerError;

/// How many bytes of such a client are kept at most.
const MOST: usize = 8192;

/// Returns whether a client is fresh: no CONNECT of it was accepted, and one may still come.
pub fn is_fresh(conn: &Conn) -> bool
    ensures { result ≡ is_fresh conn.now.stage }
{
    let stage = conn.stage();
    !stage.is_connected() && !stage.is_closed()
}

/// Returns whether too much may be kept of a fresh client.
fn is_beyond(conn: &Conn) -> bool
    ensures bounded { result ≡ false → IsBounded conn.now }
    ensures fresh { is_fresh conn.now.stage ≡ false → result ≡ false }
{
    is_fresh(conn) && conn.buffered() > MOST
}

impl Connection {
    /// Returns its turn. Where too much is kept of a fresh client, it writes the client an error and returns `Closed`.
    pub fn close_if_beyond(&self, alloc: Global, turn: Turn) -> Turn
        ensures bounded { is_over result ≡ false → IsBounded self.now.client.conn }
        ensures fresh { is_fresh self.now.client.conn.stage ≡ false → result ≡ turn }
    {
        if turn.is_over() || !is_beyond(self.client.conn()) {
            return turn;
        }
        self.tell_last(alloc, ServerError::Authorization);
        Turn::Closed
    }
}
