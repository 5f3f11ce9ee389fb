//! What a connection reads.
ghost use Rattle.std.specs.Prelude.{◌≡◌, ◌<◌, length, true};

use crate::connection::Connection;
use crate::counted::Counted;
use crate::heard::Heard;
use crate::turns::{ReadContext, Turn};
use devices::NonBlocking;
use events::Port;
use session_conn::Words;

/// The result of one turn of a connection.
#[derive(Clone, Copy, Debug)]
pub struct ConnectionTurn {
    pub turn: Turn,
    /// How many bytes of frames were buffered before it, and how many were read.
    pub buffered: usize,
    pub read: usize,
    /// Whether frames wait behind it.
    pub frames_wait: bool,
}

impl Connection {
    /// Serves its client for one turn: frames that wait go on, or a piece is read into the buffer. The errors that its client is
    /// told are added to `errors`.
    pub fn serve<P: Port, W: Words>(
        &mut self,
        port: &mut P,
        words: &mut W,
        buf: &mut [u8],
        errors: &mut Vec<u8>,
        now: u64,
    ) -> ConnectionTurn
        requires { 0 < length buf.old }
        ensures place { P.place port.new ≡ P.place port.old }
        ensures let_on { self.new.is_let_on ≡ true → self.old.is_let_on ≡ true }
    {
        let was_let_on = self.is_let_on;
        let buffered = self.client.conn().buffered();
        let mut reader = Counted::new(NonBlocking::new(&self.socket));
        let writes = NonBlocking::new(&self.socket);
        let mut writer = Heard::new(writes, self.client.waits(), errors);
        let context = ReadContext { buf, moment: now };
        let turn = self
            .client
            .serve(port, words, &mut reader, &mut writer, context);
        let read = reader.count();
        self.note_written(now);
        self.is_let_on = was_let_on && turn == Turn::Waits;
        ConnectionTurn {
            turn,
            buffered,
            read,
            frames_wait: self.client.conn().stall().is_some(),
        }
    }
}
