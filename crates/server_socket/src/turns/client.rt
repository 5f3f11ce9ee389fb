use crate::turns::turn::Turn;
use devices::{DeviceFailed, NonBlockingSink, NonBlockingSource};
use events::Port;
use session_conn::{Conn, Output, Stall, Words};
use std::alloc::Global;
use std::marker::Model;

/// A connection with what its client hasn't been sent yet. A clause sees both.
pub struct Client {
    conn: Conn,
    /// What is written next, and how much of it is written.
    bytes: Vec<u8>,
    written: usize,
    alloc: Global,
}

impl Drop for Client {
    fn drop(self) {
        let Self {
            conn: _,
            bytes: _,
            written: _,
            alloc: _,
        } = self;
    }
}

impl Model for Client {
    ghost use Rattle.std.specs.Prelude.{drop};
    ghost use Rattle.server_socket.specs.turns.Turns;
    ghost use Rattle.server_socket.specs.turns.Turns.{client};

    ghost Value = { Turns.Client };

    ghost view = { λ c. client c.conn (drop c.written c.bytes.items) };
}

ghost use Rattle.std.specs.Prelude.{◌≡◌, ◌≢◌, ◌⊎◌, ◌++◌, ◌||◌, ◌<◌, ◌≤◌, Ok, [], None, Bool, true, false, is_err, length, take};
ghost use Rattle.std.specs.Bool.{Decides};
ghost use Rattle.std.specs.Io.KnownBytes.{Consumes, IsAtEnd};
ghost use Rattle.session_conn.specs.Turns.{port_of};
ghost use Rattle.session_conn.specs.Calls.{new_connection};
ghost use Rattle.session_plan.specs.Replies.{is_closed};
ghost use Rattle.server_socket.specs.declared.turns.client.Piece.TheVariants as piece;
ghost use Rattle.server_socket.specs.turns.Turns.{client, state, Client, Writes, IsSaid, IsTurn, IsWrittenOut, IsReadTurn, IsServing, IsNoRead, IsStallTold, IsDraining, IsOpening, IsOver, IsPiece, piece_length};

/// What a turn that reads goes by: where a piece is read to, and when.
pub struct ReadContext<'a> {
    /// No piece is longer than this.
    pub buf: &'a mut [u8],
    /// The moment of the turn's events.
    pub moment: u64,
}

/// What a read has brought.
enum Piece {
    /// So many bytes, none of them where frames wait.
    Read(usize),
    /// Nothing has come yet.
    Later,
    /// There are no more bytes.
    Last,
    Failed,
}

/// Reads a piece, or none where frames wait for their turns.
#[tactic(auto, using(crate::proofs::turns::Writing::consumes_nothing))]
fn next_piece<R: NonBlockingSource>(reader: &mut R, buf: &mut [u8], frames_wait: bool) -> Piece
    requires { 0 < length buf.old }
    ensures within { piece_length result ≤ length buf.new }
    ensures read { Consumes (R.remaining reader.old) (R.remaining reader.new) (take (piece_length result) buf.new) }
    ensures held { frames_wait ≡ true → reader.new ≡ reader.old }
    ensures none { frames_wait ≡ true → result ≡ piece.Read 0 }
    ensures some { frames_wait ≡ false → result ≢ piece.Read 0 }
    ensures piece { IsPiece (R.remaining reader.new) (R.failed reader.old) (R.failed reader.new) (R.waits reader.new) result }
{
    if frames_wait {
        return Piece::Read(0);
    }
    match reader.read(buf) {
        Err(_) => Piece::Failed,
        Ok(None) => Piece::Later,
        Ok(Some(0)) => Piece::Last,
        Ok(Some(count)) => Piece::Read(count),
    }
}

/// How a turn ends whose call was stopped by this, while the connection stands.
fn turn_of(stall: Option<Stall>) -> Turn
    ensures told { IsStallTold stall result }
    ensures neither { IsNoRead result }
    ensures turn { (c : Client) (failed waits : Bool) → c.kept ≡ [] → is_closed c.conn.stage ≡ false → IsTurn c failed failed waits result }
{
    match stall {
        None => Turn::Done,
        Some(Stall::PieceNotTaken) => Turn::Lost,
        Some(Stall::Memory) => Turn::Stalled(Stall::Memory),
        Some(Stall::HistoryFull) => Turn::Stalled(Stall::HistoryFull),
        Some(Stall::Held) => Turn::Stalled(Stall::Held),
    }
}

impl Client {
    /// A connection with this number, whose client has sent nothing and been sent nothing. It takes no memory.
    pub fn new(alloc: Global, conn: u64) -> Client
        ensures { result ≡ client (new_connection conn) [] }
    {
        Client {
            conn: Conn::new(alloc, conn),
            bytes: Vec::new(alloc),
            written: 0,
            alloc,
        }
    }

    /// The connection.
    pub fn conn(&self) -> &Conn
        ensures { result.now ≡ self.now.conn }
    {
        &self.conn
    }

    /// Whether bytes wait until the writer takes more.
    pub fn waits(&self) -> bool
        ensures { Decides result (self.now.kept ≢ []) }
    {
        self.written < self.bytes.len()
    }

    /// How many bytes wait until the writer takes more.
    pub fn waiting(&self) -> usize
        ensures { result ≡ length self.now.kept }
    {
        self.bytes.len().saturating_sub(self.written)
    }

    /// Writes what is kept, as far as the writer takes it, and returns whether that was all of it.
    #[tactic(auto, using(crate::proofs::turns::Writing::left_over))]
    fn write_kept<S: NonBlockingSink>(&mut self, writer: &mut S) -> Result<bool, DeviceFailed>
        ensures conn { self.new.conn ≡ self.old.conn }
        ensures written { Writes (S.contents writer.old) (S.contents writer.new) self.old.kept self.new.kept }
        ensures all { result ≡ Ok true → self.new.kept ≡ [] }
        ensures left { result ≡ Ok false → self.new.kept ≢ [] }
        ensures waits { result ≡ Ok false → S.waits writer.new ≡ true }
        ensures failed { S.failed writer.new ≡ (S.failed writer.old || is_err result) }
    {
        while self.written < self.bytes.len() {
            match writer.write(&self.bytes[self.written..]) {
                Err(failed) => return Err(failed),
                Ok(None) => return Ok(false),
                Ok(Some(count)) => self.written += count,
            }
        }
        self.bytes = Vec::new(self.alloc);
        self.written = 0;
        Ok(true)
    }

    /// Writes what is kept, as far as the writer takes it. Returns how the turn ends with that, or `None` where all is
    /// written and the connection stands.
    fn write_out<S: NonBlockingSink>(&mut self, writer: &mut S) -> Option<Turn>
        ensures conn { self.new.conn ≡ self.old.conn }
        ensures written { Writes (S.contents writer.old) (S.contents writer.new) self.old.kept self.new.kept }
        ensures out { IsWrittenOut self.new (S.failed writer.old) (S.failed writer.new) (S.waits writer.new) result }
    {
        match self.write_kept(writer) {
            Err(_) => Some(Turn::Failed),
            Ok(false) => Some(Turn::Waits),
            Ok(true) => {
                if self.conn.stage().is_closed() {
                    return Some(Turn::Closed);
                }
                None
            }
        }
    }

    /// Writes what is kept, as far as the writer takes it.
    pub fn flush<S: NonBlockingSink>(&mut self, writer: &mut S) -> Turn
        ensures conn { self.new.conn ≡ self.old.conn }
        ensures written { Writes (S.contents writer.old) (S.contents writer.new) self.old.kept self.new.kept }
        ensures turn { IsTurn self.new (S.failed writer.old) (S.failed writer.new) (S.waits writer.new) result }
        ensures told { IsStallTold None result }
    {
        match self.write_out(writer) {
            Some(turn) => turn,
            None => Turn::Done,
        }
    }

    /// Keeps a text behind what is kept, and writes as far as the writer takes it. A client whose connection has closed
    /// isn't told, nor is one for whose text there is no memory.
    pub fn say<S: NonBlockingSink>(&mut self, text: &[u8], writer: &mut S) -> Turn
        ensures conn { self.new.conn ≡ self.old.conn }
        ensures written { IsSaid text.now self.old self.new (S.contents writer.old) (S.contents writer.new) }
        ensures turn { IsTurn self.new (S.failed writer.old) (S.failed writer.new) (S.waits writer.new) result }
    {
        if self.conn.stage().is_closed() {
            return self.flush(writer);
        }
        if self.keep_behind(text) {
            return self.flush(writer);
        }
        self.flush(writer)
    }

    /// Keeps a text behind what is kept, and returns whether there was memory for it.
    #[tactic(auto, using(crate::proofs::turns::Writing::kept_behind, crate::proofs::turns::Writing::kept_alone))]
    fn keep_behind(&mut self, text: &[u8]) -> bool
        ensures conn { self.new.conn ≡ self.old.conn }
        ensures kept { result ≡ true → self.new.kept ≡ self.old.kept ++ text.now }
        ensures same { result ≡ false → self.new ≡ self.old }
    {
        if self.written < self.bytes.len() {
            return self.bytes.extend_from_slice(text).is_ok();
        }
        match Vec::from_slice(self.alloc, text) {
            Err(_) => false,
            Ok(bytes) => {
                self.bytes = bytes;
                self.written = 0;
                true
            }
        }
    }

    /// Keeps what a call gave, in place of what is all written, and writes it as far as the writer takes it.
    fn tell<S: NonBlockingSink>(&mut self, output: Output, writer: &mut S) -> Turn
        ensures conn { self.new.conn ≡ self.old.conn }
        ensures written { Writes (S.contents writer.old) (S.contents writer.new) output.bytes.items self.new.kept }
        ensures turn { IsTurn self.new (S.failed writer.old) (S.failed writer.new) (S.waits writer.new) result }
        ensures told { IsStallTold output.stall result }
        ensures neither { IsNoRead result }
    {
        let Output { bytes, stall, .. } = output;
        self.bytes = bytes;
        self.written = 0;
        match self.write_out(writer) {
            Some(turn) => turn,
            None => turn_of(stall),
        }
    }

    /// The opening: the client is sent INFO. Without memory nothing is sent, and it can be asked again.
    pub fn open<S: NonBlockingSink>(&mut self, writer: &mut S) -> Turn
        ensures opening { IsOpening self.old self.new (S.contents writer.old) (S.contents writer.new) result }
        ensures turn { IsTurn self.new (S.failed writer.old) (S.failed writer.new) (S.waits writer.new) result }
        ensures neither { IsNoRead result }
    {
        match self.write_out(writer) {
            Some(turn) => return turn,
            None => {}
        }
        let output = self.conn.opened(self.alloc);
        self.tell(output, writer)
    }

    /// One read and what comes of it. What is kept is written first, and nothing is read before all of it is written. Then
    /// one piece is read, no longer than the buffer, and its frames have their turns; or those that an earlier piece has
    /// left, where they stopped, and nothing is read. What that gives is written at once, as far as the writer takes it, so
    /// it comes before all that is taken later.
    #[tactic(auto, using(crate::proofs::turns::Writing::consumes_nothing))]
    pub fn serve<P: Port, W: Words, R: NonBlockingSource, S: NonBlockingSink>(
        &mut self,
        port: &mut P,
        words: &mut W,
        reader: &mut R,
        writer: &mut S,
        context: ReadContext<'_>,
    ) -> Turn
        requires { 0 < length context.buf.now }
        ensures place { P.place port.new ≡ P.place port.old }
        ensures serving { IsServing (port_of P.steps P.posts P.holds) W.draws context.entry.moment (length context.entry.buf.now) (state self.old port.old (S.contents writer.old)) words.old (R.remaining reader.old) (state self.new port.new (S.contents writer.new)) words.new (R.remaining reader.new) result }
        ensures turn { IsReadTurn self.new (R.failed reader.old) (R.failed reader.new) (S.failed writer.old) (S.failed writer.new) (S.waits writer.new) result }
        ensures ended { result ≡ Turn.Ended → IsAtEnd (R.remaining reader.new) }
        ensures idle { result ≡ Turn.Idle → R.waits reader.new ≡ true }
        ensures held { self.old.conn.stall ≢ None → reader.new ≡ reader.old }
    {
        let ReadContext { buf, moment } = context;
        match self.write_out(writer) {
            Some(turn) => return turn,
            None => {}
        }
        let frames_wait = self.conn.stall().is_some();
        let count = match next_piece(reader, buf, frames_wait) {
            Piece::Failed => return Turn::Failed,
            Piece::Later => return Turn::Idle,
            Piece::Last => return Turn::Ended,
            Piece::Read(count) => count,
        };
        let output = self
            .conn
            .on_bytes(self.alloc, port, &buf[..count], moment, words);
        self.tell(output, writer)
    }

    /// One drain: what was kept is written first, and nothing is taken before all of it is written. Then at most so
    /// many deliveries are taken, and written as far as the writer takes them. It goes on while frames are held back.
    pub fn drain<P: Port, S: NonBlockingSink>(
        &mut self,
        port: &mut P,
        writer: &mut S,
        most: usize,
        now: u64,
    ) -> Turn
        ensures place { P.place port.new ≡ P.place port.old }
        ensures draining { IsDraining (port_of P.steps P.posts P.holds) now most (state self.old port.old (S.contents writer.old)) (state self.new port.new (S.contents writer.new)) result }
        ensures turn { IsTurn self.new (S.failed writer.old) (S.failed writer.new) (S.waits writer.new) result }
        ensures neither { IsNoRead result }
    {
        match self.write_out(writer) {
            Some(turn) => return turn,
            None => {}
        }
        let output = self.conn.drain(self.alloc, port, most, now);
        self.tell(output, writer)
    }

    /// The end, once a turn is over: nothing more is written, and a session that stands is closed. Where memory lacks
    /// or the history is full it stands still, and this may be called again.
    pub fn end<P: Port>(&mut self, port: &mut P, now: u64) -> Option<Stall>
        ensures place { P.place port.new ≡ P.place port.old }
        ensures ended { IsOver (port_of P.steps P.posts P.holds) now self.old port.old result self.new port.new }
    {
        self.bytes = Vec::new(self.alloc);
        self.written = 0;
        self.conn.ended(port, now).stall
    }
}
