use crate::context::{DrainContext, TurnContext};
use crate::drain::drain;
use crate::output::{Output, Stall};
use crate::serve::serve;
use crate::submit::submit;
use base::NoMemory;
use events::{Answer, Command, Event, HubRefusal, Port, Words};
use session_plan::Stage;
use session_plan::pending::{Frames, Owed};
use std::alloc::Global;
use std::marker::Model;
use wire_read::FrameReader;
use wire_write::connect_opts::info_text;
use wire_write::write_info;

/// A connection. A clause sees its number, what its reader keeps, where it is in its life, the frames that wait for
/// their turn with the word of the first and what stopped it, and what a Take gave and is not written yet.
pub struct Conn {
    conn: u64,
    reader: FrameReader,
    stage: Stage,
    frames: Frames,
    word: Option<u64>,
    stall: Option<Stall>,
    owed: Owed,
    alloc: Global,
}

impl Drop for Conn {
    fn drop(self) {
        let Self {
            conn: _,
            reader: _,
            stage: _,
            frames: _,
            word: _,
            stall: _,
            owed: _,
            alloc: _,
        } = self;
    }
}

impl Model for Conn {
    ghost use Rattle.session_conn.specs.Calls.{Connection};

    ghost Value = { Connection };

    ghost view = { λ c. record {
      conn = c.conn;
      reader = c.reader;
      stage = c.stage;
      frames = c.frames;
      word = c.word;
      stall = c.stall;
      owed = c.owed.deliveries;
      missed = c.owed.missed;
    } };
}

/// Nothing but whether the connection has closed, and what stopped the call.
fn nothing(alloc: Global, close: bool, stall: Option<Stall>) -> Output
    ensures bytes { result.bytes.items ≡ [] }
    ensures close { result.close ≡ close }
    ensures stall { result.stall ≡ stall }
{
    Output {
        bytes: Vec::new(alloc),
        close,
        stall,
    }
}

/// Why a connection that was stopped by this is not drained. One that is held back is drained all the same.
fn undrained(stall: Option<Stall>) -> Option<Stall>
    ensures { result ≡ undrained stall }
{
    match stall {
        None | Some(Stall::Held) => None,
        Some(Stall::PieceNotTaken) => Some(Stall::PieceNotTaken),
        Some(Stall::Memory) => Some(Stall::Memory),
        Some(Stall::HistoryFull) => Some(Stall::HistoryFull),
    }
}

/// The INFO of a connection.
fn info_of(alloc: Global, conn: u64) -> Result<Vec<u8>, NoMemory>
    ensures { IfOk result (λ bytes. bytes.items ≡ info_line (info_text conn)) }
{
    let info = info_text(alloc, conn)?;
    let mut bytes = Vec::new(alloc);
    write_info(&mut bytes, info.as_slice())?;
    Ok(bytes)
}

ghost use Rattle.std.specs.Prelude.{◌≡◌, ◌≤◌, [], IfOk, false, length, true, None};
ghost use Rattle.session_conn.specs.Calls.{undrained};
ghost use Rattle.wire_write.specs.connect_opts.Info.{info_text};
ghost use Rattle.wire_write.specs.Texts.{info_line};

impl Conn {
    ghost use Rattle.session_conn.specs.Turns.{port_of};
    ghost use Rattle.session_conn.specs.Calls.{new_connection, without_frames, IsOpened, IsServed, IsDrained, IsEnded};

    /// A connection with this number, whose client has sent nothing. It takes no memory.
    pub fn new(alloc: Global, conn: u64) -> Conn
        ensures { result ≡ new_connection conn }
    {
        Conn {
            conn,
            reader: FrameReader::new(alloc),
            stage: Stage::Fresh,
            frames: Frames::new(alloc),
            word: None,
            stall: None,
            owed: Owed::new(),
            alloc,
        }
    }

    /// Its number.
    pub fn number(&self) -> u64
        ensures { result ≡ self.now.conn }
    {
        self.conn
    }

    /// Where it is in its life.
    pub fn stage(&self) -> Stage
        ensures { result ≡ self.now.stage }
    {
        self.stage
    }

    /// How many bytes are kept of a frame that isn't whole, or how many there is room for, if that is more.
    pub fn buffered(&self) -> usize
        ensures { length self.now.reader.rest ≤ result }
    {
        self.reader.buffered()
    }

    /// What stopped the frames that wait for their turn; none waits where nothing did.
    pub fn stall(&self) -> Option<Stall>
        ensures { result ≡ self.now.stall }
    {
        self.stall
    }

    /// What the client is sent at the opening: INFO. Without memory nothing, and it can be asked again.
    pub fn opened(&self, alloc: Global) -> Output
        ensures { IsOpened self.now.conn result }
    {
        match info_of(alloc, self.conn) {
            Ok(bytes) => Output {
                bytes,
                close: false,
                stall: None,
            },
            Err(_) => nothing(alloc, false, Some(Stall::Memory)),
        }
    }

    /// The client's bytes: the frames that were kept, and then those that the piece completes, each in its turn.
    /// An event is submitted once. Where memory lacks, the history is full or the port holds it back, the frame in hand
    /// is kept with its word, and those behind it, and the next call goes on with them, with an empty piece too.
    pub fn on_bytes<P: Port, W: Words>(
        &mut self,
        alloc: Global,
        port: &mut P,
        piece: &[u8],
        now: u64,
        words: &mut W,
    ) -> Output
        ensures place { P.place port.new ≡ P.place port.old }
        ensures served { IsServed (port_of P.steps P.posts P.holds) W.draws now piece.now self.old port.old words.old result self.new port.new words.new }
    {
        if self.stage.is_closed() {
            return nothing(alloc, true, None);
        }
        match self.frames.take_piece(&mut self.reader, piece) {
            Err(_) => nothing(alloc, false, Some(Stall::PieceNotTaken)),
            Ok(()) => {
                let context = TurnContext {
                    alloc,
                    conn: self.conn,
                    moment: now,
                    stage: self.stage,
                    word: self.word,
                };
                let served = serve(context, port, words, &mut self.frames);
                self.stage = served.stage;
                self.word = served.word;
                self.stall = served.stall;
                Output {
                    bytes: served.bytes,
                    close: served.stage.is_closed(),
                    stall: served.stall,
                }
            }
        }
    }

    /// A drain: what an earlier one could not write, and then one Take of at most so many deliveries. While frames are kept
    /// it gives nothing but what stopped them, unless they are only held back. Where it closes the connection they are dropped.
    pub fn drain<P: Port>(&mut self, alloc: Global, port: &mut P, most: usize, now: u64) -> Output
        ensures place { P.place port.new ≡ P.place port.old }
        ensures drained { IsDrained (port_of P.steps P.posts P.holds) now most self.old port.old result self.new port.new }
    {
        if self.stage.is_closed() {
            return nothing(alloc, true, None);
        }
        if let Some(stall) = undrained(self.stall) {
            return nothing(alloc, false, Some(stall));
        }
        let context = DrainContext {
            alloc,
            conn: self.conn,
            moment: now,
            stage: self.stage,
            most,
        };
        let drained = drain(context, port, &mut self.owed);
        self.stage = drained.stage;
        if drained.stage.is_closed() {
            self.drop_frames();
        }
        Output {
            bytes: drained.bytes,
            close: drained.stage.is_closed(),
            stall: drained.stall,
        }
    }

    /// The client has gone, or was told a closing text: frames that were kept are dropped, and a session that stands
    /// is closed. After a stall it may be called again.
    pub fn ended<P: Port>(&mut self, port: &mut P, now: u64) -> Output
        ensures place { P.place port.new ≡ P.place port.old }
        ensures ended { IsEnded (port_of P.steps P.posts P.holds) now self.old port.old result self.new port.new }
    {
        self.drop_frames();
        let closing = close_session(self.conn, now, port, self.stage.closed());
        self.stage = closing.0;
        nothing(self.alloc, false, closing.1)
    }

    /// Drops the frames that wait.
    fn drop_frames(&mut self)
        ensures { self.new ≡ without_frames self.old }
    {
        self.frames.clear();
        self.word = None;
        self.stall = None;
    }
}

ghost use Rattle.session_conn.specs.Turns.{port_of};
ghost use Rattle.session_conn.specs.Calls.{IsClosing, stage_closed, stall_closed};
ghost use Rattle.session_conn.specs.Turns.{outcome_of};

/// Whether a session stands still after the answer to its Close, and what stopped that.
fn after_close(answer: &Result<Answer, HubRefusal>) -> (Stage, Option<Stall>)
    ensures stage { result.0 ≡ stage_closed (outcome_of answer.now) }
    ensures stall { result.1 ≡ stall_closed (outcome_of answer.now) }
{
    match answer {
        Ok(_) => (Stage::Closed { session: false }, None),
        Err(HubRefusal::NoSession) => (Stage::Closed { session: false }, None),
        Err(HubRefusal::HistoryFull) => {
            (Stage::Closed { session: true }, Some(Stall::HistoryFull))
        }
        Err(HubRefusal::NoMemory) => (Stage::Closed { session: true }, Some(Stall::Memory)),
        Err(HubRefusal::SessionTaken) | Err(HubRefusal::SessionLimit) => {
            (Stage::Closed { session: true }, None)
        }
    }
}

/// Submits the Close of a session that stands, and gives whether it stands still, and what stopped it.
fn close_session<P: Port>(conn: u64, now: u64, port: &mut P, stage: Stage) -> (Stage, Option<Stall>)
    ensures place { P.place port.new ≡ P.place port.old }
    ensures closing { IsClosing (port_of P.steps P.posts P.holds) now conn stage port.old result.0 result.1 port.new }
{
    match stage {
        Stage::Closed { session: true } => {
            let what = Command::Close { conn };
            let answer = submit(port, Event { now, what });
            after_close(&answer)
        }
        Stage::Closed { session: false } => (Stage::Closed { session: false }, None),
        Stage::Fresh => (Stage::Fresh, None),
        Stage::Connected { verbose, headers } => (Stage::Connected { verbose, headers }, None),
    }
}
