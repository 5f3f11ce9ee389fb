// What the log knows of a connection.
ghost use Rattle.std.specs.Prelude.{◌≡◌, None, Some};
ghost use Rattle.std.specs.Option.{option_or};

use base::SharedText;
use bytes::Bytes;
use log_lines::{Ending, Program, ProgramTexts, Rate, What};
use std::alloc::Global;
use std::net::SocketAddr;

/// How many bytes of a client are looked at for its CONNECT: as many as are kept of one whose CONNECT hasn't been
/// accepted.
const MOST: usize = 8192;

/// What the log knows of a connection.
#[derive(Drop)]
pub struct Party {
    pub(crate) conn: u64,
    pub(crate) peer: Option<SocketAddr>,
    /// Who its client is, once its CONNECT was accepted: the user, and the user's account.
    pub(crate) user: Option<SharedText>,
    pub(crate) account: Option<Bytes>,
    pub(crate) rate: Rate,
    /// What its client has said of its program, and what it has sent before that was known.
    program: Option<ProgramTexts>,
    heard: Option<Vec<u8>>,
    /// The moment of its accepted CONNECT, and why the session ends, as far as they are known.
    since: Option<u64>,
    why: Option<Ending>,
}

impl Party {
    /// Returns what is known of a connection whose client has said nothing.
    pub fn new(conn: u64, peer: Option<SocketAddr>) -> Party
        ensures conn { result.conn ≡ conn }
        ensures peer { result.peer ≡ peer }
        ensures user { result.user ≡ None }
        ensures why { result.why ≡ None }
    {
        Party {
            conn,
            peer,
            user: None,
            account: None,
            rate: Rate::new(),
            program: None,
            heard: None,
            since: None,
            why: None,
        }
    }

    /// Hears a piece of what its client sends before a CONNECT was accepted: a CONNECT in it says what its program is.
    /// Without memory that isn't known.
    pub fn hear(&mut self, alloc: Global, piece: &[u8])
        ensures { self.new ≡ record self.old { program = self.new.program; heard = self.new.heard } }
    {
        if self.program.is_some() {
            return;
        }
        let mut heard = match self.heard.take() {
            None => Vec::new(alloc),
            Some(heard) => heard,
        };
        let room = MOST.saturating_sub(heard.len());
        if heard
            .extend_from_slice(&piece[..piece.len().min(room)])
            .is_err()
        {
            return;
        }
        match connect_in(heard.as_slice()) {
            None => self.heard = Some(heard),
            Some(text) => self.program = ProgramTexts::read(alloc, text).ok(),
        }
    }

    /// Returns what its client has said of its program.
    pub(crate) fn program(&self) -> Program<'_> {
        match &self.program {
            None => Program {
                name: None,
                lang: None,
                version: None,
            },
            Some(texts) => texts.texts(),
        }
    }

    /// Notes the moment of its accepted CONNECT.
    pub(crate) fn note_begin(&mut self, at: u64) {
        self.since = Some(at);
    }

    /// Notes why the session ends, unless that is known.
    pub fn note_ending(&mut self, why: Ending)
        ensures { self.new ≡ record self.old { why = option_or self.old.why (Some why) } }
    {
        if self.why.is_none() {
            self.why = Some(why);
        }
    }

    /// Returns what is told of the session's end at a moment.
    pub(crate) fn closed(&self, at: u64) -> What<'static> {
        What::Closed {
            why: self.why,
            lasted: match self.since {
                None => None,
                Some(since) => Some(at.saturating_sub(since)),
            },
        }
    }
}

/// Returns the text of the first CONNECT among the lines of a client, if it is whole.
fn connect_in(lines: &[u8]) -> Option<&[u8]> {
    let mut rest = lines;
    for _ in 0..lines.len() {
        let end = rest.iter().position(|byte| *byte == b'\n')?;
        if let Some(text) = connect_of(rest.get(..end)?) {
            return Some(text);
        }
        rest = rest.get(end.saturating_add(1)..)?;
    }
    None
}

/// Returns the text behind the operation of a line, if that is CONNECT.
fn connect_of(line: &[u8]) -> Option<&[u8]> {
    let operation = line.get(..CONNECT.len())?;
    if operation.eq_ignore_ascii_case(CONNECT) {
        line.get(CONNECT.len()..)
    } else {
        None
    }
}

/// The operation, in any case.
const CONNECT: &[u8] = b"CONNECT";
