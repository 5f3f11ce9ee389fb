// The lines of a script of `natsd play` (docs/SCRIPT.md).
ghost use Rattle.std.specs.Prelude.{◌≡◌, IfOk, position, ◌==◌};
ghost use Rattle.lines.specs.script_text.Lines.{is_skipped, number_of, caps_line, send_line, numbered, client_line, short_line, policy_line, line_of, progress_after};

use crate::script_text::escapes::unescape;
use base::{Items, NoMemory};
use std::alloc::Global;

/// What one line of a script says.
#[derive(Debug, Drop)]
pub enum Line {
    /// Nothing: the line is empty or a comment.
    Skip,
    /// So many deliveries may wait for a session, and so many entries may the history hold.
    Caps { outbox: u64, history: u64 },
    /// The policy that this text writes takes the place of the built-in one.
    Policy(Items<u8>),
    /// The policy that this text writes comes into force.
    Reload(Items<u8>),
    /// A connection with this number opens.
    Open(u64),
    /// This is done to the connection with that number, if it is open.
    Client(u64, ClientLine),
    /// Later events are at this moment.
    Now(u64),
    /// This number is behind the words that messages take.
    Word(u64),
    /// The line has another form.
    Other,
}

/// What a line says of a connection.
#[derive(Debug, Drop)]
pub enum ClientLine {
    /// Its client sends these bytes.
    Sends(Items<u8>),
    /// No more drains are made for it.
    Holds,
    /// Drains are made for it again.
    Frees,
    /// Its client has gone.
    Ends,
}

/// A kind of line that says no more than a number.
#[derive(Clone, Copy, Debug)]
enum NumberLine {
    Open,
    Now,
    Word,
    Hold,
    Free,
    End,
}

/// How far a script has come.
#[derive(Clone, Copy, Debug, PartialEq, Eq)]
pub enum Progress {
    /// Each line so far is skipped. Caps may follow, or a policy.
    Head,
    /// The first of the lines that are not skipped has given caps, and it is the only one. A policy may follow.
    Capped,
    /// Another line that is not skipped has come.
    Body,
}

impl Progress {
    /// How far the script has come after one more line.
    pub fn after(self, line: &Line) -> Progress
        ensures { result ≡ progress_after self line.now }
    {
        match line {
            Line::Skip => self,
            Line::Caps { .. } => Progress::Capped,
            Line::Policy(_) => Progress::Body,
            Line::Reload(_) => Progress::Body,
            Line::Open(_) => Progress::Body,
            Line::Client(_, _) => Progress::Body,
            Line::Now(_) => Progress::Body,
            Line::Word(_) => Progress::Body,
            Line::Other => Progress::Body,
        }
    }
}

/// What a line, without its LF, says. `NoMemory` comes where the bytes to send, or those of a policy, can't be kept.
pub fn read_line(alloc: Global, line: &[u8]) -> Result<Line, NoMemory>
    ensures { IfOk result (λ read. read ≡ line_of line.now) }
{
    if is_skipped(line) {
        return Ok(Line::Skip);
    }
    match line.strip_prefix(b"send ") {
        Some(rest) => Ok(read_send(alloc, rest)?),
        None => Ok(read_policy_line(alloc, line)?),
    }
}

/// What a line says that is no text to send.
#[tactic(auto, unfolding(crate::specs::script_text::Lines::policy_line))]
fn read_policy_line(alloc: Global, line: &[u8]) -> Result<Line, NoMemory>
    ensures { IfOk result (λ read. read ≡ policy_line line.now) }
{
    match line.strip_prefix(b"policy ") {
        Some(text) => Ok(Line::Policy(Items::from_vec(Vec::from_slice(alloc, text)?))),
        None => match line.strip_prefix(b"reload ") {
            Some(text) => Ok(Line::Reload(Items::from_vec(Vec::from_slice(alloc, text)?))),
            None => Ok(read_short_line(line)),
        },
    }
}

/// What a line says that is no text to send and no policy.
#[tactic(auto, unfolding(crate::specs::script_text::Lines::short_line))]
fn read_short_line(line: &[u8]) -> Line
    ensures { result ≡ short_line line.now }
{
    match line.strip_prefix(b"open ") {
        Some(rest) => read_numbered(rest, NumberLine::Open),
        None => match line.strip_prefix(b"caps ") {
            Some(rest) => read_caps(rest),
            None => match line.strip_prefix(b"now ") {
                Some(rest) => read_numbered(rest, NumberLine::Now),
                None => match line.strip_prefix(b"word ") {
                    Some(rest) => read_numbered(rest, NumberLine::Word),
                    None => read_client_line(line),
                },
            },
        },
    }
}

/// What a line says that can only be of a connection.
#[tactic(auto, unfolding(crate::specs::script_text::Lines::client_line))]
fn read_client_line(line: &[u8]) -> Line
    ensures { result ≡ client_line line.now }
{
    match line.strip_prefix(b"hold ") {
        Some(rest) => read_numbered(rest, NumberLine::Hold),
        None => match line.strip_prefix(b"free ") {
            Some(rest) => read_numbered(rest, NumberLine::Free),
            None => match line.strip_prefix(b"end ") {
                Some(rest) => read_numbered(rest, NumberLine::End),
                None => Line::Other,
            },
        },
    }
}

/// What a line of this kind says, by the rest of it, where that is a number.
fn read_numbered(rest: &[u8], kind: NumberLine) -> Line
    ensures { result ≡ numbered kind (number_of rest.now) }
{
    match read_number(rest) {
        None => Line::Other,
        Some(number) => match kind {
            NumberLine::Open => Line::Open(number),
            NumberLine::Now => Line::Now(number),
            NumberLine::Word => Line::Word(number),
            NumberLine::Hold => Line::Client(number, ClientLine::Holds),
            NumberLine::Free => Line::Client(number, ClientLine::Frees),
            NumberLine::End => Line::Client(number, ClientLine::Ends),
        },
    }
}

/// What the rest of a line after `caps ` says.
fn read_caps(rest: &[u8]) -> Line
    ensures { result ≡ caps_line rest.now }
{
    match first_space(rest) {
        None => Line::Other,
        Some(at) => match read_number(&rest[..at]) {
            None => Line::Other,
            Some(outbox) => match read_number(&rest[at + 1..]) {
                None => Line::Other,
                Some(history) => Line::Caps { outbox, history },
            },
        },
    }
}

/// Whether the line is empty or a comment.
fn is_skipped(line: &[u8]) -> bool
    ensures { result ≡ is_skipped line.now }
{
    match line {
        [] => true,
        [first, ..] => *first == b'#',
    }
}

/// What the rest of a line after `send ` says.
fn read_send(alloc: Global, rest: &[u8]) -> Result<Line, NoMemory>
    ensures { IfOk result (λ read. read ≡ send_line rest.now) }
{
    match first_space(rest) {
        None => Ok(Line::Other),
        Some(at) => match read_number(&rest[..at]) {
            None => Ok(Line::Other),
            Some(conn) => match unescape(alloc, &rest[at + 1..])? {
                None => Ok(Line::Other),
                Some(bytes) => Ok(Line::Client(conn, ClientLine::Sends(Items::from_vec(bytes)))),
            },
        },
    }
}

/// Where the first space of a text stands.
fn first_space(text: &[u8]) -> Option<usize>
    ensures { result ≡ position (λ byte. byte == 32) text.now }
{
    text.iter().position(|byte| *byte == b' ')
}

/// The decimal number that a text writes, if it is one and fits 64 bits.
fn read_number(text: &[u8]) -> Option<u64>
    ensures { result ≡ number_of text.now }
{
    if text.is_empty() {
        return None;
    }
    let mut number: u64 = 0;
    for digit in text {
        if !digit.is_ascii_digit() {
            return None;
        }
        number = number
            .checked_mul(10)?
            .checked_add(u64::from(*digit - b'0'))?;
    }
    Some(number)
}
