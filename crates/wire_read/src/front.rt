ghost use Rattle.std.specs.Prelude.{◌≡◌, ◌<◌, ◌≤◌, ◌+◌, length, take, drop, IfOk};
ghost use Rattle.wire_read.specs.lines.Line.{line_of};
ghost use Rattle.wire_read.specs.lines.Places.{text_at, text_if_at};
ghost use Rattle.wire_read.specs.declared.lines.line.FoundLine.TheVariants as line_is;
ghost use Rattle.wire_read.specs.Awaited.{IsFound, AwaitsBlock, front_of};
ghost use Rattle.wire_read.specs.Command.{IsWithin};
ghost use Rattle.wire_read.specs.Front.{after_announced, block_texts, end_of, message};
ghost use Rattle.wire_read.specs.Places.{announced_at, span_behind, IsFromIf, IsInOrder};
ghost use Rattle.wire_read.specs.declared.front.Found.TheVariants as found;

use crate::awaited::Awaited;
use crate::command::{AnnouncedAt, CommandAt, frame_of, read_command};
use crate::lines::{FoundLine, Place, find_line, len_without_cr};
use crate::{Frame, WireFault};
use base::SharedBytes;
use std::alloc::AllocError;
use wire_message::{MessageText, Span, TextsAt};

/// What some bytes begin with.
#[derive(Drop)]
pub enum Found {
    /// A frame, and how many bytes it takes.
    Whole(Frame, usize),
    /// Less than a frame, and what they wait for.
    More(Awaited),
    /// No frame, however they go on.
    Wrong(WireFault),
}

/// How the bytes behind a block end it.
pub enum End {
    /// They may go on to be CR LF.
    Open,
    /// CR LF is in front.
    Whole,
    /// They are something else.
    Wrong,
}

/// How these bytes, which stand behind a block, end it.
fn find_end(rest: &[u8]) -> End
    ensures { result ≡ end_of rest.now }
{
    match rest {
        [] | [b'\r'] => End::Open,
        [b'\r', b'\n', ..] => End::Whole,
        _ => End::Wrong,
    }
}

/// Where a text stands behind a place.
fn span_behind(from: usize, place: Option<Place>) -> Option<Span>
    requires { IsFromIf from place }
    ensures { result ≡ span_behind from place }
{
    match place {
        None => None,
        Some(place) => Some(Span {
            start: place.start - from,
            end: place.end - from,
        }),
    }
}

/// The texts of the message that the line of the first `start` bytes announced, all of which came, with a header block of
/// `head` bytes. They share the bytes.
fn texts_of(
    bytes: &SharedBytes,
    start: usize,
    line: AnnouncedAt,
    head: usize,
) -> Result<MessageText, AllocError>
    requires order { IsInOrder (take start bytes.now) line }
    requires head { head ≤ line.total }
    requires total { start + line.total ≤ length bytes.now }
    ensures { IfOk result (λ m. m ≡ block_texts (text_at (take start bytes.now) line.subject) (text_if_at (take start bytes.now) line.reply) head (take line.total (drop start bytes.now))) }
{
    let _bound = bytes.len();
    let from = line.subject.start;
    let text = bytes.part(from..start + line.total)?;
    let places = TextsAt {
        subject: line.subject.end - from,
        reply: span_behind(from, line.reply),
        head,
        payload: line.total - head,
    };
    let message = MessageText::new(text, places)?;
    Ok(message)
}

/// The message that the line of the first `start` bytes announced, all of which came.
fn message(bytes: &SharedBytes, start: usize, line: AnnouncedAt) -> Result<Found, AllocError>
    requires order { IsInOrder (take start bytes.now) line }
    requires head { IsWithin line.head line.total }
    requires total { start + line.total + 2 ≤ length bytes.now }
    ensures { IfOk result (λ f. f ≡ found.Whole (message (text_at (take start bytes.now) line.subject) (text_if_at (take start bytes.now) line.reply) line.head (take line.total (drop start bytes.now))) (start + line.total + 2)) }
{
    let _bound = bytes.len();
    let end = start + line.total;
    match line.head {
        None => {
            let message = texts_of(bytes, start, line, 0)?;
            Ok(Found::Whole(Frame::Pub(message), end + 2))
        }
        Some(head) => {
            let message = texts_of(bytes, start, line, head)?;
            Ok(Found::Whole(Frame::Hpub(message), end + 2))
        }
    }
}

/// The message that the line of the first `start` bytes announced.
fn publish(bytes: &SharedBytes, start: usize, line: AnnouncedAt) -> Result<Found, AllocError>
    requires start { start ≤ length bytes.now }
    requires order { IsInOrder (take start bytes.now) line }
    requires head { IsWithin line.head line.total }
    requires total { line.total ≤ 1048576 }
    ensures front { IfOk result (λ f. front_of f ≡ after_announced (announced_at (take start bytes.now) line) start (drop start bytes.now)) }
    ensures awaited { IfOk result (λ f. AwaitsBlock f (start + line.total)) }
{
    let whole = bytes.len();
    let end = start + line.total;
    if whole < end {
        return Ok(Found::More(Awaited::Block(end)));
    }
    match find_end(&bytes.as_slice()[end..]) {
        End::Open => Ok(Found::More(Awaited::Block(end))),
        End::Wrong => Ok(Found::Wrong(WireFault::ParserError)),
        End::Whole => message(bytes, start, line),
    }
}

/// What begins with a line that a LF at `end` follows.
fn after_end(bytes: &SharedBytes, end: usize) -> Result<Found, AllocError>
    requires within { end < length bytes.now }
    requires line { line_of bytes.now ≡ line_is.Ended end }
    ensures { IfOk result (λ f. IsFound f bytes.now) }
{
    let len = len_without_cr(&bytes.as_slice()[..end]);
    match read_command(&bytes.as_slice()[..len]) {
        CommandAt::Refused(fault) => Ok(Found::Wrong(fault)),
        CommandAt::Alone(frame) => Ok(Found::Whole(frame_of(bytes, len, frame)?, end + 1)),
        CommandAt::Publish(line) => publish(bytes, end + 1, line),
    }
}

/// What the bytes begin with.
pub fn read_front(bytes: &SharedBytes) -> Result<Found, AllocError>
    ensures { IfOk result (λ f. IsFound f bytes.now) }
{
    match find_line(bytes.as_slice()) {
        FoundLine::Open => Ok(Found::More(Awaited::LineEnd)),
        FoundLine::TooLong => Ok(Found::Wrong(WireFault::ControlLine)),
        FoundLine::Ended(end) => after_end(bytes, end),
    }
}
