ghost use Rattle.std.specs.Prelude.{◌≡◌, ◌<◌, ◌≤◌, length, take, drop, IfOk};
ghost use Rattle.wire_read.specs.lines.Field.{counted, fields};
ghost use Rattle.wire_read.specs.lines.Places.{text_at, text_if_at, IsBehindIf};
ghost use Rattle.wire_read.specs.Size.{size, sizes};
ghost use Rattle.wire_read.specs.Command.{command, publication, headed_publication, subscription, unsubscription, sized, headed};
ghost use Rattle.wire_read.specs.Places.{frame_at, command_at, AreTextsInOrder};

use crate::lines::{
    FieldsAt, Operation, Place, cut, cut_if, fields_of, find_operation, first_place, text_at, trim,
};
use crate::size::{count_of, size_of, sizes_of};
use crate::{Frame, WireFault};
use base::SharedBytes;
use std::alloc::AllocError;

/// What the line of a message says of it.
#[derive(Clone, Copy)]
pub struct AnnouncedAt {
    pub subject: Place,
    pub reply: Option<Place>,
    /// The bytes of its header block, if it has one.
    pub head: Option<usize>,
    /// The bytes of the header block and the payload.
    pub total: usize,
}

/// A frame that is a line by itself.
#[derive(Clone, Copy)]
pub enum FrameAt {
    Connect(Place),
    /// Its subject, its queue and its sid.
    Sub(Place, Option<Place>, Place),
    /// Its sid and its count.
    Unsub(Place, Option<u64>),
    Ping,
    Pong,
}

/// What a control line says, by the places of its fields.
#[derive(Clone, Copy)]
pub enum CommandAt {
    /// It is a frame by itself.
    Alone(FrameAt),
    /// A message follows.
    Publish(AnnouncedAt),
    Refused(WireFault),
}

/// The frame of the line of the first `len` bytes, which it shares.
pub fn frame_of(bytes: &SharedBytes, len: usize, frame: FrameAt) -> Result<Frame, AllocError>
    requires { len ≤ length bytes.now }
    ensures { IfOk result (λ f. f ≡ frame_at (take len bytes.now) frame) }
{
    match frame {
        FrameAt::Connect(options) => Ok(Frame::Connect(cut(bytes, len, options)?)),
        FrameAt::Sub(subject, queue, sid) => Ok(Frame::Sub {
            subject: cut(bytes, len, subject)?,
            queue: cut_if(bytes, len, queue)?,
            sid: cut(bytes, len, sid)?,
        }),
        FrameAt::Unsub(sid, most) => Ok(Frame::Unsub {
            sid: cut(bytes, len, sid)?,
            most,
        }),
        FrameAt::Ping => Ok(Frame::Ping),
        FrameAt::Pong => Ok(Frame::Pong),
    }
}

/// A message with a payload alone.
fn sized(line: &[u8], subject: Place, reply: Option<Place>, field: Place) -> CommandAt
    requires subject { subject.start < subject.end }
    requires within { subject.end ≤ length line.now }
    requires reply { IsBehindIf subject.end line.now reply }
    ensures says { command_at line.now result ≡ sized (text_at line.now subject) (text_if_at line.now reply) (size (text_at line.now field)) }
    ensures order { AreTextsInOrder line.now result }
{
    match size_of(text_at(line, field)) {
        Err(fault) => CommandAt::Refused(fault),
        Ok(total) => CommandAt::Publish(AnnouncedAt {
            subject,
            reply,
            head: None,
            total,
        }),
    }
}

/// A message with a header block.
fn headed(line: &[u8], subject: Place, reply: Option<Place>, head: Place, total: Place) -> CommandAt
    requires subject { subject.start < subject.end }
    requires within { subject.end ≤ length line.now }
    requires reply { IsBehindIf subject.end line.now reply }
    ensures says { command_at line.now result ≡ headed (text_at line.now subject) (text_if_at line.now reply) (sizes (text_at line.now head) (text_at line.now total)) }
    ensures order { AreTextsInOrder line.now result }
{
    match sizes_of(text_at(line, head), text_at(line, total)) {
        Err(fault) => CommandAt::Refused(fault),
        Ok((head, total)) => CommandAt::Publish(AnnouncedAt {
            subject,
            reply,
            head: Some(head),
            total,
        }),
    }
}

fn publication(line: &[u8], from: usize) -> CommandAt
    requires { from ≤ length line.now }
    ensures says { command_at line.now result ≡ publication (counted (fields (drop from line.now))) }
    ensures order { AreTextsInOrder line.now result }
{
    match fields_of(line, from) {
        FieldsAt::Two(subject, size) => sized(line, subject, None, size),
        FieldsAt::Three(subject, reply, size) => sized(line, subject, Some(reply), size),
        FieldsAt::One(_) => CommandAt::Refused(WireFault::ParserError),
        FieldsAt::Four(_, _, _, _) => CommandAt::Refused(WireFault::ParserError),
        FieldsAt::Other => CommandAt::Refused(WireFault::ParserError),
    }
}

fn headed_publication(line: &[u8], from: usize) -> CommandAt
    requires { from ≤ length line.now }
    ensures says { command_at line.now result ≡ headed_publication (counted (fields (drop from line.now))) }
    ensures order { AreTextsInOrder line.now result }
{
    match fields_of(line, from) {
        FieldsAt::Three(subject, head, total) => headed(line, subject, None, head, total),
        FieldsAt::Four(subject, reply, head, total) => {
            headed(line, subject, Some(reply), head, total)
        }
        FieldsAt::One(_) => CommandAt::Refused(WireFault::ParserError),
        FieldsAt::Two(_, _) => CommandAt::Refused(WireFault::ParserError),
        FieldsAt::Other => CommandAt::Refused(WireFault::ParserError),
    }
}

fn subscription(line: &[u8], from: usize) -> CommandAt
    requires { from ≤ length line.now }
    ensures says { command_at line.now result ≡ subscription (counted (fields (drop from line.now))) }
    ensures order { AreTextsInOrder line.now result }
{
    match fields_of(line, from) {
        FieldsAt::Two(subject, sid) => CommandAt::Alone(FrameAt::Sub(subject, None, sid)),
        FieldsAt::Three(subject, queue, sid) => {
            CommandAt::Alone(FrameAt::Sub(subject, Some(queue), sid))
        }
        FieldsAt::One(_) => CommandAt::Refused(WireFault::ParserError),
        FieldsAt::Four(_, _, _, _) => CommandAt::Refused(WireFault::ParserError),
        FieldsAt::Other => CommandAt::Refused(WireFault::ParserError),
    }
}

fn unsubscription(line: &[u8], from: usize) -> CommandAt
    requires { from ≤ length line.now }
    ensures says { command_at line.now result ≡ unsubscription (counted (fields (drop from line.now))) }
    ensures order { AreTextsInOrder line.now result }
{
    match fields_of(line, from) {
        FieldsAt::One(sid) => CommandAt::Alone(FrameAt::Unsub(sid, None)),
        FieldsAt::Two(sid, field) => match count_of(text_at(line, field)) {
            None => CommandAt::Refused(WireFault::ParserError),
            Some(most) => CommandAt::Alone(FrameAt::Unsub(sid, Some(most))),
        },
        FieldsAt::Three(_, _, _) => CommandAt::Refused(WireFault::ParserError),
        FieldsAt::Four(_, _, _, _) => CommandAt::Refused(WireFault::ParserError),
        FieldsAt::Other => CommandAt::Refused(WireFault::ParserError),
    }
}

/// What a control line says, without its end.
#[tactic(auto, unfolding(crate::specs::Command::command))]
pub fn read_command(line: &[u8]) -> CommandAt
    ensures says { command_at line.now result ≡ command line.now }
    ensures order { AreTextsInOrder line.now result }
{
    let name = first_place(line, 0);
    match find_operation(text_at(line, name)) {
        None => CommandAt::Refused(WireFault::UnknownOperation),
        Some(Operation::Connect) => CommandAt::Alone(FrameAt::Connect(trim(line, name.end))),
        Some(Operation::Pub) => publication(line, name.end),
        Some(Operation::Hpub) => headed_publication(line, name.end),
        Some(Operation::Sub) => subscription(line, name.end),
        Some(Operation::Unsub) => unsubscription(line, name.end),
        Some(Operation::Ping) => CommandAt::Alone(FrameAt::Ping),
        Some(Operation::Pong) => CommandAt::Alone(FrameAt::Pong),
    }
}
