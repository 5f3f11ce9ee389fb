//! What a port hears of invalid frames.
use events::{InvalidFrame, Port};
use session_plan::Text;
use wire_message::MessageText;
use wire_read::Frame;
use wire_write::ServerError;

/// Has the port hear of a frame, if its client is answered `Invalid Subject`.
#[inline(always)]
pub fn hear_if_invalid<P: Port>(port: &P, text: &Text<'_>, frame: &Frame) {
    if matches!(text, Text::Error(ServerError::InvalidSubject)) {
        hear(port, frame);
    }
}

#[inline(never)]
fn hear<P: Port>(port: &P, frame: &Frame) {
    match frame {
        Frame::Pub(text) => port.hear_invalid(&invalid_message("PUB", text)),
        Frame::Hpub(text) => port.hear_invalid(&invalid_message("HPUB", text)),
        Frame::Sub { subject, queue, .. } => port.hear_invalid(&InvalidFrame {
            command: "SUB",
            subject: subject.as_slice(),
            queue: match queue {
                None => None,
                Some(queue) => Some(queue.as_slice()),
            },
            reply: None,
        }),
        _ => {}
    }
}

/// Returns what is told of a message whose subject isn't a valid one, or its reply.
fn invalid_message<'a>(command: &'static str, text: &'a MessageText) -> InvalidFrame<'a> {
    InvalidFrame {
        command,
        subject: text.subject(),
        queue: None,
        reply: text.reply(),
    }
}
