use base::{Shared, SharedBytes, SharedText, count_blanks};
use events::{Command, Message};
use std::alloc::Global;
use subjects::Pattern;
use wire_message::{MessageText, Span, TextsAt};

fn text(alloc: Global, text: &str) -> Option<SharedText> {
    SharedText::of(alloc, text.as_bytes()).ok()
}

/// A Connect of user demo.
pub fn connect(alloc: Global, conn: u64) -> Option<Command> {
    connect_as(alloc, conn, "demo")
}

/// A Connect of a user whose password is its name.
pub fn connect_as(alloc: Global, conn: u64, name: &str) -> Option<Command> {
    let user = text(alloc, name)?;
    let password = text(alloc, name)?;
    Some(Command::Connect {
        conn,
        user: Some(user),
        password,
        echo: true,
    })
}

/// A subscription, under an id of its subject and a number.
pub fn sub(alloc: Global, conn: u64, subject: &str, number: u64) -> Option<Command> {
    let sid = sid(alloc, subject, number)?;
    let pattern = Pattern::parse(alloc, subject.as_bytes()).ok()?;
    Some(Command::Sub {
        conn,
        subject: Shared::new(alloc, pattern).ok()?,
        queue: None,
        sid,
    })
}

fn sid(alloc: Global, subject: &str, number: u64) -> Option<SharedText> {
    let sid = format!(in alloc; "{subject}{number}").ok()?;
    text(alloc, sid.as_str())
}

/// A message whose payload is its subject.
pub fn publish(alloc: Global, conn: u64, subject: &str) -> Option<Command> {
    let mut text = Vec::from_slice(alloc, subject.as_bytes()).ok()?;
    text.extend_from_slice(subject.as_bytes()).ok()?;
    let at = TextsAt {
        subject: subject.len(),
        reply: None,
        head: 0,
        payload: subject.len(),
    };
    let text = SharedBytes::from_vec(alloc, text).ok()?;
    Some(Command::Pub {
        conn,
        message: Message::of(MessageText::new(text, at).ok()?)?,
        word: 0,
    })
}

/// A message whose payload is its subject, with a reply subject.
pub fn request(alloc: Global, conn: u64, subject: &str, reply: &str) -> Option<Command> {
    let text = format!(in alloc; "{subject} {reply}{subject}").ok()?;
    Some(Command::Pub {
        conn,
        message: message(alloc, text.as_str().as_bytes(), subject.len(), reply.len())?,
        word: 0,
    })
}

/// The message of a text: a subject of so many bytes, blanks, a reply of so many bytes, and a payload.
pub fn message(alloc: Global, text: &[u8], subject: usize, reply: usize) -> Option<Message> {
    if subject > text.len() {
        return None;
    }
    let start = subject.checked_add(count_blanks(&text[subject..]))?;
    let end = start.checked_add(reply)?;
    if start >= end || end > text.len() {
        return None;
    }
    let at = TextsAt {
        subject,
        reply: Some(Span { start, end }),
        head: 0,
        payload: text.len() - end,
    };
    let block = SharedBytes::copy_from_slice(alloc, text).ok()?;
    Message::of(MessageText::new(block, at).ok()?)
}
