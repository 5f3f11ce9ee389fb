// A PUB as most clients write it: one space between its fields, no subject for answers, CR LF behind its line.
ghost use Rattle.std.specs.Prelude.{◌≡◌, ◌∷◌, ◌++◌, ◌≤◌, [], length, IfSome, OnOk};
ghost use Rattle.std.specs.List.{prefix_len};
ghost use Rattle.wire_read.specs.Plain.{is_field_byte, plain_frame, IsPlain};

use crate::Frame;
use crate::size::size_of;
use base::SharedBytes;
use std::alloc::AllocError;
use wire_message::{MessageText, TextsAt};

/// The most bytes that a field of such a PUB has.
const MAX_FIELD: usize = 2_000;

/// Where the texts of such a PUB stand. Its subject begins behind `PUB `.
#[derive(Clone, Copy)]
pub struct PlainAt {
    /// The bytes of the subject.
    pub subject: usize,
    /// Where the payload begins.
    pub start: usize,
    /// The bytes of the payload.
    pub total: usize,
}

/// How many bytes stand before the first that is a space or less.
fn field_len(text: &[u8]) -> usize
    ensures value { result ≡ prefix_len is_field_byte text.now }
    ensures bound { result ≤ length text.now }
{
    for (i, byte) in text.iter().enumerate() {
        if *byte <= b' ' {
            return i;
        }
    }
    text.len()
}

/// What stands behind `PUB ` in front, if it is there.
fn behind_pub(text: &[u8]) -> Option<&[u8]>
    ensures { IfSome result (λ rest. text.now ≡ 80 ∷ 85 ∷ 66 ∷ 32 ∷ rest.now) }
{
    match text {
        [b'P', b'U', b'B', b' ', ..] => Some(&text[4..]),
        _ => None,
    }
}

/// What stands behind a space in front, if it is there.
fn behind_space(text: &[u8]) -> Option<&[u8]>
    ensures { IfSome result (λ rest. text.now ≡ 32 ∷ rest.now) }
{
    match text {
        [b' ', ..] => Some(&text[1..]),
        _ => None,
    }
}

/// What stands behind CR LF in front, if it is there.
fn behind_end(text: &[u8]) -> Option<&[u8]>
    ensures { IfSome result (λ rest. text.now ≡ 13 ∷ 10 ∷ rest.now) }
{
    match text {
        [b'\r', b'\n', ..] => Some(&text[2..]),
        _ => None,
    }
}

/// Where the texts of the PUB stand that the bytes begin with, if it is whole and written so. A PUB that is written
/// otherwise is read field by field.
#[inline(always)]
pub fn find_plain(bytes: &[u8]) -> Option<PlainAt>
    ensures { IfSome result (λ at. IsPlain at bytes.now) }
{
    let fields = behind_pub(bytes)?;
    let subject = field_len(fields);
    let field = behind_space(&fields[subject..])?;
    let digits = field_len(field);
    let block = behind_end(&field[digits..])?;
    if subject == 0 || MAX_FIELD < subject || MAX_FIELD < digits {
        return None;
    }
    let Ok(total) = size_of(&field[..digits]) else {
        return None;
    };
    if block.len() < total {
        return None;
    }
    let _behind = behind_end(&block[total..])?;
    Some(PlainAt {
        subject,
        start: subject + digits + 7,
        total,
    })
}

/// Adds the frame of such a PUB, whose texts share the bytes.
#[inline(always)]
pub fn push_plain(
    frames: &mut Vec<Frame>,
    bytes: &SharedBytes,
    at: PlainAt,
) -> Result<(), AllocError>
    requires { IsPlain at bytes.now }
    ensures { OnOk result (frames.new.items ≡ frames.old.items ++ plain_frame at bytes.now ∷ []) }
{
    let _bound = bytes.len();
    frames.reserve(1)?;
    let text = bytes.part(4..at.start + at.total)?;
    let places = TextsAt {
        subject: at.subject,
        reply: None,
        head: 0,
        payload: at.total,
    };
    let message = MessageText::new(text, places)?;
    frames.push_reserved(Frame::Pub(message));
    Ok(())
}
