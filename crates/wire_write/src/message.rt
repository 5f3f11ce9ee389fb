ghost use Rattle.std.specs.Prelude.{◌≡◌, ◌+◌, ◌++◌, ◌<◌, ◌≤◌, length, OnOk, OnErr, option_copied};
ghost use Rattle.std.specs.Vec.{vec_len, vec_capacity};
ghost use Rattle.wire_write.specs.Texts.{info_line, address, body, reply_room, sized, msg_line, hmsg_line, ok_line, pong_line};

use crate::append::{append, make_room, put, put_array, put_crlf, put_short, put_space};
use crate::number::{digit_count, put_number, put_small};
use base::NoMemory;
use itoa::Buffer;
use std::mem;

/// Appends the INFO line, which the server writes at a connection's opening: `info` is its JSON.
/// `NoMemory` comes only where the buffer has no room for it and can't grow, and leaves it as it was.
pub fn write_info(out: &mut Vec<u8>, info: &[u8]) -> Result<(), NoMemory>
    ensures ok { OnOk result (out.new.items ≡ out.old.items ++ info_line info.now) }
    ensures err { OnErr result (out.new.items ≡ out.old.items) }
    ensures full { OnErr result (vec_capacity out.old < vec_len out.old + length (info_line info.now)) }
{
    append(out, b"INFO ", info, b"\r\n")
}

/// Appends where a message goes, for which there is room.
#[inline(always)]
fn put_address(out: &mut Vec<u8>, subject: &[u8], sid: &[u8], reply: Option<&[u8]>)
    requires { vec_len out.old + length (address subject.now sid.now (option_copied reply)) ≤ vec_capacity out.old }
    ensures items { out.new.items ≡ out.old.items ++ address subject.now sid.now (option_copied reply.entry) }
    ensures len { vec_len out.new ≡ vec_len out.old + length (address subject.now sid.now (option_copied reply.entry)) }
    ensures capacity { vec_capacity out.old ≤ vec_capacity out.new }
{
    put_short(out, subject);
    put_space(out);
    put_short(out, sid);
    put_space(out);
    match reply {
        None => {}
        Some(reply) => {
            put_short(out, reply);
            put_space(out);
        }
    }
}

/// Appends the end of a line and what stands behind it, for which there is room.
fn put_body(out: &mut Vec<u8>, head: &[u8], payload: &[u8])
    requires { vec_len out.old + length (body head.now payload.now) ≤ vec_capacity out.old }
    ensures items { out.new.items ≡ out.old.items ++ body head.now payload.now }
    ensures len { vec_len out.new ≡ vec_len out.old + length (body head.now payload.now) }
    ensures capacity { vec_capacity out.old ≤ vec_capacity out.new }
{
    put(out, b"\r\n");
    put(out, head);
    put(out, payload);
    put(out, b"\r\n");
}

/// How many bytes a reply subject takes with the space behind it.
fn reply_len(reply: Option<&[u8]>) -> usize
    ensures { result ≡ reply_room (option_copied reply.entry) }
{
    match reply {
        None => 0,
        Some(reply) => reply.len() + 1,
    }
}

/// How many bytes a reply subject takes, with or without the space behind it.
#[inline(always)]
fn text_len(reply: Option<&[u8]>) -> usize
    ensures { reply_room (option_copied reply.entry) ≤ result + 1 }
{
    match reply {
        None => 0,
        Some(reply) => reply.len(),
    }
}

/// Makes room for a delivery, or leaves the buffer as it is. Mostly there is more than enough, and then the digits of
/// the size aren't counted.
#[inline(always)]
#[tactic(auto, using(crate::proofs::Lines::msg_length, crate::proofs::Digits::few))]
fn make_room_for_msg(
    out: &mut Vec<u8>,
    subject: &[u8],
    sid: &[u8],
    reply: Option<&[u8]>,
    payload: &[u8],
) -> Result<(), NoMemory>
    ensures items { out.new.items ≡ out.old.items }
    ensures len { vec_len out.new ≡ vec_len out.old }
    ensures room { OnOk result (vec_len out.new + length (msg_line subject.now sid.now (option_copied reply.entry) payload.now) ≤ vec_capacity out.new) }
    ensures full { OnErr result (vec_capacity out.old < vec_len out.old + length (msg_line subject.now sid.now (option_copied reply.entry) payload.now)) }
{
    let front = (subject.len() + sid.len()).saturating_add(text_len(reply));
    let spare = out.capacity() - out.len();
    let least = payload.len() + 31;
    if spare >= least && spare - least >= front {
        return Ok(());
    }
    let fields = reply_len(reply) + digit_count(payload.len()) + 10;
    make_room(out, subject, sid, payload, fields)?;
    Ok(())
}

/// Appends the size of a payload, and the payload, for which there is room.
#[inline(never)]
fn put_sized(out: &mut Vec<u8>, payload: &[u8])
    requires { vec_len out.old + length (sized payload.now) ≤ vec_capacity out.old }
    ensures items { out.new.items ≡ out.old.items ++ sized payload.now }
{
    put_number(out, payload.len());
    put_crlf(out);
    put(out, payload);
    put_crlf(out);
}

/// Appends a delivery for which there is room. The buffer is a local meanwhile. What stands in its place is empty, and
/// isn't let go.
#[inline(always)]
fn put_msg(out: &mut Vec<u8>, subject: &[u8], sid: &[u8], reply: Option<&[u8]>, payload: &[u8])
    requires { vec_len out.old + length (msg_line subject.now sid.now (option_copied reply) payload.now) ≤ vec_capacity out.old }
    ensures { out.new.items ≡ out.old.items ++ msg_line subject.now sid.now (option_copied reply.entry) payload.now }
{
    let size = payload.len();
    let alloc = *out.allocator();
    let mut line = mem::replace(out, Vec::new(alloc));
    put_array(&mut line, *b"MSG ");
    put_address(&mut line, subject, sid, reply);
    if size >= 64 {
        *out = line;
        put_sized(out, payload);
        return;
    }
    put_small(&mut line, size);
    put_crlf(&mut line);
    put_short(&mut line, payload);
    put_crlf(&mut line);
    mem::forget(mem::replace(out, line));
}

/// Appends a delivery, or leaves the buffer as it is.
#[inline(always)]
fn write_addressed(
    out: &mut Vec<u8>,
    subject: &[u8],
    sid: &[u8],
    reply: Option<&[u8]>,
    payload: &[u8],
) -> Result<(), NoMemory>
    ensures ok { OnOk result (out.new.items ≡ out.old.items ++ msg_line subject.now sid.now (option_copied reply.entry) payload.now) }
    ensures err { OnErr result (out.new.items ≡ out.old.items) }
    ensures full { OnErr result (vec_capacity out.old < vec_len out.old + length (msg_line subject.now sid.now (option_copied reply.entry) payload.now)) }
{
    make_room_for_msg(out, subject, sid, reply, payload)?;
    put_msg(out, subject, sid, reply, payload);
    Ok(())
}

/// Appends a delivery: the MSG line with the payload's size in bytes, then the payload.
/// `NoMemory` comes only where the buffer has no room for it and can't grow, and leaves it as it was.
#[inline(always)]
pub fn write_msg(
    out: &mut Vec<u8>,
    subject: &[u8],
    sid: &[u8],
    reply: Option<&[u8]>,
    payload: &[u8],
) -> Result<(), NoMemory>
    ensures ok { OnOk result (out.new.items ≡ out.old.items ++ msg_line subject.now sid.now (option_copied reply.entry) payload.now) }
    ensures err { OnErr result (out.new.items ≡ out.old.items) }
    ensures full { OnErr result (vec_capacity out.old < vec_len out.old + length (msg_line subject.now sid.now (option_copied reply.entry) payload.now)) }
{
    // Most have no reply subject. An arm each, so that these don't look for one again at every step.
    match reply {
        None => write_addressed(out, subject, sid, None, payload),
        Some(reply) => write_addressed(out, subject, sid, Some(reply), payload),
    }
}

/// Appends a delivery with a header block: the HMSG line with the size in bytes of the block, and that of
/// the block and the payload, then both.
/// `NoMemory` comes only where the buffer has no room for it and can't grow, and leaves it as it was.
pub fn write_hmsg(
    out: &mut Vec<u8>,
    subject: &[u8],
    sid: &[u8],
    reply: Option<&[u8]>,
    head: &[u8],
    payload: &[u8],
) -> Result<(), NoMemory>
    ensures ok { OnOk result (out.new.items ≡ out.old.items ++ hmsg_line subject.now sid.now (option_copied reply.entry) head.now payload.now) }
    ensures err { OnErr result (out.new.items ≡ out.old.items) }
    ensures full { OnErr result (vec_capacity out.old < vec_len out.old + length (hmsg_line subject.now sid.now (option_copied reply.entry) head.now payload.now)) }
{
    let mut head_digits = Buffer::new();
    let head_size = head_digits.format(head.len()).as_bytes();
    let mut total_digits = Buffer::new();
    let total_size = total_digits.format(head.len() + payload.len()).as_bytes();
    let fields = reply_len(reply) + head_size.len() + total_size.len() + 12;
    make_room(
        out,
        subject,
        sid,
        payload,
        head.len().saturating_add(fields),
    )?;
    let alloc = *out.allocator();
    let mut line = mem::replace(out, Vec::new(alloc));
    put_array(&mut line, *b"HMSG ");
    put_address(&mut line, subject, sid, reply);
    put_short(&mut line, head_size);
    put_space(&mut line);
    put_short(&mut line, total_size);
    *out = line;
    put_body(out, head, payload);
    Ok(())
}

/// Appends `+OK`, the answer to an accepted protocol message of a verbose client.
/// `NoMemory` comes only where the buffer has no room for it and can't grow, and leaves it as it was.
pub fn write_ok(out: &mut Vec<u8>) -> Result<(), NoMemory>
    ensures ok { OnOk result (out.new.items ≡ out.old.items ++ ok_line) }
    ensures err { OnErr result (out.new.items ≡ out.old.items) }
    ensures full { OnErr result (vec_capacity out.old < vec_len out.old + length ok_line) }
{
    Ok(out.extend_from_slice(b"+OK\r\n")?)
}

/// Appends `PONG`, the answer to each PING.
/// `NoMemory` comes only where the buffer has no room for it and can't grow, and leaves it as it was.
pub fn write_pong(out: &mut Vec<u8>) -> Result<(), NoMemory>
    ensures ok { OnOk result (out.new.items ≡ out.old.items ++ pong_line) }
    ensures err { OnErr result (out.new.items ≡ out.old.items) }
    ensures full { OnErr result (vec_capacity out.old < vec_len out.old + length pong_line) }
{
    Ok(out.extend_from_slice(b"PONG\r\n")?)
}
