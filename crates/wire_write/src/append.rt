// Appending several pieces with one growth.
ghost use Rattle.std.specs.Prelude.{◌≡◌, ◌+◌, ◌-◌, ◌++◌, ◌<◌, ◌≤◌, length, drop, codes, OnOk, OnErr};
ghost use Rattle.std.specs.Vec.{vec_len, vec_capacity};

use base::NoMemory;

/// Makes room for three pieces and `more` bytes, or leaves the buffer as it is.
#[inline(never)]
pub(crate) fn make_room(
    out: &mut Vec<u8>,
    first: &[u8],
    second: &[u8],
    third: &[u8],
    more: usize,
) -> Result<(), NoMemory>
    ensures items { out.new.items ≡ out.old.items }
    ensures len { vec_len out.new ≡ vec_len out.old }
    ensures room { OnOk result (vec_len out.new + (length first.now + length second.now + length third.now + more) ≤ vec_capacity out.new) }
    ensures full { OnErr result (vec_capacity out.old < vec_len out.old + (length first.now + length second.now + length third.now + more)) }
{
    let size = first
        .len()
        .saturating_add(second.len())
        .saturating_add(third.len())
        .saturating_add(more);
    Ok(out.reserve(size)?)
}

/// Appends a piece for which there is room.
pub(crate) fn put(out: &mut Vec<u8>, piece: &[u8])
    requires { vec_len out.old + length piece.now ≤ vec_capacity out.old }
    ensures items { out.new.items ≡ out.old.items ++ piece.now }
    ensures len { vec_len out.new ≡ vec_len out.old + length piece.now }
    ensures capacity { vec_capacity out.old ≤ vec_capacity out.new }
{
    let _had_room = out.extend_from_slice(piece).is_ok();
}

/// Appends an array, for which there is room. It is copied before it is written, so that it is one load and one store.
#[inline(always)]
pub(crate) fn put_array<const N: usize>(out: &mut Vec<u8>, bytes: [u8; N])
    requires { vec_len out.old + N ≤ vec_capacity out.old }
    ensures items { out.new.items ≡ out.old.items ++ bytes.entry }
    ensures len { vec_len out.new ≡ vec_len out.old + N }
    ensures capacity { vec_capacity out.old ≤ vec_capacity out.new }
{
    for byte in &bytes {
        out.push_reserved(*byte);
    }
}

/// Appends the first N bytes of a piece, for which there is room, and returns the others.
#[inline(always)]
fn put_first<'a, const N: usize>(out: &mut Vec<u8>, piece: &'a [u8]) -> &'a [u8]
    requires many { N ≤ length piece.now }
    requires room { vec_len out.old + N ≤ vec_capacity out.old }
    ensures items { out.new.items ++ result.now ≡ out.old.items ++ piece.now }
    ensures len { vec_len out.new ≡ vec_len out.old + N }
    ensures left { length result.now + N ≡ length piece.now }
    ensures capacity { vec_capacity out.old ≤ vec_capacity out.new }
{
    match piece.split_first_chunk::<N>() {
        None => piece,
        Some((first, others)) => {
            put_array(out, *first);
            others
        }
    }
}

/// Appends the last N bytes of a piece, for which there is room.
#[inline(always)]
fn put_last<const N: usize>(out: &mut Vec<u8>, piece: &[u8])
    requires many { N ≤ length piece.now }
    requires room { vec_len out.old + N ≤ vec_capacity out.old }
    ensures items { out.new.items ≡ out.old.items ++ drop (length piece.now - N) piece.now }
    ensures len { vec_len out.new ≡ vec_len out.old + N }
    ensures capacity { vec_capacity out.old ≤ vec_capacity out.new }
{
    match piece.split_last_chunk::<N>() {
        None => {}
        Some((_, last)) => put_array(out, *last),
    }
}

/// Appends a piece of N to twice N bytes, for which there is room: the first N, and then the last N over what of those
/// stands there already. So no byte of it is looked at by itself, however long it is.
#[inline(always)]
#[tactic(auto, using(crate::proofs::Ends::joined))]
fn put_ends<const N: usize>(out: &mut Vec<u8>, piece: &[u8])
    requires many { N ≤ length piece.now }
    requires few { length piece.now ≤ N + N }
    requires room { vec_len out.old + length piece.now ≤ vec_capacity out.old }
    ensures items { out.new.items ≡ out.old.items ++ piece.now }
    ensures len { vec_len out.new ≡ vec_len out.old + length piece.now }
    ensures capacity { vec_capacity out.old ≤ vec_capacity out.new }
{
    let others = put_first::<N>(out, piece);
    if others.is_empty() {
        return;
    }
    out.truncate(out.len() - (N - others.len()));
    put_last::<N>(out, piece);
}

/// Appends fewer than four bytes, for which there is room.
#[inline(always)]
fn put_few(out: &mut Vec<u8>, piece: &[u8])
    requires few { length piece.now < 4 }
    requires room { vec_len out.old + length piece.now ≤ vec_capacity out.old }
    ensures items { out.new.items ≡ out.old.items ++ piece.now }
    ensures len { vec_len out.new ≡ vec_len out.old + length piece.now }
    ensures capacity { vec_capacity out.old ≤ vec_capacity out.new }
{
    if let [first, second, others @ ..] = piece {
        put_array(out, [*first, *second]);
        if let [third] = others {
            out.push_reserved(*third);
        }
    } else if let [only] = piece {
        out.push_reserved(*only);
    }
}

/// Appends 32 bytes or more, for which there is room.
#[inline(always)]
fn put_many(out: &mut Vec<u8>, piece: &[u8])
    requires many { 32 ≤ length piece.now }
    requires room { vec_len out.old + length piece.now ≤ vec_capacity out.old }
    ensures items { out.new.items ≡ out.old.items ++ piece.now }
    ensures len { vec_len out.new ≡ vec_len out.old + length piece.now }
    ensures capacity { vec_capacity out.old ≤ vec_capacity out.new }
{
    let mut left = piece;
    while left.len() > 64 {
        left = put_first::<32>(out, left);
    }
    put_ends::<32>(out, left);
}

/// Appends a piece for which there is room, and which is mostly short: it is copied here, and not by a call. A buffer
/// that is a local is never lent to the allocator so, and its fields stay in registers.
#[inline(always)]
pub(crate) fn put_short(out: &mut Vec<u8>, piece: &[u8])
    requires { vec_len out.old + length piece.now ≤ vec_capacity out.old }
    ensures items { out.new.items ≡ out.old.items ++ piece.now }
    ensures len { vec_len out.new ≡ vec_len out.old + length piece.now }
    ensures capacity { vec_capacity out.old ≤ vec_capacity out.new }
{
    let len = piece.len();
    if len < 4 {
        put_few(out, piece);
    } else if len < 8 {
        put_ends::<4>(out, piece);
    } else if len < 16 {
        put_ends::<8>(out, piece);
    } else if len < 32 {
        put_ends::<16>(out, piece);
    } else {
        put_many(out, piece);
    }
}

/// Appends a byte for which there is room.
#[inline(always)]
pub(crate) fn put_space(out: &mut Vec<u8>)
    requires { vec_len out.old + 1 ≤ vec_capacity out.old }
    ensures items { out.new.items ≡ out.old.items ++ codes " " }
    ensures len { vec_len out.new ≡ vec_len out.old + 1 }
    ensures capacity { vec_capacity out.old ≤ vec_capacity out.new }
{
    out.push_reserved(b' ');
}

/// Appends the end of a line, for which there is room.
#[inline(always)]
pub(crate) fn put_crlf(out: &mut Vec<u8>)
    requires { vec_len out.old + 2 ≤ vec_capacity out.old }
    ensures items { out.new.items ≡ out.old.items ++ codes "\r\n" }
    ensures len { vec_len out.new ≡ vec_len out.old + 2 }
    ensures capacity { vec_capacity out.old ≤ vec_capacity out.new }
{
    put_array(out, *b"\r\n");
}

/// Appends three pieces, or leaves the buffer as it is.
pub(crate) fn append(
    out: &mut Vec<u8>,
    first: &[u8],
    second: &[u8],
    third: &[u8],
) -> Result<(), NoMemory>
    ensures ok { OnOk result (out.new.items ≡ out.old.items ++ (first.now ++ second.now ++ third.now)) }
    ensures err { OnErr result (out.new.items ≡ out.old.items) }
    ensures full { OnErr result (vec_capacity out.old < vec_len out.old + length (first.now ++ second.now ++ third.now)) }
{
    make_room(out, first, second, third, 0)?;
    put(out, first);
    put(out, second);
    put(out, third);
    Ok(())
}

/// Appends five pieces, or leaves the buffer as it is.
pub(crate) fn append_five(
    out: &mut Vec<u8>,
    first: &[u8],
    second: &[u8],
    third: &[u8],
    fourth: &[u8],
    fifth: &[u8],
) -> Result<(), NoMemory>
    ensures ok { OnOk result (out.new.items ≡ out.old.items ++ (first.now ++ second.now ++ third.now ++ fourth.now ++ fifth.now)) }
    ensures err { OnErr result (out.new.items ≡ out.old.items) }
    ensures full { OnErr result (vec_capacity out.old < vec_len out.old + length (first.now ++ second.now ++ third.now ++ fourth.now ++ fifth.now)) }
{
    let more = fourth.len().saturating_add(fifth.len());
    make_room(out, first, second, third, more)?;
    put(out, first);
    put(out, second);
    put(out, third);
    put(out, fourth);
    put(out, fifth);
    Ok(())
}
