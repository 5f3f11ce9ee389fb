// Bytes as a line of output shows them, and texts in one growth.
ghost use Rattle.std.specs.Prelude.{◌≡◌, ◌+◌, ◌*◌, ◌++◌, ◌<◌, ◌≤◌, length, flat_map, OnOk, OnErr};
ghost use Rattle.std.specs.Vec.{vec_len, vec_capacity};
ghost use Rattle.lines.specs.reload_lines.Shown.{shown_byte, hex_digit};

use base::NoMemory;

/// Appends bytes as they are shown. `NoMemory` comes only where the buffer can't grow, and leaves it as it was.
pub fn write_bytes(out: &mut Vec<u8>, bytes: &[u8]) -> Result<(), NoMemory>
    ensures ok { OnOk result (out.new.items ≡ out.old.items ++ flat_map shown_byte bytes.now) }
    ensures err { OnErr result (out.new.items ≡ out.old.items) }
{
    out.reserve(bytes.len().saturating_mul(4))?;
    put_all_shown(out, bytes);
    Ok(())
}

/// Appends three texts, or leaves the buffer as it is.
pub fn append(out: &mut Vec<u8>, first: &[u8], second: &[u8], third: &[u8]) -> Result<(), NoMemory>
    ensures ok { OnOk result (out.new.items ≡ out.old.items ++ (first.now ++ second.now ++ third.now)) }
    ensures err { OnErr result (out.new.items ≡ out.old.items) }
{
    let size = first
        .len()
        .saturating_add(second.len())
        .saturating_add(third.len());
    out.reserve(size)?;
    put(out, first);
    put(out, second);
    put(out, third);
    Ok(())
}

/// Appends a text for which there is room.
pub fn put(out: &mut Vec<u8>, text: &[u8])
    requires { vec_len out.old + length text.now ≤ vec_capacity out.old }
    ensures items { out.new.items ≡ out.old.items ++ text.now }
    ensures len { vec_len out.new ≡ vec_len out.old + length text.now }
    ensures capacity { vec_capacity out.old ≤ vec_capacity out.new }
{
    let _had_room = out.extend_from_slice(text).is_ok();
}

/// Appends bytes as they are shown, for which there is room.
pub fn put_all_shown(out: &mut Vec<u8>, bytes: &[u8])
    requires { vec_len out.old + 4 * length bytes.now ≤ vec_capacity out.old }
    ensures items { out.new.items ≡ out.old.items ++ flat_map shown_byte bytes.now }
    ensures len { vec_len out.new ≤ vec_len out.old + 4 * length bytes.now }
    ensures capacity { vec_capacity out.old ≤ vec_capacity out.new }
{
    for byte in bytes {
        put_shown(out, *byte);
    }
}

/// Appends a byte as it is shown, for which there is room.
fn put_shown(out: &mut Vec<u8>, byte: u8)
    requires { vec_len out.old + 4 ≤ vec_capacity out.old }
    ensures items { out.new.items ≡ out.old.items ++ shown_byte byte }
    ensures len { vec_len out.new ≤ vec_len out.old + 4 }
    ensures capacity { vec_capacity out.old ≤ vec_capacity out.new }
{
    match byte {
        b'\\' => put(out, b"\\\\"),
        b'\r' => put(out, b"\\r"),
        b'\n' => put(out, b"\\n"),
        b' '..=b'~' => put(out, &[byte]),
        _ => put(
            out,
            &[b'\\', b'x', hex_digit(byte / 16), hex_digit(byte % 16)],
        ),
    }
}

/// The lower-case hexadecimal digit of a number below 16.
fn hex_digit(number: u8) -> u8
    requires { number < 16 }
    ensures { result ≡ hex_digit number }
{
    if number < 10 {
        b'0' + number
    } else {
        b'a' + (number - 10)
    }
}
