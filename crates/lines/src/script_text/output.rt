// What `natsd play` prints of what its connections are sent (docs/SCRIPT.md).
ghost use Rattle.std.specs.Prelude.{◌≡◌, ◌++◌, OnOk, OnErr};
ghost use Rattle.lines.specs.script_text.Output.{shown_line, closed_line, refused_line, full_line};

use crate::reload_lines::{append, put, put_all_shown};
use base::NoMemory;
use itoa::Buffer;

/// Appends the line that shows the bytes that a connection was sent. `NoMemory` comes only where
/// the buffer can't grow, and leaves it as it was.
pub fn write_shown(out: &mut Vec<u8>, conn: u64, bytes: &[u8]) -> Result<(), NoMemory>
    ensures ok { OnOk result (out.new.items ≡ out.old.items ++ shown_line conn bytes.now) }
    ensures err { OnErr result (out.new.items ≡ out.old.items) }
{
    let mut digits = Buffer::new();
    let number = digits.format(conn).as_bytes();
    out.reserve(bytes.len().saturating_mul(4).saturating_add(43))?;
    put(out, number);
    put(out, b"< ");
    put_all_shown(out, bytes);
    put(out, b"\n");
    Ok(())
}

/// Appends the line that says that a connection was closed. `NoMemory` comes only where the buffer
/// can't grow, and leaves it as it was.
pub fn write_closed(out: &mut Vec<u8>, conn: u64) -> Result<(), NoMemory>
    ensures ok { OnOk result (out.new.items ≡ out.old.items ++ closed_line conn) }
    ensures err { OnErr result (out.new.items ≡ out.old.items) }
{
    let mut digits = Buffer::new();
    let number = digits.format(conn).as_bytes();
    append(out, number, b" closed\n", b"")
}

/// Appends the line that names the script's first line of a form that it doesn't have. `NoMemory`
/// comes only where the buffer can't grow, and leaves it as it was.
pub fn write_refused(out: &mut Vec<u8>, line: u64) -> Result<(), NoMemory>
    ensures ok { OnOk result (out.new.items ≡ out.old.items ++ refused_line line) }
    ensures err { OnErr result (out.new.items ≡ out.old.items) }
{
    let mut digits = Buffer::new();
    let number = digits.format(line).as_bytes();
    append(out, b"script line ", number, b"\n")
}

/// Appends the line that says that the hub takes no more events. `NoMemory` comes only where the
/// buffer can't grow, and leaves it as it was.
pub fn write_full(out: &mut Vec<u8>) -> Result<(), NoMemory>
    ensures ok { OnOk result (out.new.items ≡ out.old.items ++ full_line) }
    ensures err { OnErr result (out.new.items ≡ out.old.items) }
{
    Ok(out.extend_from_slice(b"history full\n")?)
}
