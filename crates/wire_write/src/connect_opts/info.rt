ghost use Rattle.std.specs.Prelude.{◌≡◌, IfOk};
ghost use Rattle.wire_write.specs.connect_opts.Info.{info_text};

use base::NoMemory;
use itoa::Buffer;
use std::alloc::Global;

/// What the server says of itself in the INFO of the connection with number `conn`: one JSON object.
/// `NoMemory` where memory could not be had.
pub fn info_text(alloc: Global, conn: u64) -> Result<Vec<u8>, NoMemory>
    ensures { IfOk result (λ text. text.items ≡ info_text conn) }
{
    let mut digits = Buffer::new();
    let mut text = Vec::from_slice(alloc, b"{\"auth_required\":true,\"client_id\":")?;
    text.extend_from_slice(digits.format(conn).as_bytes())?;
    text.extend_from_slice(
        b",\"headers\":true,\"max_payload\":1048576,\"proto\":1,\"server_id\":\"natsd\",\"version\":\"0.1.0\"}",
    )?;
    Ok(text)
}
