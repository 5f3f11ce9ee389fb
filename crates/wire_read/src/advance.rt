ghost use Rattle.wire_read.specs.Awaited.{IsAwaiting, IsAdvance};

use crate::awaited::Awaited;
use crate::buffer::Buffer;
use crate::lines::{MAX_CONTROL_LINE, len_without_cr};
use memchr::memchr;

/// What a piece adds to the bytes before it.
pub enum Advance {
    /// They are still less than a frame.
    Quiet,
    /// So many of its bytes may end a line or a frame.
    Takes(usize),
}

/// What a piece adds to the bytes that are kept. Its bytes are looked at once, and those before it not at all.
pub fn advance_by(kept: &Buffer, awaited: Awaited, piece: &[u8]) -> Advance
    requires { IsAwaiting awaited kept.now }
    ensures { IsAdvance result awaited kept.now piece.now }
{
    let len = kept.len();
    match awaited {
        Awaited::LineEnd => match memchr(b'\n', piece) {
            Some(_) => Advance::Takes(piece.len()),
            None => {
                if len.saturating_add(piece.len()) > MAX_CONTROL_LINE {
                    Advance::Takes(piece.len())
                } else {
                    Advance::Quiet
                }
            }
        },
        Awaited::Block(end) => {
            let missing = end.saturating_add(2).saturating_sub(len);
            if len_without_cr(piece) + 2 > missing {
                Advance::Takes(missing.min(piece.len()))
            } else {
                Advance::Quiet
            }
        }
    }
}
