ghost use Rattle.std.specs.Prelude.{◌≡◌, ◌++◌, IfOk};
ghost use Rattle.wire_read.specs.Framing.{behind, followed, frames_of, framing};
ghost use Rattle.wire_read.specs.Awaited.{IsAwaiting};

use crate::Frame;
use crate::advance::{Advance, advance_by};
use crate::awaited::Awaited;
use crate::buffer::Buffer;
use crate::scan::{Scan, scan_frames};
use base::SharedBytes;
use std::alloc::{AllocError, Global};

/// What was read of a stream: its frames, the beginning of the next, and what that waits for.
#[derive(Drop)]
pub struct Progress {
    pub frames: Vec<Frame>,
    pub kept: Buffer,
    pub awaited: Awaited,
    pub failed: bool,
}

/// The room for bytes up to what they wait for, where that is known.
pub fn room_for(len: usize, awaited: Awaited) -> usize {
    match awaited {
        Awaited::LineEnd => len,
        Awaited::Block(end) => end.saturating_add(2),
    }
}

/// The frames of the bytes, behind these frames, and a copy of what is left.
pub fn read_whole(
    alloc: Global,
    frames: Vec<Frame>,
    bytes: SharedBytes,
) -> Result<Progress, AllocError>
    ensures framing { IfOk result (λ p. framing p.frames.items p.kept p.failed ≡ behind frames.items (frames_of bytes)) }
    ensures awaited { IfOk result (λ p. IsAwaiting p.awaited p.kept) }
{
    let Scan {
        frames,
        rest,
        awaited,
        failed,
    } = scan_frames(frames, bytes)?;
    let kept = Buffer::of(alloc, rest.as_slice(), room_for(rest.len(), awaited))?;
    Ok(Progress {
        frames,
        kept,
        awaited,
        failed,
    })
}

/// What was read once this part came behind it.
fn read_part(alloc: Global, read: Progress, part: &[u8]) -> Result<Progress, AllocError>
    ensures framing { IfOk result (λ p. framing p.frames.items p.kept p.failed ≡ behind read.frames.items (frames_of (read.kept ++ part.now))) }
    ensures awaited { IfOk result (λ p. IsAwaiting p.awaited p.kept) }
{
    let Progress {
        frames,
        mut kept,
        awaited: _,
        failed: _,
    } = read;
    let whole = kept.share(part)?;
    read_whole(alloc, frames, whole)
}

/// What was read once this piece came behind it. Its bytes are copied once, into one buffer that its frames
/// share, and those of a last frame that isn't whole once more.
pub fn read_on(alloc: Global, before: Progress, piece: &[u8]) -> Result<Progress, AllocError>
    requires { IsAwaiting before.awaited before.kept }
    ensures framing { IfOk result (λ p. framing p.frames.items p.kept p.failed ≡ followed (framing before.frames.items before.kept before.failed) piece.now) }
    ensures awaited { IfOk result (λ p. IsAwaiting p.awaited p.kept) }
{
    let mut read = before;
    let mut left = piece;
    while !read.failed && !left.is_empty() {
        match advance_by(&read.kept, read.awaited, left) {
            Advance::Quiet => {
                read.kept.append(left)?;
                return Ok(read);
            }
            Advance::Takes(len) => {
                let (part, behind) = left.split_at(len);
                read = read_part(alloc, read, part)?;
                left = behind;
            }
        }
    }
    Ok(read)
}
