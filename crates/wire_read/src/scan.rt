ghost use Rattle.std.specs.Prelude.{◌≡◌, IfOk};
ghost use Rattle.wire_read.specs.Framing.{behind, frames_of, framing};
ghost use Rattle.wire_read.specs.Awaited.{IsAwaiting};

use crate::Frame;
use crate::awaited::Awaited;
use crate::front::{Found, read_front};
use crate::plain::{find_plain, push_plain};
use base::SharedBytes;
use std::alloc::AllocError;

/// The frames of some bytes, what is left of them, and what that waits for.
#[derive(Drop)]
pub struct Scan {
    pub frames: Vec<Frame>,
    pub rest: SharedBytes,
    pub awaited: Awaited,
    pub failed: bool,
}

/// The frames that the bytes begin with, up to less than a frame or a fault, behind these frames.
pub fn scan_frames(mut frames: Vec<Frame>, bytes: SharedBytes) -> Result<Scan, AllocError>
    ensures framing { IfOk result (λ s. framing s.frames.items s.rest s.failed ≡ behind frames.items (frames_of bytes)) }
    ensures awaited { IfOk result (λ s. IsAwaiting s.awaited s.rest) }
{
    let mut left = bytes;
    loop {
        match find_plain(left.as_slice()) {
            Some(at) => {
                push_plain(&mut frames, &left, at)?;
                left.advance(at.start + at.total + 2);
            }
            None => match read_front(&left)? {
                Found::More(awaited) => {
                    return Ok(Scan {
                        frames,
                        rest: left,
                        awaited,
                        failed: false,
                    });
                }
                Found::Wrong(fault) => {
                    frames.push(Frame::Fault(fault))?;
                    left.truncate(0);
                    return Ok(Scan {
                        frames,
                        rest: left,
                        awaited: Awaited::LineEnd,
                        failed: true,
                    });
                }
                Found::Whole(frame, len) => {
                    frames.reserve(1)?;
                    frames.push_reserved(frame);
                    left.advance(len);
                }
            },
        }
    }
}
