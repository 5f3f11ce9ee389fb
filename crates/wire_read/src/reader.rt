ghost use Rattle.std.specs.Prelude.{◌≡◌, []};

use crate::advance::{Advance, advance_by};
use crate::awaited::Awaited;
use crate::buffer::Buffer;
use crate::progress::{Progress, read_on, read_whole, room_for};
use crate::{FeedError, Frame};
use base::Items;
use std::alloc::Global;
use std::marker::Model;

/// Reads the frames of a stream that comes in pieces, however it was cut. A clause sees what is left
/// of the pieces, less than a frame, and whether a fault was given.
#[derive(Debug)]
pub struct FrameReader {
    kept: Buffer,
    awaited: Awaited,
    failed: bool,
    alloc: Global,
}

impl Drop for FrameReader {
    fn drop(self) {
        let Self {
            kept: _,
            awaited: _,
            failed: _,
            alloc: _,
        } = self;
    }
}

impl Model for FrameReader {
    ghost use Rattle.wire_read.specs.Framing.{Reader};
    ghost use Rattle.wire_read.specs.Awaited.{IsAwaiting};

    ghost Value = { Reader };

    ghost view = { λ r. record { rest = r.kept; failed = r.failed } };

    ghost invariant = { λ r. IsAwaiting r.awaited r.kept };
}

impl FrameReader {
    ghost use Rattle.std.specs.Prelude.{◌≡◌, ◌≤◌, [], false, length};
    ghost use Rattle.wire_read.specs.Framing.{Reader, IsFed};

    /// A reader of a stream of which nothing came. It takes no memory.
    #[tactic(auto, using(crate::proofs::AwaitedLemmas::nothing_awaits))]
    pub fn new(alloc: Global) -> FrameReader
        ensures { result ≡ record { rest = []; failed = false } }
    {
        FrameReader {
            kept: Buffer::new(alloc),
            awaited: Awaited::LineEnd,
            failed: false,
            alloc,
        }
    }

    /// How many bytes are kept of a frame that isn't whole, or how many there is room for, if that is more.
    pub fn buffered(&self) -> usize
        ensures { length self.now.rest ≤ result }
    {
        let len = self.kept.len();
        room_for(len, self.awaited).max(len)
    }

    /// The frames that are whole now that the next piece of the stream came, in order.
    /// A fault is the last of them, and `FeedError::Failed` the answer to every later piece.
    /// After `FeedError::NoMemory` the reader is as before, and nothing of the piece was taken.
    pub fn feed(&mut self, piece: &[u8]) -> Result<Items<Frame>, FeedError>
        ensures { IsFed self.old piece.now result self.new }
    {
        if self.failed {
            return Err(FeedError::Failed);
        }
        match advance_by(&self.kept, self.awaited, piece) {
            Advance::Quiet => {
                self.kept.append(piece)?;
                Ok(Items::new(self.alloc))
            }
            Advance::Takes(len) => {
                let (part, behind) = piece.split_at(len);
                let whole = self.kept.share(part)?;
                let frames = frames_for(self.alloc, len);
                let first = read_whole(self.alloc, frames, whole)?;
                let Progress {
                    frames,
                    kept,
                    awaited,
                    failed,
                } = read_on(self.alloc, first, behind)?;
                self.kept = kept;
                self.awaited = awaited;
                self.failed = failed;
                Ok(Items::from_vec(frames))
            }
        }
    }
}

/// How many bytes a short frame has, a PUB with a few bytes of payload.
const SHORT: usize = 24;

/// No frames, with room for as many as so many bytes may have, so that the vector doesn't grow: what grows from a small
/// block stays in the part of the heap that the block came from, which may be another thread's, and is locked then. Where
/// the room can't be had there is none.
fn frames_for(alloc: Global, len: usize) -> Vec<Frame>
    ensures { result.items ≡ [] }
{
    match Vec::with_capacity(alloc, len / SHORT) {
        Ok(frames) => frames,
        Err(_) => Vec::new(alloc),
    }
}
