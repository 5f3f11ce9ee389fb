// The frames that wait for their turn.
ghost use Rattle.std.specs.Prelude.{◌≡◌, ◌++◌, ◌∷◌, ◌≤◌, [], drop, length, OnOk, OnErr, MatchOption, List, IsTrue};
ghost use Rattle.std.specs.Bool.{Decides};
ghost use Rattle.wire_read.specs.declared.frame.Frame.{Frame};
ghost use Rattle.session_plan.specs.pending.Reading.{frames_after, reader_after};

use base::NoMemory;
use std::alloc::Global;
use std::marker::Model;
use std::mem::swap;
use wire_read::{FeedError, Frame, FrameReader};

/// Frames in order. Those of the latest piece may stand apart, so that to take a piece needs no memory once its
/// frames are read. A clause sees all of them.
pub struct Frames {
    front: Vec<Frame>,
    // How many of the front ones had their turn: they are dropped together. If all had, none stands apart.
    done: usize,
    back: Vec<Frame>,
}

impl Drop for Frames {
    #[inline(always)]
    fn drop(self) {
        let Self {
            front: _,
            done: _,
            back: _,
        } = self;
    }
}

impl Model for Frames {
    ghost use Rattle.std.specs.Prelude.{◌≡◌, ◌≤◌, List, [], ◌++◌, drop, length};
    ghost use Rattle.wire_read.specs.declared.frame.Frame.{Frame};

    ghost Value = { List Frame };

    ghost view = { λ q. drop q.done q.front.items ++ q.back.items };

    ghost invariant = { λ q. (q.done ≤ length q.front.items) × (length q.front.items ≤ q.done → q.back.items ≡ []) };
}

/// Drops the first frames, which had their turn, and puts the others behind what is left.
fn gather(front: &mut Vec<Frame>, done: usize, others: &mut Vec<Frame>) -> Result<(), NoMemory>
    requires { done ≤ length front.old.items }
    ensures front { OnOk result (front.new.items ≡ drop done front.old.items ++ others.old.items) }
    ensures others { OnOk result (others.new.items ≡ []) }
    ensures front_kept { OnErr result (front.new.items ≡ front.old.items) }
    ensures others_kept { OnErr result (others.new.items ≡ others.old.items) }
{
    front.append(others)?;
    for _done in front.drain(..done) {}
    Ok(())
}

impl Frames {
    /// No frame.
    pub fn new(alloc: Global) -> Frames
        ensures { result ≡ [] }
    {
        Frames {
            front: Vec::new(alloc),
            done: 0,
            back: Vec::new(alloc),
        }
    }

    /// The frame whose turn it is.
    pub fn first(&self) -> Option<&Frame>
        ensures { MatchOption result (self.now ≡ []) (λ frame. self.now ≡ frame.now ∷ drop 1 self.now) }
    {
        match self.front.get(self.done) {
            Some(frame) => Some(frame),
            None => None,
        }
    }

    /// Whether none waits.
    pub fn is_empty(&self) -> bool
        ensures { Decides result (self.now ≡ []) }
    {
        self.first().is_none()
    }

    /// Whether a single frame waits, or none. It may also answer no.
    #[inline(always)]
    #[tactic(auto, using(crate::proofs::pending::Lists::few_behind))]
    pub fn are_few(&self) -> bool
        ensures { IsTrue result → length self.now ≤ 1 }
    {
        if self.back.is_empty() {
            self.front.len() - self.done <= 1
        } else {
            false
        }
    }

    /// The frames whose turn is next, or the first of them.
    pub fn front(&self) -> &[Frame]
        ensures { (rest : List Frame) × (self.now ≡ result.now ++ rest) }
    {
        &self.front[self.done..]
    }

    /// Drops the frame whose turn it was.
    #[inline(always)]
    pub fn drop_first(&mut self)
        ensures { self.new ≡ drop 1 self.old }
    {
        if self.front.len() - self.done > 1 {
            self.done += 1;
            return;
        }
        self.front.clear();
        self.done = 0;
        swap(&mut self.front, &mut self.back);
    }

    /// Drops so many of the first frames.
    #[tactic(auto, using(crate::proofs::pending::Lists::drop_one_more, crate::proofs::pending::Lists::drop_many_behind))]
    pub fn drop_many(&mut self, count: usize)
        ensures { self.new ≡ drop count self.old }
    {
        if count < self.front.len() - self.done {
            self.done += count;
            return;
        }
        for _next in 0..count {
            self.drop_first();
        }
    }

    /// Drops all of them.
    pub fn clear(&mut self)
        ensures { self.new ≡ [] }
    {
        self.front.clear();
        self.done = 0;
        self.back.clear();
    }

    /// Reads a piece, and adds the frames that it completes. Without memory nothing is read. A stream with a fault
    /// gives no more frames.
    pub fn take_piece(&mut self, reader: &mut FrameReader, piece: &[u8]) -> Result<(), NoMemory>
        ensures frames { OnOk result (self.new ≡ self.old ++ frames_after reader.old piece.now) }
        ensures reader { OnOk result (reader.new ≡ reader_after reader.old piece.now) }
        ensures err { OnErr result (self.new ≡ self.old) }
        ensures kept { OnErr result (reader.new ≡ reader.old) }
    {
        gather(&mut self.front, self.done, &mut self.back)?;
        self.done = 0;
        match reader.feed(piece) {
            Ok(frames) => {
                if self.front.is_empty() {
                    self.front = frames.into_vec();
                    return Ok(());
                }
                self.back = frames.into_vec();
                Ok(())
            }
            Err(FeedError::NoMemory) => Err(NoMemory),
            Err(FeedError::Failed) => Ok(()),
        }
    }
}
