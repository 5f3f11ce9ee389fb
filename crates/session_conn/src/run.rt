// Messages that are offered together.
ghost use Rattle.std.specs.Prelude.{◌≡◌, ◌+◌, ◌++◌, ◌∷◌, ◌≤◌, ◌<◌, [], false, drop, length, None, IsTrue};
ghost use Rattle.std.specs.Vec.{vec_len, vec_capacity};
ghost use Rattle.session_plan.specs.Replies.{is_closed, room_of};
ghost use Rattle.session_conn.specs.Turns.{port_of, is_verbose, IsFrameTurned};
ghost use Rattle.session_conn.specs.Serving.{spot};
ghost use Rattle.session_conn.specs.Running.{IsAhead, IsAheadAfter, IsAdded, IsPut, IsNearer, IsLastTold, IsToldFirst, HasRoomFirst, Went};

use crate::context::TurnContext;
use crate::output::Stall;
use crate::turn::{FrameTurn, is_verbose, turn_of_answer};
use base::NoMemory;
use events::{Message, Port, PublishRefusal, RunEnd, Words};
use session_plan::pending::Frames;
use session_plan::{Stage, message_of};
use std::alloc::Global;
use std::collections::VecDeque;
use wire_read::Frame;

/// How many messages are gathered at once, at most.
const MOST: usize = 64;

/// The messages of the first frames, before they are offered.
#[derive(Drop)]
pub struct Ahead {
    pub messages: VecDeque<Message>,
    /// Room enough for what is told of any of them.
    pub room: usize,
    /// How many are gathered next, at most.
    most: usize,
}

impl Ahead {
    /// None. Behind a message that has drawn its word few are gathered first, and then more: it was stopped, and the next may
    /// be stopped as well.
    pub fn new(alloc: Global, word: Option<u64>) -> Ahead
        ensures { result.messages.items ≡ [] }
    {
        Ahead {
            messages: VecDeque::new(alloc),
            room: 0,
            most: if word.is_some() { 1 } else { MOST },
        }
    }

    /// Adds a frame's message, if it has one and memory can be had, and answers whether it did.
    #[inline(always)]
    fn put(&mut self, planned: Result<Option<Message>, NoMemory>, room: usize) -> bool
        ensures { IsPut result planned room self.old.room self.old.messages.items self.new.room self.new.messages.items }
    {
        match planned {
            Ok(Some(message)) => {
                if self.messages.push_back(message).is_err() {
                    return false;
                }
                self.room = self.room.max(room);
                true
            }
            Ok(None) => false,
            Err(_) => false,
        }
    }

    /// Adds the message of the next frame, if it has one, and answers whether it did.
    #[inline(always)]
    fn add(&mut self, stage: Stage, frame: &Frame) -> bool
        ensures { IsAdded result stage frame.now self.old.room self.old.messages.items self.new.room self.new.messages.items }
    {
        match frame {
            Frame::Pub(text) => {
                let room = text.subject().len() + 64;
                self.put(message_of(stage, frame), room)
            }
            Frame::Hpub(text) => {
                let room = text.subject().len() + 64;
                self.put(message_of(stage, frame), room)
            }
            _ => false,
        }
    }

    /// Gathers the messages of the first frames, up to one that has none.
    fn gather(&mut self, stage: Stage, frames: &[Frame])
        requires none { self.old.messages.items ≡ [] }
        requires quiet { is_verbose stage ≡ false }
        ensures { IsAhead stage self.new.room frames.now self.new.messages.items }
    {
        let most = self.most;
        self.most = most.saturating_mul(2).min(MOST);
        let _had = self.messages.reserve(frames.len().min(most));
        for frame in frames {
            if self.messages.len() >= most {
                return;
            }
            if !self.add(stage, frame) {
                return;
            }
        }
    }

    /// Drops them.
    #[inline(always)]
    pub fn clear(&mut self)
        ensures { self.new.messages.items ≡ [] }
    {
        if !self.messages.is_empty() {
            self.messages.clear();
        }
    }

    /// Gathers messages where none are at hand. None are of a client that has an answer for each, nor where a single frame
    /// waits.
    fn fill(&mut self, stage: Stage, frames: &Frames)
        requires { IsAhead stage self.old.room frames.now self.old.messages.items }
        ensures { IsAhead stage self.new.room frames.now self.new.messages.items }
    {
        if !self.messages.is_empty() {
            return;
        }
        if is_verbose(stage) {
            return;
        }
        let front = frames.front();
        if front.len() > 1 {
            self.gather(stage, front);
        }
    }

    /// Whether messages of the first frames are at hand, and there is room for what is told of any of them. A first one that
    /// has drawn its word is offered alone.
    pub fn is_ready(
        &mut self,
        stage: Stage,
        word: Option<u64>,
        frames: &Frames,
        out: &mut Vec<u8>,
    ) -> bool
        requires { IsAhead stage self.old.room frames.now self.old.messages.items }
        ensures ahead { IsAhead stage self.new.room frames.now self.new.messages.items }
        ensures word { IsTrue result → word ≡ None }
        ensures some { IsTrue result → 0 < length self.new.messages.items }
        ensures room { IsTrue result → vec_len out.new + self.new.room ≤ vec_capacity out.new }
        ensures same { out.new.items ≡ out.old.items }
    {
        if word.is_some() {
            return false;
        }
        self.fill(stage, frames);
        if self.messages.is_empty() {
            return false;
        }
        out.reserve(self.room).is_ok()
    }
}

/// What the turn of the message comes to that ended a run. There is room for any text about its frame.
fn turn_of_end(stage: Stage, frame: &Frame, end: RunEnd, out: &mut Vec<u8>) -> FrameTurn
    requires { vec_len out.old + room_of frame.now ≤ vec_capacity out.old }
    ensures { IsFrameTurned (λ turned. IsLastTold stage frame.now end turned) result out.old.items out.new.items }
{
    match end {
        RunEnd::Published => FrameTurn::Goes(stage),
        RunEnd::Answered(answer) => {
            let answer = Ok(answer);
            turn_of_answer(stage, stage, frame, None, &answer, out)
        }
        RunEnd::Stopped(word, refusal) => match refusal {
            PublishRefusal::By(refusal) => {
                let answer = Err(refusal);
                turn_of_answer(stage, stage, frame, Some(word), &answer, out)
            }
            PublishRefusal::Held => FrameTurn::Stalls(Stall::Held, Some(word)),
        },
    }
}

/// The turn of the frame behind so many whose messages were published: it is that of the message that ended the run.
fn tell_first(
    stage: Stage,
    frames: &mut Frames,
    count: usize,
    end: RunEnd,
    out: &mut Vec<u8>,
) -> FrameTurn
    requires { HasRoomFirst (vec_len out.old) (vec_capacity out.old) (drop count frames.old) }
    ensures { IsToldFirst stage end result out.old.items out.new.items (drop count frames.old) frames.new }
{
    frames.drop_many(count);
    let Some(frame) = frames.first() else {
        return FrameTurn::Goes(stage);
    };
    match turn_of_end(stage, frame, end, out) {
        FrameTurn::Goes(after) => {
            frames.drop_first();
            FrameTurn::Goes(after)
        }
        FrameTurn::Stalls(stall, kept) => FrameTurn::Stalls(stall, kept),
    }
}

/// The turns of the frames whose messages are at hand, as far as they are offered together.
pub fn take_run<P: Port, W: Words>(
    context: TurnContext,
    port: &mut P,
    words: &mut W,
    frames: &mut Frames,
    ahead: &mut Ahead,
    out: &mut Vec<u8>,
) -> FrameTurn
    requires open { is_closed context.stage ≡ false }
    requires ahead { IsAhead context.stage ahead.old.room frames.old ahead.old.messages.items }
    requires some { 0 < length ahead.old.messages.items }
    requires room { vec_len out.old + ahead.old.room ≤ vec_capacity out.old }
    ensures place { P.place port.new ≡ P.place port.old }
    ensures went { Went (port_of P.steps P.posts P.holds) W.draws context.moment context.conn frames.old (spot port.old words.old context.stage None) result out.old.items out.new.items frames.new port.new words.new }
    ensures nearer { IsNearer result frames.old frames.new }
    ensures ahead { IsAheadAfter result ahead.new.room frames.new ahead.new.messages.items }
{
    let stage = context.stage;
    let had = ahead.messages.len();
    let end = port.publish(context.conn, context.moment, &mut ahead.messages, words);
    let gone = had.saturating_sub(ahead.messages.len());
    match end {
        RunEnd::Published => {
            frames.drop_many(gone);
            FrameTurn::Goes(stage)
        }
        RunEnd::Answered(answer) => tell_first(
            stage,
            frames,
            gone.saturating_sub(1),
            RunEnd::Answered(answer),
            out,
        ),
        RunEnd::Stopped(word, refusal) => tell_first(
            stage,
            frames,
            gone.saturating_sub(1),
            RunEnd::Stopped(word, refusal),
            out,
        ),
    }
}
