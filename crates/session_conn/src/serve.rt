// The turns of all frames that wait.
ghost use Rattle.std.specs.Prelude.{◌≡◌, ◌<◌, ◌≤◌, length, false};
ghost use Rattle.session_conn.specs.Turns.{port_of};
ghost use Rattle.session_conn.specs.Serving.{spot, served, Serves};
ghost use Rattle.session_conn.specs.Running.{IsAhead, IsAheadAfter, IsNearer, Went};
ghost use Rattle.session_plan.specs.Replies.{is_closed};

use crate::context::TurnContext;
use crate::output::Stall;
use crate::run::{Ahead, take_run};
use crate::turn::{FrameTurn, take_turn};
use events::{Port, Words};
use session_plan::Stage;
use session_plan::pending::Frames;

/// What the turns of frames came to.
#[derive(Drop)]
pub struct Served {
    /// What is written to the client.
    pub bytes: Vec<u8>,
    /// Where the connection is then.
    pub stage: Stage,
    /// The word of the first frame that is left, where it has drawn one.
    pub word: Option<u64>,
    /// What stopped the turns, if something did.
    pub stall: Option<Stall>,
}

impl Served {
    ghost use Rattle.std.specs.Prelude.{◌≡◌};

    /// Turns that write this, leave the connection at this stage, and the next frame with this word.
    fn new(bytes: Vec<u8>, stage: Stage, word: Option<u64>, stall: Option<Stall>) -> Served
        ensures { result ≡ record { bytes = bytes; stage = stage; word = word; stall = stall } }
    {
        Served {
            bytes,
            stage,
            word,
            stall,
        }
    }
}

/// Gives the first frame its turn, alone.
#[inline(always)]
fn take_one<P: Port, W: Words>(
    context: TurnContext,
    port: &mut P,
    words: &mut W,
    frames: &mut Frames,
    out: &mut Vec<u8>,
) -> FrameTurn
    requires open { is_closed context.stage ≡ false }
    requires some { 0 < length frames.old }
    ensures place { P.place port.new ≡ P.place port.old }
    ensures went { Went (port_of P.steps P.posts P.holds) W.draws context.moment context.conn frames.old (spot port.old words.old context.stage context.word) result out.old.items out.new.items frames.new port.new words.new }
    ensures nearer { IsNearer result frames.old frames.new }
{
    let Some(frame) = frames.first() else {
        return FrameTurn::Stalls(Stall::Memory, context.word);
    };
    match take_turn(context, port, words, frame, out) {
        FrameTurn::Goes(after) => {
            frames.drop_first();
            FrameTurn::Goes(after)
        }
        FrameTurn::Stalls(stall, kept) => FrameTurn::Stalls(stall, kept),
    }
}

/// Gives the first frames their turns: those whose messages are gathered ahead, or one.
fn take_turns<P: Port, W: Words>(
    context: TurnContext,
    port: &mut P,
    words: &mut W,
    frames: &mut Frames,
    ahead: &mut Ahead,
    out: &mut Vec<u8>,
) -> FrameTurn
    requires open { is_closed context.stage ≡ false }
    requires some { 0 < length frames.old }
    requires ahead { IsAhead context.stage ahead.old.room frames.old ahead.old.messages.items }
    ensures place { P.place port.new ≡ P.place port.old }
    ensures went { Went (port_of P.steps P.posts P.holds) W.draws context.moment context.conn frames.old (spot port.old words.old context.stage context.word) result out.old.items out.new.items frames.new port.new words.new }
    ensures nearer { IsNearer result frames.old frames.new }
    ensures ahead { IsAheadAfter result ahead.new.room frames.new ahead.new.messages.items }
{
    if ahead.is_ready(context.stage, context.word, frames, out) {
        return take_run(context, port, words, frames, ahead, out);
    }
    ahead.clear();
    take_one(context, port, words, frames, out)
}

/// Gives the single frame that waits its turn, if one does.
#[inline(always)]
fn serve_one<P: Port, W: Words>(
    context: TurnContext,
    port: &mut P,
    words: &mut W,
    frames: &mut Frames,
) -> Served
    requires few { length frames.old ≤ 1 }
    ensures place { P.place port.new ≡ P.place port.old }
    ensures served { Serves (port_of P.steps P.posts P.holds) W.draws context.moment context.conn frames.old (spot port.old words.old context.stage context.word) (served result.bytes.items frames.new result.stall (spot port.new words.new result.stage result.word)) }
{
    let mut bytes = Vec::new(context.alloc);
    if frames.is_empty() {
        return Served::new(bytes, context.stage, context.word, None);
    }
    if context.stage.is_closed() {
        frames.clear();
        return Served::new(bytes, context.stage, context.word, None);
    }
    match take_one(context, port, words, frames, &mut bytes) {
        FrameTurn::Stalls(stall, kept) => Served::new(bytes, context.stage, kept, Some(stall)),
        FrameTurn::Goes(after) => Served::new(bytes, after, None, None),
    }
}

/// Gives several frames their turns. It is apart, so that the turn of a single one doesn't need its locals.
#[inline(never)]
fn serve_all<P: Port, W: Words>(
    context: TurnContext,
    port: &mut P,
    words: &mut W,
    frames: &mut Frames,
) -> Served
    ensures place { P.place port.new ≡ P.place port.old }
    ensures served { Serves (port_of P.steps P.posts P.holds) W.draws context.moment context.conn frames.old (spot port.old words.old context.stage context.word) (served result.bytes.items frames.new result.stall (spot port.new words.new result.stage result.word)) }
{
    let mut bytes = Vec::new(context.alloc);
    let mut stage = context.stage;
    let mut word = context.word;
    let mut ahead = Ahead::new(context.alloc, word);
    while !frames.is_empty() {
        if stage.is_closed() {
            frames.clear();
            return Served::new(bytes, stage, word, None);
        }
        let next = TurnContext {
            alloc: context.alloc,
            conn: context.conn,
            moment: context.moment,
            stage,
            word,
        };
        match take_turns(next, port, words, frames, &mut ahead, &mut bytes) {
            FrameTurn::Stalls(stall, kept) => {
                return Served::new(bytes, stage, kept, Some(stall));
            }
            FrameTurn::Goes(after) => {
                stage = after;
                word = None;
            }
        }
    }
    Served::new(bytes, stage, word, None)
}

/// Gives frames their turns in order, until one stalls or closes the connection. What stalls is left, with the frames behind
/// it; after a closing text the rest is dropped.
#[inline(always)]
pub fn serve<P: Port, W: Words>(
    context: TurnContext,
    port: &mut P,
    words: &mut W,
    frames: &mut Frames,
) -> Served
    ensures place { P.place port.new ≡ P.place port.old }
    ensures served { Serves (port_of P.steps P.posts P.holds) W.draws context.moment context.conn frames.old (spot port.old words.old context.stage context.word) (served result.bytes.items frames.new result.stall (spot port.new words.new result.stage result.word)) }
{
    if frames.are_few() {
        serve_one(context, port, words, frames)
    } else {
        serve_all(context, port, words, frames)
    }
}
