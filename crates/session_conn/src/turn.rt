// Frames, each in its turn.
ghost use Rattle.std.specs.Prelude.{◌≡◌, ◌+◌, ◌++◌, ◌≤◌, length};
ghost use Rattle.std.specs.Vec.{vec_len, vec_capacity};
ghost use Rattle.session_conn.specs.declared.turn.FrameTurn.TheVariants.{Goes};
ghost use Rattle.session_conn.specs.Turns.{port_of, turn_after, outcome_of, is_verbose, is_published, is_quiet, IsWord, IsFrameTurn, IsFrameTurned};
ghost use Rattle.session_plan.specs.declared.plan.Plan.TheVariants.{Publishes};
ghost use Rattle.session_plan.specs.Plans.{plan_of};
ghost use Rattle.session_plan.specs.Replies.{text_line, room_of};

use crate::context::TurnContext;
use crate::invalid::hear_if_invalid;
use crate::output::Stall;
use crate::submit::{offer, submit};
use events::{Answer, Command, Event, HubRefusal, Message, Outcome, Port, Words};
use session_plan::{
    Plan, Reply, Stage, make_room, plan_of, put_text, reply_to_outcome, reply_to_refusal,
};
use wire_read::Frame;

/// The result of a frame's turn. What the client is told of it is written.
#[derive(Clone, Copy, Debug)]
pub enum FrameTurn {
    /// The next frame is looked at, and the connection is at this stage.
    Goes(Stage),
    /// The frame stays, with its word if it has drawn one.
    Stalls(Stall, Option<u64>),
}

/// Writes a reply for which there is room.
fn tell(out: &mut Vec<u8>, reply: Reply<'_>) -> FrameTurn
    requires { vec_len out.old + length (text_line reply.text) ≤ vec_capacity out.old }
    ensures turn { result ≡ Goes reply.entry.stage }
    ensures text { out.new.items ≡ out.old.items ++ text_line reply.entry.text }
{
    put_text(out, reply.text);
    FrameTurn::Goes(reply.stage)
}

/// Finishes a frame's turn by the hub's answer: writes what the client is told. There is room for any text about the frame.
#[inline(always)]
pub fn turn_of_answer(
    stage: Stage,
    accepted: Stage,
    frame: &Frame,
    word: Option<u64>,
    answer: &Result<Answer, HubRefusal>,
    out: &mut Vec<u8>,
) -> FrameTurn
    requires { vec_len out.old + room_of frame.now ≤ vec_capacity out.old }
    ensures { IsFrameTurned (λ turned. turned ≡ turn_after stage accepted frame.now word (outcome_of answer.now)) result out.old.items out.new.items }
{
    match answer {
        Ok(answer) => {
            let outcome = &answer.get().outcome;
            tell(out, reply_to_outcome(stage, accepted, frame, outcome))
        }
        Err(HubRefusal::NoMemory) => FrameTurn::Stalls(Stall::Memory, word),
        Err(HubRefusal::HistoryFull) => FrameTurn::Stalls(Stall::HistoryFull, word),
        Err(HubRefusal::NoSession) => tell(out, reply_to_refusal(stage, HubRefusal::NoSession)),
        Err(HubRefusal::SessionTaken) => {
            tell(out, reply_to_refusal(stage, HubRefusal::SessionTaken))
        }
        Err(HubRefusal::SessionLimit) => {
            tell(out, reply_to_refusal(stage, HubRefusal::SessionLimit))
        }
    }
}

/// The word of a message: the one that it has drawn, or the next one.
fn word_of<W: Words>(words: &mut W, drawn: Option<u64>) -> u64
    ensures { IsWord W.draws words.old drawn result words.new }
{
    match drawn {
        Some(word) => word,
        None => words.next(),
    }
}

/// Whether each accepted message of the client is answered.
pub fn is_verbose(stage: Stage) -> bool
    ensures { result ≡ is_verbose stage }
{
    match stage {
        Stage::Fresh => false,
        Stage::Connected { verbose, .. } => verbose,
        Stage::Closed { .. } => false,
    }
}

/// Whether a message was published.
fn is_published(answer: &Result<Answer, HubRefusal>) -> bool
    ensures { result ≡ is_published (outcome_of answer.now) }
{
    match answer {
        Ok(answer) => matches!(&answer.get().outcome, Outcome::Published(_, _)),
        Err(_) => false,
    }
}

/// Whether a message was published of a client that asked for no answer, so that it is told nothing.
fn is_quiet(stage: Stage, answer: &Result<Answer, HubRefusal>) -> bool
    ensures { result ≡ is_quiet stage (outcome_of answer.now) }
{
    !is_verbose(stage) && is_published(answer)
}

/// Publishes a frame's message. There is room for any text about the frame. Where the message is held
/// back the frame stays with its word, so that the same members of queue groups are asked for when it is offered again.
#[inline(always)]
fn publish<P: Port, W: Words>(
    context: TurnContext,
    port: &mut P,
    words: &mut W,
    frame: &Frame,
    message: Message,
    out: &mut Vec<u8>,
) -> FrameTurn
    requires plan { plan_of context.conn context.stage frame.now ≡ Publishes message }
    requires room { vec_len out.old + room_of frame.now ≤ vec_capacity out.old }
    ensures place { P.place port.new ≡ P.place port.old }
    ensures turn { IsFrameTurned (λ turned. IsFrameTurn (port_of P.steps P.posts P.holds) W.draws context.moment context.conn context.stage context.word frame.now port.old words.old turned port.new words.new) result out.old.items out.new.items }
{
    let drawn = word_of(words, context.word);
    let now = context.moment;
    let stage = context.stage;
    let what = Command::Pub {
        conn: context.conn,
        message,
        word: drawn,
    };
    let Some(answer) = offer(port, Event { now, what }) else {
        return FrameTurn::Stalls(Stall::Held, Some(drawn));
    };
    if is_quiet(stage, &answer) {
        return FrameTurn::Goes(stage);
    }
    turn_of_answer(stage, stage, frame, Some(drawn), &answer, out)
}

/// Gives a frame its turn, as its plan says. Room for what is told is made before the hub is asked, so that its answer is told.
/// What is told without asking the hub waits for what the port has for the client.
#[inline(always)]
pub fn take_turn<P: Port, W: Words>(
    context: TurnContext,
    port: &mut P,
    words: &mut W,
    frame: &Frame,
    out: &mut Vec<u8>,
) -> FrameTurn
    ensures place { P.place port.new ≡ P.place port.old }
    ensures turn { IsFrameTurned (λ turned. IsFrameTurn (port_of P.steps P.posts P.holds) W.draws context.moment context.conn context.stage context.word frame.now port.old words.old turned port.new words.new) result out.old.items out.new.items }
{
    if make_room(out, frame).is_err() {
        return FrameTurn::Stalls(Stall::Memory, context.word);
    }
    let plan = match plan_of(context.alloc, context.conn, context.stage, frame) {
        Ok(plan) => plan,
        Err(_) => return FrameTurn::Stalls(Stall::Memory, context.word),
    };
    match plan {
        Plan::Tells(reply) => {
            if port.must_wait(context.conn) {
                return FrameTurn::Stalls(Stall::Held, context.word);
            }
            hear_if_invalid(port, &reply.text, frame);
            tell(out, reply)
        }
        Plan::Asks(what, accepted) => {
            let now = context.moment;
            let answer = submit(port, Event { now, what });
            turn_of_answer(context.stage, accepted, frame, context.word, &answer, out)
        }
        Plan::Publishes(message) => publish(context, port, words, frame, message, out),
    }
}
