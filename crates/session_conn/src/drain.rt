// What a Take gave, and its texts.
ghost use Rattle.std.specs.Prelude.{◌≡◌, ◌+◌, ◌≤◌, []};
ghost use Rattle.std.specs.Vec.{vec_len, vec_capacity};
ghost use Rattle.session_conn.specs.Drains.{drain_of, stage_after, stall_after, Drains, IsTaken, IsTakeTold, IsTold};
ghost use Rattle.session_conn.specs.Turns.{port_of, outcome_of};

use crate::context::DrainContext;
use crate::output::Stall;
use crate::submit::submit;
use events::{Answer, Command, Event, HubRefusal, Port};
use session_plan::pending::{Owed, make_room, write_front};
use session_plan::{Stage, Text, put_text, write_text};
use std::alloc::Global;
use wire_write::ServerError;

/// How far what was taken is written.
#[derive(Clone, Copy, Debug, PartialEq, Eq)]
pub enum Written {
    /// All of it.
    All,
    /// All of it, and that a delivery was missed, which closes the connection.
    Closes,
    /// Memory lacked, and the rest stays.
    Short,
}

/// Writes what was taken, and then closes the connection where a delivery was missed. Once all is written the answer
/// is dropped.
fn write_owed(out: &mut Vec<u8>, headers: bool, owed: &mut Owed) -> Written
    ensures { IsTold headers out.old.items owed.old.deliveries owed.old.missed result out.new.items owed.new.deliveries owed.new.missed }
{
    if write_front(out, headers, owed).is_err() {
        return Written::Short;
    }
    if !owed.has_missed() {
        *owed = Owed::new();
        return Written::All;
    }
    if write_text(out, Text::Error(ServerError::SlowConsumer)).is_err() {
        return Written::Short;
    }
    *owed = Owed::new();
    Written::Closes
}

/// What a drain leaves: what is written, where the connection is then, and what stopped it, if something did.
#[derive(Drop)]
pub struct Drained {
    pub bytes: Vec<u8>,
    pub stage: Stage,
    pub stall: Option<Stall>,
}

impl Drained {
    ghost use Rattle.std.specs.Prelude.{◌≡◌};

    /// A drain that writes this, leaves the connection at this stage, and was stopped by that.
    fn new(bytes: Vec<u8>, stage: Stage, stall: Option<Stall>) -> Drained
        ensures bytes { result.bytes ≡ bytes }
        ensures stage { result.stage ≡ stage }
        ensures stall { result.stall ≡ stall }
    {
        Drained {
            bytes,
            stage,
            stall,
        }
    }
}

/// The end of a drain, once all that was taken is written, or memory lacked.
fn drained_after(bytes: Vec<u8>, stage: Stage, written: Written) -> Drained
    ensures bytes { result.bytes ≡ bytes }
    ensures stage { result.stage ≡ stage_after stage written }
    ensures stall { result.stall ≡ stall_after written }
{
    match written {
        Written::All => Drained::new(bytes, stage, None),
        Written::Closes => Drained::new(bytes, stage.closed(), None),
        Written::Short => Drained::new(bytes, stage, Some(Stall::Memory)),
    }
}

/// Carries out a Take's answer: writes what it gave. There is room for the text of a session that is gone.
fn drained_by_answer(
    alloc: Global,
    answer: Result<Answer, HubRefusal>,
    stage: Stage,
    mut bytes: Vec<u8>,
    owed: &mut Owed,
) -> Drained
    requires none_owed { owed.old.deliveries ≡ [] }
    requires room { vec_len bytes + 64 ≤ vec_capacity bytes }
    ensures { IsTakeTold stage bytes.items owed.old.missed (outcome_of answer) (drain_of result owed.new) }
{
    match answer {
        Ok(answer) => match Owed::of(answer) {
            Some(taken) => {
                *owed = taken;
                make_room(alloc, &mut bytes, owed);
                let written = write_owed(&mut bytes, stage.takes_headers(), owed);
                drained_after(bytes, stage, written)
            }
            None => Drained::new(bytes, stage, None),
        },
        Err(HubRefusal::NoSession) => {
            put_text(&mut bytes, Text::Error(ServerError::Authorization));
            Drained::new(bytes, Stage::Closed { session: false }, None)
        }
        Err(HubRefusal::HistoryFull) => Drained::new(bytes, stage, Some(Stall::HistoryFull)),
        Err(HubRefusal::NoMemory) => Drained::new(bytes, stage, Some(Stall::Memory)),
        Err(HubRefusal::SessionTaken | HubRefusal::SessionLimit) => {
            Drained::new(bytes, stage, None)
        }
    }
}

/// Makes one Take, and writes what it gives. Room for the text of a session that is gone is made before.
fn drain_by_take<P: Port>(
    context: DrainContext,
    port: &mut P,
    mut bytes: Vec<u8>,
    owed: &mut Owed,
) -> Drained
    requires { owed.old.deliveries ≡ [] }
    ensures place { P.place port.new ≡ P.place port.old }
    ensures taken { IsTaken (port_of P.steps P.posts P.holds) context.moment context.conn context.most context.stage bytes.items owed.old.missed port.old (drain_of result owed.new) port.new }
{
    if bytes.reserve(64).is_err() {
        return Drained::new(bytes, context.stage, Some(Stall::Memory));
    }
    let what = Command::Take {
        conn: context.conn,
        most: context.most,
    };
    let now = context.moment;
    let answer = submit(port, Event { now, what });
    drained_by_answer(context.alloc, answer, context.stage, bytes, owed)
}

/// Writes what an earlier drain could not, and then makes a Take, unless a delivery was missed then.
pub fn drain<P: Port>(context: DrainContext, port: &mut P, owed: &mut Owed) -> Drained
    ensures place { P.place port.new ≡ P.place port.old }
    ensures drains { Drains (port_of P.steps P.posts P.holds) context.moment context.conn context.most context.stage owed.old.deliveries owed.old.missed port.old (drain_of result owed.new) port.new }
{
    let mut bytes = Vec::new(context.alloc);
    match write_owed(&mut bytes, context.stage.takes_headers(), owed) {
        Written::All => drain_by_take(context, port, bytes, owed),
        Written::Closes => drained_after(bytes, context.stage, Written::Closes),
        Written::Short => drained_after(bytes, context.stage, Written::Short),
    }
}
