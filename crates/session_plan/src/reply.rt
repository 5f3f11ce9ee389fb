// What a client is told of an answer.
ghost use Rattle.std.specs.Prelude.{◌≡◌, ◌≤◌, ◌+◌, length, IfSome, OnOk};
ghost use Rattle.std.specs.Vec.{vec_len, vec_capacity};
ghost use Rattle.std.specs.Option.{option_copied};
ghost use Rattle.session_plan.specs.Replies.{text_line, told, denied_line, fault_text, reply_to_outcome, reply_to_refusal, reply_of_text, reply_of_error, ok_if, room_of, queue_room};

use crate::stage::Stage;
use crate::text::Text;
use base::{NoMemory, SharedBytes};
use events::{HubRefusal, Outcome};
use wire_read::{Frame, WireFault};
use wire_write::ServerError;

/// What a client is told, and where its connection is then.
#[derive(Clone, Copy, Debug)]
pub struct Reply<'a> {
    pub text: Text<'a>,
    pub stage: Stage,
}

/// Room enough for the rest of any text about a SUB, which may name a queue.
fn queue_room(queue: &Option<SharedBytes>) -> usize
    ensures { result ≡ queue_room queue.now }
{
    match queue {
        None => 64,
        Some(queue) => queue.len() + 80,
    }
}

/// Room enough for any text about a frame; `None` where so much can't be counted.
fn room_of(frame: &Frame) -> Option<usize>
    ensures { IfSome result (λ room. room ≡ room_of frame.now) }
{
    match frame {
        Frame::Connect(_) => Some(64),
        Frame::Pub(text) => Some(text.subject().len() + 64),
        Frame::Hpub(text) => Some(text.subject().len() + 64),
        Frame::Sub { subject, queue, .. } => subject.len().checked_add(queue_room(queue)),
        Frame::Unsub { .. } => Some(64),
        Frame::Ping => Some(64),
        Frame::Pong => Some(64),
        Frame::Fault(_) => Some(64),
    }
}

/// Makes room for any text about a frame. After `NoMemory` nothing has changed.
pub fn make_room(out: &mut Vec<u8>, frame: &Frame) -> Result<(), NoMemory>
    ensures room { OnOk result (vec_len out.new + room_of frame.now ≤ vec_capacity out.new) }
    ensures same { out.new.items ≡ out.old.items }
{
    match room_of(frame) {
        None => Err(NoMemory),
        Some(room) => {
            out.reserve(room)?;
            Ok(())
        }
    }
}

/// `+OK` to a client that asked for it.
fn ok_if(stage: Stage) -> Text<'static>
    ensures line { text_line result ≡ ok_if stage }
    ensures short { length (text_line result) ≤ 64 }
{
    match stage {
        Stage::Connected { verbose, .. } => {
            if verbose {
                Text::Accepted
            } else {
                Text::Nothing
            }
        }
        Stage::Fresh => Text::Nothing,
        Stage::Closed { .. } => Text::Nothing,
    }
}

/// The bytes of a queue name, if there is one.
fn bytes_of(queue: &Option<SharedBytes>) -> Option<&[u8]>
    ensures { option_copied result ≡ queue.now }
{
    match queue {
        None => None,
        Some(queue) => Some(queue.as_slice()),
    }
}

/// That the user may not do what a frame asks.
fn denied(frame: &Frame) -> Text<'_>
    ensures line { text_line result ≡ denied_line frame.now }
    ensures short { length (text_line result) ≤ room_of frame.now }
{
    match frame {
        Frame::Pub(text) => Text::Error(ServerError::PublishDenied(text.subject())),
        Frame::Hpub(text) => Text::Error(ServerError::PublishDenied(text.subject())),
        Frame::Sub { subject, queue, .. } => Text::Error(ServerError::SubscriptionDenied {
            subject: subject.as_slice(),
            queue: bytes_of(queue),
        }),
        Frame::Connect(_) => Text::Nothing,
        Frame::Unsub { .. } => Text::Nothing,
        Frame::Ping => Text::Nothing,
        Frame::Pong => Text::Nothing,
        Frame::Fault(_) => Text::Nothing,
    }
}

/// The text of a fault of the stream.
pub fn fault_text(fault: WireFault) -> Text<'static>
    ensures { result ≡ fault_text fault }
{
    match fault {
        WireFault::UnknownOperation => Text::Error(ServerError::UnknownOperation),
        WireFault::ParserError => Text::Error(ServerError::ParserError),
        WireFault::ControlLine => Text::Error(ServerError::ControlLine),
        WireFault::Payload => Text::Error(ServerError::PayloadViolation),
    }
}

/// A text alone.
pub fn reply_of_text(text: Text<'static>, stage: Stage) -> Reply<'static>
    ensures { result ≡ reply_of_text text.entry stage }
{
    Reply { text, stage }
}

/// An error, which closes the connection or leaves it open.
pub fn reply_of_error(error: ServerError<'static>, stage: Stage) -> Reply<'static>
    ensures { result ≡ reply_of_error error.entry stage }
{
    let after = stage.after_error(&error);
    Reply {
        text: Text::Error(error),
        stage: after,
    }
}

/// The reply to what came of a frame's event. `accepted` is where an accepted CONNECT leads.
pub fn reply_to_outcome<'a>(
    stage: Stage,
    accepted: Stage,
    frame: &'a Frame,
    outcome: &Outcome,
) -> Reply<'a>
    ensures told { told result ≡ reply_to_outcome stage accepted frame.now outcome.now }
    ensures short { length (text_line result.text) ≤ room_of frame.now }
{
    match outcome {
        Outcome::Connected => reply_of_text(ok_if(accepted), accepted),
        Outcome::Subscribed => reply_of_text(ok_if(stage), stage),
        Outcome::SameSid => reply_of_text(ok_if(stage), stage),
        Outcome::Unsubscribed => reply_of_text(ok_if(stage), stage),
        Outcome::Published(_, _) => reply_of_text(ok_if(stage), stage),
        Outcome::Denied(_) => Reply {
            text: denied(frame),
            stage,
        },
        Outcome::SubLimit => reply_of_error(ServerError::SubscriptionsExceeded, stage),
        Outcome::AuthViolation => reply_of_error(ServerError::Authorization, stage),
        Outcome::Taken(_, _) => reply_of_text(Text::Nothing, stage),
        Outcome::Closed => reply_of_text(Text::Nothing, stage),
        Outcome::Reloaded { .. } => reply_of_text(Text::Nothing, stage),
    }
}

/// The reply to why a frame's event was refused.
pub fn reply_to_refusal(stage: Stage, refusal: HubRefusal) -> Reply<'static>
    ensures told { told result ≡ reply_to_refusal stage refusal }
    ensures short { length (text_line result.text) ≤ 64 }
{
    match refusal {
        HubRefusal::SessionTaken => reply_of_error(ServerError::InvalidProtocol, stage),
        HubRefusal::SessionLimit => reply_of_error(ServerError::ConnectionsExceeded, stage),
        HubRefusal::NoSession => reply_of_text(
            Text::Error(ServerError::Authorization),
            Stage::Closed { session: false },
        ),
        HubRefusal::HistoryFull | HubRefusal::NoMemory => reply_of_text(Text::Nothing, stage),
    }
}
