// The plan of a frame: what is done about it, before the hub is asked.
ghost use Rattle.std.specs.Prelude.{◌≡◌, ℕ, None, IfOk, IfSome};
ghost use Rattle.wire_write.specs.connect_opts.Opts.{opts_of};
ghost use Rattle.session_plan.specs.declared.stage.Stage.{Stage};
ghost use Rattle.session_plan.specs.declared.plan.Plan.TheVariants.{Publishes};
ghost use Rattle.events.specs.Messages as read;
ghost use Rattle.session_plan.specs.Plans.{plan_of, fresh_plan, connected_plan, connect_plan, message_in, message_if, published_by, headed_fault, subscribe_plan, error_plan, named_if};

use crate::reply::{Reply, fault_text, reply_of_error, reply_of_text};
use crate::stage::Stage;
use crate::text::Text;
use base::{NoMemory, Shared, SharedBytes, SharedText};
use events::{Command, Message};
use std::alloc::Global;
use subjects::Subject;
use subjects::texts::{pattern_if, subject_if};
use wire_message::MessageText;
use wire_read::Frame;
use wire_write::ServerError;
use wire_write::connect_opts::{ConnectError, ConnectOpts};

/// The plan of a frame: what is done about it, before the hub is asked.
#[derive(Drop)]
pub enum Plan {
    /// Its client is told this, and the hub is not asked.
    Tells(Reply<'static>),
    /// The hub is asked. Where a CONNECT is accepted the connection is then at this stage.
    Asks(Command, Stage),
    /// The hub is asked to publish a message, with a word.
    Publishes(Message),
}

/// The queue name that a SUB names, with bytes of its own, since it may stand for long: none where it names none, and
/// where it names no subject there is no answer.
fn queue_of(alloc: Global, text: &Option<SharedBytes>) -> Result<Option<Option<Subject>>, NoMemory>
    ensures { IfOk result (λ queue. queue ≡ named_if text.now) }
{
    match text {
        None => Ok(Some(None)),
        Some(text) => match subject_if(alloc, text.as_slice())? {
            None => Ok(None),
            Some(queue) => Ok(Some(Some(queue))),
        },
    }
}

/// An error, which closes the connection or leaves it open.
fn plan_of_error(error: ServerError<'static>, stage: Stage) -> Plan
    ensures { result ≡ error_plan error.entry stage }
{
    Plan::Tells(reply_of_error(error, stage))
}

/// A text of its own bytes. It may stand for long, and would keep all that was read with it.
fn own_text(alloc: Global, text: &SharedBytes) -> Result<SharedText, NoMemory>
    ensures { IfOk result (λ own. own ≡ text.now) }
{
    let own = SharedText::of(alloc, text.as_slice())?;
    Ok(own)
}

/// A CONNECT of a fresh client.
fn plan_connect(alloc: Global, conn: u64, text: &[u8]) -> Result<Plan, NoMemory>
    ensures { IfOk result (λ plan. plan ≡ connect_plan conn (opts_of text.now)) }
{
    match ConnectOpts::read(alloc, text) {
        Ok(opts) => {
            let ConnectOpts {
                user,
                password,
                verbose,
                echo,
                headers,
            } = opts;
            let command = Command::Connect {
                conn,
                user,
                password,
                echo,
            };
            Ok(Plan::Asks(command, Stage::Connected { verbose, headers }))
        }
        Err(ConnectError::NoMemory) => Err(NoMemory),
        Err(ConnectError::NotJson | ConnectError::NotObject | ConnectError::FieldType) => {
            Ok(plan_of_error(ServerError::ParserError, Stage::Fresh))
        }
    }
}

/// The message of these texts, if its subjects are subjects. They are shared, not copied.
fn message_of_text(text: &MessageText) -> Result<Option<Message>, NoMemory>
    ensures { IfOk result (λ message. message ≡ read.message_of text.now) }
{
    let message = Message::of(text.again()?);
    Ok(message)
}

/// The message of an HPUB, if its client declared headers and its subjects are subjects. It is apart, so that a PUB doesn't
/// need its locals.
#[inline(never)]
fn message_if(headers: bool, text: &MessageText) -> Result<Option<Message>, NoMemory>
    ensures { IfOk result (λ message. message ≡ message_if headers text.now) }
{
    if headers {
        message_of_text(text)
    } else {
        Ok(None)
    }
}

/// Why a client's HPUB publishes nothing: it has not declared headers, or the subjects are none.
fn headed_fault(headers: bool) -> ServerError<'static>
    ensures { result ≡ headed_fault headers }
{
    if headers {
        ServerError::InvalidSubject
    } else {
        ServerError::ParserError
    }
}

/// A SUB of a client whose CONNECT was accepted.
fn plan_subscribe(
    alloc: Global,
    conn: u64,
    stage: Stage,
    subject: &SharedBytes,
    queue: &Option<SharedBytes>,
    sid: &SharedBytes,
) -> Result<Plan, NoMemory>
    ensures { IfOk result (λ plan. plan ≡ subscribe_plan conn stage subject.now queue.now sid.now) }
{
    match pattern_if(alloc, subject.as_slice())? {
        None => Ok(plan_of_error(ServerError::InvalidSubject, stage)),
        Some(pattern) => match queue_of(alloc, queue)? {
            None => Ok(plan_of_error(ServerError::InvalidSubject, stage)),
            Some(queue) => {
                let subject = Shared::new(alloc, pattern)?;
                let sid = own_text(alloc, sid)?;
                let command = Command::Sub {
                    conn,
                    subject,
                    queue,
                    sid,
                };
                Ok(Plan::Asks(command, stage))
            }
        },
    }
}

/// A frame of a fresh client.
fn plan_fresh(alloc: Global, conn: u64, frame: &Frame) -> Result<Plan, NoMemory>
    ensures { IfOk result (λ plan. plan ≡ fresh_plan conn frame.now) }
{
    match frame {
        Frame::Connect(text) => plan_connect(alloc, conn, text.as_slice()),
        Frame::Ping => Ok(Plan::Tells(reply_of_text(Text::Pong, Stage::Fresh))),
        Frame::Pong => Ok(Plan::Tells(reply_of_text(Text::Nothing, Stage::Fresh))),
        Frame::Fault(fault) => Ok(Plan::Tells(reply_of_text(
            fault_text(*fault),
            Stage::Closed { session: false },
        ))),
        Frame::Pub(_) => Ok(plan_of_error(ServerError::Authorization, Stage::Fresh)),
        Frame::Hpub(_) => Ok(plan_of_error(ServerError::Authorization, Stage::Fresh)),
        Frame::Sub { .. } => Ok(plan_of_error(ServerError::Authorization, Stage::Fresh)),
        Frame::Unsub { .. } => Ok(plan_of_error(ServerError::Authorization, Stage::Fresh)),
    }
}

/// The plan of a frame that publishes no message, of a client whose CONNECT was accepted, and which may have declared
/// headers.
fn plan_connected(
    alloc: Global,
    conn: u64,
    stage: Stage,
    headers: bool,
    frame: &Frame,
) -> Result<Plan, NoMemory>
    ensures { IfOk result (λ plan. message_in headers frame.now ≡ None → plan ≡ connected_plan conn stage headers frame.now) }
{
    match frame {
        Frame::Connect(_) => Ok(plan_of_error(ServerError::InvalidProtocol, stage)),
        Frame::Pub(_) => Ok(plan_of_error(ServerError::InvalidSubject, stage)),
        Frame::Hpub(_) => Ok(plan_of_error(headed_fault(headers), stage)),
        Frame::Sub {
            subject,
            queue,
            sid,
        } => plan_subscribe(alloc, conn, stage, subject, queue, sid),
        Frame::Unsub { sid, most } => {
            let sid = own_text(alloc, sid)?;
            let most = *most;
            Ok(Plan::Asks(Command::Unsub { conn, sid, most }, stage))
        }
        Frame::Ping => Ok(Plan::Tells(reply_of_text(Text::Pong, stage))),
        Frame::Pong => Ok(Plan::Tells(reply_of_text(Text::Nothing, stage))),
        Frame::Fault(fault) => Ok(Plan::Tells(reply_of_text(fault_text(*fault), stage.closed()))),
    }
}

/// The message of a PUB, or of an HPUB of a client that declared headers, if its subjects are subjects.
fn message_in(headers: bool, frame: &Frame) -> Result<Option<Message>, NoMemory>
    ensures message { IfOk result (λ published. published ≡ message_in headers frame.now) }
    ensures plan { IfOk result (λ published. IfSome published (λ message. (conn : ℕ) (stage : Stage) → connected_plan conn stage headers frame.now ≡ Publishes message)) }
{
    match frame {
        Frame::Pub(text) => {
            let message = message_of_text(text)?;
            Ok(message)
        }
        Frame::Hpub(text) => message_if(headers, text),
        Frame::Connect(_) => Ok(None),
        Frame::Sub { .. } => Ok(None),
        Frame::Unsub { .. } => Ok(None),
        Frame::Ping => Ok(None),
        Frame::Pong => Ok(None),
        Frame::Fault(_) => Ok(None),
    }
}

/// Returns the message that a frame publishes: that of a PUB or an HPUB of a client whose CONNECT was accepted. `NoMemory`
/// comes where it can't be had.
pub fn message_of(stage: Stage, frame: &Frame) -> Result<Option<Message>, NoMemory>
    ensures message { IfOk result (λ published. published ≡ published_by stage frame.now) }
    ensures plan { IfOk result (λ published. IfSome published (λ message. (conn : ℕ) → plan_of conn stage frame.now ≡ Publishes message)) }
{
    match stage {
        Stage::Fresh => Ok(None),
        Stage::Connected { headers, .. } => message_in(headers, frame),
        Stage::Closed { .. } => Ok(None),
    }
}

/// The plan of a frame that publishes no message. It is apart, so that a message doesn't need its locals.
#[inline(never)]
fn plan_of_other(alloc: Global, conn: u64, stage: Stage, frame: &Frame) -> Result<Plan, NoMemory>
    ensures { IfOk result (λ plan. published_by stage frame.now ≡ None → plan ≡ plan_of conn stage frame.now) }
{
    match stage {
        Stage::Fresh => plan_fresh(alloc, conn, frame),
        Stage::Connected { verbose, headers } => plan_connected(
            alloc,
            conn,
            Stage::Connected { verbose, headers },
            headers,
            frame,
        ),
        Stage::Closed { session } => Ok(Plan::Tells(reply_of_text(
            Text::Nothing,
            Stage::Closed { session },
        ))),
    }
}

/// Returns the plan of a frame: its message, looked for first since most frames have one, or what else is done about it.
/// After a closing text nothing is looked at. `NoMemory` comes where its texts can't be kept.
#[inline(always)]
pub fn plan_of(alloc: Global, conn: u64, stage: Stage, frame: &Frame) -> Result<Plan, NoMemory>
    ensures plan { IfOk result (λ plan. plan ≡ plan_of conn stage frame.now) }
{
    match message_of(stage, frame)? {
        Some(message) => Ok(Plan::Publishes(message)),
        None => {
            let plan = plan_of_other(alloc, conn, stage, frame)?;
            Ok(plan)
        }
    }
}
