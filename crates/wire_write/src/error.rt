ghost use Rattle.std.specs.Prelude.{◌≡◌, ◌+◌, ◌++◌, ◌<◌, length, OnOk, OnErr, option_copied};
ghost use Rattle.std.specs.Vec.{vec_len, vec_capacity};
ghost use Rattle.wire_write.specs.Errors.{err_line, closes_after, subscription_denied_line};

use crate::append::{append, append_five};
use base::NoMemory;

/// What the server tells a client by `-ERR` (NATS documentation, "Client Protocol", "+OK/ERR").
#[derive(Clone, Copy, Debug)]
pub enum ServerError<'a> {
    /// The client sent an operation that the server doesn't know.
    UnknownOperation,
    /// The client sent a line or a payload of the wrong form.
    ParserError,
    /// A control line is longer than 4,096 bytes.
    ControlLine,
    /// A payload is longer than 1,048,576 bytes.
    PayloadViolation,
    /// The client isn't known, or hasn't said who it is.
    Authorization,
    /// The client connected a second time, or under a connection's number that is taken.
    InvalidProtocol,
    /// The server has as many sessions as it can hold.
    ConnectionsExceeded,
    /// The client didn't take its deliveries in time.
    SlowConsumer,
    /// A subject, a reply subject or a queue name isn't valid.
    InvalidSubject,
    /// The session has as many subscriptions as it can hold.
    SubscriptionsExceeded,
    /// The user may not publish on the subject.
    PublishDenied(&'a [u8]),
    /// The user may not subscribe to the subject, or not in the queue.
    SubscriptionDenied {
        subject: &'a [u8],
        queue: Option<&'a [u8]>,
    },
}

impl ServerError<'_> {
    /// Whether the server closes the connection after this text.
    pub fn closes(&self) -> bool
        ensures { result ≡ closes_after self.now }
    {
        match self {
            ServerError::UnknownOperation => true,
            ServerError::ParserError => true,
            ServerError::ControlLine => true,
            ServerError::PayloadViolation => true,
            ServerError::Authorization => true,
            ServerError::InvalidProtocol => true,
            ServerError::ConnectionsExceeded => true,
            ServerError::SlowConsumer => true,
            ServerError::InvalidSubject => false,
            ServerError::SubscriptionsExceeded => false,
            ServerError::PublishDenied(_) => false,
            ServerError::SubscriptionDenied {
                subject: _,
                queue: _,
            } => false,
        }
    }
}

const SUBSCRIPTION_DENIED: &[u8] = b"-ERR 'Permissions Violation for Subscription to \"";

/// Appends the `-ERR` line of a subscription that the user's permissions refuse.
fn write_subscription_denied(
    out: &mut Vec<u8>,
    subject: &[u8],
    queue: Option<&[u8]>,
) -> Result<(), NoMemory>
    ensures ok { OnOk result (out.new.items ≡ out.old.items ++ subscription_denied_line subject.now (option_copied queue.entry)) }
    ensures err { OnErr result (out.new.items ≡ out.old.items) }
    ensures full { OnErr result (vec_capacity out.old < vec_len out.old + length (subscription_denied_line subject.now (option_copied queue.entry))) }
{
    match queue {
        None => append(out, SUBSCRIPTION_DENIED, subject, b"\"'\r\n"),
        Some(queue) => append_five(
            out,
            SUBSCRIPTION_DENIED,
            subject,
            b"\" using queue \"",
            queue,
            b"\"'\r\n",
        ),
    }
}

/// Appends the `-ERR` line of an error.
/// `NoMemory` comes only where the buffer has no room for it and can't grow, and leaves it as it was.
pub fn write_err(out: &mut Vec<u8>, error: ServerError<'_>) -> Result<(), NoMemory>
    ensures ok { OnOk result (out.new.items ≡ out.old.items ++ err_line error.entry) }
    ensures err { OnErr result (out.new.items ≡ out.old.items) }
    ensures full { OnErr result (vec_capacity out.old < vec_len out.old + length (err_line error.entry)) }
{
    match error {
        ServerError::UnknownOperation => {
            Ok(out.extend_from_slice(b"-ERR 'Unknown Protocol Operation'\r\n")?)
        }
        ServerError::ParserError => Ok(out.extend_from_slice(b"-ERR 'Parser Error'\r\n")?),
        ServerError::ControlLine => {
            Ok(out.extend_from_slice(b"-ERR 'Maximum Control Line Exceeded'\r\n")?)
        }
        ServerError::PayloadViolation => {
            Ok(out.extend_from_slice(b"-ERR 'Maximum Payload Violation'\r\n")?)
        }
        ServerError::Authorization => {
            Ok(out.extend_from_slice(b"-ERR 'Authorization Violation'\r\n")?)
        }
        ServerError::InvalidProtocol => {
            Ok(out.extend_from_slice(b"-ERR 'Invalid Client Protocol'\r\n")?)
        }
        ServerError::ConnectionsExceeded => {
            Ok(out.extend_from_slice(b"-ERR 'Maximum Connections Exceeded'\r\n")?)
        }
        ServerError::SlowConsumer => Ok(out.extend_from_slice(b"-ERR 'Slow Consumer'\r\n")?),
        ServerError::InvalidSubject => Ok(out.extend_from_slice(b"-ERR 'Invalid Subject'\r\n")?),
        ServerError::SubscriptionsExceeded => {
            Ok(out.extend_from_slice(b"-ERR 'Maximum Subscriptions Exceeded'\r\n")?)
        }
        ServerError::PublishDenied(subject) => Ok(append(
            out,
            b"-ERR 'Permissions Violation for Publish to \"",
            subject,
            b"\"'\r\n",
        )?),
        ServerError::SubscriptionDenied { subject, queue } => {
            write_subscription_denied(out, subject, queue)
        }
    }
}
