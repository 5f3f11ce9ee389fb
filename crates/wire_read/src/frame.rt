use crate::WireFault;
use base::SharedBytes;
use wire_message::MessageText;

/// What a client says at once: one protocol message, or the fault that ends the stream.
/// Its texts are the stream's bytes, and aren't judged.
#[derive(Debug, Drop)]
pub enum Frame {
    /// The rest of the line after the operation and the separators that follow it. It may be empty.
    Connect(SharedBytes),
    /// A message for a subject, with the subject for answers to it if the client named one.
    Pub(MessageText),
    /// A message with a header block in front of its payload. The block isn't judged either.
    Hpub(MessageText),
    /// A subscription, under the client's own name for it, as a member of a queue if the client named one.
    Sub {
        subject: SharedBytes,
        queue: Option<SharedBytes>,
        sid: SharedBytes,
    },
    /// The end of a subscription, at once or after so many messages since its beginning, at most 2^63 - 1.
    Unsub {
        sid: SharedBytes,
        most: Option<u64>,
    },
    /// A question whether the server is there.
    Ping,
    /// The answer to the server's question whether the client is there.
    Pong,
    /// What is wrong with the stream. No frame follows.
    Fault(WireFault),
}
