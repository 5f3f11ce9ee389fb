ghost use Rattle.std.specs.Prelude.{◌≡◌};
ghost use Rattle.log_lines.specs.Lines.{what_of};

use permissions::Verdict;
use reply_grants::GrantEnd;

/// One thing that is told.
#[derive(Clone, Copy)]
pub struct Notice<'a> {
    /// When it happened, in milliseconds since 1970.
    pub at: u64,
    /// Whose it is: the connection's number, the address of its peer, its user and the user's account, as far as they
    /// are known.
    pub conn: Option<u64>,
    pub peer: Option<&'a [u8]>,
    pub user: Option<&'a [u8]>,
    pub account: Option<&'a [u8]>,
    /// What its client has said of its program. It is told with some lines alone.
    pub program: Program<'a>,
    pub what: What<'a>,
    /// How many lines were left out before it.
    pub left_out: u64,
}

/// What a client's CONNECT says of its program, as far as it says it.
#[derive(Clone, Copy)]
pub struct Program<'a> {
    /// Its name, its language, and the version of its library.
    pub name: Option<&'a [u8]>,
    pub lang: Option<&'a [u8]>,
    pub version: Option<&'a [u8]>,
}

/// What has happened.
#[derive(Clone, Copy)]
pub enum What<'a> {
    /// The server has begun.
    Started(Started<'a>),
    /// A CONNECT was accepted.
    Connected,
    /// A session was closed, for this reason and after so many milliseconds, as far as they are known.
    Closed {
        why: Option<Ending>,
        lasted: Option<u64>,
    },
    /// No user has that name and password.
    AuthFailed,
    /// The user's permissions refuse a command.
    Denied(Denial<'a>),
    /// A client was too slow for this reason, and is closed.
    SlowConsumer(Slowness),
    /// A client was sent this error.
    ProtocolError(&'a [u8]),
    /// A client was sent `Invalid Subject` for this frame.
    InvalidSubject(Invalid<'a>),
    /// A client has met a limit, and was sent this error.
    Limit(&'a [u8]),
    /// A request was given to nobody, since its exporter has as many response routes as it may have.
    RouteFull(Unrouted<'a>),
    /// No more sockets can be had.
    NoDescriptors,
    /// A policy is in force. So many sessions are gone, and so many subscriptions were removed.
    Reloaded {
        epoch: u64,
        gone: u64,
        removed: u64,
    },
    /// A reload has ended this session.
    Gone,
    /// A reload has removed this subscription.
    Removed(Denial<'a>),
    /// A policy has this fault, at this place of its text where it is known.
    PolicyRefused {
        text: &'a [u8],
        place: Option<&'a [u8]>,
    },
    /// What an operator should know of a policy that may come into force.
    PolicyWarning(&'a [u8]),
    /// The policy's file can't be read, for this reason.
    PolicyUnreadable(&'a [u8]),
    /// It can be read again.
    PolicyReadable,
    /// The system has refused this, so the server ends.
    Failed(&'a [u8]),
}

/// What a server is, and what it was started with.
#[derive(Clone, Copy)]
pub struct Started<'a> {
    /// Its version; and the commit that it was built of, and whether it is proved, where that is known.
    pub version: &'a [u8],
    pub commit: Option<&'a [u8]>,
    pub is_proved: Option<bool>,
    /// The policy's file, unless policies come on standard input, and where clients connect.
    pub policy: Option<&'a [u8]>,
    pub listen: &'a [u8],
    /// How many threads serve clients, and the limits by the options of the same names.
    pub workers: u64,
    pub connections: u64,
    pub outbox: u64,
    pub history: u64,
    pub history_bytes: u64,
    pub keepalive: u64,
}

/// Why a session has ended.
#[derive(Clone, Copy, Debug, PartialEq, Eq)]
pub enum Ending {
    /// Its client has sent its last byte.
    ClientLeft,
    /// Its socket has failed, as that of a client that has vanished does.
    SocketFailed,
    /// Its client was too slow.
    SlowConsumer,
    /// Its client was sent an error after which nothing comes.
    ErrorSent,
    /// There was no memory for what it has sent.
    NoMemory,
}

/// Why a client is too slow.
#[derive(Clone, Copy, Debug, PartialEq, Eq)]
pub enum Slowness {
    /// A message found its outbox full, with the patience with it used up; or it had more deliveries for it than an
    /// empty outbox holds.
    OutboxFull,
    /// More bytes would wait for it than may, with the patience with it used up.
    TooMuchWaits,
    /// What waits for it doesn't go out, while its frames could go on.
    TakesNothing,
    /// It sends, and hasn't taken for long what it was sent.
    ReadsNothing,
}

/// A frame whose subject isn't a valid one, or its queue or reply.
#[derive(Clone, Copy)]
pub struct Invalid<'a> {
    /// The operation: `PUB`, `HPUB` or `SUB`.
    pub command: &'a [u8],
    /// The texts that it has in place of a subject, and of a queue or a reply if it names one.
    pub subject: &'a [u8],
    pub queue: Option<&'a [u8]>,
    pub reply: Option<&'a [u8]>,
}

/// A request that was given to nobody.
#[derive(Clone, Copy)]
pub struct Unrouted<'a> {
    /// The subject on which it was published.
    pub subject: &'a [u8],
    /// The index of the import, among those of the client's account, that makes it a request.
    pub import: u64,
}

/// What was refused, and why.
#[derive(Clone, Copy)]
pub struct Denial<'a> {
    /// The operation: `PUB` or `SUB`.
    pub command: &'a str,
    /// Its subject and queue, and of a subscription that stood its client's id for it, as far as there are such.
    pub subject: Option<&'a [u8]>,
    pub queue: Option<&'a [u8]>,
    pub sid: Option<&'a [u8]>,
    /// The verdict, and the text of the entry that it names, if it names one that is known.
    pub verdict: Verdict,
    pub entry: Option<&'a [u8]>,
    /// Why the grant that it had for a message's subject doesn't allow it, if that is known.
    pub grant: Option<GrantEnd>,
}

/// Returns what it is that a client was sent an error: the limits are those whose texts begin with `Maximum `.
pub fn what_of(error: &[u8]) -> What<'_>
    ensures { result ≡ what_of error.entry }
{
    if error.starts_with(b"Maximum ") {
        What::Limit(error)
    } else {
        What::ProtocolError(error)
    }
}
