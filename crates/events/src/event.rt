ghost use Rattle.std.specs.Prelude.{◌≡◌, IfOk};
ghost use Rattle.events.specs.declared.event.Command.TheVariants.{Connect, Sub};

use base::{Copying, NoMemory, Shared, SharedText};
use messages::{Message, Sid};
use policy_ready::CompiledPolicy;
use std::alloc::Global;
use subjects::{Pattern, Subject};

/// What the hub is asked, and when.
#[derive(Debug)]
pub struct Event {
    /// Milliseconds by the caller's clock. The hub's clock never goes back: an earlier moment counts as the latest one.
    pub now: u64,
    /// What is asked.
    pub what: Command,
}

impl Drop for Event {
    #[inline(always)]
    fn drop(self) {
        let Self { now: _, what: _ } = self;
    }
}

/// A command: of one connection, which the caller names by a number of its own, or a reload, which is nobody's.
#[derive(Debug, Drop)]
pub enum Command {
    /// A client names its user (NATS documentation, "Client Protocol", CONNECT). Without a user it is answered
    /// AuthViolation. Without `echo` the client's own messages don't come to its own subscriptions.
    Connect {
        conn: u64,
        user: Option<SharedText>,
        password: SharedText,
        echo: bool,
    },
    /// A subscription under the client's own id for it (SUB). With a queue name it is a member of that queue group.
    Sub {
        conn: u64,
        subject: Shared<Pattern>,
        queue: Option<Subject>,
        sid: Sid,
    },
    /// The end of a subscription (UNSUB): at once, or once it has received `most` messages since its SUB. The limit
    /// takes the place of an earlier one. An id that no subscription has is no mistake.
    Unsub {
        conn: u64,
        sid: Sid,
        most: Option<u64>,
    },
    /// A message for whoever subscribes to its subject (PUB, HPUB). The word, which is drawn by the caller, chooses the
    /// members of queue groups.
    Pub {
        conn: u64,
        message: Message,
        word: u64,
    },
    /// The next deliveries of a session's outbox, `most` at most, oldest first.
    Take {
        conn: u64,
        most: usize,
    },
    /// The client has gone: its session, outbox and subscriptions go with it.
    Close {
        conn: u64,
    },
    /// Another policy comes into force. Sessions stay whose user it has under the same name, with the same password
    /// and account; the others are closed. Subscriptions that it refuses are removed.
    Reload(CompiledPolicy),
}

impl Copying for Command {
    fn copy(&self, alloc: Global) -> Result<Command, NoMemory> {
        match self {
            Command::Connect {
                conn,
                user,
                password,
                echo,
            } => connect(alloc, *conn, user, password, *echo),
            Command::Sub {
                conn,
                subject,
                queue,
                sid,
            } => sub(alloc, *conn, subject, queue, sid),
            Command::Unsub { conn, sid, most } => Ok(Command::Unsub {
                conn: *conn,
                sid: sid.again()?,
                most: *most,
            }),
            Command::Pub {
                conn,
                message,
                word,
            } => Ok(Command::Pub {
                conn: *conn,
                message: message.again()?,
                word: *word,
            }),
            Command::Take { conn, most } => Ok(Command::Take {
                conn: *conn,
                most: *most,
            }),
            Command::Close { conn } => Ok(Command::Close { conn: *conn }),
            Command::Reload(ready) => Ok(Command::Reload(ready.copy(alloc)?)),
        }
    }
}

/// A CONNECT in the same words.
fn connect(
    alloc: Global,
    conn: u64,
    user: &Option<SharedText>,
    password: &SharedText,
    echo: bool,
) -> Result<Command, NoMemory>
    ensures { IfOk result (λ same. same ≡ Connect conn user.now password.now echo) }
{
    Ok(Command::Connect {
        conn,
        user: user.copy(alloc)?,
        password: password.again()?,
        echo,
    })
}

/// A SUB of the same subject, queue name and id.
fn sub(
    alloc: Global,
    conn: u64,
    subject: &Shared<Pattern>,
    queue: &Option<Subject>,
    sid: &Sid,
) -> Result<Command, NoMemory>
    ensures { IfOk result (λ same. same ≡ Sub conn subject.now queue.now sid.now) }
{
    Ok(Command::Sub {
        conn,
        subject: subject.again()?,
        queue: queue.copy(alloc)?,
        sid: sid.again()?,
    })
}

impl Copying for Event {
    #[inline(always)]
    fn copy(&self, alloc: Global) -> Result<Event, NoMemory> {
        Ok(Event {
            now: self.now,
            what: self.what.copy(alloc)?,
        })
    }
}
