//! Whether two events, answers or entries are equal.
ghost use Rattle.std.specs.Prelude.{◌≡◌};
ghost use Rattle.std.specs.Bool.{Decides};
ghost use Rattle.events.specs.declared.event.Command.TheVariants.{Connect, Sub, Unsub, Pub, Take, Close, Reload};

use crate::waiting::are_same_deliveries;
use crate::{Command, Delivery, Entry, Event, Item, Message, Met, Outcome, Removed, Sent, Waiting};
use base::{Alike, Items, Shared, SharedText, are_alike, are_same_bytes};
use policy_ready::CompiledPolicy;
use stores::outbox::Batch;
use subjects::{Pattern, Subject};

impl Alike for Sent {
    fn is_like(&self, other: &Sent) -> bool {
        self.subject().is_like(&other.subject())
            && self.reply().is_like(&other.reply())
            && are_same_bytes(self.head(), other.head())
            && are_same_bytes(self.payload(), other.payload())
    }
}

impl Alike for Met {
    fn is_like(&self, other: &Met) -> bool {
        are_alike(self.as_slice(), other.as_slice())
    }
}

impl Alike for Delivery {
    fn is_like(&self, other: &Delivery) -> bool {
        self.message.is_like(&other.message) && self.sid.is_like(&other.sid)
    }
}

impl Alike for Item {
    fn is_like(&self, other: &Item) -> bool {
        match (self, other) {
            (
                Item::Entered { conn, sid },
                Item::Entered {
                    conn: number,
                    sid: name,
                },
            ) => { *conn == *number && sid.is_like(name) }
            (
                Item::Full { conn, sid },
                Item::Full {
                    conn: number,
                    sid: name,
                },
            ) => { *conn == *number && sid.is_like(name) }
            (Item::RouteFull(one), Item::RouteFull(two)) => one.is_like(two),
            (Item::MapTooLong(one), Item::MapTooLong(two)) => one.is_like(two),
            (Item::Unmapped, Item::Unmapped) => true,
            (Item::MappedTooLong(one), Item::MappedTooLong(two)) => *one == *two,
            _ => false,
        }
    }
}

impl Alike for Removed {
    fn is_like(&self, other: &Removed) -> bool {
        self.id == other.id
            && self.conn == other.conn
            && self.subject.is_like(&other.subject)
            && self.queue.is_like(&other.queue)
            && self.sid.is_like(&other.sid)
            && self.verdict.is_like(&other.verdict)
    }
}

impl Alike for Outcome {
    fn is_like(&self, other: &Outcome) -> bool {
        match (self, other) {
            (Outcome::Denied(one), Outcome::Denied(two)) => one.is_like(two),
            (Outcome::Published(by, met), Outcome::Published(rule, items)) => {
                by.is_like(rule) && met.is_like(items)
            }
            (Outcome::Taken(one, missed), Outcome::Taken(two, lost)) => {
                are_same_deliveries(one, two) && *missed == *lost
            }
            (
                Outcome::Reloaded { gone, removed },
                Outcome::Reloaded {
                    gone: closed,
                    removed: lost,
                },
            ) => { gone.is_like(closed) && removed.is_like(lost) }
            (Outcome::Connected, Outcome::Connected) => true,
            (Outcome::AuthViolation, Outcome::AuthViolation) => true,
            (Outcome::Subscribed, Outcome::Subscribed) => true,
            (Outcome::SameSid, Outcome::SameSid) => true,
            (Outcome::SubLimit, Outcome::SubLimit) => true,
            (Outcome::Unsubscribed, Outcome::Unsubscribed) => true,
            (Outcome::Closed, Outcome::Closed) => true,
            _ => false,
        }
    }
}

impl Alike for Command {
    fn is_like(&self, other: &Command) -> bool {
        match self {
            Command::Connect {
                conn,
                user,
                password,
                echo,
            } => is_connect(other, *conn, user, password, *echo),
            Command::Sub {
                conn,
                subject,
                queue,
                sid,
            } => is_sub(other, *conn, subject, queue, sid),
            Command::Unsub { conn, sid, most } => is_unsub(other, *conn, sid, most),
            Command::Pub {
                conn,
                message,
                word,
            } => is_pub(other, *conn, message, *word),
            Command::Take { conn, most } => is_take(other, *conn, *most),
            Command::Close { conn } => is_close(other, *conn),
            Command::Reload(ready) => is_reload(other, ready),
        }
    }
}

fn is_connect(
    command: &Command,
    number: u64,
    name: &Option<SharedText>,
    secret: &SharedText,
    own: bool,
) -> bool
    ensures { Decides result (command.now ≡ Connect number name.now secret.now own) }
{
    match command {
        Command::Connect {
            conn,
            user,
            password,
            echo,
        } => { *conn == number && user.is_like(name) && password.is_like(secret) && *echo == own }
        _ => false,
    }
}

fn is_sub(
    command: &Command,
    number: u64,
    pattern: &Shared<Pattern>,
    group: &Option<Subject>,
    id: &SharedText,
) -> bool
    ensures { Decides result (command.now ≡ Sub number pattern.now group.now id.now) }
{
    match command {
        Command::Sub {
            conn,
            subject,
            queue,
            sid,
        } => {
            *conn == number && subject.is_like(pattern) && queue.is_like(group) && sid.is_like(id)
        }
        _ => false,
    }
}

fn is_unsub(command: &Command, number: u64, id: &SharedText, limit: &Option<u64>) -> bool
    ensures { Decides result (command.now ≡ Unsub number id.now limit.now) }
{
    match command {
        Command::Unsub { conn, sid, most } => {
            *conn == number && sid.is_like(id) && most.is_like(limit)
        }
        _ => false,
    }
}

fn is_pub(command: &Command, number: u64, sent: &Message, drawn: u64) -> bool
    ensures { Decides result (command.now ≡ Pub number sent.now drawn) }
{
    match command {
        Command::Pub {
            conn,
            message,
            word,
        } => *conn == number && message.is_like(sent) && *word == drawn,
        _ => false,
    }
}

fn is_take(command: &Command, number: u64, limit: usize) -> bool
    ensures { Decides result (command.now ≡ Take number limit) }
{
    match command {
        Command::Take { conn, most } => *conn == number && *most == limit,
        _ => false,
    }
}

fn is_close(command: &Command, number: u64) -> bool
    ensures { Decides result (command.now ≡ Close number) }
{
    match command {
        Command::Close { conn } => *conn == number,
        _ => false,
    }
}

fn is_reload(command: &Command, policy: &CompiledPolicy) -> bool
    ensures { Decides result (command.now ≡ Reload policy.now) }
{
    match command {
        Command::Reload(ready) => ready.is_like(policy),
        _ => false,
    }
}

impl Alike for Event {
    fn is_like(&self, other: &Event) -> bool {
        self.now == other.now && self.what.is_like(&other.what)
    }
}

impl Alike for Entry {
    fn is_like(&self, other: &Entry) -> bool {
        self.number == other.number
            && self.epoch == other.epoch
            && self.outcome.is_like(&other.outcome)
            && self.event.is_like(&other.event)
    }
}
