ghost use Rattle.std.specs.Prelude.{◌≡◌, IfOk};

use crate::event::Event;
use crate::sent::Sent;
use crate::waiting::Waiting;
use base::{Boxed, Copying, Items, NoMemory, Shared};
use messages::Sid;
use permissions::{By, Verdict};
use policy_doc::exports::Row;
use reply_grants::Note;
use std::alloc::Global;
use std::marker::Model;
use std::slice;
use stores::outbox::Batch;
use subjects::{Pattern, Subject};

/// A message on its way to one subscription. All deliveries of a message share it.
#[derive(Debug)]
pub struct Delivery {
    /// What is sent: its subject is the one that the subscriber sees.
    pub message: Sent,
    /// The client's own id of the subscription.
    pub sid: Sid,
}

impl Drop for Delivery {
    #[inline(always)]
    fn drop(self) {
        let Self { message: _, sid: _ } = self;
    }
}

impl Copying for Delivery {
    fn copy(&self, _alloc: Global) -> Result<Delivery, NoMemory> {
        Ok(Delivery {
            message: self.message.again()?,
            sid: self.sid.again()?,
        })
    }
}

/// A delivery, and the subscription that it is for.
#[derive(Drop)]
pub struct Addressed {
    /// The number of the entry that made the subscription.
    pub id: u64,
    /// The connection whose session has it.
    pub conn: u64,
    /// What is sent.
    pub delivery: Delivery,
    /// What its session notes where it enters: the reply subject, where the user may respond.
    pub noted: Option<Boxed<Note>>,
}

/// What a message met at one subscription, at an import row, or in its account's mappings.
#[derive(Debug, Drop)]
pub enum Item {
    /// It is in the outbox of that connection's session, for that subscription.
    Entered { conn: u64, sid: Sid },
    /// The outbox had no room left, and the message is not in it.
    Full { conn: u64, sid: Sid },
    /// It is a request, and the exporter of this import row has as many response routes as it may have: nobody is sent it there.
    RouteFull(Shared<Row>),
    /// It doesn't cross this import row, since its subject there would have more than 512 tokens.
    MapTooLong(Shared<Row>),
    /// Its account's mappings drop it: the draw falls in a rest that is dropped. It is the only item of its message.
    Unmapped,
    /// The destination with this index, of those of the source that has its subject, would give it a subject of more than 512
    /// tokens. It is the only item of its message.
    MappedTooLong(usize),
}

/// What a message met at the subscriptions that it is for. A clause sees the items, oldest subscription first. A
/// single one has no block of its own.
#[derive(Debug)]
pub struct Met {
    items: MetItems,
}

impl Drop for Met {
    #[inline(always)]
    fn drop(self) {
        let Self { items: _ } = self;
    }
}

#[derive(Debug, Drop)]
enum MetItems {
    One(Item),
    Many(Vec<Item>),
}

impl Model for Met {
    ghost use Rattle.std.specs.Prelude.{List};
    ghost use Rattle.events.specs.Met.{met_items};
    ghost use Rattle.events.specs.declared.answer.Item.{Item};

    ghost Value = { List Item };

    ghost view = { λ met. met_items met.items };
}

impl Met {
    ghost use Rattle.std.specs.Prelude.{◌≡◌, ◌∷◌, []};

    /// One item.
    pub fn one(item: Item) -> Met
        ensures { result ≡ item ∷ [] }
    {
        Met {
            items: MetItems::One(item),
        }
    }

    /// The items of a vector, which is handed over and not copied.
    pub fn from_vec(items: Vec<Item>) -> Met
        ensures { result ≡ items.items }
    {
        Met {
            items: MetItems::Many(items),
        }
    }

    /// The items in order.
    pub fn as_slice(&self) -> &[Item]
        ensures { result.now ≡ self.now }
    {
        match &self.items {
            MetItems::One(item) => slice::from_ref(item),
            MetItems::Many(items) => items.as_slice(),
        }
    }
}

/// A subscription that a reload has removed from a session that stays.
#[derive(Debug)]
pub struct Removed {
    /// The number of the entry that made it.
    pub id: u64,
    /// The connection whose session had it.
    pub conn: u64,
    /// What it asked for.
    pub subject: Shared<Pattern>,
    /// The queue group that it was a member of, if it was of one.
    pub queue: Option<Subject>,
    /// The client's own id for it.
    pub sid: Sid,
    /// The verdict of the new policy, which refuses it.
    pub verdict: Verdict,
}

impl Drop for Removed {
    #[inline(always)]
    fn drop(self) {
        let Self {
            id: _,
            conn: _,
            subject: _,
            queue: _,
            sid: _,
            verdict: _,
        } = self;
    }
}

/// What came of a command that was not refused.
#[derive(Debug, Drop)]
pub enum Outcome {
    /// A session stands for the connection.
    Connected,
    /// No user has that name and password. There is no session.
    AuthViolation,
    /// The subscription stands.
    Subscribed,
    /// A subscription of that id stands already, and stays as it is.
    SameSid,
    /// The connection has all the subscriptions that it may have, and this one is not added. It is a limit and no
    /// denial.
    SubLimit,
    /// The user's permissions refuse the command, by this verdict.
    Denied(Verdict),
    /// The message is accepted by this rule, and met these subscriptions, oldest first.
    Published(By, Met),
    /// These deliveries left the outbox, and whether a full outbox has lost one since the Connect or last Take.
    Taken(Batch<Waiting>, bool),
    /// The subscription of that id, if one stood, has ended or has its limit.
    Unsubscribed,
    /// The session is gone.
    Closed,
    /// The policy is in force. The sessions of these connections are gone, ascending; and the sessions that stay
    /// have lost these subscriptions, oldest first.
    Reloaded {
        gone: Items<u64>,
        removed: Items<Removed>,
    },
}

/// What the hub remembers of an event that it answered, and tells of it.
#[derive(Debug)]
pub struct Entry {
    /// Numbers begin at 1 and rise by one.
    pub number: u64,
    /// Which policy is in force after the step, counted from 1. A reload alone raises it, by one.
    pub epoch: u128,
    /// What came of the command.
    pub outcome: Outcome,
    /// What was asked, and when.
    pub event: Event,
}

impl Drop for Entry {
    #[inline(always)]
    fn drop(self) {
        let Self {
            number: _,
            epoch: _,
            outcome: _,
            event: _,
        } = self;
    }
}

/// What is told of an event: the entry that is kept of it, which the answer and the history share.
pub type Answer = Shared<Entry>;
