ghost use Rattle.std.specs.Prelude.{◌≡◌, IfOk};

use base::{Alike, Copying, Items, NoMemory};
use events::{Waiting, are_same_deliveries};
use policy_ready::User;
use reply_grants::PlainGrant;
use std::alloc::Global;
use std::marker::Model;
use world_sessions::deliveries::Session;
use world_sessions::{Batch, Outbox};

/// A session as it was at a moment. A clause sees the session. What waited for its client is a list, so that it takes
/// no more memory than that.
pub struct PlainSession {
    conn: u64,
    user: User,
    echo: bool,
    missed: bool,
    // How much may wait. It has 128 bits, since an outbox tells only how much waits and how much more may.
    capacity: u128,
    waiting: Batch<Waiting>,
    replies: Option<Items<PlainGrant>>,
}

impl Drop for PlainSession {
    fn drop(self) {
        let Self {
            conn: _,
            user: _,
            echo: _,
            missed: _,
            capacity: _,
            waiting: _,
            replies: _,
        } = self;
    }
}

impl Model for PlainSession {
    ghost use Rattle.world_sessions.specs.declared.deliveries.session.Session as sessions;

    ghost Value = { sessions.Session };

    ghost view = { λ s. record {
      conn = s.conn;
      user = s.user;
      echo = s.echo;
      missed = s.missed;
      outbox = record { capacity = s.capacity; waiting = s.waiting };
      replies = s.replies;
    } };
}

impl PlainSession {
    /// A session as it is. `NoMemory` where memory could not be had.
    fn of(alloc: Global, session: &Session) -> Result<PlainSession, NoMemory>
        ensures { IfOk result (λ plain. plain ≡ session.now) }
    {
        Ok(PlainSession {
            conn: session.conn,
            user: session.user.copy(alloc)?,
            echo: session.echo,
            missed: session.missed,
            capacity: capacity_of(&session.outbox),
            waiting: waiting_in(&session.outbox)?,
            replies: session.replies.plain(alloc)?,
        })
    }
}

/// How much may wait in an outbox.
fn capacity_of(outbox: &Outbox<Waiting>) -> u128
    ensures { result ≡ outbox.now.capacity }
{
    outbox.len() as u128 + outbox.room() as u128
}

/// All that waits in an outbox, oldest first.
fn waiting_in(outbox: &Outbox<Waiting>) -> Result<Batch<Waiting>, NoMemory>
    ensures { IfOk result (λ waiting. waiting ≡ outbox.now.waiting) }
{
    let waiting = outbox.front(outbox.len())?;
    Ok(waiting)
}

/// Sessions as they are, in the same order. `NoMemory` where memory could not be had.
pub fn plain_sessions(alloc: Global, sessions: &[Session]) -> Result<Items<PlainSession>, NoMemory>
    ensures { IfOk result (λ all. all ≡ sessions.now) }
{
    let mut all = Vec::with_capacity(alloc, sessions.len())?;
    for session in sessions {
        all.push(PlainSession::of(alloc, session)?)?;
    }
    Ok(Items::from_vec(all))
}

impl Alike for PlainSession {
    fn is_like(&self, other: &PlainSession) -> bool {
        self.conn == other.conn
            && self.echo == other.echo
            && self.missed == other.missed
            && self.capacity == other.capacity
            && self.user.is_like(&other.user)
            && are_same_deliveries(&self.waiting, &other.waiting)
            && self.replies.is_like(&other.replies)
    }
}
