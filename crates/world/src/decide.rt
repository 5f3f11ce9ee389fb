//! What each command comes to, before anything changes.
ghost use Rattle.std.specs.Prelude.{◌≡◌, IfOk, IfErr};

use crate::change::{Change, Decided};
use crate::reload::{Lost, lost_by, prove_valid};
use crate::verdict::on_subscription;
use crate::world::World;
use base::{Boxed, Copying, Items, NoMemory, Shared, SharedText};
use bytes::Bytes;
use events::{Command, HubRefusal, Message, Met, Outcome, Sid};
use permissions::Verdict;
use policy_ready::CompiledPolicy;
use std::alloc::Global;
use subjects::{Pattern, Subject};
use world_routing::marks::{Renewing, marks_again};
use world_routing::{Plan, Publish, plan_publish};
use world_sessions::Session;
use world_subscriptions::NewSubscription;

/// How many sessions may stand.
pub(crate) const SESSIONS: usize = 4096;

/// Returns an outcome that changes nothing.
fn unchanged(outcome: Outcome) -> Decided
    ensures outcome { result.outcome ≡ outcome }
    ensures change { result.change ≡ change.Nothing }
{
    Decided {
        outcome,
        change: Change::Nothing,
    }
}

/// Returns the change by which a subscription comes to stand. What it holds has one more owner.
fn stand(
    alloc: Global,
    conn: u64,
    account: &Bytes,
    subject: &Shared<Pattern>,
    queue: &Option<Subject>,
    sid: &Sid,
) -> Result<Change, NoMemory>
    ensures { IfOk result (λ made. made ≡ change.Stand (record { conn = conn; account = account.now; subject = subject.now; queue = queue.now; sid = sid.now })) }
{
    let wanted = NewSubscription {
        conn,
        account: account.clone()?,
        subject: subject.again()?,
        queue: queue.copy(alloc)?,
        sid: sid.again()?,
    };
    Ok(Change::Stand(Boxed::new(alloc, wanted)?))
}

ghost use Rattle.events.specs.declared.answer.Outcome.TheVariants as outcome;
ghost use Rattle.world.specs.declared.change.Change.TheVariants as change;

impl World {
    ghost use Rattle.std.specs.Prelude.{◌≡◌, IfOk};
    ghost use Rattle.events.specs.declared.event.Command.TheVariants as command;
    ghost use Rattle.world.specs.Transition.{moved, IsReasoned};
    ghost use Rattle.world.specs.Changes.{pruned_world, IsDecided};
    ghost use Rattle.world.specs.Reload.{AreEntitled};
    ghost use Rattle.world_routing.specs.Remembered.{AreOfPolicy};

    /// Decides what a command comes to: its outcome, and what is to be done; or why it is refused. Nothing has changed
    /// yet.
    #[inline(always)]
    pub(crate) fn decide(&mut self, command: &Command) -> Result<Decided, HubRefusal>
        requires sound { AreEntitled self.old.sessions self.old.subscriptions }
        requires users { AreOfPolicy self.old.policy self.old.sessions }
        ensures decided { IsDecided (pruned_world self.old) (moved (pruned_world self.old) command.now) result }
        ensures reason { IfOk result (λ d. IsReasoned self.old command.now d.outcome) }
        ensures same { self.new ≡ self.old }
    {
        match command {
            Command::Connect {
                conn,
                user,
                password,
                echo,
            } => self.connect(*conn, user, password, *echo),
            Command::Sub {
                conn,
                subject,
                queue,
                sid,
            } => self.subscribe(*conn, subject, queue, sid),
            Command::Unsub { conn, sid, most } => self.unsubscribe(*conn, sid, *most),
            Command::Pub {
                conn,
                message,
                word,
            } => self.publish(*conn, message, *word),
            Command::Take { conn, most } => self.take(*conn, *most),
            Command::Close { conn } => self.close(*conn),
            Command::Reload(ready) => self.reload(ready),
        }
    }

    /// Decides a Connect: a session for the user with that name and password, while there is room for one more.
    fn connect(
        &self,
        conn: u64,
        user: &Option<SharedText>,
        password: &SharedText,
        echo: bool,
    ) -> Result<Decided, HubRefusal>
        ensures decided { IsDecided (pruned_world self.now) (moved (pruned_world self.now) (command.Connect conn user.now password.now echo)) result }
        ensures reason { IfOk result (λ d. IsReasoned self.now (command.Connect conn user.now password.now echo) d.outcome) }
    {
        if self.sessions.has(conn) {
            return Err(HubRefusal::SessionTaken);
        }
        if self.sessions.len() >= SESSIONS {
            return Err(HubRefusal::SessionLimit);
        }
        match self.ready.user_with_password(user, password) {
            None => Ok(unchanged(Outcome::AuthViolation)),
            Some(user) => {
                let session = Session::new(self.alloc, conn, user, echo, self.capacity)?;
                Ok(Decided {
                    outcome: Outcome::Connected,
                    change: Change::Open(Boxed::new(self.alloc, session)?),
                })
            }
        }
    }

    /// Decides a SUB: a subscription, where the user's permissions allow it, its id is free and the connection may have
    /// one more.
    fn subscribe(
        &self,
        conn: u64,
        subject: &Shared<Pattern>,
        queue: &Option<Subject>,
        sid: &Sid,
    ) -> Result<Decided, HubRefusal>
        ensures decided { IsDecided (pruned_world self.now) (moved (pruned_world self.now) (command.Sub conn subject.now queue.now sid.now)) result }
        ensures reason { IfOk result (λ d. IsReasoned self.now (command.Sub conn subject.now queue.now sid.now) d.outcome) }
    {
        match self.sessions.find(conn) {
            None => Err(HubRefusal::NoSession),
            Some(session) => match on_subscription(&session.user.rules, subject.get(), queue) {
                Verdict::Allowed(_) => {
                    if self.subscriptions.stands(conn, sid) {
                        return Ok(unchanged(Outcome::SameSid));
                    }
                    if self.subscriptions.has_all(conn) {
                        return Ok(unchanged(Outcome::SubLimit));
                    }
                    let change = stand(
                        self.alloc,
                        conn,
                        &session.user.account,
                        subject,
                        queue,
                        sid,
                    )?;
                    Ok(Decided {
                        outcome: Outcome::Subscribed,
                        change,
                    })
                }
                Verdict::DeniedBy(index) => {
                    Ok(unchanged(Outcome::Denied(Verdict::DeniedBy(index))))
                }
                Verdict::NoAllow => Ok(unchanged(Outcome::Denied(Verdict::NoAllow))),
                Verdict::NoQueueAllow(index) => {
                    Ok(unchanged(Outcome::Denied(Verdict::NoQueueAllow(index))))
                }
            },
        }
    }

    /// Decides an UNSUB: a limit, or an end, for the connection's subscription of that id.
    fn unsubscribe(&self, conn: u64, sid: &Sid, most: Option<u64>) -> Result<Decided, HubRefusal>
        ensures decided { IsDecided (pruned_world self.now) (moved (pruned_world self.now) (command.Unsub conn sid.now most)) result }
        ensures reason { IfOk result (λ d. IsReasoned self.now (command.Unsub conn sid.now most) d.outcome) }
    {
        if !self.sessions.has(conn) {
            return Err(HubRefusal::NoSession);
        }
        let sid = sid.again()?;
        Ok(Decided {
            outcome: Outcome::Unsubscribed,
            change: Change::Limit { conn, sid, most },
        })
    }

    /// Decides a PUB: a message to whom it is for, where the user's permissions allow it.
    #[inline(always)]
    fn publish(&mut self, conn: u64, message: &Message, word: u64) -> Result<Decided, HubRefusal>
        requires users { AreOfPolicy self.old.policy self.old.sessions }
        ensures decided { IsDecided (pruned_world self.old) (moved (pruned_world self.old) (command.Pub conn message.now word)) result }
        ensures reason { IfOk result (λ d. IsReasoned self.old (command.Pub conn message.now word) d.outcome) }
        ensures same { self.new ≡ self.old }
    {
        let publish = Publish {
            conn,
            message,
            word,
            now: self.moment,
        };
        match plan_publish(
            &mut self.sessions,
            &mut self.subscriptions,
            &mut self.caches,
            &mut self.routes,
            &self.ready,
            publish,
        )? {
            Plan::Refused(verdict) => Ok(unchanged(Outcome::Denied(verdict))),
            Plan::ToNobody(by) => {
                let nobody = Met::from_vec(Vec::new(self.alloc));
                Ok(unchanged(Outcome::Published(by, nobody)))
            }
            Plan::ToSome(by, items, deliveries) => Ok(Decided {
                outcome: Outcome::Published(by, items),
                change: Change::Deliver(deliveries),
            }),
            Plan::OnRoutes(by, items, routing) => Ok(Decided {
                outcome: Outcome::Published(by, items),
                change: Change::Route(routing),
            }),
        }
    }

    /// Decides a Take: the oldest deliveries of a session's outbox.
    fn take(&mut self, conn: u64, most: usize) -> Result<Decided, HubRefusal>
        ensures decided { IsDecided (pruned_world self.old) (moved (pruned_world self.old) (command.Take conn most)) result }
        ensures reason { IfOk result (λ d. IsReasoned self.old (command.Take conn most) d.outcome) }
        ensures same { self.new ≡ self.old }
    {
        let missed = match self.sessions.find(conn) {
            None => return Err(HubRefusal::NoSession),
            Some(session) => session.missed,
        };
        let front = self.sessions.share(conn, most)?;
        Ok(Decided {
            outcome: Outcome::Taken(front, missed),
            change: Change::Drain { conn, most },
        })
    }

    /// Decides a Close: the end of a session.
    fn close(&self, conn: u64) -> Result<Decided, HubRefusal>
        ensures decided { IsDecided (pruned_world self.now) (moved (pruned_world self.now) (command.Close conn)) result }
        ensures reason { IfOk result (λ d. IsReasoned self.now (command.Close conn) d.outcome) }
    {
        if !self.sessions.has(conn) {
            return Err(HubRefusal::NoSession);
        }
        Ok(Decided {
            outcome: Outcome::Closed,
            change: Change::Leave { conn },
        })
    }

    /// Decides a reload: whose sessions stay, which subscriptions they lose, and the marks of the others.
    fn reload(&self, ready: &CompiledPolicy) -> Result<Decided, HubRefusal>
        requires sound { AreEntitled self.now.sessions self.now.subscriptions }
        ensures decided { IsDecided (pruned_world self.now) (moved (pruned_world self.now) (command.Reload ready.now)) result }
        ensures reason { IfOk result (λ d. IsReasoned self.now (command.Reload ready.now) d.outcome) }
    {
        prove_valid(ready);
        let users = self.sessions.users_again(ready)?;
        let gone = self.sessions.closed(ready)?;
        let same = self.sessions.same_lists(ready)?;
        let same = same.as_slice();
        let lost = lost_by(self.alloc, ready, &self.sessions, &self.subscriptions, same)?;
        let renewing = Renewing {
            ready,
            sessions: &self.sessions,
            same,
            marks: &self.caches.marks,
        };
        let marks = marks_again(self.alloc, renewing, &self.subscriptions)?;
        let ready = ready.copy(self.alloc)?;
        let Lost { removed, ids } = lost;
        Ok(Decided {
            outcome: Outcome::Reloaded {
                gone: Items::from_vec(gone),
                removed: Items::from_vec(removed),
            },
            change: Change::Install {
                ready,
                users,
                lost: ids,
                marks,
            },
        })
    }
}
