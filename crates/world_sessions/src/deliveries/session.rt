use base::{Boxed, Copying, NoMemory};
use events::{Delivery, Waiting};
use policy_ready::User;
use reply_grants::{Note, Replies};
use std::alloc::Global;
use stores::connections::Connected;
use stores::outbox::{Batch, Outbox};
use subjects::SubjectRef;

/// A client whose CONNECT was accepted.
#[derive(Drop)]
pub struct Session {
    /// The connection.
    pub conn: u64,
    /// Whom it acts for, as the policy in force has it.
    pub user: User,
    /// Whether its own messages come to its own subscriptions.
    pub echo: bool,
    /// Whether a full outbox has lost a delivery since the Connect or last Take.
    pub missed: bool,
    /// What waits for the client.
    pub outbox: Outbox<Waiting>,
    /// On what it may respond.
    pub replies: Replies,
}

impl Session {
    ghost use Rattle.std.specs.Prelude.{◌≡◌, ◌≤◌, IfOk, take};
    ghost use Rattle.world_sessions.specs.deliveries.Sessions.{new_session, drained};
    ghost use Rattle.world_sessions.specs.deliveries.Delivered.{offered};
    ghost use Rattle.world_sessions.specs.deliveries.Replying.{is_granted, responding, ending};

    /// Returns a session of a user, with nothing in its outbox. The outbox takes its memory here, so that no delivery
    /// takes any later. `NoMemory` where it could not be had.
    pub fn new(
        alloc: Global,
        conn: u64,
        user: &User,
        echo: bool,
        capacity: usize,
    ) -> Result<Session, NoMemory>
        requires { 1 ≤ capacity }
        ensures { IfOk result (λ session. session ≡ new_session conn user.now echo capacity) }
    {
        Ok(Session {
            conn,
            user: user.copy(alloc)?,
            echo,
            missed: false,
            outbox: Outbox::new(alloc, capacity)?,
            replies: Replies::none(),
        })
    }

    /// Offers a delivery to the outbox at a moment: it waits there, and what is to be noted is, or it is missed.
    #[inline(always)]
    pub fn offer(&mut self, delivery: Delivery, noted: Option<Boxed<Note>>, now: u64)
        ensures { self.new ≡ offered delivery noted now self.old }
    {
        match self.outbox.offer(delivery) {
            Ok(()) => note_if(&mut self.replies, noted, now),
            Err(_) => self.missed = true,
        }
    }

    /// Returns whether a live grant lets the user publish on a subject, whatever its lists say.
    pub fn is_granted(&self, subject: &SubjectRef<'_>, now: u64) -> bool
        ensures { result ≡ is_granted now subject.now self.now }
    {
        self.replies.live(subject, now, self.user.rules.terms())
    }

    /// Counts a response on the grant for a subject, if there is one.
    pub fn spend(&mut self, subject: &SubjectRef<'_>)
        ensures { self.new ≡ responding subject.now self.old }
    {
        self.replies.spend(subject);
    }

    /// Drops the grant for a subject, if there is one, where as many responses have passed on it as may.
    pub fn end(&mut self, subject: &SubjectRef<'_>)
        ensures { self.new ≡ ending subject.now self.old }
    {
        self.replies.end(subject, self.user.rules.terms());
    }

    /// Returns the oldest deliveries, `most` at most, to be owned by others too. They stay. `NoMemory` where memory
    /// could not be had.
    pub fn share(&mut self, most: usize) -> Result<Batch<Waiting>, NoMemory>
        ensures front { IfOk result (λ front. front ≡ take most self.old.outbox.waiting) }
        ensures same { self.new ≡ self.old }
    {
        let front = self.outbox.share(most)?;
        Ok(front)
    }

    /// Lets the oldest deliveries go, `most` at most, and forgets that one was missed.
    pub fn drain(&mut self, most: usize)
        ensures { self.new ≡ drained most self.old }
    {
        self.missed = false;
        self.outbox.discard(most);
    }
}

impl Connected for Session {
    ghost use Rattle.world_sessions.specs.deliveries.Sessions.{connection_of};

    ghost connection = { connection_of };

    fn conn(&self) -> u64 {
        self.conn
    }
}

ghost use Rattle.std.specs.Prelude.{◌≡◌};
ghost use Rattle.world_sessions.specs.deliveries.Delivered.{noting};
ghost use Rattle.reply_grants.specs.Replies.{noted};

/// Notes what is to be noted, if anything is.
#[inline(always)]
fn note_if(replies: &mut Replies, what: Option<Boxed<Note>>, now: u64)
    ensures { replies.new ≡ noting what now replies.old }
{
    match what {
        None => {}
        Some(what) => note(replies, what, now),
    }
}

/// Notes what is to be noted. Apart, so that an offer with nothing to note stays small.
#[inline(never)]
fn note(replies: &mut Replies, what: Boxed<Note>, now: u64)
    ensures { replies.new ≡ noted what now replies.old }
{
    replies.note(what.into_inner(), now);
}
