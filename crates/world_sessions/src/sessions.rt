use crate::deliveries::{ByConnection, place_in, plan_all, plan_one};
use crate::same_lists::same_lists;
use crate::{Session, renewal};
use base::NoMemory;
use events::{Addressed, Met, Waiting};
use policy_ready::{CompiledPolicy, User};
use std::alloc::Global;
use std::collections::VecDeque;
use std::hash::RandomState;
use std::marker::Model;
use stores::connections::Connections;
use stores::outbox::Batch;
use subjects::SubjectRef;

/// The sessions, each found by its connection at once. A clause sees them as a list, in order of connecting.
#[derive(Drop)]
pub struct Sessions {
    alloc: Global,
    /// The connection of each, which finds its place.
    conns: Connections,
    list: Vec<Session>,
    /// Beside each, its room while deliveries are planned.
    rooms: Vec<usize>,
}

impl Model for Sessions {
    ghost use Rattle.std.specs.Prelude.{◌≡◌, ◌≤◌, List, map, length};
    ghost use Rattle.world_sessions.specs.Renewal.{connection_of};
    ghost use Rattle.world_sessions.specs.declared.deliveries.session.Session.{Session};

    ghost Value = { List Session };

    ghost view = { λ s. s.list.items };

    ghost invariant = { λ s. (s.conns ≡ map connection_of s.list.items) × (length s.list.items ≤ length s.rooms.items) };
}

impl Sessions {
    ghost use Rattle.std.specs.Prelude.{◌≡◌, ◌==◌, ◌++◌, ◌∷◌, [], ℕ, None, Some, false, All, AllPairs, IfOk, IsSomeAnd, OnOk, OnErr, MatchOption, length, filter, map, not, is_some};
    ghost use Rattle.std.specs.Bool.{Decides};
    ghost use Rattle.std.specs.List.{filter_map};
    ghost use Rattle.std.specs.Option.{option_copied};
    ghost use Rattle.world_sessions.specs.deliveries.Sessions.{session_of, with_session, drained, front_of, IsApart, IsNowhere, IsPlace};
    ghost use Rattle.world_sessions.specs.deliveries.Delivered.{delivered, after_offer};
    ghost use Rattle.world_sessions.specs.deliveries.Replying.{noted_for, responding, ending};
    ghost use Rattle.world_sessions.specs.Renewal.{user_again_of, closed_conns, remaining, HasSameLists, HaveOneUser, AreSameLists};
    ghost use Rattle.policy_doc.specs.declared.document.PolicyDoc.{PolicyDoc};

    /// Returns an empty list of sessions.
    pub fn new(alloc: Global) -> Sessions
        ensures { result ≡ [] }
    {
        Sessions {
            alloc,
            conns: Connections::new(alloc),
            list: Vec::new(alloc),
            rooms: Vec::new(alloc),
        }
    }

    /// Returns how many sessions there are.
    pub fn len(&self) -> usize
        ensures { result ≡ length self.now }
    {
        self.list.len()
    }

    /// Returns the sessions in order of connecting.
    pub fn as_slice(&self) -> &[Session]
        ensures { result.now ≡ self.now }
    {
        self.list.as_slice()
    }

    /// Tells the prover what always holds: no two sessions have one connection. It does nothing when it runs.
    pub fn prove_invariant(&self)
        ensures { AllPairs IsApart self.now }
    {
        self.conns.prove_invariant();
    }

    /// Returns the place of the session of a connection.
    #[inline(always)]
    fn place_of(&self, conn: u64) -> Option<usize>
        ensures { MatchOption result (IsNowhere conn self.now) (IsPlace conn self.now) }
    {
        let by = ByConnection {
            conns: &self.conns,
            list: self.list.as_slice(),
        };
        let place = place_in(by, conn);
        place
    }

    /// Returns the session of a connection, if it has one.
    #[inline(always)]
    pub fn find(&self, conn: u64) -> Option<&Session>
        ensures { option_copied result ≡ session_of self.now conn }
    {
        match self.place_of(conn) {
            None => None,
            Some(place) => Some(&self.list[place]),
        }
    }

    /// Returns whether a connection has a session.
    pub fn has(&self, conn: u64) -> bool
        ensures { result ≡ is_some (session_of self.now conn) }
    {
        self.find(conn).is_some()
    }

    /// Adds the session of a connection that has none. `NoMemory` where memory could not be had: then nothing is
    /// added.
    pub fn push(&mut self, session: Session) -> Result<(), NoMemory>
        requires { session_of self.old session.conn ≡ None }
        ensures ok { OnOk result (self.new ≡ self.old ++ session ∷ []) }
        ensures err { OnErr result (self.new ≡ self.old) }
    {
        self.list.reserve(1)?;
        add_room(&mut self.rooms, self.list.as_slice().len())?;
        self.conns.push(session.conn)?;
        self.list.push_reserved(session);
        Ok(())
    }

    /// Removes the session of a connection, with its outbox, if it has one.
    pub fn remove(&mut self, conn: u64)
        ensures { self.new ≡ filter (λ (z : Session). not (z.conn == conn)) self.old }
    {
        self.conns.remove(conn);
        remove_from(&mut self.list, conn);
    }

    /// Returns what each delivery of a message will meet, where they are handed over in turn. Also sets each one's
    /// `noted`, what its session is to note where it enters; the memory for that is taken here. `has_reply` is whether
    /// the published message or the names of any view have a reply: false only where none of the deliveries has one.
    /// `NoMemory` where memory could not be had: then only some are set.
    #[inline(always)]
    pub fn plan(
        &mut self,
        keys: RandomState,
        all: &mut [Addressed],
        has_reply: bool,
    ) -> Result<Met, NoMemory>
        requires none { has_reply ≡ false → All (λ (a : Addressed). a.delivery.message.reply ≡ None) all.old }
        ensures items { IfOk result (λ items. (now : ℕ) → items ≡ (delivered now all.new self.old).1) }
        ensures noted { OnOk result (all.new ≡ map (noted_for self.old) all.old) }
        ensures same { self.new ≡ self.old }
    {
        if all.len() == 1 {
            let next = &mut all[0];
            let item = plan_one(self.alloc, keys, self.find(next.conn), next, has_reply)?;
            return Ok(Met::one(item));
        }
        let rooms = self.rooms.as_mut_slice();
        let by = ByConnection {
            conns: &self.conns,
            list: self.list.as_slice(),
        };
        let items = plan_all(self.alloc, keys, by, rooms, all, has_reply)?;
        Ok(Met::from_vec(items))
    }

    /// Hands a delivery over at a moment to the session that it is for: it waits in the outbox, and what is to be noted
    /// is, or it was missed where the outbox is full. It takes no memory.
    #[inline(always)]
    pub fn hand_over(&mut self, next: Addressed, now: u64)
        ensures { self.new ≡ after_offer now next self.old }
    {
        let Addressed {
            id: _,
            conn,
            delivery,
            noted,
        } = next;
        match self.place_of(conn) {
            None => {}
            Some(place) => self.list[place].offer(delivery, noted, now),
        }
    }

    /// Hands deliveries over in turn. It takes no memory, and the vector keeps its own.
    pub fn hand_over_all(&mut self, all: &mut Vec<Addressed>, now: u64)
        ensures { self.new ≡ (delivered now all.old.items self.old).0 }
    {
        if all.len() == 1 {
            match all.pop() {
                None => {}
                Some(next) => self.hand_over(next, now),
            }
        } else {
            self.hand_over_each(all, now);
        }
    }

    /// Hands deliveries over, each where it stands: a `drain` would turn them round before.
    #[inline(always)]
    fn hand_over_each(&mut self, all: &mut Vec<Addressed>, now: u64)
        ensures { self.new ≡ (delivered now all.old.items self.old).0 }
    {
        for next in all.extract_if(.., |_| true) {
            self.hand_over(next, now);
        }
    }

    /// Counts a response on the grant that a connection's session has for a subject, if it has one.
    pub fn spend(&mut self, conn: u64, subject: &SubjectRef<'_>)
        ensures { self.new ≡ with_session (responding subject.now) conn self.old }
    {
        match self.place_of(conn) {
            None => {}
            Some(place) => self.list[place].spend(subject),
        }
    }

    /// Drops that grant where as many responses have passed on it as may.
    pub fn end(&mut self, conn: u64, subject: &SubjectRef<'_>)
        ensures { self.new ≡ with_session (ending subject.now) conn self.old }
    {
        match self.place_of(conn) {
            None => {}
            Some(place) => self.list[place].end(subject),
        }
    }

    /// Returns the oldest deliveries of a connection's outbox, `most` at most, to be owned by others too. They stay
    /// there. Without a session there are none. `NoMemory` where memory could not be had. Apart, so that a publish doesn't need its
    /// locals.
    #[inline(never)]
    pub fn share(&mut self, conn: u64, most: usize) -> Result<Batch<Waiting>, NoMemory>
        ensures front { IfOk result (λ front. front ≡ front_of most (session_of self.old conn)) }
        ensures same { self.new ≡ self.old }
    {
        match self.place_of(conn) {
            None => Batch::empty(self.alloc),
            Some(place) => self.list[place].share(most),
        }
    }

    /// Lets the oldest deliveries of a connection's outbox go, `most` at most, and forgets that one was missed.
    pub fn drain(&mut self, conn: u64, most: usize)
        ensures { self.new ≡ with_session (drained most) conn self.old }
    {
        match self.place_of(conn) {
            None => {}
            Some(place) => self.list[place].drain(most),
        }
    }

    /// Returns the users of the sessions that stay under a policy, session by session, as the policy has them.
    /// `NoMemory` where memory could not be had.
    pub fn users_again(&self, ready: &CompiledPolicy) -> Result<VecDeque<User>, NoMemory>
        ensures { IfOk result (λ users. users.items ≡ filter_map (user_again_of ready.now) self.now) }
    {
        let users = renewal::users_again(self.alloc, ready, self.list.as_slice())?;
        Ok(users)
    }

    /// Returns the connections of the sessions that don't stay under a policy, ascending. `NoMemory` where memory could
    /// not be had.
    pub fn closed(&self, ready: &CompiledPolicy) -> Result<Vec<u64>, NoMemory>
        ensures { IfOk result (λ gone. gone.items ≡ closed_conns ready.now self.now) }
    {
        let gone = renewal::closed(self.alloc, ready, self.list.as_slice())?;
        Ok(gone)
    }

    /// Returns for each session whether a policy has its user again with the subscribe lists that it has now.
    /// `NoMemory` where memory could not be had. Each user's lists are compared once, so sessions of one name must act
    /// for one user.
    pub fn same_lists(&self, ready: &CompiledPolicy) -> Result<Vec<bool>, NoMemory>
        requires { AllPairs HaveOneUser self.now }
        ensures { IfOk result (λ same. AreSameLists ready.now self.now same.items) }
    {
        let same = same_lists(self.alloc, ready, self.list.as_slice())?;
        Ok(same)
    }

    /// Returns whether a connection has a session whose user has the same subscribe lists under a policy, by what
    /// `same_lists` gave for it.
    pub fn has_same_lists(&self, same: &[bool], conn: u64) -> bool
        ensures { (doc : PolicyDoc) → AreSameLists doc self.now same.now → Decides result (IsSomeAnd (session_of self.now conn) (HasSameLists doc)) }
    {
        match self.place_of(conn) {
            None => false,
            Some(place) => match same.get(place) {
                None => false,
                Some(answer) => *answer,
            },
        }
    }

    /// Removes the sessions that don't stay under a policy, with their outboxes, and gives each of the others its
    /// user as the policy has it. Its grants stay that are live at the moment under the terms before and under that
    /// user's. The users are those of `users_again`. It takes no memory.
    pub fn renew(&mut self, ready: &CompiledPolicy, users: VecDeque<User>, now: u64)
        requires { users.items ≡ filter_map (user_again_of ready.now) self.old }
        ensures { self.new ≡ remaining now ready.now self.old }
    {
        self.conns.prove_invariant();
        renewal::renew_list(ready, &mut self.list, users, now);
        self.conns.note_all(self.list.as_slice());
    }
}

ghost use Rattle.std.specs.Prelude.{◌≡◌, ◌==◌, ◌≤◌, ◌<◌, OnOk, filter, length, not};

/// Makes sure that a room can be noted beside one more session. Connections of sessions that have gone serve again.
fn add_room(rooms: &mut Vec<usize>, count: usize) -> Result<(), NoMemory>
    requires { count ≤ length rooms.old.items }
    ensures kept { count ≤ length rooms.new.items }
    ensures more { OnOk result (count < length rooms.new.items) }
{
    if rooms.len() == count {
        rooms.push(0)?;
    }
    Ok(())
}

/// Removes the session of a connection.
fn remove_from(list: &mut Vec<Session>, conn: u64)
    ensures { list.new.items ≡ filter (λ (z : Session). not (z.conn == conn)) list.old.items }
{
    list.retain(|session| session.conn != conn);
}
