//! Who waits for whom.
//!
//! While nobody waits, a message costs a test or two. A look-up is one by a hash; only a call that lets publishers on, or takes
//! one out of where it stands, walks over those that wait.
ghost use Rattle.std.specs.Prelude.{◌≡◌, ◌≤◌, ◌<◌, ◌+◌, ◌++◌, ◌∷◌, ◌==◌, [], ℕ, true, None, Some, Option, OnOk, OnErr, if◌then◌else◌, length, slice_index, take, nat_eq, vec_len, vec_capacity, ◌/◌};
ghost use Rattle.std.specs.List.{list_any};
ghost use Rattle.indexmap.specs.IndexMap.{get, spare};
ghost use Rattle.shared_waits.specs.Waiting.{patience_with, nobody, is_out_with, ends_at, without, under, elsewhere, all_but, found, after_found, after_lowered, IsHeld, after_taken, has_room, let_on, IsRested, after_end, after_ends, freed_by, after_gone};

use crate::Patience;
use base::NoMemory;
use indexmap::IndexMap;
use std::alloc::Global;
use std::marker::Model;

/// How many publishers are let on at a time while something still waits for their receiver.
const TOGETHER: usize = 64;

/// The receivers that were found behind, each by its connection.
type Receivers = IndexMap<u64, Patience>;

/// The publishers that wait, each with its receiver, in the order in which they began to wait.
type Publishers = IndexMap<u64, u64>;

/// The outboxes of connections.
pub trait Outboxes {
    /// How many deliveries wait for a connection, for clauses.
    ghost waiting: { Self → ℕ → ℕ };

    /// How many deliveries wait for a connection.
    fn waiting(&self, conn: u64) -> usize
        ensures { result ≡ waiting self.now conn };
}

/// Who waits for whom: the receivers that were found behind, and the publishers that wait, each for one of them. A clause
/// sees both as lists.
#[derive(Drop)]
pub struct Waits {
    receivers: Receivers,
    publishers: Publishers,
}

impl Model for Waits {
    ghost use Rattle.shared_waits.specs.Waiting.{Waiting};

    ghost Value = { Waiting };

    ghost view = { λ w. record {
      receivers = w.receivers.entries;
      publishers = w.publishers.entries;
    } };
}

impl Waits {
    /// Makes waits in which nobody is behind and nobody waits.
    pub fn new(alloc: Global) -> Waits
        ensures { result ≡ nobody }
    {
        Waits {
            receivers: IndexMap::new(alloc),
            publishers: IndexMap::new(alloc),
        }
    }

    /// How many publishers wait.
    pub fn len(&self) -> usize
        ensures { result ≡ length self.now.publishers }
    {
        self.publishers.len()
    }

    /// Whether the patience with a receiver is used up at a moment. It isn't if the receiver wasn't found behind.
    pub fn is_out(&self, conn: u64, now: u64) -> bool
        ensures { result ≡ is_out_with self.now now conn }
    {
        match self.receivers.get(&conn) {
            None => false,
            Some(patience) => patience.is_out(now),
        }
    }

    /// The moment at which the patience with a receiver is used up, if it stays behind.
    pub fn until(&self, conn: u64) -> Option<u64>
        ensures { result ≡ ends_at (patience_with self.now conn) }
    {
        match self.receivers.get(&conn) {
            None => None,
            Some(patience) => Some(patience.out_at()),
        }
    }

    /// Takes a publisher out of where it stands, if it waits.
    #[inline(always)]
    pub fn take_out(&mut self, publisher: u64)
        ensures receivers { self.new.receivers ≡ self.old.receivers }
        ensures publishers { self.new.publishers ≡ without publisher self.old.publishers }
    {
        if !self.publishers.is_empty() {
            leave(&mut self.publishers, publisher);
        }
    }

    /// Has a publisher wait whose message has no room at the receivers `held`: for the first of them, and for no other. Each
    /// of them is behind from this moment on, if it wasn't before. The publisher is let on once half of what waits for its
    /// receiver has left. `NoMemory` changes nothing.
    pub fn hold<O: Outboxes>(
        &mut self,
        publisher: u64,
        held: &[u64],
        now: u64,
        outboxes: &O,
    ) -> Result<(), NoMemory>
        requires some { 0 < length held.now }
        ensures ok { OnOk result (IsHeld (O.waiting outboxes.now) now publisher (slice_index held.now 0) held.now self.old self.new) }
        ensures err { OnErr result (self.new ≡ self.old) }
    {
        self.publishers.reserve(1)?;
        self.receivers.reserve(held.len())?;
        let first = held[0];
        find_all(&mut self.receivers, held, now, outboxes);
        lower(&mut self.receivers, first, outboxes.waiting(first) / 2);
        add_publisher(&mut self.publishers, publisher, first);
        Ok(())
    }

    /// Follows a receiver's Take, after which so many deliveries wait for it. If it is behind, it is charged with the
    /// milliseconds in which its socket took nothing since its Take before. If few enough deliveries wait, it is behind no
    /// more, and publishers that wait for it are let on: all if nothing waits, else the first 64 of them.
    pub fn follow_take(
        &mut self,
        conn: u64,
        waiting: usize,
        refused: u64,
        now: u64,
        freed: &mut Vec<u64>,
    )
        requires room { vec_len freed.old + length self.old.publishers ≤ vec_capacity freed.old }
        ensures freed { freed.new.items ≡ freed.old.items ++ let_on conn waiting self.old }
        ensures rested { IsRested conn waiting refused now self.old self.new }
    {
        if !charge(&mut self.receivers, conn, waiting, refused, now) {
            return;
        }
        if waiting == 0 {
            note_all(&self.publishers, conn, freed);
            leave_all(&mut self.publishers, conn);
        } else {
            let_some_on(&mut self.publishers, conn, freed);
        }
    }

    /// Removes connections that have ended: they are behind no more and wait for nobody; those that wait for them are let
    /// on.
    pub fn remove(&mut self, conns: &[u64], freed: &mut Vec<u64>)
        requires room { vec_len freed.old + length self.old.publishers ≤ vec_capacity freed.old }
        ensures receivers { (conn : ℕ) → patience_with self.new conn ≡ after_gone conns.now conn (patience_with self.old conn) }
        ensures freed { freed.new.items ≡ freed.old.items ++ freed_by conns.now self.old.publishers }
        ensures publishers { self.new.publishers ≡ after_ends conns.now self.old.publishers }
    {
        for conn in conns {
            self.remove_one(*conn, freed);
        }
    }

    /// Removes one connection that has ended.
    fn remove_one(&mut self, conn: u64, freed: &mut Vec<u64>)
        requires room { vec_len freed.old + length self.old.publishers ≤ vec_capacity freed.old }
        ensures receivers { (other : ℕ) → patience_with self.new other ≡ (if conn == other then None else patience_with self.old other) }
        ensures freed { freed.new.items ≡ freed.old.items ++ under conn self.old.publishers }
        ensures publishers { self.new.publishers ≡ after_end conn self.old.publishers }
        ensures left { vec_len freed.new + length self.new.publishers ≤ vec_capacity freed.new }
    {
        self.receivers.swap_remove(&conn);
        note_all(&self.publishers, conn, freed);
        leave_all(&mut self.publishers, conn);
        leave(&mut self.publishers, conn);
    }
}

/// Takes a publisher out of where it stands.
#[inline(never)]
fn leave(publishers: &mut Publishers, publisher: u64)
    ensures left { publishers.new.entries ≡ without publisher publishers.old.entries }
    ensures room { spare publishers.old ≤ spare publishers.new }
    ensures gone { get nat_eq publishers.new publisher ≡ None }
{
    if publishers.contains_key(&publisher) {
        publishers.retain(|other, _| publisher != *other);
    }
}

/// Takes out all publishers that wait for a receiver.
fn leave_all(publishers: &mut Publishers, receiver: u64)
    ensures { publishers.new.entries ≡ elsewhere receiver publishers.old.entries }
{
    publishers.retain(|_, other| receiver != *other);
}

/// Takes out the publishers that wait for a receiver and are let on.
fn leave_some(publishers: &mut Publishers, receiver: u64, freed: &[u64])
    ensures { publishers.new.entries ≡ all_but receiver freed.now publishers.old.entries }
{
    publishers.retain(|publisher, other| !(receiver == *other && freed.contains(publisher)));
}

/// Lets the first 64 publishers on that wait for a receiver.
fn let_some_on(publishers: &mut Publishers, receiver: u64, freed: &mut Vec<u64>)
    requires room { vec_len freed.old + length publishers.old.entries ≤ vec_capacity freed.old }
    ensures noted { freed.new.items ≡ freed.old.items ++ take 64 (under receiver publishers.old.entries) }
    ensures left { publishers.new.entries ≡ all_but receiver (take 64 (under receiver publishers.old.entries)) publishers.old.entries }
{
    let start = freed.len();
    note_first(publishers, receiver, freed);
    leave_some(publishers, receiver, &freed.as_slice()[start..]);
}

/// Has a publisher wait for a receiver and for no other.
fn add_publisher(publishers: &mut Publishers, publisher: u64, receiver: u64)
    requires { 0 < spare publishers.old }
    ensures { publishers.new.entries ≡ without publisher publishers.old.entries ++ (publisher, receiver) ∷ [] }
{
    leave(publishers, publisher);
    match publishers.insert(publisher, receiver) {
        Ok(_) => {}
        Err(_) => unreachable!(),
    }
}

/// Lists the publishers that wait for a receiver.
fn note_all(publishers: &Publishers, receiver: u64, freed: &mut Vec<u64>)
    requires room { vec_len freed.old + length publishers.now.entries ≤ vec_capacity freed.old }
    ensures noted { freed.new.items ≡ freed.old.items ++ under receiver publishers.now.entries }
    ensures room { vec_capacity freed.new ≡ vec_capacity freed.old }
{
    for (publisher, other) in publishers.iter() {
        if receiver == *other {
            freed.push_reserved(*publisher);
        }
    }
}

/// Lists the first 64 publishers that wait for a receiver.
fn note_first(publishers: &Publishers, receiver: u64, freed: &mut Vec<u64>)
    requires room { vec_len freed.old + length publishers.now.entries ≤ vec_capacity freed.old }
    ensures { freed.new.items ≡ freed.old.items ++ take 64 (under receiver publishers.now.entries) }
{
    let mut left = TOGETHER;
    for (publisher, other) in publishers.iter() {
        if left > 0 && receiver == *other {
            freed.push_reserved(*publisher);
            left -= 1;
        }
    }
}

/// Sets the patience with a receiver that has one, or for which there is room.
fn put(receivers: &mut Receivers, conn: u64, patience: Patience)
    requires { (get nat_eq receivers.old conn ≡ None) → 0 < spare receivers.old }
    ensures put { (other : ℕ) → get nat_eq receivers.new other ≡ (if conn == other then Some patience else get nat_eq receivers.old other) }
    ensures room { spare receivers.old ≤ spare receivers.new + 1 }
{
    match receivers.insert(conn, patience) {
        Ok(_) => {}
        Err(_) => unreachable!(),
    }
}

/// Sets a receiver behind, which has no room for a message.
fn find(receivers: &mut Receivers, conn: u64, now: u64, most: usize)
    requires { 0 < spare receivers.old }
    ensures found { (other : ℕ) → get nat_eq receivers.new other ≡ (if conn == other then Some (found now most (get nat_eq receivers.old conn)) else get nat_eq receivers.old other) }
    ensures room { spare receivers.old ≤ spare receivers.new + 1 }
{
    let patience = match receivers.get(&conn) {
        None => Patience::new(now, most),
        Some(patience) => patience.begin(now, most),
    };
    put(receivers, conn, patience);
}

/// Sets several receivers behind.
fn find_all<O: Outboxes>(receivers: &mut Receivers, held: &[u64], now: u64, outboxes: &O)
    requires { length held.now ≤ spare receivers.old }
    ensures { (conn : ℕ) → get nat_eq receivers.new conn ≡ after_found (O.waiting outboxes.now) now held.now conn (get nat_eq receivers.old conn) }
{
    for conn in held {
        find(receivers, *conn, now, outboxes.waiting(*conn) / 2);
    }
}

/// Lowers the number of deliveries with which the publishers of a receiver are let on.
fn lower(receivers: &mut Receivers, receiver: u64, most: usize)
    ensures { (conn : ℕ) → get nat_eq receivers.new conn ≡ after_lowered receiver most conn (get nat_eq receivers.old conn) }
{
    match receivers.get(&receiver) {
        None => {}
        Some(patience) => {
            let lowered = patience.lower(most);
            put(receivers, receiver, lowered);
        }
    }
}

/// Charges a receiver behind a Take that has left so many, and returns whether its publishers are let on.
fn charge(receivers: &mut Receivers, receiver: u64, waiting: usize, refused: u64, now: u64) -> bool
    ensures receivers { (conn : ℕ) → get nat_eq receivers.new conn ≡ after_taken receiver waiting refused now conn (get nat_eq receivers.old conn) }
    ensures room { result ≡ has_room waiting (get nat_eq receivers.old receiver) }
{
    match receivers.get(&receiver) {
        None => false,
        Some(patience) => {
            let has_room = patience.has_room(waiting);
            let taken = patience.take(waiting, refused, now);
            put(receivers, receiver, taken);
            has_room
        }
    }
}
