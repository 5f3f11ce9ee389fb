//! What deliveries will meet, and what is to be noted with them, before one is handed over.
ghost use Rattle.std.specs.Prelude.{◌≡◌, ℕ, ◌<◌, ◌≤◌, ◌-◌, ◌==◌, ◌∷◌, [], All, None, false, IfOk, IfSome, OnOk, IsTrue, length, map, position, nat_lt, slice_index_or, if◌then◌else◌};
ghost use Rattle.std.specs.Option.{option_copied};
ghost use Rattle.world_sessions.specs.deliveries.Sessions.{session_of};
ghost use Rattle.world_sessions.specs.deliveries.Delivered.{has_room, room_in, delivered};
ghost use Rattle.world_sessions.specs.deliveries.Planned.{room_at, rooms_of, with_room, planned, entered, IsRoomy, AreRoomy};
ghost use Rattle.world_sessions.specs.deliveries.Sessions.{connection_of};
ghost use Rattle.world_sessions.specs.deliveries.Replying.{note_for, noted_for};

use crate::deliveries::Session;
use crate::deliveries::noting::note_for;
use base::NoMemory;
use events::{Addressed, Item};
use std::alloc::Global;
use std::hash::RandomState;
use stores::connections::Connections;

/// The sessions in order, and their connections in the same order, by which the place of each is found.
#[derive(Clone, Copy)]
pub struct ByConnection<'a> {
    pub conns: &'a Connections,
    pub list: &'a [Session],
}

/// Returns the place of the session of a connection: mostly that of the hint.
#[inline(always)]
pub fn place_in(by: ByConnection<'_>, conn: u64) -> Option<usize>
    requires { by.conns.now ≡ map connection_of by.list.now }
    ensures { result ≡ position (λ (z : Session). z.conn == conn) by.entry.list.now }
{
    by.conns.prove_invariant();
    let hint = by.conns.hint(conn);
    match by.list.get(hint) {
        None => {}
        Some(session) => {
            if session.conn == conn {
                return Some(hint);
            }
        }
    }
    let place = by.conns.find(conn);
    place
}

/// Returns whether one more delivery has room in a session's outbox.
#[tactic(auto, using(crate::proofs::deliveries::Plans::has_room_is))]
fn has_room(session: Option<&Session>) -> bool
    ensures { result ≡ has_room (option_copied session.entry) }
{
    match session {
        None => false,
        Some(session) => 0 < session.outbox.room(),
    }
}

/// Sets a delivery's `noted`, what its session is to note, by the delivery's own reply.
#[inline(always)]
fn put_note(
    alloc: Global,
    keys: RandomState,
    session: Option<&Session>,
    next: &mut Addressed,
) -> Result<(), NoMemory>
    ensures { OnOk result (next.new ≡ record next.old { noted = note_for next.old.delivery.message.reply (option_copied session.entry) }) }
{
    let noted = match next.delivery.message.reply() {
        None => None,
        Some(reply) => note_for(alloc, keys, &reply, session)?,
    };
    next.noted = noted;
    Ok(())
}

/// Returns what a single delivery meets at the session that it is for. Also sets its `noted`, what that session is to
/// note. `has_reply` is false only where the delivery has no reply.
#[inline(always)]
pub fn plan_one(
    alloc: Global,
    keys: RandomState,
    session: Option<&Session>,
    next: &mut Addressed,
    has_reply: bool,
) -> Result<Item, NoMemory>
    requires none { has_reply ≡ false → next.old.delivery.message.reply ≡ None }
    ensures item { IfOk result (λ item. item ≡ (if has_room (option_copied session.entry) then Item.Entered next.new.conn next.new.delivery.sid else Item.Full next.new.conn next.new.delivery.sid)) }
    ensures noted { OnOk result (next.new ≡ record next.old { noted = note_for next.old.delivery.message.reply (option_copied session.entry) }) }
{
    if has_reply {
        put_note(alloc, keys, session, next)?;
    } else {
        next.noted = None;
    }
    let has_room = has_room(session);
    let item = item(next, has_room)?;
    Ok(item)
}

/// Notes how much room a connection has, and gives its session.
fn note_room<'a>(by: ByConnection<'a>, rooms: &mut [usize], conn: u64) -> Option<&'a Session>
    requires keys { by.conns.now ≡ map connection_of by.list.now }
    requires within { length by.list.now ≤ length rooms.old }
    ensures session { option_copied result ≡ session_of by.entry.list.now conn }
    ensures room { (other : ℕ) → room_at by.entry.list.now rooms.new other ≡ with_room conn (room_in (session_of by.entry.list.now conn)) (room_at by.entry.list.now rooms.old) other }
{
    match place_in(by, conn) {
        None => None,
        Some(place) => {
            let session = &by.list[place];
            let room = session.outbox.room();
            rooms[place] = room;
            Some(session)
        }
    }
}

/// Takes one from the room of a connection, and returns whether there was any.
fn take_room(by: ByConnection<'_>, rooms: &mut [usize], conn: u64) -> bool
    requires keys { by.conns.now ≡ map connection_of by.list.now }
    requires within { length by.list.now ≤ length rooms.old }
    ensures had { result ≡ nat_lt 0 (room_at by.entry.list.now rooms.old conn) }
    ensures after { (other : ℕ) → room_at by.entry.list.now rooms.new other ≡ with_room conn (room_at by.entry.list.now rooms.old conn - 1) (room_at by.entry.list.now rooms.old) other }
{
    match place_in(by, conn) {
        None => false,
        Some(place) => {
            let room = rooms[place];
            rooms[place] = room.saturating_sub(1);
            0 < room
        }
    }
}

/// Notes the room of each connection that a delivery is for, and sets each delivery's `noted`, what its session is to
/// note.
fn note_rooms(
    alloc: Global,
    keys: RandomState,
    by: ByConnection<'_>,
    rooms: &mut [usize],
    all: &mut [Addressed],
) -> Result<(), NoMemory>
    requires keys { by.conns.now ≡ map connection_of by.list.now }
    requires within { length by.list.now ≤ length rooms.old }
    ensures rooms { OnOk result ((k : ℕ) (d : Addressed) → k < length all.old →
        room_at by.entry.list.now rooms.new (slice_index_or all.old k d).conn ≡ rooms_of by.entry.list.now (slice_index_or all.old k d).conn) }
    ensures noted { OnOk result (all.new ≡ map (noted_for by.entry.list.now) all.old) }
{
    for next in all.iter_mut() {
        let session = note_room(by, rooms, next.conn);
        put_note(alloc, keys, session, next)?;
    }
    Ok(())
}

/// Returns what a delivery meets where there is room, or where there is none.
fn item(next: &Addressed, has_room: bool) -> Result<Item, NoMemory>
    ensures { IfOk result (λ item. item ≡ (if has_room then Item.Entered next.now.conn next.now.delivery.sid else Item.Full next.now.conn next.now.delivery.sid)) }
{
    let conn = next.conn;
    let sid = next.delivery.sid.again()?;
    if has_room {
        Ok(Item::Entered { conn, sid })
    } else {
        Ok(Item::Full { conn, sid })
    }
}

/// Returns what each delivery meets, where the rooms are noted.
fn plan_each(
    alloc: Global,
    by: ByConnection<'_>,
    rooms: &mut [usize],
    all: &[Addressed],
) -> Result<Vec<Item>, NoMemory>
    requires keys { by.conns.now ≡ map connection_of by.list.now }
    requires within { length by.list.now ≤ length rooms.old }
    ensures { IfOk result (λ items. items.items ≡ planned all.now (room_at by.entry.list.now rooms.old)) }
{
    let mut items = Vec::with_capacity(alloc, all.len())?;
    for next in all {
        let has_room = take_room(by, rooms, next.conn);
        items.push(item(next, has_room)?)?;
    }
    Ok(items)
}

/// Returns whether a delivery has nothing `noted`, and its session has room for it after so many others.
#[inline(always)]
fn has_room_after(by: ByConnection<'_>, next: &Addressed, before: usize) -> bool
    requires { by.conns.now ≡ map connection_of by.list.now }
    ensures { IsTrue result → IsRoomy before next.now (rooms_of by.entry.list.now) }
{
    if next.noted.is_some() {
        return false;
    }
    match place_in(by, next.conn) {
        None => false,
        Some(place) => before < by.list[place].outbox.room(),
    }
}

/// Returns what deliveries meet, where none has anything `noted` and each has room even where all those before it are for the
/// same session: they all enter.
fn enter_all(
    alloc: Global,
    by: ByConnection<'_>,
    all: &[Addressed],
) -> Result<Option<Vec<Item>>, NoMemory>
    requires { by.conns.now ≡ map connection_of by.list.now }
    ensures { IfOk result (λ entering. IfSome entering (λ items. AreRoomy all.now (rooms_of by.entry.list.now) × (items.items ≡ map entered all.now))) }
{
    let mut items = Vec::with_capacity(alloc, all.len())?;
    for (before, next) in all.iter().enumerate() {
        if !has_room_after(by, next, before) {
            return Ok(None);
        }
        items.push_reserved(item(next, true)?);
    }
    Ok(Some(items))
}

/// Returns what each delivery of a message will meet, told by the room that is left for each. Also sets each one's
/// `noted`, what its session is to note. Apart, so that a plan where all have room stays small.
#[inline(never)]
fn plan_by_rooms(
    alloc: Global,
    keys: RandomState,
    by: ByConnection<'_>,
    rooms: &mut [usize],
    all: &mut [Addressed],
) -> Result<Vec<Item>, NoMemory>
    requires keys { by.conns.now ≡ map connection_of by.list.now }
    requires within { length by.list.now ≤ length rooms.old }
    ensures items { IfOk result (λ items. (now : ℕ) → items.items ≡ (delivered now all.new by.entry.list.now).1) }
    ensures noted { OnOk result (all.new ≡ map (noted_for by.entry.list.now) all.old) }
{
    note_rooms(alloc, keys, by, rooms, all)?;
    let items = plan_each(alloc, by, rooms, all)?;
    Ok(items)
}

/// Returns what each delivery of a message will meet, where they are handed over in turn: `Entered`, or `Full` where its session has
/// no room left or is missing. Also sets each one's `noted`, what its session is to note. `rooms` is a list to work in.
/// `has_reply` is false only where none of the deliveries has a reply. `NoMemory` where memory could not be had: then some are set.
#[inline(never)]
pub fn plan_all(
    alloc: Global,
    keys: RandomState,
    by: ByConnection<'_>,
    rooms: &mut [usize],
    all: &mut [Addressed],
    has_reply: bool,
) -> Result<Vec<Item>, NoMemory>
    requires none { has_reply ≡ false → All (λ (a : Addressed). a.delivery.message.reply ≡ None) all.old }
    requires keys { by.conns.now ≡ map connection_of by.list.now }
    requires within { length by.list.now ≤ length rooms.old }
    ensures items { IfOk result (λ items. (now : ℕ) → items.items ≡ (delivered now all.new by.entry.list.now).1) }
    ensures noted { OnOk result (all.new ≡ map (noted_for by.entry.list.now) all.old) }
{
    if !has_reply {
        match enter_all(alloc, by, all)? {
            None => {}
            Some(items) => return Ok(items),
        }
    }
    let items = plan_by_rooms(alloc, keys, by, rooms, all)?;
    Ok(items)
}
