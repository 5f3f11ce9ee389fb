//! The table of a user's grants by their reply subjects, from the oldest to the youngest, behind some that were dropped and wait to
//! be removed. They are removed many at a time, so that a note walks over no others. No function takes memory.
ghost use Rattle.std.specs.Prelude.{◌≡◌, ◌+◌, ◌-◌, ◌*◌, ◌^◌, ◌<◌, ◌≤◌, ◌++◌, ◌∷◌, [], ℕ, List, None, Some, cond, length, map, filter, drop, slice_get, is_some, IfSome};
ghost use Rattle.std.specs.List.{remove};
ghost use Rattle.indexmap.specs.IndexMap.{spare, get, index_of_by, IsUnique};
ghost use Rattle.subjects.specs.Subject.{Token};
ghost use Rattle.subjects.specs.Equal.{same_subject};
ghost use Rattle.reply_grants.specs.Grants as grants;
ghost use Rattle.reply_grants.specs.Grants.{after_response, has_live, without};
ghost use Rattle.reply_grants.specs.Window.{Entry, IsKept, grant_of, so_far, window};

use crate::subject_key::SubjectKey;
use crate::terms::allow;
use indexmap::IndexMap;
use policy_doc::permission_doc::Terms;
use std::hash::RandomState;
use subjects::{Subject, SubjectRef};

/// How many grants may stand.
pub(crate) const MOST: usize = 1024;

/// A grant without its reply subject: when it was noted, and how many responses have passed on it since.
#[derive(Clone, Copy, Debug)]
pub(crate) struct Granted {
    pub noted: u64,
    pub count: u64,
}

/// The grants by their reply subjects, in order of age.
pub(crate) type GrantTable = IndexMap<Subject, Granted, RandomState>;

impl Granted {
    /// Returns one that is noted now.
    pub fn new(now: u64) -> Granted
        ensures { (result.noted ≡ now) × (result.count ≡ 0) }
    {
        Granted {
            noted: now,
            count: 0,
        }
    }

    /// Returns whether the grant is live.
    fn is_live(&self, now: u64, terms: Option<Terms>) -> bool
        ensures { (subject : List Token) → result ≡ grants.is_live now terms (grant_of (subject, self.now)) }
    {
        match terms {
            None => false,
            Some(terms) => allow(terms, self.count, now.saturating_sub(self.noted)),
        }
    }
}

/// Returns the place of the subject's grant.
#[inline(always)]
fn place_of(table: &GrantTable, subject: &SubjectRef<'_>) -> Option<usize>
    ensures index { result ≡ index_of_by (same_subject subject.now) table.now }
    ensures found { is_some result ≡ is_some (get same_subject table.now subject.now) }
    ensures within { IfSome result (λ i. i < length table.now.entries) }
    ensures unique { IsUnique same_subject table.now }
{
    let place = table.get_index_of(SubjectKey::of(subject));
    place
}

/// Whether a live grant behind the first so many has the subject.
pub(crate) fn is_live(
    table: &GrantTable,
    gone: usize,
    subject: &SubjectRef<'_>,
    now: u64,
    terms: Option<Terms>,
) -> bool
    ensures { result ≡ has_live subject.now now terms (window gone table.now.entries) }
{
    match place_of(table, subject) {
        None => false,
        Some(place) => {
            if place < gone {
                false
            } else {
                table[place].is_live(now, terms)
            }
        }
    }
}

/// Counts one response more on the subject, if it has a grant.
pub(crate) fn spend(table: &mut GrantTable, subject: &SubjectRef<'_>)
    ensures window { (gone : ℕ) → window gone table.new.entries ≡ after_response subject.now (window gone table.old.entries) }
    ensures held { length table.new.entries ≡ length table.old.entries }
    ensures free { spare table.new ≡ spare table.old }
{
    if let Some(granted) = table.get_mut(SubjectKey::of(subject)) {
        granted.count = granted.count.saturating_add(1);
    }
}

/// Makes the grant at a place the youngest, noted anew.
fn renew(table: &mut GrantTable, place: usize, granted: Granted)
    requires { place < length table.old.entries }
    ensures entries { (e : Entry) → slice_get table.old.entries place ≡ Some e → table.new.entries ≡ remove table.old.entries place ++ (e.0, granted) ∷ [] }
    ensures held { length table.new.entries ≡ length table.old.entries }
    ensures free { spare table.new ≡ spare table.old }
{
    let last = table.len() - 1;
    table.move_index(place, last);
    table[last] = granted;
}

/// Removes the first so many, which are half of all at least.
fn remove_first(table: &mut GrantTable, gone: usize)
    requires { (gone ≤ length table.old.entries) × (length table.old.entries ≤ 2 * gone) }
    ensures entries { table.new.entries ≡ drop gone table.old.entries }
    ensures free { spare table.old + gone ≤ spare table.new }
{
    for _gone in table.drain(..gone) {}
}

/// Makes room for one grant more where there is none. Returns how many of those that were dropped are left.
fn make_room(table: &mut GrantTable, gone: usize) -> usize
    requires { IsKept 1024 gone (length table.old.entries) (spare table.old) }
    ensures left { result ≤ gone }
    ensures entries { table.new.entries ≡ drop (gone - result) table.old.entries }
    ensures kept { IsKept 1024 result (length table.new.entries) (spare table.new) }
    ensures room { 0 < spare table.new }
{
    if table.len() < 2 * MOST {
        return gone;
    }
    remove_first(table, gone);
    0
}

/// Adds a subject that isn't there, the youngest of all.
fn append(table: &mut GrantTable, subject: Subject, granted: Granted)
    requires { (get same_subject table.old subject ≡ None) × (0 < spare table.old) }
    ensures entries { table.new.entries ≡ table.old.entries ++ (subject, granted) ∷ [] }
    ensures free { spare table.old ≤ spare table.new + 1 }
{
    match table.insert(subject, granted) {
        Ok(_) => {}
        Err(_) => unreachable!(),
    }
}

/// Puts a grant in the place of the subject's, as the youngest. Returns how many that were dropped are left before those
/// that stand, which may be one too many.
pub(crate) fn put(table: &mut GrantTable, gone: usize, subject: Subject, granted: Granted) -> usize
    requires { IsKept 1024 gone (length table.old.entries) (spare table.old) }
    ensures window { window result table.new.entries ≡ without subject (window gone table.old.entries) ++ grant_of (subject, granted) ∷ [] }
    ensures kept { IsKept 1025 result (length table.new.entries) (spare table.new) }
{
    match table.get_index_of(&subject) {
        Some(place) => {
            renew(table, place, granted);
            if place < gone { gone - 1 } else { gone }
        }
        None => {
            let gone = make_room(table, gone);
            append(table, subject, granted);
            gone
        }
    }
}

/// How many are dropped where at most so many may stand.
pub(crate) fn dropped(gone: usize, held: usize) -> usize
    requires { (gone ≤ held) × (held ≤ gone + 1025) }
    ensures { result ≡ gone + ((held - gone) - 1024) }
{
    if held - gone <= MOST { gone } else { gone + 1 }
}

/// Drops the grant at a place if it isn't live. Returns how many are dropped then.
fn drop_if_dead(
    table: &mut GrantTable,
    gone: usize,
    place: usize,
    now: u64,
    terms: Option<Terms>,
) -> usize
    requires { (gone ≤ place) × (place < length table.old.entries) × (length table.old.entries < 2 ^ 63) }
    ensures stay { so_far (grants.is_live now terms) result (place + 1) table.new.entries ≡ so_far (grants.is_live now terms) gone place table.old.entries }
    ensures dropped { (gone ≤ result) × (result ≤ place + 1) }
    ensures held { length table.new.entries ≡ length table.old.entries }
    ensures free { spare table.new ≡ spare table.old }
{
    if table[place].is_live(now, terms) {
        return gone;
    }
    table.move_index(place, gone);
    gone + 1
}

/// Drops the grants behind the first so many that aren't live. Returns how many are dropped then.
pub(crate) fn drop_dead(
    table: &mut GrantTable,
    gone: usize,
    now: u64,
    terms: Option<Terms>,
) -> usize
    requires { gone ≤ length table.old.entries }
    ensures window { window result table.new.entries ≡ filter (grants.is_live now terms) (window gone table.old.entries) }
    ensures dropped { (gone ≤ result) × (result ≤ length table.new.entries) }
    ensures held { length table.new.entries ≡ length table.old.entries }
    ensures free { spare table.new ≡ spare table.old }
{
    let mut dropped = gone;
    for place in gone..table.len() {
        dropped = drop_if_dead(table, dropped, place, now, terms);
    }
    dropped
}

/// Drops the grant of a subject, if it stands. Returns how many are dropped then.
pub(crate) fn drop_one(table: &mut GrantTable, gone: usize, subject: &SubjectRef<'_>) -> usize
    requires { gone ≤ length table.old.entries }
    ensures window { window result table.new.entries ≡ without subject.now (window gone table.old.entries) }
    ensures dropped { (gone ≤ result) × (result ≤ length table.new.entries) }
    ensures held { length table.new.entries ≡ length table.old.entries }
    ensures free { spare table.new ≡ spare table.old }
{
    match place_of(table, subject) {
        None => gone,
        Some(at) => {
            if at < gone {
                return gone;
            }
            let _held = table.len();
            table.move_index(at, gone);
            gone + 1
        }
    }
}
