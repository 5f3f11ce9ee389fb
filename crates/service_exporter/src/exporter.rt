//! What one exporter has: the last number that it gave, and its routes.
ghost use Rattle.std.specs.Prelude.{◌≡◌, ◌≤◌, ◌<◌, ◌+◌, ◌-◌, ℕ, [], false, IsOk, OnOk, length, nat_lt, vec_len, vec_capacity};
ghost use Rattle.std.specs.Option.{option_copied};
ghost use Rattle.service_exporter.specs.Routes.{if_lives, kept_of, living, pruned_of, route_on, spent_of, with_route};
ghost use Rattle.service_exporter.specs.Limit.{is_full, IsNext, IsReserved};
ghost use Rattle.service_exporter.specs.Slots.{standing_in};

use crate::plain::PlainExporter;
use crate::slots::{
    Slot, compact, copy_slots, count_living, drop_dead_at, keep_rows, prune, route_on, spend,
};
use crate::tally::{MOST, Tally};
use crate::{Route, RouteError, ServiceRows};
use base::NoMemory;
use std::alloc::Global;
use std::marker::Model;
use subjects::SubjectRef;

/// How many slots may be empty however few routes stand.
const SPARE: usize = 16;

/// The routes of one exporter. A clause sees them and for how many more there is room. Those that are dead at a moment stand
/// until `prune` or `drop_dead` takes them out.
///
/// A route is found by its number, without a map of texts: where it stands if no number is missing before it, else by halves.
/// What is dead leaves the memory a few at a time as others come.
#[derive(Drop)]
pub struct Exporter {
    last: u64,
    slots: Vec<Slot>,
    /// About how many slots are empty.
    empty: usize,
    /// Where the next is looked at that may be dead.
    turn: usize,
    /// How many live, as far as that is known.
    tally: Tally,
}

impl Model for Exporter {
    ghost use Rattle.std.specs.Prelude.{◌+◌, ◌-◌, ◌<◌, vec_len, vec_capacity};
    ghost use Rattle.service_exporter.specs.Slots.{standing_in, AreRising, AreBelow};
    ghost use Rattle.service_exporter.specs.Routes.{WithRoom};
    ghost use Rattle.service_exporter.specs.Tally.{IsTallied};

    ghost Value = { WithRoom };

    ghost view = { λ e. record {
      exporter = record { last = e.last; routes = standing_in e.slots.items };
      room = vec_capacity e.slots - vec_len e.slots;
    } };

    ghost invariant = { λ e. AreRising e.slots.items × AreBelow (e.last + 1) e.slots.items × (e.last < 18446744073709551616) × IsTallied e.tally (standing_in e.slots.items) };
}

impl Exporter {
    ghost use Rattle.std.specs.Prelude.{IfOk};
    ghost use Rattle.service_exporter.specs.Routes.{no_routes};

    /// No routes.
    #[tactic(auto, unfolding(stores::specs::numbered_slots::Slots::AreRising, stores::specs::numbered_slots::Slots::AreBelow))]
    pub fn new(alloc: Global) -> Exporter
        ensures { result.exporter ≡ no_routes }
    {
        Exporter {
            last: 0,
            slots: Vec::new(alloc),
            empty: 0,
            turn: 0,
            tally: Tally::unknown(),
        }
    }

    /// A copy with its own memory, which may have less room. `NoMemory` where memory could not be had.
    pub fn copy(&self, alloc: Global) -> Result<Exporter, NoMemory>
        ensures { IfOk result (λ copy. copy.exporter ≡ self.now.exporter) }
    {
        let slots = copy_slots(alloc, self.slots.as_slice())?;
        Ok(Exporter {
            last: self.last,
            slots,
            empty: self.empty,
            turn: self.turn,
            tally: self.tally,
        })
    }

    /// What is seen of it at a moment, in a plain list. `NoMemory` where memory could not be had.
    pub fn plain(&self, alloc: Global, now: u64) -> Result<PlainExporter, NoMemory>
        ensures { IfOk result (λ plain. plain ≡ pruned_of now self.now.exporter) }
    {
        PlainExporter::of(alloc, self.last, self.slots.as_slice(), now)
    }

    /// Takes all routes out, and forgets the last number.
    #[tactic(auto, unfolding(stores::specs::numbered_slots::Slots::AreRising, stores::specs::numbered_slots::Slots::AreBelow))]
    pub fn clear(&mut self)
        ensures exporter { self.new.exporter ≡ no_routes }
        ensures room { self.old.room ≤ self.new.room }
    {
        self.last = 0;
        self.slots.clear();
        self.empty = 0;
        self.tally = Tally::unknown();
    }

    /// Makes room for so many routes more. It needs no memory where there is room.
    pub fn make_room(&mut self, count: usize) -> Result<(), NoMemory>
        ensures same { self.new.exporter ≡ self.old.exporter }
        ensures ok { OnOk result (count ≤ self.new.room) }
        ensures enough { count ≤ self.old.room → IsOk result }
        ensures room { self.old.room ≤ self.new.room }
    {
        self.compact_if_sparse();
        self.slots.reserve(count)?;
        Ok(())
    }

    /// Makes room for so many routes more, at least one, and gives the next number. Nothing else changes. `RouteFull` where
    /// more than 65,536 would live at this moment, or one would have a number above 2^64 - 1. Else `NoMemory` where there is
    /// no room and memory could not be had.
    pub fn reserve(&mut self, count: u64, now: u64) -> Result<u64, RouteError>
        requires some { 0 < count }
        ensures same { self.new.exporter ≡ self.old.exporter }
        ensures told { IsReserved (is_full count now self.old.exporter) self.old.exporter.last result }
        ensures ok { OnOk result (count ≤ self.new.room) }
        ensures enough { count ≤ self.old.room → is_full count now self.old.exporter ≡ false → IsOk result }
        ensures room { self.old.room ≤ self.new.room }
    {
        match self.next_number(count, now) {
            None => Err(RouteError::RouteFull),
            Some(next) => match self.make_room(count as usize) {
                Ok(()) => Ok(next),
                Err(_) => Err(RouteError::NoMemory),
            },
        }
    }

    /// The next number, or none where so many routes more would be too many at a moment.
    fn next_number(&mut self, count: u64, now: u64) -> Option<u64>
        requires some { 0 < count }
        ensures same { self.new ≡ self.old }
        ensures next { IsNext (is_full count now self.old.exporter) self.old.exporter.last result }
    {
        if self.is_full(count, now) {
            None
        } else {
            Some(self.last.saturating_add(1))
        }
    }

    /// Whether so many routes more would be too many at a moment.
    fn is_full(&mut self, count: u64, now: u64) -> bool
        ensures same { self.new ≡ self.old }
        ensures full { result ≡ is_full count now self.old.exporter }
    {
        if count > MOST as u64 || self.last > u64::MAX - count {
            return true;
        }
        let over = self.is_over(MOST - count as usize, now);
        over
    }

    /// Whether more than so many routes live at a moment. They are counted only where that isn't known.
    fn is_over(&mut self, most: usize, now: u64) -> bool
        requires { most ≤ 65536 }
        ensures same { self.new ≡ self.old }
        ensures over { result ≡ nat_lt most (length (living now self.old.exporter.routes)) }
    {
        if self.slots.len() <= most {
            return false;
        }
        if self.tally.is_within(most, now) {
            return false;
        }
        if self.tally.is_over(most, now) {
            return true;
        }
        self.tally = count_living(self.slots.as_slice(), now);
        self.tally.most > most
    }

    /// Removes the empty slots where more than half are empty.
    fn compact_if_sparse(&mut self)
        ensures same { self.new.exporter ≡ self.old.exporter }
        ensures room { self.old.room ≤ self.new.room }
    {
        if SPARE < self.empty && self.slots.len() / 2 < self.empty {
            compact(&mut self.slots);
            self.empty = 0;
        }
    }

    /// Adds a route under the next number. It takes no memory: `reserve` has had it.
    pub fn open(&mut self, route: Route)
        requires room { 0 < self.old.room }
        requires within { self.old.exporter.last < 18446744073709551615 }
        ensures exporter { self.new.exporter ≡ with_route route self.old.exporter }
        ensures room { self.old.room ≤ self.new.room + 1 }
    {
        self.last += 1;
        self.tally.add(&route);
        self.slots.push_reserved(Slot {
            number: self.last,
            route: Some(route),
        });
    }

    /// The route of a subject, dead or alive, if there is one.
    pub fn find(&self, subject: &SubjectRef<'_>) -> Option<&Route>
        ensures route { option_copied result ≡ route_on subject.now self.now.exporter.routes }
        ensures living { (now : ℕ) → route_on subject.now (living now self.now.exporter.routes) ≡ if_lives now (option_copied result) }
    {
        let route = route_on(self.slots.as_slice(), subject);
        route
    }

    /// The route of a subject that lives at a moment, if there is one.
    pub fn find_living(&self, subject: &SubjectRef<'_>, now: u64) -> Option<&Route>
        ensures { option_copied result ≡ route_on subject.now (pruned_of now self.now.exporter).routes }
    {
        match self.find(subject) {
            None => None,
            Some(route) => { if route.lives(now) { Some(route) } else { None } }
        }
    }

    /// Ends the route of a subject on which a response was published, if it is for a single response. Nothing happens
    /// where no route has the subject.
    pub fn spend(&mut self, subject: &SubjectRef<'_>)
        ensures exporter { self.new.exporter ≡ spent_of subject.now self.old.exporter }
        ensures room { self.new.room ≡ self.old.room }
    {
        match spend(self.slots.as_mut_slice(), subject) {
            None => {}
            Some(route) => {
                self.tally.remove(&route);
                self.empty = self.empty.saturating_add(1);
            }
        }
    }

    /// Takes the routes out that don't live at a moment. The last number stays.
    pub fn prune(&mut self, now: u64)
        ensures exporter { self.new.exporter ≡ pruned_of now self.old.exporter }
        ensures room { self.old.room ≤ self.new.room }
    {
        prune(&mut self.slots, now);
        self.tally.let_go(now);
        self.empty = 0;
    }

    /// Looks at the next route in turn, and takes it out if it doesn't live at a moment. Called for each route that is opened,
    /// more than once, it lets all go that are dead.
    pub fn drop_dead(&mut self, now: u64)
        ensures exporter { pruned_of now self.new.exporter ≡ pruned_of now self.old.exporter }
        ensures last { self.new.exporter.last ≡ self.old.exporter.last }
        ensures room { self.new.room ≡ self.old.room }
    {
        let place = self.turn;
        if place >= self.slots.len() {
            self.turn = 0;
            return;
        }
        self.turn = place + 1;
        self.tally.let_go(now);
        if drop_dead_at(self.slots.as_mut_slice(), place, now) {
            self.empty = self.empty.saturating_add(1);
        }
    }

    /// Goes over to another policy: each route goes on by the row that is equal to its own there, on that row's terms. A
    /// route whose row has none ends. Those that are dead by the terms before go by `prune` first, or they may live again.
    pub fn keep_rows<S: ServiceRows>(&mut self, rows: &S)
        ensures exporter { self.new.exporter ≡ kept_of (S.renewed rows.now) self.old.exporter }
        ensures room { self.new.room ≡ self.old.room }
    {
        keep_rows(self.slots.as_mut_slice(), rows);
        self.tally = Tally::unknown();
    }
}
