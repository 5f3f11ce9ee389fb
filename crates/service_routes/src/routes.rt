//! All routes, exporter by exporter.
ghost use Rattle.std.specs.Prelude.{◌≡◌, ◌≤◌, ◌<◌, ◌+◌, ◌++◌, ◌∷◌, ℕ, List, [], IfOk, IsOk, OnOk, None, Some, true, false, length, take, if◌then◌else◌};
ghost use Rattle.std.specs.Map.{lookup};
ghost use Rattle.std.specs.Option.{option_copied};
ghost use Rattle.indexmap.specs.IndexMap.{spare};
ghost use Rattle.service_exporter.specs.Limit.{is_full, IsReserved};
ghost use Rattle.service_exporter.specs.Routes.{WithRoom, kept_of, no_routes, pruned_of, route_on};
ghost use Rattle.service_routes.specs.Routes.{exporter_of, kept, opened, pruned, room_for, same_name, spent};
ghost use Rattle.service_routes.specs.Tables.{exporters_in, room_in, room_of, IsChangedAt};

use crate::plain::NamedExporter;
use base::{Items, NoMemory};
use bytes::Bytes;
use indexmap::IndexMap;
use service_exporter::{Exporter, Route, RouteError, ServiceRows};
use std::alloc::Global;
use std::marker::Model;
use subjects::SubjectRef;

/// The exporters that have opened a route, by their names. They stand in the policy and no client makes one, so their names
/// need no hidden keys.
type Exporters = IndexMap<Bytes, Exporter>;

/// The response routes of all exporters. A clause sees each exporter's routes and the last number that it gave; those that
/// are dead at a moment stand until `prune` or `drop_dead` takes them out. A look-up is one by a hash, then one by halves.
///
/// A request that crosses into an exporting account opens a route. A response on the route's subject reaches the account that
/// asked, on the reply of its request.
pub struct Routes {
    alloc: Global,
    exporters: Exporters,
    /// Those for whose first routes room was had, with what holds them.
    ready: Exporters,
    /// The place of the exporter whose dead routes are looked for next.
    turn: usize,
}

impl Drop for Routes {
    fn drop(self) {
        let Self {
            alloc: _,
            exporters: _,
            ready: _,
            turn: _,
        } = self;
    }
}

impl Model for Routes {
    ghost use Rattle.std.specs.Prelude.{◌≤◌, ◌++◌, length};
    ghost use Rattle.indexmap.specs.IndexMap.{spare};
    ghost use Rattle.service_routes.specs.Routes.{Table};
    ghost use Rattle.service_routes.specs.Tables.{exporters_in, rooms_in};

    ghost Value = { Table };

    ghost view = { λ r. record {
      exporters = exporters_in r.exporters.entries;
      rooms = rooms_in (r.exporters.entries ++ r.ready.entries);
    } };

    ghost invariant = { λ r. length r.ready.entries ≤ spare r.exporters };
}

impl Routes {
    /// No routes. It takes no memory.
    pub fn new(alloc: Global) -> Routes
        ensures { result.exporters ≡ [] }
    {
        Routes {
            alloc,
            exporters: IndexMap::new(alloc),
            ready: IndexMap::new(alloc),
            turn: 0,
        }
    }

    /// A copy with the same routes and last numbers. Room that was had for more isn't had again. `NoMemory` where memory could
    /// not be had.
    pub fn copy(&self, alloc: Global) -> Result<Routes, NoMemory>
        ensures { IfOk result (λ copy. copy.exporters ≡ self.now.exporters) }
    {
        let exporters = copy_all(alloc, &self.exporters)?;
        Ok(Routes {
            alloc,
            exporters,
            ready: IndexMap::new(alloc),
            turn: self.turn,
        })
    }

    /// Whether no exporter has opened a route yet.
    #[inline(always)]
    pub fn is_empty(&self) -> bool
        ensures { result ≡ true → self.now.exporters ≡ [] }
    {
        self.exporters.is_empty()
    }

    /// What is seen of all exporters at a moment, in a plain list. `NoMemory` where memory could not be had.
    pub fn plain(&self, alloc: Global, now: u64) -> Result<Items<NamedExporter>, NoMemory>
        ensures { IfOk result (λ all. all ≡ pruned now self.now.exporters) }
    {
        let all = plain_all(alloc, &self.exporters, now)?;
        Ok(Items::from_vec(all))
    }

    /// Makes room for so many routes more of an exporter, at least one, and gives its next number. Nothing else changes.
    /// `RouteFull` where the exporter would have more than 65,536 routes that live at this moment, or one with a number above
    /// 2^64 - 1. Else `NoMemory` where there is no room for them and memory could not be had.
    pub fn reserve(&mut self, exporter: &Bytes, count: u64, now: u64) -> Result<u64, RouteError>
        requires { 0 < count }
        ensures same { self.new.exporters ≡ self.old.exporters }
        ensures told { IsReserved (is_full count now (exporter_of exporter.now self.old.exporters)) (exporter_of exporter.now self.old.exporters).last result }
        ensures ok { OnOk result (count ≤ room_for exporter.now self.new) }
        ensures enough { count ≤ room_for exporter.now self.old → is_full count now (exporter_of exporter.now self.old.exporters) ≡ false → IsOk result }
        ensures room { (other : List ℕ) → room_for other self.old ≤ room_for other self.new }
    {
        match self.exporters.get_mut(exporter) {
            Some(part) => part.reserve(count, now),
            None => reserve_first(
                self.alloc,
                &mut self.exporters,
                &mut self.ready,
                exporter,
                count,
                now,
            ),
        }
    }

    /// Opens a route of an exporter, under its next number. It takes no memory.
    pub fn open_route(&mut self, exporter: &Bytes, route: Route)
        requires room { 0 < room_for exporter.now self.old }
        requires within { is_full 1 route.noted (exporter_of exporter.now self.old.exporters) ≡ false }
        ensures exporters { self.new.exporters ≡ opened exporter.now route self.old.exporters }
        ensures room { (other : List ℕ) → room_for other self.old ≤ room_for other self.new + (if same_name exporter.now other then 1 else 0) }
    {
        match self.exporters.get_mut(exporter) {
            Some(part) => part.open(route),
            None => open_first(&mut self.exporters, &mut self.ready, exporter, route),
        }
    }

    /// The route of an exporter that has this subject, dead or alive, if there is one.
    pub fn find(&self, exporter: &Bytes, subject: &SubjectRef<'_>) -> Option<&Route>
        ensures { option_copied result ≡ route_on subject.now (exporter_of exporter.now self.now.exporters).routes }
    {
        match self.exporters.get(exporter) {
            None => None,
            Some(part) => part.find(subject),
        }
    }

    /// The route of an exporter that has this subject and lives at a moment, if there is one.
    pub fn find_living(
        &self,
        exporter: &Bytes,
        subject: &SubjectRef<'_>,
        now: u64,
    ) -> Option<&Route>
        ensures { option_copied result ≡ route_on subject.now (exporter_of exporter.now (pruned now self.now.exporters)).routes }
    {
        match self.exporters.get(exporter) {
            None => None,
            Some(part) => part.find_living(subject, now),
        }
    }

    /// Ends the route of a subject on which a session of the exporter has published a response, if it is for a single
    /// response. Nothing happens where no route has the subject.
    pub fn spend(&mut self, exporter: &Bytes, subject: &SubjectRef<'_>)
        ensures exporters { self.new.exporters ≡ spent exporter.now subject.now self.old.exporters }
        ensures room { (other : List ℕ) → room_for other self.old ≤ room_for other self.new }
    {
        spend_of(&mut self.exporters, exporter, subject);
    }

    /// Takes all routes out that don't live at a moment. The last numbers stay.
    pub fn prune(&mut self, now: u64)
        ensures exporters { self.new.exporters ≡ pruned now self.old.exporters }
        ensures room { (other : List ℕ) → room_for other self.old ≤ room_for other self.new }
    {
        prune_all(&mut self.exporters, now);
    }

    /// Looks at two routes of an exporter and at two of the exporter whose turn it is, round and round, and takes out those
    /// that don't live at a moment. Called for each route that is opened, it lets all go that are dead within as many routes
    /// as there are in memory.
    pub fn drop_dead(&mut self, exporter: &Bytes, now: u64)
        ensures exporters { pruned now self.new.exporters ≡ pruned now self.old.exporters }
        ensures room { (other : List ℕ) → room_for other self.old ≤ room_for other self.new }
    {
        drop_dead_of(&mut self.exporters, exporter, now);
        drop_dead_at(&mut self.exporters, self.turn, now);
        self.turn = next_turn(self.turn, self.exporters.len());
    }

    /// Goes over to another policy: each route goes on by the row that is equal to its own there, on that row's terms. A
    /// route whose row has none ends. Those that are dead by the terms before go by `prune` first, or they may live again.
    pub fn keep_rows<S: ServiceRows>(&mut self, rows: &S)
        ensures exporters { self.new.exporters ≡ kept (S.renewed rows.now) self.old.exporters }
        ensures room { (other : List ℕ) → room_for other self.old ≤ room_for other self.new }
    {
        keep_all(&mut self.exporters, rows);
    }
}

/// What is seen of exporters at a moment, in their order.
#[tactic(auto, using(crate::proofs::Maps::all_seen))]
fn plain_all(alloc: Global, exporters: &Exporters, now: u64) -> Result<Vec<NamedExporter>, NoMemory>
    ensures { IfOk result (λ all. all.items ≡ pruned now (exporters_in exporters.now.entries)) }
{
    let mut all = Vec::with_capacity(alloc, exporters.len())?;
    for place in 0..exporters.len() {
        plain_at(alloc, exporters, place, now, &mut all)?;
    }
    Ok(all)
}

/// Puts what is seen of the exporter at a place behind what is seen of those before it.
fn plain_at(
    alloc: Global,
    exporters: &Exporters,
    place: usize,
    now: u64,
    all: &mut Vec<NamedExporter>,
) -> Result<(), NoMemory>
    requires { all.old.items ≡ take place (pruned now (exporters_in exporters.now.entries)) }
    ensures { OnOk result (all.new.items ≡ take (place + 1) (pruned now (exporters_in exporters.now.entries))) }
{
    match exporters.get_index(place) {
        None => Ok(()),
        Some((name, part)) => {
            all.push(NamedExporter::of(alloc, name, part, now)?)?;
            Ok(())
        }
    }
}

/// Copies of exporters, in their order.
fn copy_all(alloc: Global, exporters: &Exporters) -> Result<Exporters, NoMemory>
    ensures { IfOk result (λ copies. exporters_in copies.entries ≡ exporters_in exporters.now.entries) }
{
    let mut copies = IndexMap::new(alloc);
    copies.reserve(exporters.len())?;
    for place in 0..exporters.len() {
        copy_at(alloc, exporters, place, &mut copies)?;
    }
    Ok(copies)
}

/// Puts a copy of the exporter at a place behind the copies of those before it.
fn copy_at(
    alloc: Global,
    exporters: &Exporters,
    place: usize,
    copies: &mut Exporters,
) -> Result<(), NoMemory>
    requires { exporters_in copies.old.entries ≡ take place (exporters_in exporters.now.entries) }
    ensures { OnOk result (exporters_in copies.new.entries ≡ take (place + 1) (exporters_in exporters.now.entries)) }
{
    let _known = exporters.len();
    match exporters.get_index(place) {
        None => Ok(()),
        Some((name, part)) => {
            let copy = part.copy(alloc)?;
            let own_name = name.clone()?;
            match copies.insert(own_name, copy) {
                Ok(_) => Ok(()),
                Err(_) => Err(NoMemory),
            }
        }
    }
}

/// Makes room for the first routes of an exporter, as `reserve` does.
fn reserve_first(
    alloc: Global,
    exporters: &mut Exporters,
    ready: &mut Exporters,
    exporter: &Bytes,
    count: u64,
    now: u64,
) -> Result<u64, RouteError>
    requires some { 0 < count }
    requires within { length ready.old.entries ≤ spare exporters.old }
    ensures same { exporters.new.entries ≡ exporters.old.entries }
    ensures told { IsReserved (is_full count now no_routes) 0 result }
    ensures within { length ready.new.entries ≤ spare exporters.new }
    ensures ok { OnOk result (count ≤ room_of (lookup (same_name exporter.now) ready.new.entries)) }
    ensures enough { count ≤ room_of (lookup (same_name exporter.now) ready.old.entries) → is_full count now no_routes ≡ false → IsOk result }
    ensures room { (other : List ℕ) → room_of (lookup (same_name other) ready.old.entries) ≤ room_of (lookup (same_name other) ready.new.entries) }
{
    match ready.get_mut(exporter) {
        Some(part) => {
            part.clear();
            match part.reserve(count, now) {
                Ok(next) => Ok(next),
                Err(error) => Err(error),
            }
        }
        None => {
            let mut part = Exporter::new(alloc);
            match part.reserve(count, now) {
                Err(error) => Err(error),
                Ok(next) => match make_ready(exporters, ready, exporter, part) {
                    Err(_) => Err(RouteError::NoMemory),
                    Ok(()) => Ok(next),
                },
            }
        }
    }
}

/// Keeps the room that was had for an exporter's first routes, and makes room for its place among all.
fn make_ready(
    exporters: &mut Exporters,
    ready: &mut Exporters,
    exporter: &Bytes,
    part: Exporter,
) -> Result<(), NoMemory>
    requires absent { lookup (same_name exporter.now) ready.old.entries ≡ None }
    requires within { length ready.old.entries ≤ spare exporters.old }
    ensures same { exporters.new.entries ≡ exporters.old.entries }
    ensures within { length ready.new.entries ≤ spare exporters.new }
    ensures ok { OnOk result (lookup (same_name exporter.now) ready.new.entries ≡ Some part) }
    ensures room { (other : List ℕ) → room_of (lookup (same_name other) ready.old.entries) ≤ room_of (lookup (same_name other) ready.new.entries) }
{
    exporters.reserve(ready.len() + 1)?;
    match ready.insert(exporter.clone()?, part) {
        Ok(_) => Ok(()),
        Err(_) => Err(NoMemory),
    }
}

/// Opens the first route of an exporter.
fn open_first(exporters: &mut Exporters, ready: &mut Exporters, exporter: &Bytes, route: Route)
    requires absent { lookup (same_name exporter.now) exporters.old.entries ≡ None }
    requires room { 0 < room_of (lookup (same_name exporter.now) ready.old.entries) }
    requires within { length ready.old.entries ≤ spare exporters.old }
    ensures exporters { exporters_in exporters.new.entries ≡ opened exporter.now route (exporters_in exporters.old.entries) }
    ensures within { length ready.new.entries ≤ spare exporters.new }
    ensures room { (other : List ℕ) → room_in other exporters.old.entries ready.old.entries ≤ room_in other exporters.new.entries ready.new.entries + (if same_name exporter.now other then 1 else 0) }
{
    match ready.swap_remove_entry(exporter) {
        None => unreachable!(),
        Some((name, mut part)) => {
            part.clear();
            part.open(route);
            put(exporters, name, part);
        }
    }
}

/// Puts an exporter behind all others.
fn put(exporters: &mut Exporters, name: Bytes, part: Exporter)
    requires absent { lookup (same_name name) exporters.old.entries ≡ None }
    requires room { 0 < spare exporters.old }
    ensures entries { exporters.new.entries ≡ exporters.old.entries ++ (name, part) ∷ [] }
    ensures room { spare exporters.old ≤ spare exporters.new + 1 }
{
    match exporters.insert(name, part) {
        Ok(_) => {}
        Err(_) => unreachable!(),
    }
}

/// Looks at two routes of an exporter, as `drop_dead` does.
fn drop_dead_of(exporters: &mut Exporters, exporter: &Bytes, now: u64)
    ensures exporters { pruned now (exporters_in exporters.new.entries) ≡ pruned now (exporters_in exporters.old.entries) }
    ensures rooms { (other : List ℕ) (ready : List (List ℕ × WithRoom)) → room_in other exporters.old.entries ready ≤ room_in other exporters.new.entries ready }
    ensures room { spare exporters.new ≡ spare exporters.old }
{
    match exporters.get_mut(exporter) {
        None => {}
        Some(part) => drop_two(part, now),
    }
}

/// Looks at two routes of an exporter, and takes out those that don't live at a moment.
fn drop_two(part: &mut Exporter, now: u64)
    ensures exporter { pruned_of now part.new.exporter ≡ pruned_of now part.old.exporter }
    ensures room { part.old.room ≤ part.new.room }
{
    part.drop_dead(now);
    part.drop_dead(now);
}

/// Looks at two routes of the exporter at a place.
fn drop_dead_at(exporters: &mut Exporters, place: usize, now: u64)
    ensures exporters { pruned now (exporters_in exporters.new.entries) ≡ pruned now (exporters_in exporters.old.entries) }
    ensures rooms { (other : List ℕ) (ready : List (List ℕ × WithRoom)) → room_in other exporters.old.entries ready ≤ room_in other exporters.new.entries ready }
    ensures room { spare exporters.new ≡ spare exporters.old }
{
    match exporters.get_index_mut(place) {
        None => {}
        Some(part) => drop_two(part, now),
    }
}

/// The place behind this one, or the first.
fn next_turn(place: usize, count: usize) -> usize {
    if place < count { place + 1 } else { 0 }
}

/// Ends the route of an exporter that has a subject, as `spend` does.
fn spend_of(exporters: &mut Exporters, exporter: &Bytes, subject: &SubjectRef<'_>)
    ensures exporters { exporters_in exporters.new.entries ≡ spent exporter.now subject.now (exporters_in exporters.old.entries) }
    ensures rooms { (other : List ℕ) (ready : List (List ℕ × WithRoom)) → room_in other exporters.old.entries ready ≤ room_in other exporters.new.entries ready }
    ensures room { spare exporters.new ≡ spare exporters.old }
{
    match exporters.get_mut(exporter) {
        None => {}
        Some(part) => part.spend(subject),
    }
}

/// Takes the routes out that don't live at a moment.
fn prune_all(exporters: &mut Exporters, now: u64)
    ensures exporters { exporters_in exporters.new.entries ≡ pruned now (exporters_in exporters.old.entries) }
    ensures rooms { (other : List ℕ) (ready : List (List ℕ × WithRoom)) → room_in other exporters.old.entries ready ≤ room_in other exporters.new.entries ready }
    ensures room { spare exporters.new ≡ spare exporters.old }
{
    for place in 0..exporters.len() {
        prune_at(exporters, place, now);
    }
}

/// Takes the routes of the exporter at a place out that don't live at a moment.
fn prune_at(exporters: &mut Exporters, place: usize, now: u64)
    ensures exporters { IsChangedAt (pruned_of now) place exporters.old.entries exporters.new.entries }
    ensures rooms { (other : List ℕ) (ready : List (List ℕ × WithRoom)) → room_in other exporters.old.entries ready ≤ room_in other exporters.new.entries ready }
    ensures room { spare exporters.new ≡ spare exporters.old }
    ensures same { length exporters.new.entries ≡ length exporters.old.entries }
{
    match exporters.get_index_mut(place) {
        None => {}
        Some(part) => part.prune(now),
    }
}

/// Puts the routes on the rows that a policy has again, and takes those out whose rows it hasn't.
fn keep_all<S: ServiceRows>(exporters: &mut Exporters, rows: &S)
    ensures exporters { exporters_in exporters.new.entries ≡ kept (S.renewed rows.now) (exporters_in exporters.old.entries) }
    ensures rooms { (other : List ℕ) (ready : List (List ℕ × WithRoom)) → room_in other exporters.old.entries ready ≤ room_in other exporters.new.entries ready }
    ensures room { spare exporters.new ≡ spare exporters.old }
{
    for place in 0..exporters.len() {
        keep_at(exporters, place, rows);
    }
}

/// Puts the routes of the exporter at a place on the rows that a policy has again, as `keep_all` does.
fn keep_at<S: ServiceRows>(exporters: &mut Exporters, place: usize, rows: &S)
    ensures exporters { IsChangedAt (kept_of (S.renewed rows.now)) place exporters.old.entries exporters.new.entries }
    ensures rooms { (other : List ℕ) (ready : List (List ℕ × WithRoom)) → room_in other exporters.old.entries ready ≤ room_in other exporters.new.entries ready }
    ensures room { spare exporters.new ≡ spare exporters.old }
    ensures same { length exporters.new.entries ≡ length exporters.old.entries }
{
    match exporters.get_index_mut(place) {
        None => {}
        Some(part) => part.keep_rows(rows),
    }
}
