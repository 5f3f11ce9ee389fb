//! An exporter's routes by rising number, in slots that stay in their places until more than half of them are empty.
ghost use Rattle.std.specs.Prelude.{◌≡◌, ◌≤◌, ◌<◌, ◌-◌, ℕ, true, not, None, MatchOption, filter, length, map, IfOk, vec_len, vec_capacity};
ghost use Rattle.std.specs.List.{filter_map};
ghost use Rattle.std.specs.Option.{option_copied};
ghost use Rattle.service_exporter.specs.Routes.{Numbered, ends_by, if_lives, kept_route, living, lives, route_on};
ghost use Rattle.service_exporter.specs.Slots.{standing_in, AreRising, AreBelow, IsAbsent, IsPlaceOf, IsNowhere, IsPlaceOn, kept_slot};
ghost use Rattle.service_exporter.specs.Tally.{IsTallied, IsLeft};

use crate::service_subjects::{is_on, number_in};
use crate::tally::Tally;
use crate::{Route, ServiceRows};
use base::{Copying, NoMemory};
use std::alloc::Global;
use subjects::SubjectRef;

/// The slot of a number, with the route of that number as long as it stands.
#[derive(Drop)]
pub(crate) struct Slot {
    pub number: u64,
    pub route: Option<Route>,
}

/// The place that a number has if none is missing between it and the first.
fn near_place(slots: &[Slot], number: u64) -> usize {
    match slots.first() {
        None => 0,
        Some(first) => number.wrapping_sub(first.number) as usize,
    }
}

/// The place of a number's slot: mostly the near one, else it is found by binary search.
fn place_of(slots: &[Slot], number: u64) -> Option<usize>
    requires { AreRising slots.now }
    ensures { MatchOption result (IsAbsent number slots.now) (λ place. IsPlaceOf number slots.now place) }
{
    let near = near_place(slots, number);
    if let Some(slot) = slots.get(near) {
        if slot.number == number {
            return Some(near);
        }
    }
    match slots.binary_search_by_key(&number, |slot| slot.number) {
        Err(_) => None,
        Ok(place) => Some(place),
    }
}

impl Slot {
    ghost use Rattle.std.specs.Prelude.{if◌then◌else◌};
    ghost use Rattle.service_exporter.specs.declared.route.Route.{Route};
    ghost use Rattle.service_exporter.specs.service_subjects.Names.{is_on};
    ghost use Rattle.stores.specs.numbered_slots.Slots.{passes};
    ghost use Rattle.service_exporter.specs.Slots.{is_single, kept_in, LivesUntil};

    /// The route that stands in it.
    fn get(&self) -> Option<&Route>
        ensures { option_copied result ≡ self.now.route }
    {
        match &self.route {
            None => None,
            Some(route) => Some(route),
        }
    }

    /// Whether a route stands in it.
    fn is_taken(&self) -> bool
        ensures { result ≡ passes (λ (r : Route). true) self.now.route }
    {
        match &self.route {
            None => false,
            Some(_) => true,
        }
    }

    /// Whether a route stands in it that lives at a moment.
    fn is_living(&self, now: u64) -> bool
        ensures { result ≡ passes (lives now) self.now.route }
    {
        match &self.route {
            None => false,
            Some(route) => route.lives(now),
        }
    }

    /// Whether the route of a subject stands in it.
    fn is_on(&self, subject: &SubjectRef<'_>) -> bool
        ensures { result ≡ passes (λ r. is_on subject.now self.now.number r.word) self.now.route }
    {
        match &self.route {
            None => false,
            Some(route) => is_on(subject, self.number, route.word),
        }
    }

    /// Takes its route out, if that is for a single response, and returns it.
    fn take_if_single(&mut self) -> Option<Route>
        ensures number { self.new.number ≡ self.old.number }
        ensures route { self.new.route ≡ (if passes is_single self.old.route then None else self.old.route) }
        ensures taken { result ≡ (if passes is_single self.old.route then self.old.route else None) }
    {
        if self.is_single() {
            self.route.take()
        } else {
            None
        }
    }

    /// Whether a route stands in it that is for a single response.
    fn is_single(&self) -> bool
        ensures { result ≡ passes is_single self.now.route }
    {
        match &self.route {
            None => false,
            Some(route) => route.terms.single,
        }
    }

    /// Takes its route out, if that doesn't live at a moment. Returns whether it did that.
    fn end_if_dead(&mut self, now: u64) -> bool
        ensures number { self.new.number ≡ self.old.number }
        ensures route { self.new.route ≡ (if passes (lives now) self.old.route then self.old.route else None) }
    {
        if self.is_taken() && !self.is_living(now) {
            self.route = None;
            true
        } else {
            false
        }
    }

    /// A moment up to which its route lives.
    fn end(&self) -> u64
        ensures { LivesUntil result self.now.route }
    {
        match &self.route {
            None => u64::MAX,
            Some(route) => route.end(),
        }
    }

    /// Puts its route on the row that a policy has again, or takes it out where the policy has none.
    fn keep<S: ServiceRows>(&mut self, rows: &S)
        ensures number { self.new.number ≡ self.old.number }
        ensures route { self.new.route ≡ kept_in (S.renewed rows.now) self.old.route }
    {
        match self.route.take() {
            None => {}
            Some(route) => {
                let renewed = rows.renewed(&route.row);
                self.route = route.keep(renewed);
            }
        }
    }
}

/// The route of a subject, if it stands.
pub(crate) fn route_on<'a>(slots: &'a [Slot], subject: &SubjectRef<'_>) -> Option<&'a Route>
    requires rising { AreRising slots.now }
    requires small { AreBelow 18446744073709551616 slots.now }
    ensures route { option_copied result ≡ route_on subject.now (standing_in slots.now) }
    ensures living { (now : ℕ) → route_on subject.now (living now (standing_in slots.now)) ≡ if_lives now (option_copied result) }
{
    match place_on(slots, subject) {
        None => None,
        Some(place) => slots[place].get(),
    }
}

/// Removes the empty slots.
pub(crate) fn compact(slots: &mut Vec<Slot>)
    requires rising { AreRising slots.old.items }
    ensures same { standing_in slots.new.items ≡ standing_in slots.old.items }
    ensures rising { AreRising slots.new.items }
    ensures below { (n : ℕ) → AreBelow n slots.old.items → AreBelow n slots.new.items }
    ensures room { vec_capacity slots.old - vec_len slots.old ≤ vec_capacity slots.new - vec_len slots.new }
{
    slots.retain(|slot| slot.is_taken());
}

/// Removes the slots of routes that don't live at a moment, and the empty ones.
pub(crate) fn prune(slots: &mut Vec<Slot>, now: u64)
    requires rising { AreRising slots.old.items }
    ensures living { standing_in slots.new.items ≡ living now (standing_in slots.old.items) }
    ensures rising { AreRising slots.new.items }
    ensures below { (n : ℕ) → AreBelow n slots.old.items → AreBelow n slots.new.items }
    ensures room { vec_capacity slots.old - vec_len slots.old ≤ vec_capacity slots.new - vec_len slots.new }
{
    slots.retain(|slot| slot.is_living(now));
}

/// Puts the routes on the rows that a policy has again, and takes those out whose rows it hasn't.
pub(crate) fn keep_rows<S: ServiceRows>(slots: &mut [Slot], rows: &S)
    requires rising { AreRising slots.old }
    ensures kept { standing_in slots.new ≡ filter_map (kept_route (S.renewed rows.now)) (standing_in slots.old) }
    ensures rising { AreRising slots.new }
    ensures below { (n : ℕ) → AreBelow n slots.old → AreBelow n slots.new }
{
    keep_each(slots, rows);
}

/// Puts each route on the row that a policy has again.
fn keep_each<S: ServiceRows>(slots: &mut [Slot], rows: &S)
    ensures { slots.new ≡ map (kept_slot (S.renewed rows.now)) slots.old }
{
    for slot in slots.iter_mut() {
        slot.keep(rows);
    }
}

/// The tally of the routes that live at a moment, and up to which moment all of them do.
pub(crate) fn count_living(slots: &[Slot], now: u64) -> Tally
    ensures count { result.most ≡ length (living now (standing_in slots.now)) }
    ensures tallied { IsTallied result (standing_in slots.now) }
{
    let mut count = 0usize;
    let mut until = u64::MAX;
    for slot in slots {
        if slot.is_living(now) {
            count += 1;
            until = until.min(slot.end());
        }
    }
    Tally {
        since: now,
        most: count,
        until,
        least: count,
    }
}

/// The place of the route of a subject.
fn place_on(slots: &[Slot], subject: &SubjectRef<'_>) -> Option<usize>
    requires rising { AreRising slots.now }
    requires small { AreBelow 18446744073709551616 slots.now }
    ensures { MatchOption result (IsNowhere subject.now slots.now) (λ place. IsPlaceOn subject.now slots.now place) }
{
    match number_in(subject) {
        None => None,
        Some(number) => match place_of(slots, number) {
            None => None,
            Some(place) => {
                if slots[place].is_on(subject) {
                    Some(place)
                } else {
                    None
                }
            }
        },
    }
}

/// Takes the route of a subject out, if it is for a single response, and returns it.
pub(crate) fn spend(slots: &mut [Slot], subject: &SubjectRef<'_>) -> Option<Route>
    requires rising { AreRising slots.old }
    requires small { AreBelow 18446744073709551616 slots.old }
    ensures spent { standing_in slots.new ≡ filter (λ (r : Numbered). not (ends_by subject.now r)) (standing_in slots.old) }
    ensures rising { AreRising slots.new }
    ensures below { (n : ℕ) → AreBelow n slots.old → AreBelow n slots.new }
    ensures left { IsLeft (standing_in slots.old) (standing_in slots.new) result }
{
    match place_on(slots, subject) {
        None => None,
        Some(place) => slots[place].take_if_single(),
    }
}

/// Copies of slots. `NoMemory` where memory could not be had.
pub(crate) fn copy_slots(alloc: Global, slots: &[Slot]) -> Result<Vec<Slot>, NoMemory>
    ensures { IfOk result (λ copies. copies.items ≡ slots.now) }
{
    let mut copies = Vec::with_capacity(alloc, slots.len())?;
    for slot in slots {
        copies.push(Slot {
            number: slot.number,
            route: slot.route.copy(alloc)?,
        })?;
    }
    Ok(copies)
}

/// Takes the route at a place out, if it doesn't live at a moment. Returns whether it did that.
pub(crate) fn drop_dead_at(slots: &mut [Slot], place: usize, now: u64) -> bool
    requires within { place < length slots.old }
    requires rising { AreRising slots.old }
    ensures living { living now (standing_in slots.new) ≡ living now (standing_in slots.old) }
    ensures rising { AreRising slots.new }
    ensures below { (n : ℕ) → AreBelow n slots.old → AreBelow n slots.new }
    ensures same { length slots.new ≡ length slots.old }
{
    slots[place].end_if_dead(now)
}
