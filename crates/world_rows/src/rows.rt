//! Subscriptions by rising id, in rows that stay in their places until more than half of them are empty.
ghost use Rattle.std.specs.Prelude.{◌≡◌, ◌<◌, ℕ, None, MatchOption, All, true};
ghost use Rattle.std.specs.Map.{lookup, remove_entry};
ghost use Rattle.world_rows.specs.Changes.{is_id};
ghost use Rattle.world_rows.specs.declared.subscription.Subscription.{Subscription};
ghost use Rattle.world_rows.specs.Rows.{entries_in, AreRising, AreBelow, AreEmpty, IsPlaceOf};

use crate::{Keeps, SharedSubscription};
use std::alloc::Global;
use std::marker::Model;
use std::slice;

/// How many rows may be empty however few stand.
const SPARE: usize = 16;

/// The row of an id, with the subscription of that id as long as it stands.
pub struct Row {
    id: u64,
    subscription: Option<SharedSubscription>,
}

impl Drop for Row {
    #[inline(always)]
    fn drop(self) {
        let Self {
            id: _,
            subscription: _,
        } = self;
    }
}

impl Row {
    ghost use Rattle.std.specs.Prelude.{◌≡◌, true, false, Some, None, MatchOption};
    ghost use Rattle.std.specs.Option.{option_copied};
    ghost use Rattle.world_rows.specs.declared.subscription.Subscription.{Subscription};
    ghost use Rattle.world_rows.specs.Limit.{has_ended};
    ghost use Rattle.world_rows.specs.Changes.{bumped, capped};
    ghost use Rattle.stores.specs.numbered_slots.Slots.{passes};

    /// Returns the subscription in it.
    fn get(&self) -> Option<&SharedSubscription>
        ensures { option_copied result ≡ self.now.subscription }
    {
        match &self.subscription {
            None => None,
            Some(subscription) => Some(subscription),
        }
    }

    /// Returns whether there is one in it.
    fn is_full(&self) -> bool
        ensures { result ≡ passes (λ (s : Subscription). true) self.now.subscription }
    {
        match &self.subscription {
            None => false,
            Some(_) => true,
        }
    }

    /// Returns whether there is one in it that passes a test.
    fn is_kept<K: Keeps>(&self, test: &K) -> bool
        ensures { result ≡ passes (K.keeps test.now) self.now.subscription }
    {
        match &self.subscription {
            None => false,
            Some(subscription) => test.keeps(subscription),
        }
    }

    /// Counts one message more for the subscription in it. Returns whether it has ended by that.
    #[inline(always)]
    fn bump(&mut self) -> bool
        ensures id { self.new.id ≡ self.old.id }
        ensures after { MatchOption self.old.subscription ((self.new.subscription ≡ None) × (result ≡ false))
            (λ sub. (self.new.subscription ≡ Some (bumped sub)) × (result ≡ has_ended (bumped sub))) }
    {
        match &mut self.subscription {
            None => false,
            Some(subscription) => {
                let ended = subscription.bump();
                ended
            }
        }
    }

    /// Sets a limit for the subscription in it. Returns whether it has ended by that.
    fn cap(&mut self, most: Option<u64>) -> bool
        ensures id { self.new.id ≡ self.old.id }
        ensures after { MatchOption self.old.subscription ((self.new.subscription ≡ None) × (result ≡ false))
            (λ sub. (self.new.subscription ≡ Some (capped most sub)) × (result ≡ has_ended (capped most sub))) }
    {
        match &mut self.subscription {
            None => false,
            Some(subscription) => {
                let ended = subscription.cap(most);
                ended
            }
        }
    }
}

/// Returns whether the row of an id is in that place.
#[inline(always)]
fn is_place_of(rows: &[Row], id: u64, place: usize) -> bool
    ensures { result ≡ true → IsPlaceOf id rows.now place }
{
    match rows.get(place) {
        None => false,
        Some(row) => row.id == id,
    }
}

/// Returns the place of the row of an id, by binary search.
fn search(rows: &[Row], id: u64) -> Option<usize>
    requires { AreRising rows.now }
    ensures { MatchOption result (lookup (is_id id) (entries_in rows.now) ≡ None) (λ place. IsPlaceOf id rows.now place) }
{
    match rows.binary_search_by_key(&id, |row| row.id) {
        Err(_) => None,
        Ok(place) => Some(place),
    }
}

/// Returns the place of the row of an id. It is looked for at a guess first, and behind it.
#[inline(always)]
fn place_of(rows: &[Row], id: u64, guess: usize) -> Option<usize>
    requires { AreRising rows.now }
    ensures { MatchOption result (lookup (is_id id) (entries_in rows.now) ≡ None) (λ place. IsPlaceOf id rows.now place) }
{
    let next = guess.wrapping_add(1);
    if is_place_of(rows, id, guess) {
        Some(guess)
    } else if is_place_of(rows, id, next) {
        Some(next)
    } else {
        search(rows, id)
    }
}

/// Returns whether the ids of all rows are below one.
fn are_below(rows: &[Row], id: u64) -> bool
    requires { AreRising rows.now }
    ensures { result ≡ true → AreBelow id rows.now }
{
    match rows.last() {
        None => true,
        Some(row) => row.id < id,
    }
}

/// Lets the empty rows go.
fn compact(rows: &mut Vec<Row>, empty: &mut usize)
    requires rising { AreRising rows.old.items }
    ensures same { entries_in rows.new.items ≡ entries_in rows.old.items }
    ensures rising { AreRising rows.new.items }
    ensures empty { AreEmpty rows.new.items empty.new }
    ensures below { (n : ℕ) → All (λ (e : ℕ × Subscription). e.0 < n) (entries_in rows.old.items) → AreBelow n rows.new.items }
{
    rows.retain(|row| row.is_full());
    *empty = 0;
}

/// Lets the empty rows go where more than half are.
fn compact_if_sparse(rows: &mut Vec<Row>, empty: &mut usize)
    requires rising { AreRising rows.old.items }
    requires empty { AreEmpty rows.old.items empty.old }
    ensures same { entries_in rows.new.items ≡ entries_in rows.old.items }
    ensures rising { AreRising rows.new.items }
    ensures empty { AreEmpty rows.new.items empty.new }
{
    if SPARE < *empty && rows.len() - *empty < *empty {
        compact(rows, empty);
    }
}

/// Lets the empty rows go where one of them has an id that isn't below this one.
fn make_way(rows: &mut Vec<Row>, empty: &mut usize, id: u64)
    requires rising { AreRising rows.old.items }
    requires empty { AreEmpty rows.old.items empty.old }
    requires above { All (λ (e : ℕ × Subscription). e.0 < id) (entries_in rows.old.items) }
    ensures same { entries_in rows.new.items ≡ entries_in rows.old.items }
    ensures rising { AreRising rows.new.items }
    ensures empty { AreEmpty rows.new.items empty.new }
    ensures below { AreBelow id rows.new.items }
{
    if !are_below(rows.as_slice(), id) {
        compact(rows, empty);
    }
}

/// Empties the row of an id. Answers what stood in it.
fn empty_at(
    rows: &mut Vec<Row>,
    empty: &mut usize,
    id: u64,
    place: usize,
) -> Option<SharedSubscription>
    requires rising { AreRising rows.old.items }
    requires empty { AreEmpty rows.old.items empty.old }
    requires place { IsPlaceOf id rows.old.items place }
    ensures gone { result ≡ lookup (is_id id) (entries_in rows.old.items) }
    ensures same { entries_in rows.new.items ≡ remove_entry (is_id id) (entries_in rows.old.items) }
    ensures rising { AreRising rows.new.items }
    ensures empty { AreEmpty rows.new.items empty.new }
{
    match rows[place].subscription.take() {
        None => None,
        Some(gone) => {
            *empty += 1;
            Some(gone)
        }
    }
}

/// Subscriptions by rising id, seen as entries, of which each has an id and its subscription. One that goes leaves its
/// row empty, so a walk over the rows comes once in many removals.
pub struct Rows {
    rows: Vec<Row>,
    // How many of them are empty.
    empty: usize,
    // Where the last was found that was counted.
    guess: usize,
}

impl Drop for Rows {
    #[inline(always)]
    fn drop(self) {
        let Self {
            rows: _,
            empty: _,
            guess: _,
        } = self;
    }
}

impl Model for Rows {
    ghost use Rattle.std.specs.Prelude.{ℕ, List};
    ghost use Rattle.world_rows.specs.declared.subscription.Subscription.{Subscription};
    ghost use Rattle.world_rows.specs.Rows.{entries_in, AreRising, AreEmpty};

    ghost Value = { List (ℕ × Subscription) };

    ghost view = { λ r. entries_in r.rows.items };

    ghost invariant = { λ r. AreRising r.rows.items × AreEmpty r.rows.items r.empty };
}

impl Rows {
    ghost use Rattle.std.specs.Prelude.{◌≡◌, ◌<◌, ◌++◌, ◌∷◌, [], ℕ, OnOk, OnErr, IfErr, All, MatchOption, false, length, filter};
    ghost use Rattle.std.specs.Option.{option_copied};
    ghost use Rattle.std.specs.Map.{lookup, set_value, remove_entry, values_of};
    ghost use Rattle.world_rows.specs.declared.subscription.Subscription.{Subscription};
    ghost use Rattle.world_rows.specs.Limit.{has_ended};
    ghost use Rattle.world_rows.specs.Changes.{bumped, capped, is_id};

    /// Returns rows without subscriptions.
    #[tactic(auto, unfolding(stores::specs::numbered_slots::Slots::AreRising))]
    pub fn new(alloc: Global) -> Rows
        ensures { result ≡ [] }
    {
        Rows {
            rows: Vec::new(alloc),
            empty: 0,
            guess: 0,
        }
    }

    /// Returns how many stand.
    pub fn len(&self) -> usize
        ensures { result ≡ length self.now }
    {
        self.rows.len() - self.empty
    }

    /// Returns them all, in order.
    pub fn values(&self) -> RowValues<'_>
        ensures { result ≡ values_of self.now }
    {
        RowValues {
            rows: self.rows.iter(),
        }
    }

    /// Returns the subscription of that id.
    pub fn get(&self, id: u64) -> Option<&SharedSubscription>
        ensures { option_copied result ≡ lookup (is_id id) self.now }
    {
        match place_of(self.rows.as_slice(), id, self.guess) {
            None => None,
            Some(place) => self.rows[place].get(),
        }
    }

    /// Counts one message more for the subscription of that id, if it stands. Returns whether it has ended by that.
    #[inline(always)]
    pub fn bump(&mut self, id: u64) -> bool
        ensures { MatchOption (lookup (is_id id) self.old)
            ((self.new ≡ self.old) × (result ≡ false))
            (λ sub. (self.new ≡ set_value (is_id id) self.old (bumped sub)) × (result ≡ has_ended (bumped sub))) }
    {
        match place_of(self.rows.as_slice(), id, self.guess) {
            None => false,
            Some(place) => {
                self.guess = place;
                let ended = self.rows[place].bump();
                ended
            }
        }
    }

    /// Sets a limit for the subscription of that id, if it stands. Returns whether it has ended by that.
    pub fn cap(&mut self, id: u64, most: Option<u64>) -> bool
        ensures { MatchOption (lookup (is_id id) self.old)
            ((self.new ≡ self.old) × (result ≡ false))
            (λ sub. (self.new ≡ set_value (is_id id) self.old (capped most sub)) × (result ≡ has_ended (capped most sub))) }
    {
        match place_of(self.rows.as_slice(), id, self.guess) {
            None => false,
            Some(place) => {
                let ended = self.rows[place].cap(most);
                ended
            }
        }
    }

    /// Adds a subscription behind all others. Where memory could not be had it is handed back, and nothing has changed.
    pub fn insert(
        &mut self,
        id: u64,
        subscription: SharedSubscription,
    ) -> Result<(), SharedSubscription>
        requires above { All (λ (e : ℕ × Subscription). e.0 < id) self.old }
        ensures ok { OnOk result (self.new ≡ self.old ++ (id, subscription) ∷ []) }
        ensures err { OnErr result (self.new ≡ self.old) }
        ensures back { IfErr result (λ refused. refused ≡ subscription) }
    {
        make_way(&mut self.rows, &mut self.empty, id);
        match self.rows.reserve(1) {
            Err(_) => Err(subscription),
            Ok(()) => {
                self.rows.push_reserved(Row {
                    id,
                    subscription: Some(subscription),
                });
                Ok(())
            }
        }
    }

    /// Takes the subscription of that id out. Returns it, if it stood.
    pub fn remove(&mut self, id: u64) -> Option<SharedSubscription>
        ensures gone { result ≡ lookup (is_id id) self.old }
        ensures entries { self.new ≡ remove_entry (is_id id) self.old }
    {
        match place_of(self.rows.as_slice(), id, self.guess) {
            None => None,
            Some(place) => {
                let gone = empty_at(&mut self.rows, &mut self.empty, id, place);
                compact_if_sparse(&mut self.rows, &mut self.empty);
                gone
            }
        }
    }

    /// Takes those out that don't pass a test.
    pub fn keep<K: Keeps>(&mut self, test: &K)
        ensures { self.new ≡ filter (λ (e : ℕ × Subscription). K.keeps test.now e.1) self.old }
    {
        self.rows.retain(|row| row.is_kept(test));
        self.empty = 0;
    }
}

/// The subscriptions of rows, in order.
#[derive(Drop)]
pub struct RowValues<'a> {
    rows: slice::Iter<'a, Row>,
}

impl<'a> Model for RowValues<'a> {
    ghost use Rattle.std.specs.Prelude.{List};
    ghost use Rattle.std.specs.Map.{values_of};
    ghost use Rattle.std.specs.Slice.Iter.{iter_rest};
    ghost use Rattle.world_rows.specs.declared.subscription.Subscription.{Subscription};
    ghost use Rattle.world_rows.specs.Rows.{entries_in};

    ghost Value = { List Subscription };

    ghost view = { λ v. values_of (entries_in (iter_rest v.rows)) };
}

impl<'a> Iterator for RowValues<'a> {
    ghost use Rattle.std.specs.Prelude.{length};
    ghost use Rattle.std.specs.Iterator.{at_most};
    ghost use Rattle.std.specs.Map.Iter.{TakesFirst, deref};

    type Item = &'a SharedSubscription;

    ghost next_gives = { TakesFirst deref };

    ghost remaining = { λ s. at_most (length s) };

    fn next(&mut self) -> Option<&'a SharedSubscription> {
        while let Some(row) = self.rows.next() {
            if let Some(subscription) = &row.subscription {
                return Some(subscription);
            }
        }
        None
    }
}
