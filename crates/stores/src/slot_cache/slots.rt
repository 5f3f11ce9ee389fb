//! Slots with what was put into them in the present generation.
ghost use Rattle.std.specs.Prelude.{◌≡◌, ◌≤◌, ◌⊎◌, ℕ, Some, None, All, IfOk, IsTrue};
ghost use Rattle.std.specs.Option.{option_copied};

use crate::slot_cache::hash::spread;
use base::NoMemory;
use std::alloc::Global;

/// What was put into a slot, and in which generation.
struct Slot<T> {
    generation: u64,
    value: Option<T>,
}

impl<T: Drop> Drop for Slot<T> {
    #[inline(always)]
    fn drop(self) {
        let Self {
            generation: _,
            value: _,
        } = self;
    }
}

/// Values in slots. Whoever asks for one finds its slot by a hash, and tests whether the value there is the one that is
/// asked for.
///
/// A value comes into a slot once it is asked for twice, and nothing with its place in between: what is asked for once, as an
/// inbox, takes no slot from others.
pub struct SlotCache<T> {
    alloc: Global,
    // How many slots there are, once there are some.
    count: usize,
    slots: Vec<Slot<T>>,
    // The lower half of the hash that was asked for last, with the generation in it; four places for each slot.
    asked: Vec<u32>,
    generation: u64,
    ghost past: { All (λ slot. slot.generation ≤ generation) slots.items },
}

impl<T: Drop> Drop for SlotCache<T> {
    #[inline(always)]
    fn drop(self) {
        let Self {
            alloc: _,
            count: _,
            slots: _,
            asked: _,
            generation: _,
        } = self;
    }
}

impl<T> SlotCache<T> {
    ghost use Rattle.stores.specs.slot_cache.Slots.{value_at};

    /// Returns the place of a hash.
    pub fn place_of(&self, hash: u64) -> usize {
        place_among(self.count, hash)
    }

    /// Returns the two places of a hash, so that few have to share one.
    pub fn places_of(&self, hash: u64) -> (usize, usize) {
        (self.place_of(hash), self.place_of(spread(hash)))
    }

    /// Returns what the slot at a place has.
    #[inline(always)]
    pub fn get(&self, place: usize) -> Option<&T>
        ensures { option_copied result ≡ value_at self.now place }
    {
        match self.slots.get(place) {
            None => None,
            Some(slot) => {
                if slot.generation == self.generation {
                    slot.value.as_ref()
                } else {
                    None
                }
            }
        }
    }

    /// Notes that a hash is asked for. Returns whether the last one that was noted at its place, in this generation, had the same
    /// lower half. Without memory it hasn't.
    pub fn note_asked(&mut self, hash: u64) -> bool
        ensures { (other : ℕ) → value_at self.new other ≡ value_at self.old other }
    {
        let count = self.count.saturating_mul(4);
        let lower = ((hash ^ self.generation) % 0x1_0000_0000) as u32;
        if self.asked.is_empty() {
            let _ = self.asked.resize(count, 0);
        }
        match self.asked.get_mut(place_among(count, hash)) {
            None => false,
            Some(last) => {
                let again = *last == lower;
                *last = lower;
                again
            }
        }
    }
}

impl<T: Drop> SlotCache<T> {
    ghost use Rattle.stores.specs.slot_cache.Slots.{value_at};

    /// Returns so many slots with nothing. It takes no memory yet.
    pub fn new(alloc: Global, count: usize) -> SlotCache<T>
        ensures { (place : ℕ) → value_at result place ≡ None }
    {
        SlotCache {
            alloc,
            count,
            slots: Vec::new(alloc),
            asked: Vec::new(alloc),
            generation: 1,
        }
    }

    /// Puts a value into the slot at a place. Returns whether it stands there: it doesn't without memory, nor where there is no such
    /// place.
    pub fn put(&mut self, place: usize, value: T) -> bool
        ensures put { (other : ℕ) → (value_at self.new other ≡ value_at self.old other) ⊎ ((other ≡ place) × (value_at self.new other ≡ Some value)) }
        ensures there { IsTrue result → value_at self.new place ≡ Some value }
    {
        self.lay_out();
        let generation = self.generation;
        match self.slots.get_mut(place) {
            None => false,
            Some(slot) => {
                *slot = Slot {
                    generation,
                    value: Some(value),
                };
                true
            }
        }
    }

    /// Takes what the slot at a place has out of it.
    pub fn take(&mut self, place: usize) -> Option<T>
        ensures taken { result ≡ value_at self.old place }
        ensures left { (other : ℕ) → (value_at self.new other ≡ value_at self.old other) ⊎ (value_at self.new other ≡ None) }
    {
        let generation = self.generation;
        match self.slots.get_mut(place) {
            None => None,
            Some(slot) => {
                if slot.generation == generation {
                    slot.value.take()
                } else {
                    None
                }
            }
        }
    }

    /// Clears the cache: another generation begins. What its slots have is dropped as others are put there.
    pub fn clear(&mut self)
        ensures { (place : ℕ) → value_at self.new place ≡ None }
    {
        match self.generation.checked_add(1) {
            Some(next) => self.generation = next,
            None => self.slots.clear(),
        }
    }

    /// Makes the slots where there are none yet, if memory could be had.
    fn lay_out(&mut self)
        ensures { (place : ℕ) → value_at self.new place ≡ value_at self.old place }
    {
        if self.slots.is_empty() {
            if let Ok(slots) = empty_slots(self.alloc, self.count) {
                self.slots = slots;
            }
        }
    }
}

/// Returns which of so many places is that of a hash: the upper bits decide.
fn place_among(count: usize, hash: u64) -> usize {
    ((hash >> 32).wrapping_mul(count as u64) >> 32) as usize
}

/// Returns so many slots with nothing. `NoMemory` where memory could not be had.
fn empty_slots<T: Drop>(alloc: Global, count: usize) -> Result<Vec<Slot<T>>, NoMemory>
    ensures { IfOk result (λ slots. All (λ slot. (slot.generation ≡ 0) × (slot.value ≡ None)) slots.items) }
{
    let mut slots = Vec::with_capacity(alloc, count)?;
    for _slot in 0..count {
        slots.push(Slot {
            generation: 0,
            value: None,
        })?;
    }
    Ok(slots)
}
