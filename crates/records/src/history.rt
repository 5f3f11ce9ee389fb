ghost use Rattle.std.specs.Prelude.{◌≡◌, ◌∷◌, [], flat_map, slice_get};
ghost use Rattle.std.specs.Option.{option_copied};
ghost use Rattle.records.specs.Records.{entries_of};

use base::NoMemory;
use events::{Answer, Outcome};
use std::alloc::Global;
use std::marker::Model;

/// What a history keeps as one: an entry. A clause sees the list of its entries.
#[derive(Debug, Drop)]
pub enum Record {
    One(Answer),
}

/// The entries of a history, oldest first, kept as records. A clause sees the list of entries, and for how many records
/// more there is room.
///
/// Any entry is found at once, however many there are.
#[derive(Debug)]
pub struct History {
    records: Vec<Record>,
    /// How many entries they are.
    count: usize,
}

impl Drop for History {
    fn drop(self) {
        let Self {
            records: _,
            count: _,
        } = self;
    }
}

impl Model for History {
    ghost use Rattle.std.specs.Prelude.{◌≡◌, ◌-◌, flat_map, length, vec_len, vec_capacity};
    ghost use Rattle.records.specs.Records.{Recorded, entries_of};

    ghost Value = { Recorded };

    ghost view = { λ h. record { entries = flat_map entries_of h.records.items; room = vec_capacity h.records - vec_len h.records } };

    ghost invariant = { λ h. h.count ≡ length (flat_map entries_of h.records.items) };
}

impl History {
    ghost use Rattle.std.specs.Prelude.{◌≡◌, ◌<◌, ◌≤◌, ◌++◌, ◌∷◌, ◌==◌, [], length, take, slice_get, OnOk};
    ghost use Rattle.std.specs.Option.{option_copied};

    /// Returns a history without entries. It takes no memory.
    pub fn new(alloc: Global) -> History
        ensures { result.entries ≡ [] }
    {
        History {
            records: Vec::new(alloc),
            count: 0,
        }
    }

    /// Returns how many entries there are.
    #[inline(always)]
    pub fn len(&self) -> usize
        ensures { result ≡ length self.now.entries }
    {
        self.count
    }

    /// Returns whether there are none.
    pub fn is_empty(&self) -> bool
        ensures { result ≡ (length self.now.entries == 0) }
    {
        self.count == 0
    }

    /// Makes room for a record more; `NoMemory` if there is no memory for it.
    #[inline(always)]
    pub fn reserve(&mut self) -> Result<(), NoMemory>
        ensures entries { self.new.entries ≡ self.old.entries }
        ensures room { OnOk result (1 ≤ self.new.room) }
    {
        self.records.reserve(1)?;
        Ok(())
    }

    /// Appends an entry as a record for which there is room. It takes no memory.
    #[inline(always)]
    #[tactic(auto, using(crate::proofs::Entries::one_more, crate::proofs::Entries::counted))]
    pub fn push_reserved(&mut self, entry: Answer)
        requires room { 1 ≤ self.old.room }
        requires few { length self.old.entries < 18446744073709551615 }
        ensures { self.new.entries ≡ self.old.entries ++ entry ∷ [] }
    {
        self.records.push_reserved(Record::One(entry));
        self.count += 1;
    }

    /// Returns the entry at a place, counted from 0; `None` if there are no more than that.
    pub fn get(&self, place: usize) -> Option<&Answer>
        ensures { option_copied result ≡ slice_get self.now.entries place }
    {
        entry_at(self.records.as_slice(), place)
    }

    /// Drops all entries but the first `len`, or none if there are fewer.
    #[tactic(auto, using(crate::proofs::Entries::first_ones, crate::proofs::Entries::count_first))]
    pub fn truncate(&mut self, len: usize)
        ensures { self.new.entries ≡ take len self.old.entries }
    {
        self.records.truncate(len);
        self.count = self.count.min(len);
    }

    /// Reads each entry from a place on where it says what it owns, so that its memory is fetched. It was last used long ago:
    /// so all is fetched side by side, where drops would wait for one after the other.
    pub fn read_from(&self, place: usize) -> u64 {
        let first = self.records.len().min(place);
        let mut read = 0;
        for kept in &self.records.as_slice()[first..] {
            read ^= read_record(kept);
        }
        read
    }
}

/// Returns the entry at a place of records: since each is one, that of the record there.
fn entry_at(records: &[Record], place: usize) -> Option<&Answer>
    ensures { option_copied result ≡ slice_get (flat_map entries_of records.now) place }
{
    match records.get(place) {
        None => None,
        Some(kept) => Some(only_entry(kept)),
    }
}

/// Returns the entry that a record is.
fn only_entry(kept: &Record) -> &Answer
    ensures { entries_of kept.now ≡ result.now ∷ [] }
{
    match kept {
        Record::One(entry) => entry,
    }
}

/// Reads a record where it says what it owns.
#[inline(always)]
fn read_record(kept: &Record) -> u64 {
    match kept {
        Record::One(entry) => {
            let entry = entry.get();
            entry.number ^ entry.event.now ^ u64::from(matches!(entry.outcome, Outcome::Closed))
        }
    }
}
