//! A cache of the ids that subjects were found to have, so that the next message of a subject needs no search.

use crate::ids::cached_ids::CachedIds;
use std::alloc::Global;
use stores::slot_cache::{SlotCache, hash_of_texts};

/// How many slots the cache has.
const SLOTS: usize = 256;

/// How many ids of a subject are cached, so that all slots take half a megabyte at most. Where a subject has more, the
/// search is little beside what the message costs.
const MOST_IDS: usize = 256;

/// Caches what was found in what is searched, as it is, each subject's ids in its slot.
#[derive(Drop)]
pub(crate) struct IdCache {
    alloc: Global,
    slots: SlotCache<CachedIds>,
    // The hash of the selected subject, and its slot.
    hash: u64,
    at: usize,
}

impl IdCache {
    ghost use Rattle.std.specs.Prelude.{IfSome};
    ghost use Rattle.world_rows.specs.ids.CachedIds.{IsSaid};
    ghost use Rattle.world_rows.specs.ids.Entries.{Entries, IsTold};
    ghost use Rattle.world_rows.specs.ids.Told.{AreTold};
    ghost use Rattle.subjects.specs.Subject.{tokens_of};

    /// Returns an empty cache. It takes no memory.
    pub fn new(alloc: Global) -> IdCache
        ensures { (entries : Entries) → AreTold result entries }
    {
        IdCache {
            alloc,
            slots: SlotCache::new(alloc, SLOTS),
            hash: 0,
            at: 0,
        }
    }

    /// Selects the slot of a subject. Returns whether its ids are to be found, and put there.
    pub fn select(&mut self, account: &[u8], text: &[u8]) -> bool
        ensures { (entries : Entries) → AreTold self.old entries → AreTold self.new entries }
    {
        self.hash = hash_of_texts(account, text);
        self.at = self.slots.place_of(self.hash);
        !self.has_hash() && self.slots.note_asked(self.hash)
    }

    /// Returns whether ids are cached under that hash.
    fn has_hash(&self) -> bool {
        match self.slots.get(self.at) {
            None => false,
            Some(cached) => cached.has_hash(self.hash),
        }
    }

    /// Puts the ids of the selected subject into its slot, where memory could be had and they aren't too many.
    pub fn put(&mut self, account: &[u8], text: &[u8], ids: Vec<u64>)
        ensures { (entries : Entries) → AreTold self.old entries → IsTold account.now (tokens_of text.now) ids.items entries → AreTold self.new entries }
    {
        if ids.len() > MOST_IDS {
            self.set(CachedIds::too_many(self.alloc, self.hash));
            return;
        }
        match CachedIds::of(self.alloc, self.hash, account, text, ids) {
            Err(_) => {}
            Ok(cached) => self.set(cached),
        }
    }

    /// Puts cached ids into the selected slot.
    fn set(&mut self, cached: CachedIds)
        ensures { (entries : Entries) → AreTold self.old entries → IsSaid cached entries → AreTold self.new entries }
    {
        let _ = self.slots.put(self.at, cached);
    }

    /// Returns the ids of a subject, if it is selected and they are cached.
    pub fn find(&self, account: &[u8], text: &[u8]) -> Option<&[u64]>
        ensures { IfSome result (λ ids. (entries : Entries) → AreTold self.now entries → IsTold account.now (tokens_of text.now) ids.now entries) }
    {
        match self.slots.get(self.at) {
            None => None,
            Some(cached) => cached.find(account, text),
        }
    }

    /// Clears the cache.
    pub fn clear(&mut self)
        ensures { (entries : Entries) → AreTold self.new entries }
    {
        self.slots.clear();
    }
}
