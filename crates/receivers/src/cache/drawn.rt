//! What a publisher's messages on a subject are sent as, where its account's mappings send them on.
ghost use Rattle.std.specs.Prelude.{◌≡◌, ◌++◌, ◌⊎◌, ℕ, [], OnOk};
ghost use Rattle.receivers.specs.cache.Drawn.{IsCached};
ghost use Rattle.receivers.specs.views.CachedViews.{addressed_in, addressed_in_each};
ghost use Rattle.receivers.specs.declared.cache.drawn.Drawn.{Drawn as DrawnModel};

use crate::cache::cached::clear;
use crate::cache::key::CacheKey;
use crate::views::{CachedView, address_cached};
use account_mappings::draw_of;
use base::{NoMemory, Shared};
use events::{Addressed, Message};
use std::alloc::Global;
use subjects::Subject;

/// How many draws there are.
const DRAWS: usize = 100;

/// What messages are sent as under one subject: whom they are for in their publisher's account, and in the views behind it.
#[derive(Drop)]
pub struct Drawn {
    pub own: CachedView,
    pub others: Vec<CachedView>,
}

impl Drawn {
    /// Appends the deliveries of a message. `NoMemory` where memory could not be had: then some may be appended.
    pub fn address(
        &self,
        message: &Message,
        word: u64,
        all: &mut Vec<Addressed>,
    ) -> Result<(), NoMemory>
        ensures { OnOk result (all.new.items ≡ addressed_in_each message.now word (addressed_in message.now word all.old.items self.now.own) self.now.others.items) }
    {
        self.own.address(message, word, all)?;
        address_cached(message, word, self.others.as_slice(), all)?;
        Ok(())
    }
}

/// What the messages of one publisher on one subject are sent as, by their draws, where it is known.
#[derive(Drop)]
pub struct DrawnCache {
    key: CacheKey,
    // One for each draw; none before the first is known.
    by_draw: Vec<Option<Shared<Drawn>>>,
}

/// Makes a place for each draw, if there are none. `NoMemory` where memory could not be had: then there may be some.
fn make_places(by_draw: &mut Vec<Option<Shared<Drawn>>>) -> Result<(), NoMemory>
    ensures { (draw : ℕ) (drawn : DrawnModel) → IsCached by_draw.new.items draw drawn → IsCached by_draw.old.items draw drawn }
{
    for _draw in by_draw.len()..DRAWS {
        by_draw.push(None)?;
    }
    Ok(())
}

/// Forgets what messages are sent as. Apart, since mostly nothing is known.
#[inline(never)]
fn forget(by_draw: &mut Vec<Option<Shared<Drawn>>>)
    ensures { by_draw.new.items ≡ [] }
{
    by_draw.clear();
}

/// Puts what messages are sent as into its place, if there is one.
fn put(by_draw: &mut Vec<Option<Shared<Drawn>>>, draw: usize, drawn: Shared<Drawn>)
    ensures { (other : ℕ) (known : DrawnModel) → IsCached by_draw.new.items other known → IsCached by_draw.old.items other known ⊎ ((other ≡ draw) × (known ≡ drawn)) }
{
    match by_draw.get_mut(draw) {
        None => {}
        Some(place) => *place = Some(drawn),
    }
}

impl DrawnCache {
    ghost use Rattle.std.specs.Prelude.{IfOk, IfSome, true};
    ghost use Rattle.receivers.specs.cache.Drawn.{TellsDrawn, subject_of};
    ghost use Rattle.receivers.specs.cache.Key.{IsOf};

    /// Knows nothing yet. It takes no memory.
    pub fn new(alloc: Global) -> DrawnCache
        ensures { result.by_draw.items ≡ [] }
    {
        DrawnCache {
            key: CacheKey::nothing(alloc),
            by_draw: Vec::new(alloc),
        }
    }

    /// Forgets all. Mostly nothing is known, and then nothing is called.
    #[inline(always)]
    pub fn clear(&mut self)
        ensures { self.new.by_draw.items ≡ [] }
    {
        if !self.by_draw.is_empty() {
            forget(&mut self.by_draw);
        }
    }

    /// Selects the publisher and the subject with this text, of whose messages it is cached next. Returns whether they were selected
    /// already.
    pub fn select(&mut self, conn: u64, text: &[u8]) -> bool
        ensures selected { result ≡ true → IsOf self.new.key conn text.now }
        ensures cached { (self.new ≡ self.old) ⊎ (self.new.by_draw.items ≡ []) }
    {
        if self.key.is_of(conn, text) {
            return true;
        }
        self.clear();
        self.key.set(conn, text);
        false
    }

    /// Puts the deliveries of a publisher's message that mappings send on in the place of what was in `all`, if what it is sent as is
    /// cached. Returns whether it is. `NoMemory` where memory could not be had.
    pub fn address(
        &self,
        conn: u64,
        text: &[u8],
        message: &Message,
        word: u64,
        all: &mut Vec<Addressed>,
    ) -> Result<bool, NoMemory>
        ensures tells { IfOk result (λ done. done ≡ true → TellsDrawn self.now conn text.now message.now word all.new.items) }
    {
        if !self.key.is_of(conn, text) {
            return Ok(false);
        }
        match self.find(draw_of(word)) {
            None => Ok(false),
            Some(drawn) => {
                clear(all);
                drawn.address(message, word, all)?;
                Ok(true)
            }
        }
    }

    /// Returns what a message with this draw is sent as, if it is known.
    fn find(&self, draw: u64) -> Option<&Drawn>
        ensures { IfSome result (λ drawn. IsCached self.now.by_draw.items draw drawn.now) }
    {
        match self.by_draw.as_slice().get(draw as usize) {
            None => None,
            Some(None) => None,
            Some(Some(drawn)) => Some(drawn.get()),
        }
    }

    /// Returns what messages under this subject are sent as, if it is known of some draw.
    pub fn find_under(&self, subject: &Subject) -> Option<&Shared<Drawn>>
        ensures { IfSome result (λ drawn. (draw : ℕ) × IsCached self.now.by_draw.items draw drawn.now × (subject_of drawn.now ≡ subject.now)) }
    {
        for known in &self.by_draw {
            if let Some(drawn) = known {
                if drawn.get().own.is_under(subject) {
                    return Some(drawn);
                }
            }
        }
        None
    }

    /// Caches what a message with this draw is sent as. Without memory it isn't cached.
    pub fn keep(&mut self, draw: u64, drawn: Shared<Drawn>)
        ensures kept { (other : ℕ) (known : DrawnModel) → IsCached self.new.by_draw.items other known → IsCached self.old.by_draw.items other known ⊎ ((other ≡ draw) × (known ≡ drawn)) }
        ensures key { self.new.key ≡ self.old.key }
    {
        let _ = make_places(&mut self.by_draw);
        put(&mut self.by_draw, draw as usize, drawn);
    }
}
