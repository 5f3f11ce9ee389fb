ghost use Rattle.std.specs.Prelude.{◌≡◌};
ghost use Rattle.server_state.specs.mail.Owners.{owner};
ghost use Rattle.server_state.specs.mail.Work.{work};

use crate::mail::mailbox::{Mail, Mailbox};
use crate::mail::pending::Pending;
use events::{Answer, Item, Outcome};
use std::alloc::Global;
use std::mem;
use std::sync::Wait;

/// How many entries the cache has.
const CACHED: usize = 4096;

/// A cache entry: in which worker's mail a connection's entry is, if it still is there, and at which index.
#[derive(Clone, Copy)]
struct CacheEntry {
    worker: usize,
    index: usize,
}

/// Mail that is to be left in the workers' mailboxes, as a thread gathers it from answers.
pub struct OutgoingMail {
    by_worker: Vec<Mail>,
    /// A cache of where connections' entries are, by their numbers. Two connections that share a slot may have two entries
    /// each, which does no harm.
    cache: Vec<CacheEntry>,
    /// The worker that gathers it, if one does.
    own: Option<usize>,
    /// How many deliveries are pending for one connection of another worker, at most.
    most: usize,
    /// Whether a publisher is let on that isn't left in its worker's mailbox yet.
    has_freed: bool,
}

impl Drop for OutgoingMail {
    fn drop(self) {
        let Self {
            by_worker: _,
            cache: _,
            own: _,
            most: _,
            has_freed: _,
        } = self;
    }
}

/// Returns which worker has a connection: they are dealt out round-robin, from the first worker on.
pub fn owner_of(conn: u64, workers: usize) -> usize
    ensures { result ≡ owner conn workers }
{
    if workers == 0 {
        return 0;
    }
    (conn.saturating_sub(1) % workers as u64) as usize
}

impl OutgoingMail {
    ghost use Rattle.std.specs.Prelude.{◌<◌, All, false, get_or, length, slice_set, true};
    ghost use Rattle.server_state.specs.mail.Mails.{AreMore, IsItemTold, IsNoted, IsSaidBySome, awaits, drains, frees, is_told};

    /// Returns empty mail for so many workers, which the worker `own` gathers or, with `None`, a thread that is no worker.
    /// Without memory it returns `None`.
    pub fn new(alloc: Global, workers: usize, own: Option<usize>) -> Option<OutgoingMail> {
        let mut by_worker = Vec::new(alloc);
        for _ in 0..workers {
            by_worker.push(Mail::new(alloc)).ok()?;
        }
        let mut cache = Vec::new(alloc);
        let unused = CacheEntry {
            worker: 0,
            index: 0,
        };
        cache.resize(CACHED, unused).ok()?;
        Some(OutgoingMail {
            by_worker,
            cache,
            own,
            most: 0,
            has_freed: false,
        })
    }

    /// Adds what an answer makes pending; a message of its has `size` bytes. Returns how much of a round's share the answer
    /// is: one, and one for each delivery of a message.
    #[inline(always)]
    pub fn add_answer(&mut self, answer: &Answer, size: usize) -> usize
        ensures work { result ≡ work answer.now.outcome }
        ensures noted { IsNoted answer.now.outcome self.old.by_worker.items self.new.by_worker.items }
    {
        match &answer.get().outcome {
            Outcome::Published(_, met) => {
                self.add_receivers(met.as_slice(), size);
                met.as_slice().len().saturating_add(1)
            }
            Outcome::Taken(_, _) => 0,
            Outcome::Reloaded { gone, .. } => {
                self.add_gone(gone.as_slice());
                1
            }
            _ => 1,
        }
    }

    /// Adds connections whose sessions have ended.
    fn add_gone(&mut self, gone: &[u64])
        ensures more { AreMore self.old.by_worker.items self.new.by_worker.items }
        ensures told { 0 < length self.old.by_worker.items → All (λ conn. is_told drains self.new.by_worker.items conn ≡ true) gone.now }
    {
        for conn in gone {
            self.add_drain(*conn);
        }
    }

    /// Adds a message's receivers.
    fn add_receivers(&mut self, items: &[Item], bytes: usize)
        ensures more { AreMore self.old.by_worker.items self.new.by_worker.items }
        ensures told { 0 < length self.old.by_worker.items → All (IsItemTold self.new.by_worker.items) items.now }
    {
        for item in items {
            self.add_item(item, bytes);
        }
    }

    /// Adds what a message met.
    #[inline(always)]
    fn add_item(&mut self, item: &Item, bytes: usize)
        ensures more { AreMore self.old.by_worker.items self.new.by_worker.items }
        ensures told { 0 < length self.old.by_worker.items → IsItemTold self.new.by_worker.items item.now }
    {
        match item {
            Item::Entered { conn, .. } => self.add_entered(*conn, bytes),
            Item::Full { conn, .. } => self.add_drain(*conn),
            Item::RouteFull(_) => {}
            Item::MapTooLong(_) => {}
            Item::Unmapped => {}
            Item::MappedTooLong(_) => {}
        }
    }

    /// Adds a delivery that has entered for a connection.
    #[inline(always)]
    fn add_entered(&mut self, conn: u64, bytes: usize)
        ensures more { AreMore self.old.by_worker.items self.new.by_worker.items }
        ensures told { 0 < length self.old.by_worker.items → is_told awaits self.new.by_worker.items conn ≡ true }
    {
        self.add_pending(Pending {
            conn,
            entered: 1,
            bytes,
            drain: false,
        });
    }

    /// Adds a connection that is to be drained whatever waits.
    #[inline(always)]
    fn add_drain(&mut self, conn: u64)
        ensures more { AreMore self.old.by_worker.items self.new.by_worker.items }
        ensures told { 0 < length self.old.by_worker.items → is_told drains self.new.by_worker.items conn ≡ true }
    {
        self.add_pending(Pending {
            conn,
            entered: 0,
            bytes: 0,
            drain: true,
        });
    }

    /// Adds to a connection's entry, or makes one.
    #[inline(always)]
    fn add_pending(&mut self, pending: Pending)
        ensures more { AreMore self.old.by_worker.items self.new.by_worker.items }
        ensures said { 0 < length self.old.by_worker.items → IsSaidBySome pending self.new.by_worker.items }
    {
        let slot = (pending.conn % CACHED as u64) as usize;
        if !self.add_cached(slot, pending) {
            self.add_new(slot, pending);
        }
    }

    /// Adds to a connection's entry, and returns whether the cache has it.
    #[inline(always)]
    fn add_cached(&mut self, slot: usize, more: Pending) -> bool
        ensures more { AreMore self.old.by_worker.items self.new.by_worker.items }
        ensures said { result ≡ true → IsSaidBySome more self.new.by_worker.items }
    {
        let Some(CacheEntry { worker, index }) = self.cache.get(slot).copied() else {
            return false;
        };
        let Some(mail) = self.by_worker.get_mut(worker) else {
            return false;
        };
        match mail.add_at(index, more) {
            None => false,
            Some(entered) => {
                if self.own != Some(worker) {
                    self.most = self.most.max(entered);
                }
                true
            }
        }
    }

    /// Adds an entry behind the others of its worker, and caches where.
    #[inline(never)]
    fn add_new(&mut self, slot: usize, pending: Pending)
        ensures more { AreMore self.old.by_worker.items self.new.by_worker.items }
        ensures said { 0 < length self.old.by_worker.items → IsSaidBySome pending self.new.by_worker.items }
    {
        let worker = owner_of(pending.conn, self.by_worker.len());
        if let Some(mail) = self.by_worker.get_mut(worker) {
            let index = mail.pending.len();
            mail.add_pending(pending);
            self.note_place(slot, CacheEntry { worker, index });
        }
    }

    /// Caches where an entry is.
    fn note_place(&mut self, slot: usize, place: CacheEntry)
        ensures { self.new.by_worker ≡ self.old.by_worker }
    {
        if let Some(cached) = self.cache.get_mut(slot) {
            *cached = place;
        }
    }

    /// Adds a publisher that is let on.
    pub fn add_freed(&mut self, conn: u64)
        ensures more { AreMore self.old.by_worker.items self.new.by_worker.items }
        ensures told { 0 < length self.old.by_worker.items → is_told frees self.new.by_worker.items conn ≡ true }
    {
        let worker = owner_of(conn, self.by_worker.len());
        if let Some(mail) = self.by_worker.get_mut(worker) {
            mail.add_freed(conn);
            self.has_freed = true;
        }
    }

    /// Returns whether publishers are let on that aren't left in their workers' mailboxes yet.
    pub fn has_freed(&self) -> bool
        ensures { result ≡ self.now.has_freed }
    {
        self.has_freed
    }

    /// Returns how many deliveries are pending for one connection of another worker, at most.
    pub fn most(&self) -> usize
        ensures { result ≡ self.now.most }
    {
        self.most
    }

    /// Takes out a worker's mail, and leaves `spare` for the next.
    pub fn take(&mut self, worker: usize, spare: Mail) -> Mail
        ensures taken { result ≡ get_or self.old.by_worker.items worker spare }
        ensures left { self.new.by_worker.items ≡ slice_set self.old.by_worker.items worker spare }
    {
        match self.by_worker.get_mut(worker) {
            Some(mail) => mem::replace(mail, spare),
            None => spare,
        }
    }

    /// Leaves each worker's mail in its mailbox, but that of the worker that gathers it.
    pub fn leave_others<R: Wait>(&mut self, rt: &R, mailboxes: &[Mailbox])
        ensures most { self.new.most ≡ 0 }
        ensures freed { self.new.has_freed ≡ false }
    {
        for (worker, mail) in self.by_worker.as_mut_slice().iter_mut().enumerate() {
            if self.own != Some(worker) && !mail.is_empty() {
                if let Some(mailbox) = mailboxes.get(worker) {
                    mailbox.leave_mail(rt, mail);
                }
                mail.clear();
            }
        }
        self.most = 0;
        self.has_freed = false;
    }
}
