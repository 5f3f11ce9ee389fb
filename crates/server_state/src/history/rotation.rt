ghost use Rattle.std.specs.Prelude.{◌≡◌};

use crate::history::kept::{Added, Kept, Look};
use crate::history::own::own_of;
use events::Answer;
use records::History;
use std::alloc::Global;
use std::marker::Model;

/// How many old entries are dropped together: so many that their memory is fetched side by side.
const TOGETHER: usize = 32;

/// How many bytes a port counts until others are told of them.
const TOLD: u64 = 64 * 1024;

/// When the history is rotated, and which of its entries are still to be dropped. What it has counted and not told of is below 64 KiB.
pub struct Rotation {
    half: u64,
    /// The next number at which the history is due; 0 before the first look.
    due: u64,
    /// What a rotation handed out and is still to be dropped.
    spent: History,
    /// How many of the blocks that were dropped last no new entry has yet.
    at_hand: usize,
    /// What was read of those, so that the reads are made.
    read: u64,
    /// What was counted since others were told.
    uncounted: u64,
    /// How often the history had been rotated once this port did so last.
    rotations: u64,
    /// How often this port has rotated it, or tried to.
    tries: u64,
}

impl Drop for Rotation {
    fn drop(self) {
        let Self {
            half: _,
            due: _,
            spent: _,
            at_hand: _,
            read: _,
            uncounted: _,
            rotations: _,
            tries: _,
        } = self;
    }
}

impl Model for Rotation {
    ghost use Rattle.std.specs.Prelude.{◌<◌};
    ghost use Rattle.server_state.specs.history.Rotating.{Rotating};

    ghost Value = { Rotating };

    ghost view = { λ r. record { half = r.half; due = r.due; spent = r.spent.entries; at_hand = r.at_hand; uncounted = r.uncounted; rotations = r.rotations; tries = r.tries } };

    ghost invariant = { λ r. r.uncounted < 65536 };
}

impl Rotation {
    ghost use Rattle.std.specs.Prelude.{◌≡◌, ◌-◌, ℕ, [], cond, is_some, length, nat_le, nat_lt};
    ghost use Rattle.server_state.specs.history.Bytes.{IsCounted, own};
    ghost use Rattle.server_state.specs.history.Rotating.{but_last, dropped, failed, fresh, is_due, looked, taken_over};

    /// Returns the rotation of a history that holds at most so many entries.
    pub fn new(alloc: Global, history: usize) -> Rotation
        ensures { result ≡ fresh history }
    {
        Rotation {
            half: (history / 2) as u64,
            due: 0,
            spent: History::new(alloc),
            at_hand: 0,
            read: 0,
            uncounted: 0,
            rotations: 0,
            tries: 0,
        }
    }

    /// Counts what the entry of an answer keeps of its own. From 64 KiB on others are told of what was counted.
    #[inline(always)]
    pub fn count(&mut self, answer: &Answer, kept: &Kept) -> Option<Added>
        ensures counted { IsCounted self.old.uncounted (own answer.now) result self.new.uncounted }
        ensures same { self.new ≡ record self.old { uncounted = self.new.uncounted } }
    {
        self.count_bytes(own_of(answer), kept)
    }

    /// Counts bytes that entries keep. From 64 KiB on others are told of what was counted.
    #[inline(always)]
    pub fn count_bytes(&mut self, bytes: u64, kept: &Kept) -> Option<Added>
        ensures counted { IsCounted self.old.uncounted bytes result self.new.uncounted }
        ensures same { self.new ≡ record self.old { uncounted = self.new.uncounted } }
    {
        let all = self.uncounted.saturating_add(bytes);
        if all < TOLD {
            self.uncounted = all;
            return None;
        }
        self.uncounted = 0;
        Some(kept.add(all))
    }

    /// Drops what is left of a rotation once the history was rotated twice since, so that the entries of two stand at most.
    #[inline(always)]
    pub fn drop_old(&mut self, kept: &Kept)
        ensures { (rotations : ℕ) × (self.new ≡ record self.old { spent = cond (nat_lt (self.old.rotations + 1) rotations) [] self.old.spent }) }
    {
        if kept.rotations() > self.rotations.saturating_add(1) {
            self.spent.truncate(0);
        }
    }

    /// Drops the last `most` of the entries that were handed out, or all if there are fewer. Returns whether some are left.
    pub fn shed(&mut self, most: usize) -> bool
        ensures left { self.new ≡ record self.old { spent = but_last most self.old.spent } }
        ensures some { result ≡ nat_lt 0 (length self.new.spent) }
    {
        let left = self.spent.len().saturating_sub(most);
        self.spent.truncate(left);
        left > 0
    }

    /// Takes over the entries that a rotation handed out, and drops what is left of those of the rotation before.
    pub fn take_over(&mut self, entries: History, kept: &Kept)
        ensures { (rotations : ℕ) × (self.new ≡ taken_over entries.entries rotations self.old) }
    {
        self.spent = entries;
        self.rotations = kept.note_rotation();
        self.tries = self.tries.saturating_add(1);
    }

    /// Notes that the history could not be rotated.
    pub fn fail(&mut self)
        ensures { self.new ≡ failed self.old }
    {
        self.tries = self.tries.saturating_add(1);
    }

    /// Returns whether the history may be due at the number of an answer.
    #[inline(always)]
    pub fn is_near(&self, number: u64) -> bool
        ensures { result ≡ nat_le self.now.due number }
    {
        self.due <= number
    }

    /// Looks where the history is due at a number, a multiple of half of what it holds at most; and notes at which number it
    /// is next. `kept` notes the look.
    pub fn look(&mut self, number: u64, kept: &Kept) -> Option<Look>
        ensures due { is_some result ≡ is_due self.old.half number }
        ensures looked { self.new ≡ looked number self.old }
    {
        if self.half == 0 {
            self.due = number;
            return None;
        }
        let past = number % self.half;
        self.due = (number - past).saturating_add(self.half);
        if past == 0 { Some(kept.look()) } else { None }
    }

    /// Drops the last 32 of what was handed out, once 32 events have come since the 32 before.
    #[inline(always)]
    pub fn drop_some(&mut self)
        ensures { self.new ≡ dropped self.old }
    {
        if self.at_hand > 0 {
            self.at_hand -= 1;
            return;
        }
        let left = self.spent.len().saturating_sub(TOGETHER);
        self.read = self.spent.read_from(left);
        self.spent.truncate(left);
        self.at_hand = TOGETHER - 1;
    }
}

ghost use Rattle.std.specs.Prelude.{◌+◌, ◌<◌, ℕ, List};
ghost use Rattle.std.specs.List.{AllByRecursion, sum_by};
ghost use Rattle.events.specs.declared.answer.Entry.{Entry};
ghost use Rattle.server_state.specs.history.Bytes.{AreCounted, IsTold, own};

/// Proves what a port has counted: of entries whose sizes are told as they are, what it has told others of and what it hasn't
/// yet are exactly what they keep of their own, beside what it had not told of before.
pub fn counted_in_all()
    ensures { (entries : List Entry) (before all after : ℕ) → AllByRecursion IsTold entries → before < 65536 → AreCounted before entries all after → before + sum_by own entries ≡ all + after }
{}
