//! How a port counts what entries keep, and rotates the history.
ghost use Rattle.std.specs.Prelude.{◌≡◌};

use crate::gates::Gate;
use crate::port::ServerPort;
use events::Answer;
use server_state::history::{Added, Look};
use shared_hub::{Run, Segment};
use std::sync::Wait;

impl<L: Run, R: Wait, G: Gate + Drop> ServerPort<'_, L, R, G> {
    ghost use Rattle.std.specs.Prelude.{◌+◌, ◌≤◌, ℕ, is_some, true};
    ghost use Rattle.server_state.specs.history.Bytes.{IsCounted, is_passed, own};
    ghost use Rattle.server_state.specs.history.Rotating.{is_due, taken_over};
    ghost use Rattle.server_port.specs.Histories.{IsHandedOut, IsTried, falls_due, once, passed, tried, was_same};

    /// Takes over a segment that was handed out: its entries are all that is still to be dropped.
    fn take_over(&mut self, segment: Segment)
        ensures taken { (rotations : ℕ) × (self.new.rotation ≡ taken_over segment.entries rotations self.old.rotation) }
        ensures seat { self.new.seat ≡ self.old.seat }
        ensures course { self.new.course ≡ self.old.course }
        ensures kept { (self.new.gate ≡ self.old.gate) × (self.new.is_spent ≡ self.old.is_spent) × (self.new.noted ≡ self.old.noted) }
    {
        self.rotation.take_over(segment.into_entries(), self.kept);
    }

    /// Rotates the history, and returns whether it could. Without memory nothing changes, and the next that meets a full
    /// history tries it again.
    #[inline(never)]
    pub(crate) fn rotate(&mut self) -> bool
        ensures handed { IsHandedOut result self.old.rotation self.new.rotation }
        ensures tried { IsTried true self.old.rotation self.new.rotation }
        ensures count { self.new.seat.count ≡ self.old.seat.count }
        ensures rotations { self.new.seat.rotations ≡ self.old.seat.rotations + once result }
        ensures course { self.new.course ≡ self.old.course }
        ensures kept { (self.new.gate ≡ self.old.gate) × (self.new.is_spent ≡ self.old.is_spent) × (self.new.noted ≡ self.old.noted) }
    {
        match self.shared.rotate_as(self.rt, &mut self.seat) {
            Ok(segment) => {
                segment.prove_invariant();
                self.take_over(segment);
                true
            }
            Err(_) => {
                self.rotation.fail();
                false
            }
        }
    }

    /// Rotates the history if what was told of is too much.
    #[inline(never)]
    fn heed(&mut self, added: &Added)
        ensures tried { IsTried (is_passed added.now.half added.now.before added.now.bytes added.now.taken) self.old.rotation self.new.rotation }
        ensures count { self.new.seat.count ≡ self.old.seat.count }
        ensures rotations { self.new.seat.rotations ≤ self.old.seat.rotations + once (is_passed added.now.half added.now.before added.now.bytes added.now.taken) }
        ensures course { self.new.course ≡ self.old.course }
        ensures kept { (self.new.gate ≡ self.old.gate) × (self.new.is_spent ≡ self.old.is_spent) × (self.new.noted ≡ self.old.noted) }
    {
        if added.is_passed() {
            if !self.rotate() {
                self.kept.restore();
            }
        }
    }

    /// Rotates the history if others were told of something, and it is too much.
    #[inline(always)]
    fn heed_told(&mut self, told: &Option<Added>)
        ensures tried { IsTried (passed told.now) self.old.rotation self.new.rotation }
        ensures count { self.new.seat.count ≡ self.old.seat.count }
        ensures rotations { self.new.seat.rotations ≤ self.old.seat.rotations + once (passed told.now) }
        ensures course { self.new.course ≡ self.old.course }
        ensures kept { (self.new.gate ≡ self.old.gate) × (self.new.is_spent ≡ self.old.is_spent) × (self.new.noted ≡ self.old.noted) }
    {
        match told {
            None => {}
            Some(added) => self.heed(added),
        }
    }

    /// Counts bytes that entries keep, and rotates the history where they are too many. Returns what was added to the count of others.
    pub(crate) fn count_bytes(&mut self, bytes: u64) -> Option<Added>
        ensures counted { IsCounted self.old.rotation.uncounted bytes result self.new.rotation.uncounted }
        ensures tried { self.new.rotation.tries ≡ tried (passed result) self.old.rotation.tries }
        ensures count { self.new.seat.count ≡ self.old.seat.count }
        ensures rotations { self.new.seat.rotations ≤ self.old.seat.rotations + once (passed result) }
        ensures course { self.new.course ≡ self.old.course }
        ensures kept { (self.new.gate ≡ self.old.gate) × (self.new.is_spent ≡ self.old.is_spent) × (self.new.noted ≡ self.old.noted) }
    {
        let told = self.rotation.count_bytes(bytes, self.kept);
        self.heed_told(&told);
        told
    }

    /// Counts what the entry of an answer keeps of its own, and rotates the history where that is due at its number or they
    /// keep too much. Answers what others were told, and what it saw where the history is due.
    #[inline(always)]
    pub(crate) fn count_and_rotate(&mut self, answer: &Answer) -> (Option<Added>, Option<Look>)
        ensures counted { IsCounted self.old.rotation.uncounted (own answer.now) result.0 self.new.rotation.uncounted }
        ensures looked { is_some result.1 ≡ falls_due self.old.rotation answer.now.number }
        ensures tried { self.new.rotation.tries ≡ tried (was_same result.1) (tried (passed result.0) self.old.rotation.tries) }
        ensures count { self.new.seat.count ≡ self.old.seat.count }
        ensures rotations { self.new.seat.rotations ≤ self.old.seat.rotations + (once (passed result.0) + once (was_same result.1)) }
        ensures course { self.new.course ≡ self.old.course }
        ensures kept { (self.new.gate ≡ self.old.gate) × (self.new.is_spent ≡ self.old.is_spent) × (self.new.noted ≡ self.old.noted) }
    {
        let told = self.rotation.count(answer, self.kept);
        self.heed_told(&told);
        let number = answer.get().number;
        let seen = if self.rotation.is_near(number) {
            self.rotate_at(number)
        } else {
            None
        };
        (told, seen)
    }

    /// Rotates the history where it is due at a number, unless somebody has done so since it was due before.
    #[inline(never)]
    fn rotate_at(&mut self, number: u64) -> Option<Look>
        ensures looked { is_some result ≡ is_due self.old.rotation.half number }
        ensures tried { self.new.rotation.tries ≡ tried (was_same result) self.old.rotation.tries }
        ensures uncounted { self.new.rotation.uncounted ≡ self.old.rotation.uncounted }
        ensures count { self.new.seat.count ≡ self.old.seat.count }
        ensures rotations { self.new.seat.rotations ≤ self.old.seat.rotations + once (was_same result) }
        ensures course { self.new.course ≡ self.old.course }
        ensures kept { (self.new.gate ≡ self.old.gate) × (self.new.is_spent ≡ self.old.is_spent) × (self.new.noted ≡ self.old.noted) }
    {
        let seen = self.rotation.look(number, self.kept);
        if let Some(look) = &seen {
            if look.is_same() {
                let _ = self.rotate();
            }
        }
        seen
    }
}
