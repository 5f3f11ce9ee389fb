//! A hub under its lock, and what may be done through it.
ghost use Rattle.std.specs.Prelude.{◌≡◌, ◌<◌, ◌≤◌, ℕ};

use crate::audit::AuditFault;
use crate::unlocked::{Parts, Unlocked};
use crate::{Audit, Desk, Receipt, Run, RunContext, Seat, Told};
use base::NoMemory;
use events::Words;
use hub::{Answer, Event, Hub, HubRefusal, Message, PublishRefusal, Segment};
use reply_grants::GrantEnd;
use std::alloc::Global;
use std::collections::VecDeque;
use std::hint::spin_loop;
use std::sync::ledger::{Blank, Share};
use std::sync::{Mutex, MutexGuard, Wait};

/// How often a thread looks at a taken lock before it sleeps.
const LOOKS: usize = 64;

/// Pauses for so many of the processor's shortest pauses.
fn pause(times: usize) {
    for _ in 0..times {
        spin_loop();
    }
}

/// A hub that threads share. Each event is entered while its one lock is held; all else is done outside.
pub struct SharedHub<L: Run> {
    pub(crate) desk: Mutex<Desk<L>>,
    rest: Rest<L>,
}

impl<L: Run> Drop for SharedHub<L> {
    fn drop(self) {
        let Self { desk: _, rest: _ } = self;
    }
}

/// The share of the ledger that is left once each seat has its part. At the end the parts come together here.
#[derive(Drop)]
pub(crate) struct Rest<L: Run> {
    /// How many seats there are.
    pub(crate) seats: u64,
    /// The share of no part.
    pub(crate) share: Share<L>,
    ghost all: { seats ≡ L.seats },
    ghost none: { share.parts ≡ 0 },
    ghost nothing: { share.amount ≡ 0 },
}

impl<L: Run> SharedHub<L> {
    ghost use Rattle.std.specs.Prelude.{◌≡◌, ◌+◌, ◌<◌, ◌≤◌, ◌++◌, IfOk, IfErr, All, List, MatchResult, vec_len, map};
    ghost use Rattle.shared_hub.specs.Entering.{IsSubmitted, IsAnswered, IsOfferedBy, IsLonger, IsToldOfStep, IsToldOfOffer, telling};
    ghost use Rattle.shared_waits.specs.runs.Runs.{IsRun, StaysBelow};
    ghost use Rattle.events.specs.declared.answer.Entry.{Entry};
    ghost use Rattle.shared_hub.specs.Audits.{IsWhole, IsDue};

    /// Puts the hub with which the run opens under a lock, as it is, and returns it with so many seats, none of which has
    /// entered anything or handed the history out. The blank ledger has a part for each seat. `NoMemory` hands the hub back;
    /// the ledger is spent then too.
    pub fn with_seats(
        alloc: Global,
        blank: Blank,
        hub: Hub,
        seats: u64,
    ) -> Result<(SharedHub<L>, Vec<Seat<L>>), (Hub, NoMemory)>
        requires name { blank.name ≡ L.name }
        requires parts { blank.parts ≡ L.parts }
        requires first { hub ≡ L.first }
        requires opening { hub.world.number ≡ L.opening }
        requires seats { (seats ≡ L.seats) × (L.seats ≡ L.parts) }
        ensures seats { IfOk result (λ opened. vec_len opened.1 ≡ seats) }
        ensures fresh { IfOk result (λ opened. All (λ s. (s.count ≡ 0) × (s.rotations ≡ 0)) opened.1.items) }
        ensures err { IfErr result (λ refused. refused.0 ≡ hub) }
    {
        let Ok(mut made) = Vec::with_capacity(alloc, seats as usize) else {
            return Err((hub, NoMemory));
        };
        let (desk, mut rest) = Desk::open(alloc, blank, hub);
        seat_all(&mut rest, &mut made, seats);
        let rest = Rest { seats, share: rest };
        Ok((SharedHub::of(desk, rest), made))
    }

    /// Puts a desk under a lock, with what is left of its ledger.
    pub(crate) fn of(desk: Desk<L>, rest: Rest<L>) -> SharedHub<L> {
        SharedHub {
            desk: Mutex::new(desk),
            rest,
        }
    }

    /// Takes the hub out of its lock.
    pub fn unlock(self) -> Unlocked<L> {
        let SharedHub { desk, rest } = self;
        Unlocked::of(desk.into_inner(), rest)
    }

    /// Enters an event while the lock is held. With a receipt the seat has one more; a refusal hands the event back.
    /// `Desk::step_with_receipt` says what becomes of tables and history.
    pub fn submit<R: Wait>(
        &self,
        rt: &R,
        seat: Seat<L>,
        event: Event,
    ) -> (Seat<L>, Result<Receipt, (Event, HubRefusal)>)
        ensures submitted { IsSubmitted L.opening seat.count event result.1 result.0.count }
        ensures rotations { result.0.rotations ≡ seat.rotations }
    {
        let mut seat = seat;
        let result = self.submit_with_receipt(rt, &mut seat, event);
        (seat, result)
    }

    /// Hands out the hub's entries while the lock is held, as `Desk::rotate` does. The seat has done so once more. A segment is
    /// dropped outside the lock.
    pub fn rotate<R: Wait>(&self, rt: &R, seat: Seat<L>) -> (Seat<L>, Result<Segment, NoMemory>)
        ensures count { result.0.count ≡ seat.count }
        ensures rotations { MatchResult result.1 (λ _. result.0.rotations ≡ seat.rotations + 1) (λ _. result.0.rotations ≡ seat.rotations) }
    {
        let mut seat = seat;
        let result = self.rotate_as(rt, &mut seat);
        (seat, result)
    }

    /// Rotates as `rotate` does, for a seat that is lent.
    pub fn rotate_as<R: Wait>(&self, rt: &R, seat: &mut Seat<L>) -> Result<Segment, NoMemory>
        ensures count { seat.new.count ≡ seat.old.count }
        ensures rotations { MatchResult result (λ _. seat.new.rotations ≡ seat.old.rotations + 1) (λ _. seat.new.rotations ≡ seat.old.rotations) }
    {
        let result = self.desk.lock(rt).rotate_as(seat);
        result
    }

    /// Audits what was under the lock, as `Unlocked::finish` does. If the audit is refused, the fault is one of the run that
    /// is handed back.
    pub fn finish(
        self,
        alloc: Global,
        seats: Vec<Seat<L>>,
        receipts: Vec<Receipt>,
        segments: Vec<Segment>,
    ) -> Result<Audit<L>, (AuditFault, Parts<L>)>
        requires { L.seats ≡ L.parts }
        ensures segments { IfOk result (λ audit. audit.segments ≡ segments) }
        ensures counts { IfOk result (λ audit. audit.counts ≡ map (λ s. s.count) seats.items) }
        ensures whole { IfOk result (λ audit. IsWhole L.opening segments.items audit.hub receipts.items audit.counts) }
        ensures due { IfErr result (λ refused. IsDue segments.items refused.1.run.desk.hub L.seats (vec_len seats) receipts.items refused.0) }
        ensures back { IfErr result (λ refused. (refused.1.seats ≡ seats) × (refused.1.receipts ≡ receipts) × (refused.1.segments ≡ segments)) }
    {
        self.unlock().finish(alloc, seats, receipts, segments)
    }

    /// Submits an event as `submit` does, for a seat that is lent.
    #[inline(always)]
    pub(crate) fn submit_with_receipt<R: Wait>(
        &self,
        rt: &R,
        seat: &mut Seat<L>,
        event: Event,
    ) -> Result<Receipt, (Event, HubRefusal)>
        ensures submitted { IsSubmitted L.opening seat.old.count event result seat.new.count }
        ensures rotations { seat.new.rotations ≡ seat.old.rotations }
    {
        self.desk.lock(rt).step_with_receipt(seat, event)
    }

    /// Submits an event that is no message, without a receipt, so that no owner of the policy is counted while the lock is
    /// held. Publishers that wait are let on, and a Take is charged with the milliseconds in which its connection's socket
    /// took nothing, as `Desk::step` does.
    #[inline(always)]
    pub fn submit_without_receipt<R: Wait>(
        &self,
        rt: &R,
        seat: &mut Seat<L>,
        event: Event,
        refused: u64,
        told: &mut Told,
    ) -> Result<Answer, (Event, HubRefusal)>
        ensures answered { IsAnswered L.opening seat.old.count event result seat.new.count }
        ensures rotations { seat.new.rotations ≡ seat.old.rotations }
        ensures freed { IsLonger told.old.freed.items told.new.freed.items }
        ensures told { IsToldOfStep refused event result told.old told.new }
    {
        self.desk.lock(rt).step(seat, event, refused, told)
    }

    /// Offers a message's event, which is submitted or held back, as `Desk::step_if` does.
    #[inline(always)]
    pub fn offer<R: Wait>(
        &self,
        rt: &R,
        seat: &mut Seat<L>,
        event: Event,
        told: &mut Told,
    ) -> Result<Answer, (Event, PublishRefusal)>
        ensures offered { IsOfferedBy L.opening seat.old.count event result seat.new.count }
        ensures told { IsToldOfOffer L.opening seat.old.count event result seat.new.count told.new }
        ensures rotations { seat.new.rotations ≡ seat.old.rotations }
        ensures err { IfErr result (λ refused. refused.0 ≡ event) }
        ensures freed { told.new.freed.items ≡ told.old.freed.items }
    {
        self.desk.lock(rt).step_if(seat, event, told)
    }

    /// Offers messages of one connection in one hold of the lock, as `Desk::step_run` does.
    #[inline(always)]
    pub fn offer_run<R: Wait, W: Words>(
        &self,
        rt: &R,
        seat: &mut Seat<L>,
        context: &mut RunContext,
        messages: &mut VecDeque<Message>,
        words: &mut W,
    ) -> Option<Result<Answer, (Event, PublishRefusal)>>
        ensures run { (answers : List Entry) × (context.new.hold.answers.items ≡ context.old.hold.answers.items ++ answers) × IsRun (λ s e r after. IsOfferedBy L.opening s.count e r after.count) W.draws context.old.posts.conn context.old.posts.now messages.old.items seat.old words.old answers result messages.new.items seat.new words.new }
        ensures told { (answers : List Entry) × (context.new.hold.answers.items ≡ context.old.hold.answers.items ++ answers) × IsRun (λ x e r y. IsToldOfOffer L.opening x.count e r y.count y.told) W.draws context.old.posts.conn context.old.posts.now messages.old.items (telling seat.old.count context.old.told) words.old answers result messages.new.items (telling seat.new.count context.new.told) words.new }
        ensures rotations { seat.new.rotations ≡ seat.old.rotations }
        ensures below { StaysBelow context.old.hold.most context.old.hold.answers.items context.new.hold.answers.items }
        ensures freed { context.new.told.freed.items ≡ context.old.told.freed.items }
        ensures rest { context.new.told.rest ≡ context.old.told.rest }
    {
        let mut desk = self.take_lock(rt);
        let end = desk.step_run(seat, context, messages, words);
        end
    }

    /// Takes the lock. The thread looks for it for a while before it sleeps.
    #[inline(always)]
    fn take_lock<R: Wait>(&self, rt: &R) -> MutexGuard<'_, Desk<L>> {
        if let Some(desk) = self.desk.try_lock() {
            return desk;
        }
        self.wait_for(rt)
    }

    /// Takes the lock, which somebody has. The thread looks again behind growing pauses before it sleeps: a hold is shorter
    /// than a thread takes to be woken.
    #[inline(never)]
    fn wait_for<R: Wait>(&self, rt: &R) -> MutexGuard<'_, Desk<L>> {
        for look in 0..LOOKS {
            pause(1 << look.min(6));
            if let Some(desk) = self.desk.try_lock() {
                return desk;
            }
        }
        self.desk.lock(rt)
    }

    /// Why the grant that a connection's session has, or had, for a message's subject allows it no more, where that is
    /// known.
    pub fn grant_end<R: Wait>(&self, rt: &R, conn: u64, message: &Message) -> Option<GrantEnd> {
        self.desk.lock(rt).hub().grant_end(conn, message)
    }

    /// How many deliveries wait for a connection, 0 without a session.
    pub fn waiting<R: Wait>(&self, rt: &R, conn: u64) -> usize {
        match self.desk.lock(rt).hub().waiting(conn) {
            None => 0,
            Some((waiting, _)) => waiting,
        }
    }
}

ghost use Rattle.std.specs.Prelude.{[], All, vec_len, vec_capacity};

/// Gives each seat a part of the rest, which has one for each.
fn seat_all<L: Run>(rest: &mut Share<L>, made: &mut Vec<Seat<L>>, seats: u64)
    requires parts { rest.old.parts ≡ seats }
    requires amount { rest.old.amount ≡ 0 }
    requires empty { made.old.items ≡ [] }
    requires room { seats ≤ vec_capacity made.old }
    ensures parts { rest.new.parts ≡ 0 }
    ensures amount { rest.new.amount ≡ 0 }
    ensures seats { vec_len made.new ≡ seats }
    ensures fresh { All (λ s. (s.count ≡ 0) × (s.rotations ≡ 0)) made.new.items }
{
    for next in 0..seats {
        made.push_reserved(Seat::of(rest.split_off(1, 0)));
    }
}
