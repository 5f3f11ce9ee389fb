//! A run whose hub is out of its lock, and its closing audit.
ghost use Rattle.std.specs.Prelude.{◌≡◌};

use crate::audit::{AuditFault, judge};
use crate::shared_hub::{Rest, SharedHub};
use crate::{Audit, Desk, Receipt, Run, Seat};
use hub::Segment;
use std::alloc::Global;

/// A run whose hub is out of its lock, so that a clause can name it.
#[derive(Drop)]
pub struct Unlocked<L: Run> {
    desk: Desk<L>,
    rest: Rest<L>,
}

/// All that a refused audit was given, handed back.
#[derive(Drop)]
pub struct Parts<L: Run> {
    /// The run, as it was.
    pub run: Unlocked<L>,
    /// The seats that were handed in.
    pub seats: Vec<Seat<L>>,
    /// The receipts that were handed in.
    pub receipts: Vec<Receipt>,
    /// The segments that were handed in.
    pub segments: Vec<Segment>,
}

impl<L: Run> Unlocked<L> {
    ghost use Rattle.std.specs.Prelude.{◌≡◌, ◌+◌, ◌≤◌, [], IfOk, IfErr, vec_len, vec_capacity, map};
    ghost use Rattle.shared_hub.specs.Audits.{IsWhole, AreEntered, IsDue};

    /// Makes the run of a desk that was under a lock, with what is left of its ledger.
    pub(crate) fn of(desk: Desk<L>, rest: Rest<L>) -> Unlocked<L>
        ensures { (result.desk ≡ desk) × (result.rest ≡ rest) }
    {
        Unlocked { desk, rest }
    }

    /// Puts the hub under a lock again.
    pub fn lock(self) -> SharedHub<L> {
        SharedHub::of(self.desk, self.rest)
    }

    /// Audits the run, with all seats, all segments that the hub has handed out, and any receipts. With an audit, its hub is
    /// the run's; the segments, in any order, and the hub's tail are one legal history, which has as many entries since the
    /// run opened as the seats count together; and each receipt stands in it once, at its number. Else it hands back all
    /// that it was given: `SeatMissing` if not all seats were handed in; else `SegmentGap` with the least number at which
    /// the segments and the tail are no such history, as `joins` says; else `ReceiptMismatch` with the number of the first
    /// receipt that doesn't stand in it, or came earlier in the list; else `NoMemory`.
    pub fn finish(
        self,
        alloc: Global,
        seats: Vec<Seat<L>>,
        receipts: Vec<Receipt>,
        segments: Vec<Segment>,
    ) -> Result<Audit<L>, (AuditFault, Parts<L>)>
        requires { L.seats ≡ L.parts }
        ensures hub { IfOk result (λ audit. audit.hub ≡ self.desk.hub) }
        ensures segments { IfOk result (λ audit. audit.segments ≡ segments) }
        ensures counts { IfOk result (λ audit. audit.counts ≡ map (λ s. s.count) seats.items) }
        ensures whole { IfOk result (λ audit. IsWhole L.opening segments.items audit.hub receipts.items audit.counts) }
        ensures due { IfErr result (λ refused. IsDue segments.items self.desk.hub L.seats (vec_len seats) receipts.items refused.0) }
        ensures back { IfErr result (λ refused. (refused.1.run ≡ self) × (refused.1.seats ≡ seats) × (refused.1.receipts ≡ receipts) × (refused.1.segments ≡ segments)) }
    {
        match self.room(alloc, &seats, &receipts, &segments) {
            Ok(room) => {
                let Unlocked { desk, rest } = self;
                Ok(desk.close(rest.share, seats, segments, room))
            }
            Err(fault) => Err((
                fault,
                Parts {
                    run: self,
                    seats,
                    receipts,
                    segments,
                },
            )),
        }
    }

    /// Makes a list with room for the counts of the seats, unless an audit with these parts is refused.
    fn room(
        &self,
        alloc: Global,
        seats: &Vec<Seat<L>>,
        receipts: &Vec<Receipt>,
        segments: &Vec<Segment>,
    ) -> Result<Vec<u64>, AuditFault>
        ensures due { IfErr result (λ fault. IsDue segments.now.items self.now.desk.hub L.seats (vec_len seats.now) receipts.now.items fault) }
        ensures all { IfOk result (λ _. (vec_len seats.now ≡ L.seats) × AreEntered segments.now.items self.now.desk.hub receipts.now.items) }
        ensures room { IfOk result (λ room. (room.items ≡ []) × (vec_len seats.now ≤ vec_capacity room)) }
    {
        if seats.len() as u64 != self.rest.seats {
            return Err(AuditFault::SeatMissing);
        }
        if let Err(fault) = judge(segments.as_slice(), self.desk.hub(), receipts.as_slice()) {
            return Err(fault);
        }
        match Vec::with_capacity(alloc, seats.len()) {
            Ok(room) => Ok(room),
            Err(_) => Err(AuditFault::NoMemory),
        }
    }
}
