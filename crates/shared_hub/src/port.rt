ghost use Rattle.std.specs.Prelude.{◌≡◌};

use crate::{Receipt, Run, Seat, SharedHub};
use base::NoMemory;
use hub::{Answer, Event, HubRefusal, Port, PublishRefusal, Segment};
use std::alloc::Global;
use std::mem;
use std::sync::Wait;

/// The port of one seat to a hub that threads share. It keeps the receipt of each answer until it is taken out.
#[derive(Drop)]
pub struct SharedPort<'a, L: Run, R: Wait> {
    rt: &'a R,
    alloc: Global,
    shared: &'a SharedHub<L>,
    seat: Seat<L>,
    receipts: Vec<Receipt>,
}

impl<'a, L: Run, R: Wait> SharedPort<'a, L, R> {
    ghost use Rattle.std.specs.Prelude.{◌≡◌, ◌+◌, [], MatchResult};

    /// Makes a port that keeps no receipt yet.
    pub fn new(
        rt: &'a R,
        alloc: Global,
        shared: &'a SharedHub<L>,
        seat: Seat<L>,
    ) -> SharedPort<'a, L, R>
        ensures seat { result.seat ≡ seat }
        ensures none { result.receipts.items ≡ [] }
    {
        SharedPort {
            rt,
            alloc,
            shared,
            seat,
            receipts: Vec::new(alloc),
        }
    }

    /// Hands out all receipts that are kept, oldest first, and keeps none.
    pub fn take_receipts(&mut self) -> Vec<Receipt>
        ensures all { result.items ≡ self.old.receipts.items }
        ensures none { self.new.receipts.items ≡ [] }
        ensures seat { self.new.seat ≡ self.old.seat }
    {
        mem::replace(&mut self.receipts, Vec::new(self.alloc))
    }

    /// Hands out the hub's entries, as `SharedHub::rotate` does. The receipts that are kept are as before.
    pub fn rotate(&mut self) -> Result<Segment, NoMemory>
        ensures count { self.new.seat.count ≡ self.old.seat.count }
        ensures rotations { MatchResult result (λ _. self.new.seat.rotations ≡ self.old.seat.rotations + 1) (λ _. self.new.seat.rotations ≡ self.old.seat.rotations) }
        ensures receipts { self.new.receipts.items ≡ self.old.receipts.items }
    {
        let result = self.shared.rotate_as(self.rt, &mut self.seat);
        result
    }

    /// Takes the port apart into its seat and the receipts that are kept.
    pub fn into_parts(self) -> (Seat<L>, Vec<Receipt>)
        ensures seat { result.0 ≡ self.entry.seat }
        ensures all { result.1.items ≡ self.entry.receipts.items }
    {
        let SharedPort { seat, receipts, .. } = self;
        (seat, receipts)
    }
}

impl<L: Run, R: Wait> Port for SharedPort<'_, L, R> {
    ghost use Rattle.shared_hub.specs.Entering.{kept, IsKept};

    ghost place = { λ port. 0 };

    ghost steps = { λ old event result new. IsKept L.opening (kept old.seat.count old.seat.rotations old.receipts.items) event result (kept new.seat.count new.seat.rotations new.receipts.items) };

    ghost posts = { λ old event result new. IsKept L.opening (kept old.seat.count old.seat.rotations old.receipts.items) event result (kept new.seat.count new.seat.rotations new.receipts.items) };

    #[inline(always)]
    fn submit(&mut self, event: Event) -> Result<Answer, (Event, HubRefusal)> {
        if self.receipts.reserve(1).is_err() {
            return Err((event, HubRefusal::NoMemory));
        }
        match self
            .shared
            .submit_with_receipt(self.rt, &mut self.seat, event)
        {
            Ok(receipt) => {
                let answer = another(self.rt, receipt.parts().0);
                self.receipts.push_reserved(receipt);
                Ok(answer)
            }
            Err(refused) => Err(refused),
        }
    }

    fn offer(&mut self, event: Event) -> Result<Answer, (Event, PublishRefusal)> {
        match self.submit(event) {
            Ok(answer) => Ok(answer),
            Err((event, refusal)) => Err((event, PublishRefusal::By(refusal))),
        }
    }
}

/// Makes one more handle of an answer. If there are as many as can be counted, it waits until one is let go.
#[inline(always)]
fn another<R: Wait>(rt: &R, answer: &Answer) -> Answer
    ensures { result ≡ answer.now }
{
    for _ in rt.forever() {
        if let Ok(again) = answer.again() {
            return again;
        }
    }
    unreachable!()
}
