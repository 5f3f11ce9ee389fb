//! How a port enters events.
ghost use Rattle.std.specs.Prelude.{◌≡◌};

use crate::gates::{Gate, Point};
use crate::port::ServerPort;
use crate::runs::goes_on;
use events::{
    Answer, Event, HubRefusal, InvalidFrame, Message, Port, PublishRefusal, RunEnd, Words,
};
use server_state::history::{Added, Look};
use shared_hub::Run;
use shared_waits::runs::Posts;
use std::collections::VecDeque;
use std::sync::Wait;
use worker_port::Why;

impl<L: Run, R: Wait, G: Gate + Drop> ServerPort<'_, L, R, G> {
    ghost use Rattle.std.specs.Prelude.{◌+◌, ◌≤◌, IfErr, OnErr, is_some, true};
    ghost use Rattle.events.specs.Offers.{IsOffered};
    ghost use Rattle.events.specs.declared.refusal.HubRefusal.TheVariants.{HistoryFull};
    ghost use Rattle.events.specs.declared.refusal.PublishRefusal.TheVariants.{By};
    ghost use Rattle.server_state.specs.history.Bytes.{IsCounted, own};
    ghost use Rattle.server_port.specs.Courses.{entered, followed, offered, refused};
    ghost use Rattle.server_port.specs.Histories.{falls_due, once, passed, tried, was_same};
    ghost use Rattle.shared_hub.specs.Entering.{IsAnswered, IsPostedBy};

    /// Notes what an answer makes pending, with the size of its message, counts what its entry keeps, and rotates the history if
    /// that is due. Answers what others were told, and what it saw where the history is due.
    #[inline(always)]
    pub(crate) fn follow(&mut self, answer: &Answer, size: usize) -> (Option<Added>, Option<Look>)
        ensures counted { IsCounted self.old.rotation.uncounted (own answer.now) result.0 self.new.rotation.uncounted }
        ensures looked { is_some result.1 ≡ falls_due self.old.rotation answer.now.number }
        ensures tried { self.new.rotation.tries ≡ tried (was_same result.1) (tried (passed result.0) self.old.rotation.tries) }
        ensures course { self.new.course ≡ followed answer.now self.old.course }
        ensures count { self.new.seat.count ≡ self.old.seat.count }
        ensures rotations { self.new.seat.rotations ≤ self.old.seat.rotations + (once (passed result.0) + once (was_same result.1)) }
        ensures kept { (self.new.gate ≡ self.old.gate) × (self.new.is_spent ≡ self.old.is_spent) × (self.new.noted ≡ self.old.noted) }
    {
        let work = self.outgoing.add_answer(answer, size);
        self.course.share = self.course.share.saturating_sub(work);
        self.course.has_entered = true;
        let told = self.count_and_rotate(answer);
        told
    }

    /// Adds the publishers that an event has let on to what is to be left in the workers' mailboxes.
    fn free(&mut self)
        ensures seat { self.new.seat ≡ self.old.seat }
        ensures course { self.new.course ≡ self.old.course }
        ensures kept { (self.new.gate ≡ self.old.gate) × (self.new.is_spent ≡ self.old.is_spent) × (self.new.noted ≡ self.old.noted) }
    {
        for conn in self.context.told.freed.as_slice() {
            self.outgoing.add_freed(*conn);
        }
        self.context.told.freed.clear();
    }

    /// Enters an event, once more where the history was full.
    #[inline(always)]
    #[tactic(auto, using(crate::proofs::Handed::once_within))]
    pub fn enter(&mut self, event: Event) -> Result<Answer, (Event, HubRefusal)>
        ensures step { IsAnswered L.opening self.old.seat.count event result self.new.seat.count }
        ensures rotations { self.new.seat.rotations ≤ self.old.seat.rotations + 3 }
        ensures course { self.new.course ≡ entered result self.old.course }
        ensures full { IfErr result (λ back. back.1 ≡ HistoryFull → self.new.rotation.tries ≡ tried true self.old.rotation.tries) }
        ensures err { IfErr result (λ back. back.0 ≡ event) }
        ensures kept { (self.new.gate ≡ self.old.gate) × (self.new.is_spent ≡ self.old.is_spent) × (self.new.noted ≡ self.old.noted) }
    {
        self.rotation.drop_some();
        match self.step(event) {
            Ok(answer) => Ok(answer),
            Err((event, refusal)) => {
                if refusal != HubRefusal::HistoryFull {
                    return Err((event, refusal));
                }
                let _ = self.rotate();
                let result = self.step(event);
                result
            }
        }
    }

    #[inline(always)]
    fn step(&mut self, event: Event) -> Result<Answer, (Event, HubRefusal)>
        ensures step { IsAnswered L.opening self.old.seat.count event result self.new.seat.count }
        ensures course { self.new.course ≡ entered result self.old.course }
        ensures rotations { self.new.seat.rotations ≤ self.old.seat.rotations + 2 }
        ensures none { OnErr result (self.new.seat.rotations ≡ self.old.seat.rotations) }
        ensures same { OnErr result (self.new.rotation ≡ self.old.rotation) }
        ensures err { IfErr result (λ back. back.0 ≡ event) }
        ensures kept { (self.new.gate ≡ self.old.gate) × (self.new.is_spent ≡ self.old.is_spent) × (self.new.noted ≡ self.old.noted) }
    {
        let shared = self.shared;
        match shared.submit_without_receipt(
            self.rt,
            &mut self.seat,
            event,
            self.stall_ms,
            &mut self.context.told,
        ) {
            Ok(answer) => {
                self.stall_ms = 0;
                let _ = self.follow(&answer, 0);
                self.free();
                Ok(answer)
            }
            Err((event, refusal)) => Err((event, refusal)),
        }
    }

    /// Offers a message's event, once more where the history was full.
    #[inline(always)]
    fn enter_message(&mut self, event: Event) -> Result<Answer, (Event, PublishRefusal)>
        ensures offered { IsOffered (λ old e r new. IsPostedBy L.opening old.seat.count e r new.seat.count) (λ old new. new.seat.count ≡ old.seat.count) self.old event result self.new }
        ensures rotations { self.new.seat.rotations ≤ self.old.seat.rotations + 3 }
        ensures course { self.new.course ≡ offered result self.new.context.told.slow self.new.context.told.until self.old.course }
        ensures full { IfErr result (λ back. back.1 ≡ By HistoryFull → self.new.rotation.tries ≡ tried true self.old.rotation.tries) }
        ensures err { IfErr result (λ back. back.0 ≡ event) }
        ensures kept { (self.new.gate ≡ self.old.gate) × (self.new.is_spent ≡ self.old.is_spent) × (self.new.noted ≡ self.old.noted) }
    {
        self.rotation.drop_some();
        match self.offer_once(event) {
            Ok(answer) => Ok(answer),
            Err((event, refusal)) => match refusal {
                PublishRefusal::Held => Err((event, PublishRefusal::Held)),
                PublishRefusal::By(refusal) => {
                    if refusal != HubRefusal::HistoryFull {
                        return Err((event, PublishRefusal::By(refusal)));
                    }
                    match self.offer_again(event) {
                        Ok(answer) => Ok(answer),
                        Err((event, refusal)) => match refusal {
                            PublishRefusal::By(refusal) => Err((
                                event,
                                PublishRefusal::By(refusal),
                            )),
                            PublishRefusal::Held => Err((event, PublishRefusal::Held)),
                        },
                    }
                }
            },
        }
    }

    /// Offers a message's event once the history was rotated, or that was tried.
    #[inline(never)]
    #[tactic(auto, using(crate::proofs::Handed::once_within))]
    pub(crate) fn offer_again(&mut self, event: Event) -> Result<Answer, (Event, PublishRefusal)>
        ensures offered { IsOffered (λ old e r new. IsPostedBy L.opening old.seat.count e r new.seat.count) (λ old new. new.seat.count ≡ old.seat.count) self.old event result self.new }
        ensures rotations { self.new.seat.rotations ≤ self.old.seat.rotations + 3 }
        ensures course { self.new.course ≡ offered result self.new.context.told.slow self.new.context.told.until self.old.course }
        ensures tried { OnErr result (self.new.rotation.tries ≡ tried true self.old.rotation.tries) }
        ensures err { IfErr result (λ back. back.0 ≡ event) }
        ensures kept { (self.new.gate ≡ self.old.gate) × (self.new.is_spent ≡ self.old.is_spent) × (self.new.noted ≡ self.old.noted) }
    {
        let _ = self.rotate();
        match self.offer_once(event) {
            Ok(answer) => Ok(answer),
            Err((event, refusal)) => match refusal {
                PublishRefusal::By(refusal) => Err((event, PublishRefusal::By(refusal))),
                PublishRefusal::Held => Err((event, PublishRefusal::Held)),
            },
        }
    }

    #[inline(always)]
    fn offer_once(&mut self, event: Event) -> Result<Answer, (Event, PublishRefusal)>
        ensures offered { IsOffered (λ old e r new. IsPostedBy L.opening old.seat.count e r new.seat.count) (λ old new. new.seat.count ≡ old.seat.count) self.old event result self.new }
        ensures course { self.new.course ≡ offered result self.new.context.told.slow self.new.context.told.until self.old.course }
        ensures rotations { self.new.seat.rotations ≤ self.old.seat.rotations + 2 }
        ensures none { OnErr result (self.new.seat.rotations ≡ self.old.seat.rotations) }
        ensures same { OnErr result (self.new.rotation ≡ self.old.rotation) }
        ensures err { IfErr result (λ back. back.0 ≡ event) }
        ensures kept { (self.new.gate ≡ self.old.gate) × (self.new.is_spent ≡ self.old.is_spent) × (self.new.noted ≡ self.old.noted) }
    {
        let shared = self.shared;
        match shared.offer(self.rt, &mut self.seat, event, &mut self.context.told) {
            Ok(answer) => {
                let _ = self.follow(&answer, self.context.told.size);
                Ok(answer)
            }
            Err((event, refusal)) => {
                self.note_refusal(refusal);
                Err((event, refusal))
            }
        }
    }

    /// Notes why a message was held back, if it was. Such an offer is a delivery's work of the round's share.
    #[inline(never)]
    pub(crate) fn note_refusal(&mut self, refusal: PublishRefusal)
        ensures course { self.new.course ≡ refused refusal self.old.context.told.slow self.old.context.told.until self.old.course }
        ensures context { self.new.context ≡ self.old.context }
        ensures rotation { self.new.rotation ≡ self.old.rotation }
        ensures seat { self.new.seat ≡ self.old.seat }
        ensures kept { (self.new.gate ≡ self.old.gate) × (self.new.is_spent ≡ self.old.is_spent) × (self.new.noted ≡ self.old.noted) }
    {
        match refusal {
            PublishRefusal::By(_) => {}
            PublishRefusal::Held => {
                self.course.share = self.course.share.saturating_sub(1);
                self.course.why = Some(match (self.context.told.slow, self.context.told.until) {
                    (Some(conn), _) => Why::Slow(conn),
                    (None, Some(until)) => Why::Receiver(until),
                    (None, None) => Why::Share,
                });
            }
        }
    }
}

impl<L: Run, R: Wait, G: Gate + Drop> Port for ServerPort<'_, L, R, G> {
    ghost use Rattle.std.specs.Prelude.{◌≢◌, ◌+◌, ◌*◌, ◌≤◌, ◌∷◌, [], ℕ, Err, IfErr, Some, false, length, true};
    ghost use Rattle.events.specs.Offers.{IsOffered};
    ghost use Rattle.events.specs.Runs.{IsPosted};
    ghost use Rattle.events.specs.declared.refusal.PublishRefusal.TheVariants.{Held};
    ghost use Rattle.server_port.specs.Courses.{entered, offered};
    ghost use Rattle.server_port.specs.Holds.{AreHoldsPassed, IsRunNoted, IsWhy, held_back};
    ghost use Rattle.worker_port.specs.declared.course.Why.TheVariants.{Share};
    ghost use Rattle.server_port.specs.Points.{ArePassed, offer_points};
    ghost use Rattle.server_port.specs.declared.gates.gate.Point.TheVariants.{Answered, FrameRead};
    ghost use Rattle.server_log.specs.Noting.{IsNoted, IsOfferNoted};
    ghost use Rattle.shared_hub.specs.Entering.{IsAnswered, IsOfferedBy, IsPostedBy};

    ghost place = { λ port. 0 };

    ghost steps = { λ old event result new. IsAnswered L.opening old.seat.count event result new.seat.count };

    ghost posts = { λ old event result new. IsPostedBy L.opening old.seat.count event result new.seat.count };

    ghost holds = { λ old new. new.seat.count ≡ old.seat.count };

    #[inline(always)]
    fn submit(&mut self, event: Event) -> Result<Answer, (Event, HubRefusal)>
        ensures place { ◌≡◌ {A = ℕ} 0 0 }
        ensures step { IsAnswered L.opening self.old.seat.count event result self.new.seat.count }
        ensures rotations { self.new.seat.rotations ≤ self.old.seat.rotations + 3 }
        ensures err { IfErr result (λ back. back.0 ≡ event) }
        ensures course { self.new.course ≡ entered result (record self.old.course { has_passed = false }) }
        ensures noted { IsNoted result self.old.noted self.new.noted }
        ensures points { ArePassed G.passes (FrameRead ∷ Answered ∷ []) self.old.gate self.old.is_spent self.new.gate self.new.is_spent }
    {
        self.course.has_passed = false;
        self.pass(Point::FrameRead);
        let result = self.enter(event);
        self.noted.note(&result);
        self.pass(Point::Answered);
        result
    }

    /// Once the round's share is spent, the hub isn't asked.
    #[inline(always)]
    fn offer(&mut self, event: Event) -> Result<Answer, (Event, PublishRefusal)>
        ensures place { ◌≡◌ {A = ℕ} 0 0 }
        ensures offered { IsOffered (λ old e r new. IsPostedBy L.opening old.seat.count e r new.seat.count) (λ old new. new.seat.count ≡ old.seat.count) self.old event result self.new }
        ensures rotations { self.new.seat.rotations ≤ self.old.seat.rotations + 3 }
        ensures err { IfErr result (λ back. back.0 ≡ event) }
        ensures spent { self.old.course.share ≡ 0 → (result ≡ Err (event, Held)) × (self.new.course ≡ record self.old.course { why = Some Share }) × (self.new.context ≡ self.old.context) × (self.new.rotation ≡ self.old.rotation) }
        ensures unasked { self.old.course.share ≡ 0 → (self.new.gate ≡ self.old.gate) × (self.new.is_spent ≡ self.old.is_spent) × (self.new.noted ≡ self.old.noted) }
        ensures course { self.old.course.share ≢ 0 → self.new.course ≡ offered result self.new.context.told.slow self.new.context.told.until (record self.old.course { has_passed = false }) }
        ensures noted { self.old.course.share ≢ 0 → IsOfferNoted result self.old.noted self.new.noted }
        ensures points { self.old.course.share ≢ 0 → ArePassed G.passes (offer_points self.new.course.why) self.old.gate self.old.is_spent self.new.gate self.new.is_spent }
    {
        if self.course.share == 0 {
            self.course.why = Some(Why::Share);
            return Err((event, PublishRefusal::Held));
        }
        self.course.has_passed = false;
        self.pass(Point::FrameRead);
        let result = self.enter_message(event);
        self.noted.note_offer(&result);
        self.pass_answered();
        result
    }

    /// Offers the messages in holds of the hub's lock, each of which takes as many as may enter in it. Once the round's share is
    /// spent, the hub isn't asked.
    #[inline(always)]
    fn publish<W: Words>(
        &mut self,
        conn: u64,
        now: u64,
        messages: &mut VecDeque<Message>,
        words: &mut W,
    ) -> RunEnd
        ensures place { ◌≡◌ {A = ℕ} 0 0 }
        ensures posted { IsPosted (λ old e r new. IsPostedBy L.opening old.seat.count e r new.seat.count) (λ old new. new.seat.count ≡ old.seat.count) W.draws conn now messages.old.items self.old words.old result messages.new.items self.new words.new }
        ensures rotations { self.new.seat.rotations + 3 * length messages.new.items ≤ self.old.seat.rotations + 3 * length messages.old.items }
        ensures why { IsWhy result self.old.course.why self.new.course.why }
        ensures noted { IsRunNoted (IsOfferedBy L.opening) W.draws conn now messages.old.items self.old.seat.count words.old result messages.new.items self.new.seat.count words.new self.old.noted self.new.noted }
        ensures points { AreHoldsPassed G.passes (length messages.old.items) (held_back self.new.course.why result + length messages.new.items) self.old.gate self.old.is_spent self.new.gate self.new.is_spent }
    {
        let posts = Posts { conn, now };
        while !messages.is_empty() {
            let end = self.publish_some(posts, messages, words);
            if !goes_on(&end) {
                return end;
            }
            drop(end);
        }
        RunEnd::Published
    }

    /// Where something waits for a connection, what it is told next stands behind that, once.
    fn must_wait(&self, conn: u64) -> bool
        ensures passed { self.now.course.has_passed ≡ true → result ≡ false }
    {
        !self.course.has_passed && self.shared.waiting(self.rt, conn) > 0
    }

    fn hear_invalid(&self, frame: &InvalidFrame<'_>) {
        self.noted.note_invalid(frame);
    }
}
