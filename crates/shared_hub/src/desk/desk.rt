//! What lies under the lock, and who may enter events into it.
ghost use Rattle.std.specs.Prelude.{◌≡◌, ◌+◌, ◌≤◌, ℕ};
ghost use Rattle.policy_doc.specs.Document.{builtin_doc};
ghost use Rattle.hub.specs.History.{State, opening_state};

use crate::desk::audit::Audit;
use crate::desk::bounds::{room_beside, size_of};
use crate::desk::run_context::RunContext;
use crate::desk::told::Told;
use crate::desk::views::{AtMoment, HubOutboxes};
use base::{Copying, Items, NoMemory};
use events::Words;
use hub::{
    Answer, Command, CompiledPolicy, Entry, Event, Hub, HubRefusal, Message, Outcome,
    PublishRefusal, Segment,
};
use shared_waits::receipts::Receipt;
use shared_waits::{Outboxes, Waits};
use std::alloc::Global;
use std::collections::VecDeque;
use std::marker::Brand;
use std::slice;
use std::sync::ledger::{Blank, Book, Ledger, Share};

/// Names the run that a desk, its seats and their audit belong to: the ledger that counts its entries, and the hub with which
/// it opened.
pub trait Run: Ledger {
    /// The hub as it was when the run opened.
    ghost first: { State };

    /// The number of that hub's last entry.
    ghost opening: { ℕ };

    /// How many seats the run has.
    ghost seats: { ℕ };
}

impl Run for Brand {
    ghost first = { opening_state builtin_doc 1 0 };

    ghost opening = { 0 };

    ghost seats = { 0 };
}

/// The right to enter events into one run's hub, and how many it has entered. Nobody can make another. It also counts how often
/// it has handed the history out.
#[derive(Drop)]
pub struct Seat<L: Run> {
    share: Share<L>,
    count: u64,
    rotations: u64,
    ghost part: { share.parts ≡ 1 },
    ghost counted: { share.amount ≡ count },
}

impl<L: Run> Seat<L> {
    /// Makes a seat, which has entered nothing and handed nothing out, of one part of the ledger.
    pub fn of(share: Share<L>) -> Seat<L>
        requires part { share.parts ≡ 1 }
        requires amount { share.amount ≡ 0 }
        ensures count { result.count ≡ 0 }
        ensures rotations { result.rotations ≡ 0 }
    {
        Seat {
            share,
            count: 0,
            rotations: 0,
        }
    }
}

/// What lies under the lock: the hub, the book that counts its entries since the run opened, and who waits for whom. Each
/// desk is made of a blank ledger, and changes by its own steps and rotations alone, so nobody who holds the lock can put
/// another in its place.
#[derive(Drop)]
pub struct Desk<L: Run> {
    alloc: Global,
    hub: Hub,
    book: Book<L>,
    waits: Waits,
    /// The receivers that held back the message that was offered last.
    held: Vec<u64>,
    ghost counted: { hub.world.number ≡ L.opening + book.total },
    ghost begun: { book.total ≡ 0 → hub.world ≡ L.first.world },
}

impl<L: Run> Desk<L> {
    ghost use Rattle.std.specs.Prelude.{◌≡◌, ◌+◌, ◌≤◌, ◌++◌, ◌∷◌, [], IfOk, OnOk, OnErr, MatchResult, map, vec_len, vec_capacity, length, ◌<◌, List};
    ghost use Rattle.hub.specs.History.{IsLegalRun, IsStep};
    ghost use Rattle.hub.specs.Segments.{rotated, tail_of};
    ghost use Rattle.hub.specs.Sound.{IsSound};
    ghost use Rattle.hub.specs.Guarantee.{IsRouted, KeepsGuarantee};
    ghost use Rattle.shared_hub.specs.desk.Entering.{IsHub, IsEntered};
    ghost use Rattle.std.specs.Prelude.{Some, None};
    ghost use Rattle.events.specs.Offers.{IsOffered};
    ghost use Rattle.hub.specs.Holding.{IsStepIf};
    ghost use Rattle.shared_waits.specs.Waiting.{nobody, is_out_with};
    ghost use Rattle.world.specs.Transition.{IsRefusal};
    ghost use Rattle.hub.specs.History.{stepped};
    ghost use Rattle.shared_hub.specs.desk.Bounds.{terms_at, size_of};
    ghost use Rattle.shared_hub.specs.desk.Publishing.{IsPublished, inside};
    ghost use Rattle.shared_waits.specs.runs.Runs.{IsRun, StaysBelow};
    ghost use Rattle.events.specs.declared.answer.Entry.{Entry};
    ghost use Rattle.shared_hub.specs.desk.Waits.{waiting_in, offered, IsHeldBack, until_if, slow_if, IfBy, IsOfferedTo, until_of, slow_of, freed_of, rest_of, IsSettled};

    /// Opens the desk of a hub, with a share of every part of the ledger, which counts nothing yet. Nobody waits.
    pub fn open(alloc: Global, blank: Blank, hub: Hub) -> (Desk<L>, Share<L>)
        requires name { blank.name ≡ L.name }
        requires parts { blank.parts ≡ L.parts }
        requires first { hub ≡ L.first }
        requires opening { hub.world.number ≡ L.opening }
        ensures hub { result.0.hub ≡ hub }
        ensures parts { result.1.parts ≡ L.parts }
        ensures amount { result.1.amount ≡ 0 }
        ensures waits { result.0.waits ≡ nobody }
    {
        let (book, all) = blank.open::<L>();
        let desk = Desk {
            alloc,
            hub,
            book,
            waits: Waits::new(alloc),
            held: Vec::new(alloc),
        };
        (desk, all)
    }

    /// The hub.
    pub fn hub(&self) -> &Hub
        ensures { result.now ≡ self.now.hub }
    {
        &self.hub
    }

    /// Tells what holds of every desk, so whenever the lock is free (docs/GUARANTEE.md, "Threads"): its hub keeps what
    /// every hub keeps, what it holds of its history is legal, and the book counts the entries since the run opened. As long
    /// as it counts none, the hub's world is that with which the run opened.
    pub fn prove_invariant(&self)
        ensures hub { IsHub self.now.hub }
        ensures sound { IsSound self.now.hub.world }
        ensures legal { IsLegalRun self.now.hub.opening self.now.hub.entries self.now.hub.world }
        ensures counted { self.now.hub.world.number ≡ L.opening + self.now.book.total }
        ensures begun { self.now.book.total ≡ 0 → self.now.hub.world ≡ L.first.world }
    {
        self.hub.prove_invariant();
    }

    /// Ends the run: brings the parts of all seats together, which count what the book has.
    pub fn close(
        self,
        rest: Share<L>,
        seats: Vec<Seat<L>>,
        segments: Vec<Segment>,
        room: Vec<u64>,
    ) -> Audit<L>
        requires none { rest.parts ≡ 0 }
        requires nothing { rest.amount ≡ 0 }
        requires all { vec_len seats ≡ L.parts }
        requires empty { room.items ≡ [] }
        requires room { vec_len seats ≤ vec_capacity room }
        ensures hub { result.hub ≡ self.hub }
        ensures segments { result.segments ≡ segments }
        ensures counts { result.counts ≡ map (λ s. s.count) seats.items }
    {
        let Desk {
            alloc: _,
            hub,
            book,
            waits: _,
            held: _,
        } = self;
        let mut book = book;
        let mut all = rest;
        let mut counts = room;
        gather(&mut all, VecDeque::from(seats), &mut counts);
        book.audit(&mut all);
        Audit::of(hub, segments, Items::from_vec(counts))
    }

    /// Enters an event by one step of the hub, and returns a receipt of the step's entry and the policy then in force. The
    /// entries before stay, the event's stands behind them, and the seat has one more. A refusal changes neither desk nor
    /// seat; it is the step's, or `NoMemory` for the receipt, whose memory is had before the step. It is for threads that
    /// keep receipts: no message is held back, and nobody who waits is let on.
    pub fn enter(
        &mut self,
        seat: Seat<L>,
        event: Event,
    ) -> (Seat<L>, Result<Receipt, (Event, HubRefusal)>)
        ensures entered { IsEntered self.old.hub event result.1 self.new.hub }
        ensures entries { IfOk result.1 (λ r. self.new.hub.entries ≡ self.old.hub.entries ++ r.entry ∷ []) }
        ensures guarantee { IfOk result.1 (λ r. IsRouted self.old.hub event r.entry self.new.hub) }
        ensures count { MatchResult result.1 (λ _. result.0.count ≡ seat.count + 1) (λ _. result.0.count ≡ seat.count) }
        ensures rotations { result.0.rotations ≡ seat.rotations }
        ensures number { IfOk result.1 (λ r. L.opening + result.0.count ≤ r.entry.number) }
        ensures waits { self.new.waits ≡ self.old.waits }
    {
        let mut seat = seat;
        let result = self.step_with_receipt(&mut seat, event);
        (seat, result)
    }

    /// Hands out the entries that the hub holds, and goes on with none, as `Hub::rotate` tells. The seat has done so once more,
    /// and has entered nothing. `NoMemory` changes nothing.
    pub fn rotate(&mut self, seat: Seat<L>) -> (Seat<L>, Result<Segment, NoMemory>)
        ensures segment { IfOk result.1 (λ segment. segment ≡ tail_of self.old.hub) }
        ensures ok { OnOk result.1 (self.new.hub ≡ rotated self.old.hub) }
        ensures err { OnErr result.1 (self.new.hub ≡ self.old.hub) }
        ensures book { self.new.book.total ≡ self.old.book.total }
        ensures count { result.0.count ≡ seat.count }
        ensures rotations { MatchResult result.1 (λ _. result.0.rotations ≡ seat.rotations + 1) (λ _. result.0.rotations ≡ seat.rotations) }
        ensures waits { self.new.waits ≡ self.old.waits }
    {
        let mut seat = seat;
        let result = self.rotate_as(&mut seat);
        (seat, result)
    }

    /// Rotates as `rotate` does, for a seat that is lent.
    pub fn rotate_as(&mut self, seat: &mut Seat<L>) -> Result<Segment, NoMemory>
        ensures segment { IfOk result (λ segment. segment ≡ tail_of self.old.hub) }
        ensures ok { OnOk result (self.new.hub ≡ rotated self.old.hub) }
        ensures err { OnErr result (self.new.hub ≡ self.old.hub) }
        ensures book { self.new.book.total ≡ self.old.book.total }
        ensures count { seat.new.count ≡ seat.old.count }
        ensures rotations { MatchResult result (λ _. seat.new.rotations ≡ seat.old.rotations + 1) (λ _. seat.new.rotations ≡ seat.old.rotations) }
        ensures waits { self.new.waits ≡ self.old.waits }
    {
        let Some(rotations) = seat.rotations.checked_add(1) else {
            return Err(NoMemory);
        };
        let result = self.hub.rotate();
        match result {
            Ok(segment) => {
                seat.rotations = rotations;
                Ok(segment)
            }
            Err(none) => Err(none),
        }
    }

    /// Enters an event as `enter` does, for a seat that is lent.
    #[inline(always)]
    pub fn step_with_receipt(
        &mut self,
        seat: &mut Seat<L>,
        event: Event,
    ) -> Result<Receipt, (Event, HubRefusal)>
        ensures hub { IsHub self.old.hub }
        ensures entered { IsEntered self.old.hub event result self.new.hub }
        ensures entries { IfOk result (λ r. self.new.hub.entries ≡ self.old.hub.entries ++ r.entry ∷ []) }
        ensures guarantee { IfOk result (λ r. IsRouted self.old.hub event r.entry self.new.hub) }
        ensures count { MatchResult result (λ _. seat.new.count ≡ seat.old.count + 1) (λ _. seat.new.count ≡ seat.old.count) }
        ensures rotations { seat.new.rotations ≡ seat.old.rotations }
        ensures number { IfOk result (λ r. L.opening + seat.new.count ≤ r.entry.number) }
        ensures waits { self.new.waits ≡ self.old.waits }
    {
        self.prove_invariant();
        let ready = match ready_after(self.alloc, &self.hub, &event) {
            Ok(ready) => ready,
            Err(_) => return Err((event, HubRefusal::NoMemory)),
        };
        match self.step_counted(seat, event) {
            Ok(answer) => Ok(Receipt::of(answer, ready)),
            Err(refused) => Err(refused),
        }
    }

    /// Makes one step of the hub, and counts it for the seat.
    #[inline(always)]
    fn step_counted(
        &mut self,
        seat: &mut Seat<L>,
        event: Event,
    ) -> Result<Answer, (Event, HubRefusal)>
        ensures step { IsStep self.old.hub event result self.new.hub }
        ensures guarantee { KeepsGuarantee self.old.hub event result self.new.hub }
        ensures count { MatchResult result (λ _. seat.new.count ≡ seat.old.count + 1) (λ _. seat.new.count ≡ seat.old.count) }
        ensures rotations { seat.new.rotations ≡ seat.old.rotations }
        ensures number { IfOk result (λ answer. L.opening + seat.new.count ≤ answer.number) }
        ensures waits { self.new.waits ≡ self.old.waits }
    {
        let answer = match self.hub.step(event) {
            Ok(answer) => answer,
            Err(refused) => return Err(refused),
        };
        count(&mut self.book, seat, answer.get().number);
        Ok(answer)
    }

    /// Makes the step of an event that is no message, without a receipt. It is one step of the hub, with the routing
    /// guarantee, and the seat has one more. With a Take, `refused` says for how many milliseconds its connection's socket
    /// took nothing since the Take before; with other events it says nothing. If the connection is behind, that is charged.
    /// A Take that makes enough room lets publishers on that wait for its connection; the end of a session lets all on that
    /// wait for it, and it waits no more. A refusal changes neither desk nor seat; it is the step's, or `NoMemory` for those
    /// that may be let on.
    #[inline(always)]
    pub fn step(
        &mut self,
        seat: &mut Seat<L>,
        event: Event,
        refused: u64,
        told: &mut Told,
    ) -> Result<Answer, (Event, HubRefusal)>
        ensures hub { IsHub self.old.hub }
        ensures step { IsStep self.old.hub event result self.new.hub }
        ensures guarantee { KeepsGuarantee self.old.hub event result self.new.hub }
        ensures count { MatchResult result (λ _. seat.new.count ≡ seat.old.count + 1) (λ _. seat.new.count ≡ seat.old.count) }
        ensures rotations { seat.new.rotations ≡ seat.old.rotations }
        ensures number { IfOk result (λ answer. L.opening + seat.new.count ≤ answer.number) }
        ensures settled { IfOk result (λ answer. IsSettled (waiting_in self.new.hub.world) refused answer.event.now answer.event.what answer.outcome self.old.waits self.new.waits) }
        ensures freed { IfOk result (λ answer. told.new.freed.items ≡ told.old.freed.items ++ freed_of (waiting_in self.new.hub.world) answer.event.what answer.outcome self.old.waits) }
        ensures rest { IfOk result (λ answer. told.new.rest ≡ rest_of (waiting_in self.new.hub.world) answer.event.what) }
        ensures until { told.new.until ≡ told.old.until }
        ensures same { OnErr result (self.new.waits ≡ self.old.waits) }
        ensures none { OnErr result (told.new.freed.items ≡ told.old.freed.items) }
    {
        self.prove_invariant();
        if told.freed.reserve(self.waits.len()).is_err() {
            let refusal = self.hub.refusal(&event);
            return Err((event, refusal));
        }
        let answer = match self.step_counted(seat, event) {
            Ok(answer) => answer,
            Err(refused) => return Err(refused),
        };
        self.settle(answer.get(), refused, told);
        Ok(answer)
    }

    /// Lets publishers on as an entry allows. Before a Take its connection's socket took nothing for so many milliseconds.
    fn settle(&mut self, entry: &Entry, refused: u64, told: &mut Told)
        requires room { vec_len told.old.freed + length self.old.waits.publishers ≤ vec_capacity told.old.freed }
        ensures settled { IsSettled (waiting_in self.old.hub.world) refused entry.entry.now.event.now entry.entry.now.event.what entry.entry.now.outcome self.old.waits self.new.waits }
        ensures freed { told.new.freed.items ≡ told.old.freed.items ++ freed_of (waiting_in self.old.hub.world) entry.entry.now.event.what entry.entry.now.outcome self.old.waits }
        ensures rest { told.new.rest ≡ rest_of (waiting_in self.old.hub.world) entry.entry.now.event.what }
        ensures until { told.new.until ≡ told.old.until }
        ensures hub { self.new.hub ≡ self.old.hub }
    {
        match &entry.event.what {
            Command::Take { conn, .. } => {
                let waiting = HubOutboxes { hub: &self.hub }.waiting(*conn);
                self.waits
                    .follow_take(*conn, waiting, refused, entry.event.now, &mut told.freed);
                told.rest = Some(waiting);
            }
            Command::Close { conn } => {
                self.waits.remove(slice::from_ref(conn), &mut told.freed);
                told.rest = None;
            }
            Command::Reload(_) => {
                self.waits.remove(gone_of(&entry.outcome), &mut told.freed);
                told.rest = None;
            }
            _ => told.rest = None,
        }
    }

    /// Makes the step of a message's event as `step` does, unless receivers have no room for it: their outboxes are full,
    /// and by the waits there still is patience with them at its moment; or it is large, and with it more than 64 MiB would
    /// wait for them. Then it is held back and nothing has changed, but that its publisher waits for the first of them and
    /// that they are behind from this moment on, if they weren't before. So each full outbox of which an answer tells
    /// was empty before the message, or is of a receiver with which the patience was used up at that moment. If the patience
    /// with the first of them is used up, so that the message waits for its bytes, `told` names it: it has to be closed,
    /// since this message never enters for it before. The publisher is taken out of where it stood before. A refusal is the
    /// step's, or `NoMemory` for the waits.
    #[inline(always)]
    pub fn step_if(
        &mut self,
        seat: &mut Seat<L>,
        event: Event,
        told: &mut Told,
    ) -> Result<Answer, (Event, PublishRefusal)>
        ensures hub { IsHub self.old.hub }
        ensures step { IsStepIf (terms_at self.old.waits self.old.hub event) self.old.hub event result self.new.held.items self.new.hub }
        ensures guarantee { IsOffered KeepsGuarantee (λ s after. after ≡ s) self.old.hub event result self.new.hub }
        ensures count { MatchResult result (λ _. seat.new.count ≡ seat.old.count + 1) (λ _. seat.new.count ≡ seat.old.count) }
        ensures rotations { seat.new.rotations ≡ seat.old.rotations }
        ensures number { IfOk result (λ answer. L.opening + seat.new.count ≤ answer.number) }
        ensures waits { IsOfferedTo (waiting_in self.old.hub.world) event result self.new.held.items self.old.waits self.new.waits }
        ensures until { told.new.until ≡ until_of event result self.new.held.items self.new.waits }
        ensures slow { told.new.slow ≡ slow_of event result self.new.held.items self.new.waits }
        ensures size { told.new.size ≡ size_of event.what }
        ensures freed { told.new.freed.items ≡ told.old.freed.items }
        ensures rest { told.new.rest ≡ told.old.rest }
    {
        self.prove_invariant();
        self.take_out(&event.what);
        told.until = None;
        told.slow = None;
        told.size = size_of(&event.what);
        self.held.clear();
        let at = AtMoment {
            waits: &self.waits,
            moment: event.now,
            room: room_beside(self.hub.capacity(), told.size),
        };
        match self.hub.step_if(event, &at, &mut self.held) {
            Ok(answer) => {
                let number = answer.get().number;
                count(&mut self.book, seat, number);
                Ok(answer)
            }
            Err((event, refusal)) => match refusal {
                PublishRefusal::By(refusal) => Err((event, PublishRefusal::By(refusal))),
                PublishRefusal::Held => {
                    let held = self.hold(&event, told);
                    Err((event, held))
                }
            },
        }
    }

    /// Makes the steps of messages of one connection in order, of each as `step_if` does, with a word that is drawn for it.
    /// The first that isn't published ends the run, and so does the one that fills the hold; those behind it are left, and
    /// have drawn nothing. Returns `None` if each was published and the hold has all answers; else what came of the last
    /// that was offered, and the hold has the answers of those before it.
    #[inline(never)]
    pub fn step_run<W: Words>(
        &mut self,
        seat: &mut Seat<L>,
        context: &mut RunContext,
        messages: &mut VecDeque<Message>,
        words: &mut W,
    ) -> Option<Result<Answer, (Event, PublishRefusal)>>
        ensures run { (answers : List Entry) × (context.new.hold.answers.items ≡ context.old.hold.answers.items ++ answers) × IsRun (IsPublished (λ s. s.count) L.opening) W.draws context.old.posts.conn context.old.posts.now messages.old.items (inside self.old.hub self.old.waits self.old.held.items seat.old context.old.told) words.old answers result messages.new.items (inside self.new.hub self.new.waits self.new.held.items seat.new context.new.told) words.new }
        ensures rotations { seat.new.rotations ≡ seat.old.rotations }
        ensures below { StaysBelow context.old.hold.most context.old.hold.answers.items context.new.hold.answers.items }
        ensures freed { context.new.told.freed.items ≡ context.old.told.freed.items }
        ensures rest { context.new.told.rest ≡ context.old.told.rest }
    {
        let posts = context.posts;
        while let Some(message) = messages.pop_front() {
            let event = posts.event(message, words.next());
            match self.step_if(seat, event, &mut context.told) {
                Err(refused) => return Some(Err(refused)),
                Ok(answer) => {
                    if let Some(last) = context.hold.keep(answer) {
                        return Some(Ok(last));
                    }
                }
            }
        }
        None
    }

    /// Takes the publisher of a message out of where it stands.
    #[inline(always)]
    fn take_out(&mut self, what: &Command)
        ensures waits { self.new.waits ≡ offered what.now self.old.waits }
        ensures hub { self.new.hub ≡ self.old.hub }
    {
        if let Command::Pub { conn, .. } = what {
            self.waits.take_out(*conn);
        }
    }

    /// Has the publisher of a message wait that is held back, and tells until when or for whom. If there is no memory, the
    /// message is refused. It stands apart so that what each message passes stays small.
    #[inline(never)]
    fn hold(&mut self, event: &Event, told: &mut Told) -> PublishRefusal
        requires some { 0 < length self.old.held.items }
        ensures sound { IsSound self.old.hub.world }
        ensures waits { IsHeldBack result (waiting_in self.old.hub.world) event.entry.now self.old.held.items self.old.waits self.new.waits }
        ensures until { told.old.until ≡ None → told.new.until ≡ until_if result event.entry.now.what self.old.held.items self.new.waits }
        ensures slow { told.old.slow ≡ None → told.new.slow ≡ slow_if result event.entry.now self.old.held.items self.new.waits }
        ensures size { told.new.size ≡ told.old.size }
        ensures freed { told.new.freed.items ≡ told.old.freed.items }
        ensures rest { told.new.rest ≡ told.old.rest }
        ensures due { IfBy result (IsRefusal (stepped self.old.hub event.entry.now)) }
        ensures hub { self.new.hub ≡ self.old.hub }
        ensures held { self.new.held.items ≡ self.old.held.items }
    {
        self.hub.prove_invariant();
        let Some(publisher) = publisher_of(&event.what) else {
            return PublishRefusal::Held;
        };
        let first = self.held[0];
        let outboxes = HubOutboxes { hub: &self.hub };
        let held = self.held.as_slice();
        if self
            .waits
            .hold(publisher, held, event.now, &outboxes)
            .is_err()
        {
            let refusal = self.hub.refusal(event);
            return PublishRefusal::By(refusal);
        }
        told.until = self.waits.until(first);
        if self.waits.is_out(first, event.now) {
            told.slow = Some(first);
        }
        PublishRefusal::Held
    }
}

ghost use Rattle.shared_hub.specs.desk.Waits as waits;

/// The connection that publishes the message, if it is one.
fn publisher_of(what: &Command) -> Option<u64>
    ensures { result ≡ waits.publisher_of what.now }
{
    match what {
        Command::Pub { conn, .. } => Some(*conn),
        _ => None,
    }
}

/// The connections whose sessions a reload has ended.
fn gone_of(outcome: &Outcome) -> &[u64]
    ensures { result.now ≡ waits.gone_in outcome.now }
{
    match outcome {
        Outcome::Reloaded { gone, .. } => gone.as_slice(),
        _ => &[],
    }
}

ghost use Rattle.hub.specs.InForce.{policy_after};
ghost use Rattle.std.specs.Prelude.{◌<◌, ◌^◌, IfOk};

/// Makes a handle of the policy that is in force after an event, if the event is answered.
fn ready_after(alloc: Global, hub: &Hub, event: &Event) -> Result<CompiledPolicy, NoMemory>
    ensures { IfOk result (λ ready. ready ≡ policy_after hub.now.world event.entry.now.what) }
{
    match &event.what {
        Command::Reload(ready) => ready.copy(alloc),
        _ => hub.ready().copy(alloc),
    }
}

/// Counts one more entry for the seat. Its number is above the book's count.
fn count<L: Run>(book: &mut Book<L>, seat: &mut Seat<L>, number: u64)
    requires { book.old.total < number }
    ensures total { book.new.total ≡ book.old.total + 1 }
    ensures count { seat.new.count ≡ seat.old.count + 1 }
    ensures rotations { seat.new.rotations ≡ seat.old.rotations }
    ensures within { seat.new.count ≤ book.new.total }
{
    let _ = number;
    book.audit(&mut seat.share);
    book.add(&mut seat.share, 1);
    seat.count += 1;
}

ghost use Rattle.std.specs.Prelude.{[], length, map, sum, vec_capacity};

/// Brings the parts of all seats together, and lists how many entries each has made.
fn gather<L: Run>(all: &mut Share<L>, mut seats: VecDeque<Seat<L>>, counts: &mut Vec<u64>)
    requires nothing { all.old.amount ≡ 0 }
    requires empty { counts.old.items ≡ [] }
    requires room { length seats.items ≤ vec_capacity counts.old }
    ensures parts { all.new.parts ≡ all.old.parts + length seats.items }
    ensures amount { all.new.amount ≡ sum counts.new.items }
    ensures counts { counts.new.items ≡ map (λ s. s.count) seats.items }
{
    while let Some(seat) = seats.pop_front() {
        let Seat {
            share,
            count,
            rotations: _,
        } = seat;
        all.merge(share);
        counts.push_reserved(count);
    }
}
