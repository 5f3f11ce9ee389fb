//! What waits for a session as one element.
ghost use Rattle.std.specs.Prelude.{◌≡◌};
ghost use Rattle.std.specs.Bool.{Decides};
ghost use Rattle.events.specs.Waiting.{each as each_of};

use crate::Delivery;
use crate::sent::Sent;
use base::{Alike, Copying, NoMemory, are_same_bytes};
use messages::Sid;
use std::alloc::Global;
use std::marker::Model;
use stores::outbox::{Batch, Several};
use subjects::SubjectRef;
use wire_message::TextRun;

/// Messages of a run on their way to one subscription, one at least: each under the same subject, without reply and header
/// block. A clause sees the list of deliveries.
#[derive(Debug)]
pub struct DeliveryRun {
    /// The subject is that of this one.
    sent: Sent,
    /// The client's own id of the subscription.
    sid: Sid,
    texts: TextRun,
}

impl Drop for DeliveryRun {
    #[inline(always)]
    fn drop(self) {
        let Self {
            sent: _,
            sid: _,
            texts: _,
        } = self;
    }
}

impl Model for DeliveryRun {
    ghost use Rattle.std.specs.Prelude.{List, map};
    ghost use Rattle.events.specs.declared.answer.Delivery;
    ghost use Rattle.events.specs.DeliveryRuns.{sent_as};

    ghost Value = { List Delivery.Delivery };

    ghost view = { λ r. map (sent_as r.sent r.sid) r.texts };
}

impl DeliveryRun {
    ghost use Rattle.std.specs.Prelude.{◌≡◌, ◌≤◌, ◌<◌, Some, All, IfOk, IfSome, length, map, take, drop, slice_get};
    ghost use Rattle.events.specs.DeliveryRuns.{sent_as};
    ghost use Rattle.wire_message.specs.Runs.{tail_of};

    /// These messages on their way to a subscription.
    pub fn new(sent: Sent, sid: Sid, texts: TextRun) -> DeliveryRun
        ensures { result ≡ map (sent_as sent sid) texts }
    {
        DeliveryRun { sent, sid, texts }
    }

    /// How many there are.
    #[inline(always)]
    pub fn len(&self) -> usize
        ensures all { result ≡ length self.now }
        ensures some { 1 ≤ result }
    {
        self.texts.len()
    }

    /// The subject under which each is sent.
    #[inline(always)]
    pub fn subject(&self) -> SubjectRef<'_>
        ensures { All (λ delivery. delivery.message.subject ≡ result) self.now }
    {
        self.sent.subject()
    }

    /// The client's own id of the subscription.
    #[inline(always)]
    pub fn sid(&self) -> &[u8]
        ensures { All (λ delivery. delivery.sid ≡ result.now) self.now }
    {
        self.sid.as_slice()
    }

    /// The end of one of them, as its frame has it: its payload behind its size.
    #[inline(always)]
    pub fn tail(&self, index: usize) -> &[u8]
        requires { index < length self.now }
        ensures { IfSome (slice_get self.now index) (λ delivery. result.now ≡ tail_of delivery.message.payload) }
    {
        self.texts.tail(index)
    }

    /// One of them.
    fn delivery(&self, index: usize) -> DeliveryRef<'_>
        requires { index < length self.now }
        ensures { slice_get self.now index ≡ Some result }
    {
        DeliveryRef {
            subject: self.sent.subject(),
            reply: None,
            head: &[],
            payload: self.texts.payload(index),
            sid: self.sid.as_slice(),
        }
    }

    /// The bytes of one's payload.
    #[inline(always)]
    pub fn size(&self, index: usize) -> usize
        requires { index < length self.now }
        ensures { IfSome (slice_get self.now index) (λ delivery. result ≡ length delivery.message.payload) }
    {
        self.texts.size(index)
    }

    /// The first of them, for one more owner.
    fn first_part(&self, alloc: Global, count: usize) -> Result<DeliveryRun, NoMemory>
        requires some { 1 ≤ count }
        requires within { count ≤ length self.now }
        ensures { IfOk result (λ part. part ≡ take count self.now) }
    {
        let sent = self.sent.again()?;
        let sid = self.sid.again()?;
        let texts = self.texts.first_part(alloc, count)?;
        Ok(DeliveryRun { sent, sid, texts })
    }

    /// Leaves the first out, fewer than there are. It takes no memory.
    fn leave_out(&mut self, count: usize)
        requires { count < length self.old }
        ensures { self.new ≡ drop count self.old }
    {
        self.texts.drop_first(count);
    }
}

/// What waits for a session as one element: a delivery, or several in a row. A clause sees each of them.
#[derive(Debug, Drop)]
pub enum Waiting {
    One(Delivery),
    Run(Box<DeliveryRun>),
}

impl Waiting {
    ghost use Rattle.std.specs.Prelude.{◌≡◌, ◌<◌, Some, length, slice_get};
    ghost use Rattle.events.specs.Waiting.{each};

    /// One of its deliveries.
    fn delivery(&self, index: usize) -> DeliveryRef<'_>
        requires { index < length (each self.now) }
        ensures { slice_get (each self.now) index ≡ Some result }
    {
        match self {
            Waiting::One(delivery) => DeliveryRef::of(delivery),
            Waiting::Run(run) => run.delivery(index),
        }
    }
}

impl Several for Waiting {
    type Item = Delivery;

    ghost each = { each_of };

    #[inline(always)]
    fn one(item: Delivery) -> Waiting {
        Waiting::One(item)
    }

    #[inline(always)]
    fn count(&self) -> usize {
        match self {
            Waiting::One(_) => 1,
            Waiting::Run(run) => run.len(),
        }
    }

    fn first_part(&self, alloc: Global, count: usize) -> Result<Waiting, NoMemory> {
        match self {
            Waiting::One(delivery) => Ok(Waiting::One(delivery.copy(alloc)?)),
            Waiting::Run(run) => {
                let part = run.first_part(alloc, count)?;
                Ok(Waiting::Run(Box::new(alloc, part)?))
            }
        }
    }

    fn leave_out(&mut self, count: usize) {
        match self {
            Waiting::One(_) => {}
            Waiting::Run(run) => run.leave_out(count),
        }
    }
}

/// A delivery, lent by what holds it.
#[derive(Debug, Drop)]
pub struct DeliveryRef<'a> {
    pub subject: SubjectRef<'a>,
    pub reply: Option<SubjectRef<'a>>,
    pub head: &'a [u8],
    pub payload: &'a [u8],
    pub sid: &'a [u8],
}

impl<'a> Model for DeliveryRef<'a> {
    ghost use Rattle.messages.specs.Messages.{message};
    ghost use Rattle.events.specs.declared.answer.Delivery;

    ghost Value = { Delivery.Delivery };

    ghost view = { λ d. record { message = message d.subject d.reply d.head.now d.payload.now; sid = d.sid.now } };
}

impl<'a> DeliveryRef<'a> {
    ghost use Rattle.std.specs.Prelude.{◌≡◌};
    ghost use Rattle.std.specs.Bool.{Decides};

    /// A delivery, lent.
    pub fn of(delivery: &'a Delivery) -> DeliveryRef<'a>
        ensures { result ≡ delivery.now }
    {
        let message = &delivery.message;
        DeliveryRef {
            subject: message.subject(),
            reply: message.reply(),
            head: message.head(),
            payload: message.payload(),
            sid: delivery.sid.as_slice(),
        }
    }

    /// Whether it is the same as another.
    fn is_like(&self, other: &DeliveryRef<'_>) -> bool
        ensures { Decides result (self.now ≡ other.now) }
    {
        if !self.subject.is_like(&other.subject) {
            return false;
        }
        if !self.reply.is_like(&other.reply) {
            return false;
        }
        if !are_same_bytes(self.sid, other.sid) {
            return false;
        }
        are_same_bytes(self.head, other.head) && are_same_bytes(self.payload, other.payload)
    }
}

/// The deliveries of elements, one by one. A clause sees those that are left.
#[derive(Drop)]
pub struct Deliveries<'a> {
    left: &'a [Waiting],
    /// How many of those of the elements were given, or left out.
    given: usize,
}

impl<'a> Model for Deliveries<'a> {
    ghost use Rattle.std.specs.Prelude.{List, drop, flat_map};
    ghost use Rattle.events.specs.declared.answer.Delivery;
    ghost use Rattle.events.specs.Waiting.{each};

    ghost Value = { List Delivery.Delivery };

    ghost view = { λ d. drop d.given (flat_map each d.left.now) };
}

impl<'a> Deliveries<'a> {
    ghost use Rattle.std.specs.Prelude.{◌≡◌, ◌∷◌, [], drop, MatchOption};

    /// Those of a batch.
    pub fn of(batch: &'a Batch<Waiting>) -> Deliveries<'a>
        ensures { result ≡ batch.now }
    {
        Deliveries {
            left: batch.as_slice(),
            given: 0,
        }
    }

    /// None.
    pub fn none() -> Deliveries<'a>
        ensures { result ≡ [] }
    {
        Deliveries {
            left: &[],
            given: 0,
        }
    }

    /// Those of a batch but for the first ones.
    pub fn after(batch: &'a Batch<Waiting>, first: usize) -> Deliveries<'a>
        ensures { result ≡ drop first batch.now }
    {
        Deliveries {
            left: batch.as_slice(),
            given: first,
        }
    }

    /// Gives the next one.
    pub fn next(&mut self) -> Option<DeliveryRef<'a>>
        ensures { MatchOption result ((self.old ≡ []) × (self.new ≡ [])) (λ delivery. self.old ≡ delivery ∷ self.new) }
    {
        while let [first, rest @ ..] = self.left {
            let count = first.count();
            if self.given < count {
                let delivery = first.delivery(self.given);
                self.given += 1;
                return Some(delivery);
            }
            self.given -= count;
            self.left = rest;
        }
        None
    }
}

/// Whether two batches have the same deliveries in the same order, in whatever elements they stand.
pub fn are_same_deliveries(one: &Batch<Waiting>, other: &Batch<Waiting>) -> bool
    ensures { Decides result (one.now ≡ other.now) }
{
    let mut some = Deliveries::of(one);
    let mut others = Deliveries::of(other);
    while let Some(delivery) = some.next() {
        match others.next() {
            None => return false,
            Some(same) => {
                if !delivery.is_like(&same) {
                    return false;
                }
            }
        }
    }
    others.next().is_none()
}
