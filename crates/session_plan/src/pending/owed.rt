// What a Take gave and is not written yet.
ghost use Rattle.std.specs.Prelude.{◌≡◌, [], MatchOption, length};
ghost use Rattle.session_plan.specs.pending.Owing.{deliveries_of, missed_in};

use events::{Answer, Batch, Deliveries, Outcome, Waiting};
use std::alloc::Global;
use std::marker::Model;

/// What a Take gave and is not written yet, and whether it told that a delivery was missed. The deliveries stay in
/// the answer, and nothing of them is copied.
pub struct Owed {
    answer: Option<Answer>,
    // How many of the answer's deliveries are written.
    written: usize,
    missed: bool,
}

impl Drop for Owed {
    #[inline(always)]
    fn drop(self) {
        let Self {
            answer: _,
            written: _,
            missed: _,
        } = self;
    }
}

impl Model for Owed {
    ghost use Rattle.std.specs.Prelude.{drop};
    ghost use Rattle.session_plan.specs.pending.Owing.{Owed, deliveries_of};

    ghost Value = { Owed };

    ghost view = { λ o. record { deliveries = drop o.written (deliveries_of o.answer); missed = o.missed } };
}

impl Owed {
    ghost use Rattle.std.specs.Prelude.{◌≡◌, drop, length};
    ghost use Rattle.session_plan.specs.pending.Owing.{owing_nothing, owed_by};

    /// Nothing.
    pub fn new() -> Owed
        ensures { result ≡ owing_nothing }
    {
        Owed {
            answer: None,
            written: 0,
            missed: false,
        }
    }

    /// What an answer gives, if it is that of a Take.
    pub fn of(answer: Answer) -> Option<Owed>
        ensures { result ≡ owed_by answer.outcome }
    {
        match missed_in(&answer.get().outcome) {
            None => None,
            Some(missed) => Some(Owed {
                answer: Some(answer),
                written: 0,
                missed,
            }),
        }
    }

    /// Whether the Take told that a delivery was missed.
    pub fn has_missed(&self) -> bool
        ensures { result ≡ self.now.missed }
    {
        self.missed
    }

    /// The deliveries that are not written yet, oldest first.
    pub fn deliveries(&self) -> Deliveries<'_>
        ensures { result ≡ self.now.deliveries }
    {
        match batch_of(&self.answer) {
            None => Deliveries::none(),
            Some(batch) => Deliveries::after(batch, self.written),
        }
    }

    /// How many of them there are.
    pub fn len(&self) -> usize
        ensures { result ≡ length self.now.deliveries }
    {
        match batch_of(&self.answer) {
            None => 0,
            Some(batch) => batch.len().saturating_sub(self.written),
        }
    }

    /// Drops the first deliveries, which were written.
    #[tactic(auto, using(crate::proofs::pending::Lists::drop_many_more))]
    pub fn drop_many(&mut self, count: usize)
        ensures { self.new ≡ record self.old { deliveries = drop count self.old.deliveries } }
    {
        let _bound = count_of(&self.answer);
        self.written = self.written.saturating_add(count);
    }
}

/// How many bytes of a delivery's text stand beside its payload, mostly at most.
const LINE: usize = 64;

/// How much room is made at once, at most.
const ROOM: usize = 65_536;

/// Makes room for what is still to be written, guessed by the delivery that is next, so that the buffer grows once. Where
/// nothing is written yet it is a buffer of its own: what grows from a small one stays in the part of the heap that that
/// one came from, which may be another thread's, and is locked then. Where room can't be had nothing changes.
pub fn make_room(alloc: Global, out: &mut Vec<u8>, owed: &Owed)
    ensures { out.new.items ≡ out.old.items }
{
    if let Some(next) = owed.deliveries().next() {
        let each = next.payload.len().saturating_add(LINE);
        let room = owed.len().saturating_mul(each).min(ROOM);
        grow(alloc, out, room);
    }
}

/// Makes room for so many bytes.
fn grow(alloc: Global, out: &mut Vec<u8>, room: usize)
    ensures { out.new.items ≡ out.old.items }
{
    if out.is_empty() {
        match Vec::with_capacity(alloc, room) {
            Ok(larger) => *out = larger,
            Err(_) => {}
        }
    } else {
        let _had = out.reserve(room);
    }
}

/// Whether a Take told that a delivery was missed, if it is one that was answered.
fn missed_in(outcome: &Outcome) -> Option<bool>
    ensures { result ≡ missed_in outcome.now }
{
    match outcome {
        Outcome::Taken(_, missed) => Some(*missed),
        Outcome::Connected
        | Outcome::AuthViolation
        | Outcome::Subscribed
        | Outcome::SameSid
        | Outcome::SubLimit
        | Outcome::Unsubscribed
        | Outcome::Closed => None,
        Outcome::Denied(_) => None,
        Outcome::Published(_, _) => None,
        Outcome::Reloaded { .. } => None,
    }
}

/// The deliveries of an answer, if there is one: those of a Take, and no others have any.
fn batch_of(answer: &Option<Answer>) -> Option<&Batch<Waiting>>
    ensures { MatchOption result (deliveries_of answer.now ≡ []) (λ batch. batch.now ≡ deliveries_of answer.now) }
{
    match answer {
        None => None,
        Some(answer) => match &answer.get().outcome {
            Outcome::Taken(batch, _) => Some(batch),
            Outcome::Connected
            | Outcome::AuthViolation
            | Outcome::Subscribed
            | Outcome::SameSid
            | Outcome::SubLimit
            | Outcome::Unsubscribed
            | Outcome::Closed => None,
            Outcome::Denied(_) => None,
            Outcome::Published(_, _) => None,
            Outcome::Reloaded { .. } => None,
        },
    }
}

/// How many deliveries an answer has, if there is one.
fn count_of(answer: &Option<Answer>) -> usize
    ensures { result ≡ length (deliveries_of answer.now) }
{
    match batch_of(answer) {
        None => 0,
        Some(batch) => batch.len(),
    }
}
