ghost use Rattle.std.specs.Prelude.{◌≡◌};
ghost use Rattle.std.specs.List.{list_any};
ghost use Rattle.server_log.specs.Noting.{is_full, is_noted, noted_refusal, noted_stop, IsAdded, IsAnswerNoted, IsNoted, IsOfferNoted};

use crate::level::LogLevel;
use base::NoMemory;
use events::{Answer, Event, HubRefusal, InvalidFrame, Item, Outcome, PublishRefusal};
use std::alloc::Global;
use std::cell::{Cell, RefCell};
use std::mem;

/// How many answers of a turn are noted, at most, and how many frames that were none.
const MOST: usize = 16;

/// The texts of a frame whose subject isn't a valid one, or its queue or reply.
#[derive(Drop)]
pub(crate) struct InvalidTexts {
    pub command: &'static str,
    pub subject: Vec<u8>,
    pub queue: Option<Vec<u8>>,
    pub reply: Option<Vec<u8>>,
}

/// What a connection's turn had that is to be told. An invalid frame goes with an error that its client was sent.
pub struct Noted {
    alloc: Global,
    level: LogLevel,
    pub(crate) answers: Vec<Answer>,
    /// Whether the hub has no session of the connection any more.
    pub(crate) is_gone: bool,
    /// The frames that were none. A port hears of them while it is lent to be read alone.
    invalid: RefCell<Vec<InvalidTexts>>,
    /// How many answers found no room.
    left_out: u64,
    /// How many frames found none.
    frames_left_out: Cell<u64>,
}

impl Drop for Noted {
    fn drop(self) {
        let Self {
            alloc: _,
            level: _,
            answers: _,
            is_gone: _,
            invalid: _,
            left_out: _,
            frames_left_out: _,
        } = self;
    }
}

impl Noted {
    ghost use Rattle.std.specs.Prelude.{IsTrue, [], false};

    /// Returns what a turn has to tell in which nothing has happened. It takes no memory.
    pub fn new(alloc: Global, level: LogLevel) -> Noted
        ensures level { result.level ≡ level }
        ensures answers { result.answers.items ≡ [] }
        ensures gone { result.is_gone ≡ false }
        ensures all { result.left_out ≡ 0 }
    {
        Noted {
            alloc,
            level,
            answers: Vec::new(alloc),
            is_gone: false,
            invalid: RefCell::new(Vec::new(alloc)),
            left_out: 0,
            frames_left_out: Cell::new(0),
        }
    }

    /// Returns whether nothing is to be told.
    #[inline(always)]
    pub fn is_empty(&self) -> bool
        ensures answers { IsTrue result → self.now.answers.items ≡ [] }
        ensures gone { IsTrue result → self.now.is_gone ≡ false }
    {
        self.answers.is_empty() && !self.is_gone
    }

    /// Takes all out.
    pub fn take(&mut self) -> Noted
        ensures all { result ≡ self.old }
        ensures level { self.new.level ≡ self.old.level }
        ensures none { self.new.answers.items ≡ [] }
        ensures gone { self.new.is_gone ≡ false }
    {
        let empty = Noted::new(self.alloc, self.level);
        mem::replace(self, empty)
    }

    /// Notes an answer, or a refusal, if it is to be told.
    #[inline(always)]
    pub fn note(&mut self, came: &Result<Answer, (Event, HubRefusal)>)
        ensures { IsNoted came.now self.old self.new }
    {
        match came {
            Ok(answer) => self.note_answer(answer),
            Err((_, refusal)) => self.note_refusal(*refusal),
        }
    }

    /// Notes the answer to a message, or why it wasn't entered, if that is to be told.
    #[inline(always)]
    pub fn note_offer(&mut self, came: &Result<Answer, (Event, PublishRefusal)>)
        ensures { IsOfferNoted came.now self.old self.new }
    {
        match came {
            Ok(answer) => self.note_answer(answer),
            Err((_, refusal)) => self.note_stop(*refusal),
        }
    }

    /// Notes why a message wasn't entered, if that is to be told.
    pub fn note_stop(&mut self, refusal: PublishRefusal)
        ensures { self.new ≡ noted_stop refusal self.old }
    {
        match refusal {
            PublishRefusal::By(refusal) => self.note_refusal(refusal),
            PublishRefusal::Held => {}
        }
    }

    /// Notes an answer, if it is to be told.
    #[inline(always)]
    pub fn note_answer(&mut self, answer: &Answer)
        ensures { IsAnswerNoted answer.now self.old self.new }
    {
        if is_noted(self.level, &answer.get().outcome) {
            self.add(answer);
        }
    }

    /// Notes a refusal, if it says that a reload has ended the session.
    fn note_refusal(&mut self, refusal: HubRefusal)
        ensures { self.new ≡ noted_refusal refusal self.old }
    {
        if refusal == HubRefusal::NoSession && self.level != LogLevel::None {
            self.is_gone = true;
        }
    }

    /// Notes an invalid frame, if that is to be told.
    pub fn note_invalid(&self, frame: &InvalidFrame<'_>) {
        if self.level != LogLevel::None && !self.keeps(frame) {
            self.frames_left_out
                .set(self.frames_left_out.get().saturating_add(1));
        }
    }

    /// Keeps the texts of a frame. Returns whether there was room for them.
    fn keeps(&self, frame: &InvalidFrame<'_>) -> bool {
        let Ok(texts) = texts_of(self.alloc, frame) else {
            return false;
        };
        let Ok(mut frames) = self.invalid.try_borrow_mut() else {
            return false;
        };
        frames.len() < MOST && frames.push(texts).is_ok()
    }

    /// Takes out the frames that were none.
    pub(crate) fn take_invalid(&self) -> Option<Vec<InvalidTexts>> {
        self.invalid.try_replace(Vec::new(self.alloc)).ok()
    }

    /// Returns how many answers and frames found no room.
    pub(crate) fn left_out(&self) -> u64 {
        self.left_out.saturating_add(self.frames_left_out.get())
    }

    /// Adds one more owner of an answer.
    #[inline(never)]
    fn add(&mut self, answer: &Answer)
        ensures level { self.new.level ≡ self.old.level }
        ensures added { IsAdded answer.now self.old self.new }
    {
        if self.answers.len() < MOST {
            if let Ok(again) = answer.again() {
                if self.answers.push(again).is_ok() {
                    return;
                }
            }
        }
        self.left_out = self.left_out.saturating_add(1);
    }
}

/// Returns the texts of a frame, copied.
fn texts_of(alloc: Global, frame: &InvalidFrame<'_>) -> Result<InvalidTexts, NoMemory> {
    Ok(InvalidTexts {
        command: frame.command,
        subject: Vec::from_slice(alloc, frame.subject)?,
        queue: copy_of(alloc, frame.queue)?,
        reply: copy_of(alloc, frame.reply)?,
    })
}

/// Returns a copy of a text, if there is one.
fn copy_of(alloc: Global, text: Option<&[u8]>) -> Result<Option<Vec<u8>>, NoMemory> {
    match text {
        None => Ok(None),
        Some(text) => Ok(Some(Vec::from_slice(alloc, text)?)),
    }
}

/// Returns whether an outcome is noted: at this level it is told, or says who a client is. At level `None` nothing is.
#[inline(always)]
fn is_noted(level: LogLevel, outcome: &Outcome) -> bool
    ensures { result ≡ is_noted level outcome.now }
{
    match outcome {
        Outcome::Connected | Outcome::AuthViolation => level != LogLevel::None,
        Outcome::Denied(_) => level != LogLevel::None,
        Outcome::Taken(_, missed) => *missed && level != LogLevel::None,
        Outcome::Published(_, met) => level != LogLevel::None && lacks_route(met.as_slice()),
        Outcome::Closed => level == LogLevel::All,
        _ => false,
    }
}

/// Returns whether a message found no response route at an exporter.
#[inline(always)]
fn lacks_route(items: &[Item]) -> bool
    ensures { result ≡ list_any is_full items.now }
{
    items.iter().any(|item| matches!(item, Item::RouteFull(_)))
}
