ghost use Rattle.std.specs.Prelude.{◌≡◌, ℕ, Result, IfErr, IsTrue};
ghost use Rattle.events.specs.declared.event.Event.{Event};
ghost use Rattle.events.specs.declared.answer.Entry.{Entry};
ghost use Rattle.events.specs.declared.refusal.HubRefusal.{HubRefusal};
ghost use Rattle.events.specs.Offers.{IsOffered};
ghost use Rattle.events.specs.Runs.{IsPosted};

use crate::run::was_published;
use crate::{Answer, Command, Event, HubRefusal, Message, PublishRefusal, RunEnd, Words};
use std::collections::VecDeque;

/// A frame of which nothing is submitted, since its subject isn't a valid one, or its queue or reply: its client is answered
/// `Invalid Subject`.
#[derive(Clone, Copy, Debug)]
pub struct InvalidFrame<'a> {
    /// Its operation: `PUB`, `HPUB` or `SUB`.
    pub command: &'static str,
    /// The text of its subject.
    pub subject: &'a [u8],
    /// The text of a SUB's queue, if it names one.
    pub queue: Option<&'a [u8]>,
    /// The text of a message's reply, if it names one.
    pub reply: Option<&'a [u8]>,
}

/// Where a connection's events go. Others may submit events of their own between two of this one, so what an
/// answer and the state after it are is a relation.
pub trait Port {
    /// What is submitted to, where it is lent: no event puts another in its place.
    ghost place: { Self → ℕ };

    /// An event, its answer or refusal, and the port before and after it.
    ghost steps: { Self → Event → Result Entry (Event × HubRefusal) → Self → Type 0 };

    /// The same of a message's event that is offered and not held back. It is a submission too; what a port tells beside that
    /// says by which call the message was entered.
    ghost posts: { Self → Event → Result Entry (Event × HubRefusal) → Self → Type 0 };

    /// The port before and after it held something back: nothing was submitted. A port that holds nothing back has none.
    ghost holds: { Self → Self → Type 0 } = { λ _ _. ⊥ };

    /// Submits an event, once. A refusal hands it back.
    fn submit(&mut self, event: Event) -> Result<Answer, (Event, HubRefusal)>
        ensures place { place self.new ≡ place self.old }
        ensures step { steps self.old event result self.new }
        ensures err { IfErr result (λ refused. refused.0 ≡ event) };

    /// Offers a message's event: it is submitted, once, or held back until its receivers have room. A refusal hands it back.
    fn offer(&mut self, event: Event) -> Result<Answer, (Event, PublishRefusal)>
        ensures place { place self.new ≡ place self.old }
        ensures offered { IsOffered posts holds self.old event result self.new }
        ensures err { IfErr result (λ refused. refused.0 ≡ event) };

    /// Offers the messages of a connection in order, each with a word that is drawn for it. The first that isn't published
    /// ends the run, and those behind it are left. A port may also end it behind any that was answered.
    fn publish<W: Words>(
        &mut self,
        conn: u64,
        now: u64,
        messages: &mut VecDeque<Message>,
        words: &mut W,
    ) -> RunEnd
        ensures place { place self.new ≡ place self.old }
        ensures posted { IsPosted posts holds W.draws conn now messages.old.items self.old words.old result messages.new.items self.new words.new }
    {
        while let Some(message) = messages.pop_front() {
            let word = words.next();
            let what = Command::Pub {
                conn,
                message,
                word,
            };
            match self.offer(Event { now, what }) {
                Ok(answer) => {
                    if !was_published(&answer) {
                        return RunEnd::Answered(answer);
                    }
                }
                Err((event, refusal)) => {
                    drop(event);
                    return RunEnd::Stopped(word, refusal);
                }
            }
        }
        RunEnd::Published
    }

    /// Whether what a connection is told next is held back until it has what waits for it.
    #[inline(always)]
    fn must_wait(&self, _conn: u64) -> bool
        ensures { IsTrue result → holds self.now self.now }
    {
        false
    }

    /// Hears of a frame of which nothing is submitted. A port that tells nobody does nothing.
    fn hear_invalid(&self, _frame: &InvalidFrame<'_>) {}
}
