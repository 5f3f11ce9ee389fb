//! A port that counts what comes of its events.
ghost use Rattle.std.specs.Prelude.{◌≡◌};

use crate::counts::TurnCounts;
use events::{
    Answer, Event, HubRefusal, InvalidFrame, Message, Outcome, Port, PublishRefusal, RunEnd, Words,
};
use std::collections::VecDeque;

/// A port that is lent for a turn, and what was counted of the turn so far.
#[derive(Drop)]
pub struct Counting<'p, P> {
    port: &'p mut P,
    counts: TurnCounts,
}

impl<'p, P> Counting<'p, P> {
    ghost use Rattle.server_stats.specs.Counts.{no_turn};

    /// Returns a port that has counted nothing.
    pub fn new(port: &'p mut P) -> Counting<'p, P>
        ensures port { result.port.now ≡ port.old }
        ensures counts { result.counts ≡ no_turn }
    {
        Counting {
            port,
            counts: TurnCounts::none(),
        }
    }

    /// Returns what was counted.
    pub fn into_counts(self) -> TurnCounts
        ensures { result ≡ self.entry.counts }
    {
        let Counting { port: _, counts } = self;
        counts
    }
}

impl TurnCounts {
    ghost use Rattle.server_stats.specs.Counts.{IsAnswerCounted, after_end};

    /// Counts an answer to an event that is no message.
    fn count_answer(&mut self, answer: &Answer)
        ensures { IsAnswerCounted answer.now self.old self.new }
    {
        match &answer.get().outcome {
            Outcome::Connected => self.connected = answer.again().ok(),
            Outcome::Taken(all, missed) => {
                self.sent = self.sent.saturating_add(all.len() as u64);
                self.slow = self.slow.saturating_add(u64::from(*missed));
            }
            _ => {}
        }
    }

    /// Counts messages of which so many were offered and the last came to this end; all before it were published.
    fn count_run(&mut self, offered: usize, end: &RunEnd)
        ensures { self.new ≡ after_end offered end.now self.old }
    {
        let published = match end {
            RunEnd::Published => offered,
            RunEnd::Answered(answer) if is_published(answer) => offered,
            RunEnd::Answered(_) => offered.saturating_sub(1),
            RunEnd::Stopped(_, _) => offered.saturating_sub(1),
        };
        self.received = self.received.saturating_add(published as u64);
    }
}

ghost use Rattle.events.specs.Runs.{was_published};

/// Returns whether a message was published.
#[inline(always)]
fn is_published(answer: &Answer) -> bool
    ensures { result ≡ was_published answer.now.outcome }
{
    matches!(&answer.get().outcome, Outcome::Published(_, _))
}

impl<P: Port> Port for Counting<'_, P> {
    ghost use Rattle.std.specs.Prelude.{IfErr, length};
    ghost use Rattle.events.specs.Offers.{IsOffered};
    ghost use Rattle.events.specs.Runs.{IsPosted};
    ghost use Rattle.server_stats.specs.Counts.{IsSubmitCounted, IsOfferCounted, IsRunCounted};

    ghost place = { λ c. P.place c.port.now };

    ghost steps = { λ old event result new. P.steps old.port.now event result new.port.now };

    ghost posts = { λ old event result new. P.posts old.port.now event result new.port.now };

    ghost holds = { λ old new. P.holds old.port.now new.port.now };

    #[inline(always)]
    fn submit(&mut self, event: Event) -> Result<Answer, (Event, HubRefusal)>
        ensures place { P.place self.new.port.now ≡ P.place self.old.port.now }
        ensures step { P.steps self.old.port.now event result self.new.port.now }
        ensures err { IfErr result (λ refused. refused.0 ≡ event) }
        ensures counted { IsSubmitCounted result self.old.counts self.new.counts }
    {
        let result = self.port.submit(event);
        if let Ok(answer) = &result {
            self.counts.count_answer(answer);
        }
        result
    }

    #[inline(always)]
    fn offer(&mut self, event: Event) -> Result<Answer, (Event, PublishRefusal)>
        ensures place { P.place self.new.port.now ≡ P.place self.old.port.now }
        ensures offered { IsOffered (λ old e r new. P.posts old.port.now e r new.port.now) (λ old new. P.holds old.port.now new.port.now) self.old event result self.new }
        ensures err { IfErr result (λ refused. refused.0 ≡ event) }
        ensures counted { IsOfferCounted result self.old.counts self.new.counts }
    {
        let result = self.port.offer(event);
        if matches!(&result, Ok(answer) if is_published(answer)) {
            self.counts.received = self.counts.received.saturating_add(1);
        }
        result
    }

    fn publish<W: Words>(
        &mut self,
        conn: u64,
        now: u64,
        messages: &mut VecDeque<Message>,
        words: &mut W,
    ) -> RunEnd
        ensures place { P.place self.new.port.now ≡ P.place self.old.port.now }
        ensures posted { IsPosted (λ old e r new. P.posts old.port.now e r new.port.now) (λ old new. P.holds old.port.now new.port.now) W.draws conn now messages.old.items self.old words.old result messages.new.items self.new words.new }
        ensures counted { IsRunCounted (length messages.old.items) (length messages.new.items) result self.old.counts self.new.counts }
    {
        if messages.is_empty() {
            return RunEnd::Published;
        }
        let before = messages.len();
        let end = self.port.publish(conn, now, messages, words);
        let offered = before.saturating_sub(messages.len());
        self.counts.count_run(offered, &end);
        end
    }

    #[inline(always)]
    fn must_wait(&self, conn: u64) -> bool {
        self.port.must_wait(conn)
    }

    fn hear_invalid(&self, frame: &InvalidFrame<'_>) {
        self.port.hear_invalid(frame);
    }
}
