//! How a port offers the messages of a run, some in each hold of the hub's lock.
ghost use Rattle.std.specs.Prelude.{◌≡◌};
ghost use Rattle.server_port.specs.Ends.{goes_on};

use crate::gates::{Gate, Point};
use crate::port::ServerPort;
use events::{Answer, Event, HubRefusal, Message, PublishRefusal, RunEnd, Words};
use shared_hub::{Run, size_of};
use shared_waits::runs::{Posts, was_published, word_of};
use std::collections::VecDeque;
use std::mem;
use std::sync::Wait;
use worker_port::Why;

/// How many messages are offered in one hold of the lock, at most.
const MOST_MESSAGES: usize = 64;

/// How many messages and deliveries enter in one hold, but for the last message of it.
const MOST_WORK: usize = 256;

/// Whether those behind the messages of a hold may be offered next.
#[inline(always)]
pub(crate) fn goes_on(end: &RunEnd) -> bool
    ensures { result ≡ goes_on end.now }
{
    match end {
        RunEnd::Published => true,
        RunEnd::Answered(answer) => was_published(answer),
        RunEnd::Stopped(_, _) => false,
    }
}

impl<L: Run, R: Wait, G: Gate + Drop> ServerPort<'_, L, R, G> {
    ghost use Rattle.std.specs.Prelude.{◌≡◌, ◌≢◌, ◌<◌, ◌≤◌, ◌+◌, ◌*◌, ◌∷◌, ◌++◌, [], List, Err, Some, length, ℕ};
    ghost use Rattle.events.specs.Runs.{IsPosted};
    ghost use Rattle.events.specs.Messages.{Message};
    ghost use Rattle.events.specs.declared.answer.Entry.{Entry};
    ghost use Rattle.events.specs.declared.refusal.PublishRefusal.TheVariants.{Held};
    ghost use Rattle.events.specs.declared.run.RunEnd.TheVariants.{Stopped};
    ghost use Rattle.shared_waits.specs.runs.Runs.{IsRun, StaysBelow, word_of};
    ghost use Rattle.server_port.specs.Courses.{all_followed, followed};
    ghost use Rattle.server_port.specs.declared.gates.gate.Point.TheVariants.{Answered};
    ghost use Rattle.server_log.specs.Noting.{IsAnswerNoted};
    ghost use Rattle.server_port.specs.Ends.{IsEnded, IsOfferedAgain};
    ghost use Rattle.server_port.specs.Holds.{AreAnswersNoted, IsEndNoted, IsHoldPassed, IsRunNoted, IsWhy, answer_points, end_points, held_back, read_points};
    ghost use Rattle.server_port.specs.Points.{ArePassed};
    ghost use Rattle.worker_port.specs.declared.course.Why.TheVariants.{Share};
    ghost use Rattle.shared_hub.specs.Entering.{IsOfferedBy, IsPostedBy};

    /// Offers the first of some messages, and those behind it as far as they may enter in the same hold of the lock. Once the
    /// round's share is spent, the hub isn't asked.
    #[inline(always)]
    pub(crate) fn publish_some<W: Words>(
        &mut self,
        posts: Posts,
        messages: &mut VecDeque<Message>,
        words: &mut W,
    ) -> RunEnd
        requires some { 0 < length messages.old.items }
        ensures posted { IsPosted (λ old e r new. IsPostedBy L.opening old.seat.count e r new.seat.count) (λ old new. new.seat.count ≡ old.seat.count) W.draws posts.conn posts.now messages.old.items self.old words.old result messages.new.items self.new words.new }
        ensures spent { self.old.course.share ≡ 0 → (word : ℕ) × (result ≡ Stopped word Held) × (self.new.course ≡ record self.old.course { why = Some Share }) × (self.new.context ≡ self.old.context) × (self.new.rotation ≡ self.old.rotation) }
        ensures unasked { self.old.course.share ≡ 0 → (first : Message) × (messages.old.items ≡ first ∷ messages.new.items) × (self.new.gate ≡ self.old.gate) × (self.new.is_spent ≡ self.old.is_spent) × (self.new.noted ≡ self.old.noted) }
        ensures rotations { self.new.seat.rotations + 3 * length messages.new.items ≤ self.old.seat.rotations + 3 * length messages.old.items }
        ensures why { IsWhy result self.old.course.why self.new.course.why }
        ensures noted { IsRunNoted (IsOfferedBy L.opening) W.draws posts.conn posts.now messages.old.items self.old.seat.count words.old result messages.new.items self.new.seat.count words.new self.old.noted self.new.noted }
        ensures points { self.old.course.share ≢ 0 → IsHoldPassed G.passes (length messages.old.items) (held_back self.new.course.why result + length messages.new.items) self.old.gate self.old.is_spent self.new.gate self.new.is_spent }
    {
        if self.course.share == 0 {
            return self.hold_back(messages, words);
        }
        self.course.has_passed = false;
        let most = messages.len().min(MOST_MESSAGES);
        self.pass_read(most);
        let room = self.course.share.min(MOST_WORK);
        self.context.hold.begin(room, most);
        let end = self.enter_run(posts, messages, words);
        self.follow_all();
        match end {
            None => RunEnd::Published,
            Some(last) => {
                let end = self.follow_last(last);
                end
            }
        }
    }

    /// Holds the first message back, since the round's share is spent.
    #[inline(never)]
    fn hold_back<W: Words>(&mut self, messages: &mut VecDeque<Message>, words: &mut W) -> RunEnd
        requires some { 0 < length messages.old.items }
        ensures held { (word : ℕ) × (first : Message) × (result ≡ Stopped word Held) × (messages.old.items ≡ first ∷ messages.new.items) × W.draws words.old word words.new }
        ensures course { self.new.course ≡ record self.old.course { why = Some Share } }
        ensures context { self.new.context ≡ self.old.context }
        ensures rotation { self.new.rotation ≡ self.old.rotation }
        ensures seat { self.new.seat ≡ self.old.seat }
        ensures kept { (self.new.gate ≡ self.old.gate) × (self.new.is_spent ≡ self.old.is_spent) × (self.new.noted ≡ self.old.noted) }
    {
        let Some(message) = messages.pop_front() else {
            return RunEnd::Published;
        };
        drop(message);
        self.course.why = Some(Why::Share);
        let word = words.next();
        RunEnd::Stopped(word, PublishRefusal::Held)
    }

    /// Passes the gate for each of so many messages that were read.
    #[inline(always)]
    fn pass_read(&mut self, messages: usize)
        ensures points { ArePassed G.passes (read_points messages) self.old.gate self.old.is_spent self.new.gate self.new.is_spent }
        ensures noted { self.new.noted ≡ self.old.noted }
        ensures seat { self.new.seat ≡ self.old.seat }
        ensures course { self.new.course ≡ self.old.course }
    {
        for _next in 0..messages {
            self.pass(Point::FrameRead);
        }
    }

    /// Offers messages in the hold that has begun, as `SharedHub::offer_run` does.
    #[inline(always)]
    fn enter_run<W: Words>(
        &mut self,
        posts: Posts,
        messages: &mut VecDeque<Message>,
        words: &mut W,
    ) -> Option<Result<Answer, (Event, PublishRefusal)>>
        ensures run { (answers : List Entry) × (self.new.context.hold.answers.items ≡ self.old.context.hold.answers.items ++ answers) × IsRun (λ s e r after. IsOfferedBy L.opening s.count e r after.count) W.draws posts.conn posts.now messages.old.items self.old.seat words.old answers result messages.new.items self.new.seat words.new }
        ensures rotations { self.new.seat.rotations ≡ self.old.seat.rotations }
        ensures below { StaysBelow self.old.context.hold.most self.old.context.hold.answers.items self.new.context.hold.answers.items }
        ensures course { self.new.course ≡ self.old.course }
        ensures kept { (self.new.gate ≡ self.old.gate) × (self.new.is_spent ≡ self.old.is_spent) × (self.new.noted ≡ self.old.noted) }
    {
        let shared = self.shared;
        self.context.posts = posts;
        let end = shared.offer_run(self.rt, &mut self.seat, &mut self.context, messages, words);
        end
    }

    /// Follows the answers that came in a hold, and keeps none.
    #[inline(always)]
    fn follow_all(&mut self)
        ensures count { self.new.seat.count ≡ self.old.seat.count }
        ensures rotations { self.new.seat.rotations ≤ self.old.seat.rotations + 2 * length self.old.context.hold.answers.items }
        ensures course { self.new.course ≡ all_followed self.old.context.hold.answers.items self.old.course }
        ensures noted { AreAnswersNoted self.old.context.hold.answers.items self.old.noted self.new.noted }
        ensures points { ArePassed G.passes (answer_points (length self.old.context.hold.answers.items)) self.old.gate self.old.is_spent self.new.gate self.new.is_spent }
    {
        let mut answers = mem::replace(&mut self.context.hold.answers, Vec::new(self.alloc));
        self.follow_each(answers.as_slice());
        answers.clear();
        self.context.hold.answers = answers;
    }

    /// Follows answers, in order.
    #[inline(always)]
    fn follow_each(&mut self, answers: &[Answer])
        ensures count { self.new.seat.count ≡ self.old.seat.count }
        ensures rotations { self.new.seat.rotations ≤ self.old.seat.rotations + 2 * length answers.now }
        ensures course { self.new.course ≡ all_followed answers.now self.old.course }
        ensures noted { AreAnswersNoted answers.now self.old.noted self.new.noted }
        ensures points { ArePassed G.passes (answer_points (length answers.now)) self.old.gate self.old.is_spent self.new.gate self.new.is_spent }
    {
        for answer in answers {
            self.follow_message(answer);
        }
    }

    /// Notes a message's answer and follows it. The message passes the gate then.
    #[inline(always)]
    fn follow_message(&mut self, answer: &Answer)
        ensures count { self.new.seat.count ≡ self.old.seat.count }
        ensures rotations { self.new.seat.rotations ≤ self.old.seat.rotations + 2 }
        ensures course { self.new.course ≡ followed answer.now self.old.course }
        ensures noted { IsAnswerNoted answer.now self.old.noted self.new.noted }
        ensures points { ArePassed G.passes (Answered ∷ []) self.old.gate self.old.is_spent self.new.gate self.new.is_spent }
    {
        self.rotation.drop_some();
        self.noted.note_answer(answer);
        let _ = self.follow(answer, size_of(&answer.get().event.what));
        self.pass(Point::Answered);
    }

    /// Ends a run with what came of the last message that was offered.
    #[inline(always)]
    fn follow_last(&mut self, last: Result<Answer, (Event, PublishRefusal)>) -> RunEnd
        ensures end { IsEnded L.opening last self.old.seat.count result self.new.seat.count }
        ensures rotations { self.new.seat.rotations ≤ self.old.seat.rotations + 3 }
        ensures why { IsWhy result self.old.course.why self.new.course.why }
        ensures noted { IsEndNoted result self.old.noted self.new.noted }
        ensures points { ArePassed G.passes (end_points self.new.course.why result) self.old.gate self.old.is_spent self.new.gate self.new.is_spent }
    {
        match last {
            Ok(answer) => {
                self.follow_message(&answer);
                RunEnd::Answered(answer)
            }
            Err((event, refusal)) => {
                let end = self.follow_refusal(event, refusal);
                end
            }
        }
    }

    /// Ends a run with a message that was not entered. Where the history was full, it is offered once more.
    #[inline(never)]
    fn follow_refusal(&mut self, event: Event, refusal: PublishRefusal) -> RunEnd
        ensures end { IsEnded L.opening (Err (event, refusal)) self.old.seat.count result self.new.seat.count }
        ensures rotations { self.new.seat.rotations ≤ self.old.seat.rotations + 3 }
        ensures why { IsWhy result self.old.course.why self.new.course.why }
        ensures noted { IsEndNoted result self.old.noted self.new.noted }
        ensures points { ArePassed G.passes (end_points self.new.course.why result) self.old.gate self.old.is_spent self.new.gate self.new.is_spent }
    {
        match refusal {
            PublishRefusal::Held => {
                self.note_refusal(PublishRefusal::Held);
                self.stop(event, PublishRefusal::Held)
            }
            PublishRefusal::By(refusal) => {
                if refusal != HubRefusal::HistoryFull {
                    return self.stop(event, PublishRefusal::By(refusal));
                }
                let end = self.end_again(event);
                end
            }
        }
    }

    /// Ends a run with a message that met a full history: it is offered once more, once that was rotated.
    fn end_again(&mut self, event: Event) -> RunEnd
        ensures end { IsOfferedAgain L.opening event self.old.seat.count result self.new.seat.count }
        ensures rotations { self.new.seat.rotations ≤ self.old.seat.rotations + 3 }
        ensures why { IsWhy result self.old.course.why self.new.course.why }
        ensures noted { IsEndNoted result self.old.noted self.new.noted }
        ensures points { ArePassed G.passes (end_points self.new.course.why result) self.old.gate self.old.is_spent self.new.gate self.new.is_spent }
    {
        match self.offer_again(event) {
            Ok(answer) => {
                self.noted.note_answer(&answer);
                self.pass(Point::Answered);
                RunEnd::Answered(answer)
            }
            Err((event, refusal)) => self.stop(event, refusal),
        }
    }

    /// Stops a run at a message. What isn't held back has its answer.
    fn stop(&mut self, event: Event, refusal: PublishRefusal) -> RunEnd
        ensures end { result ≡ Stopped (word_of event.what) refusal }
        ensures seat { self.new.seat ≡ self.old.seat }
        ensures course { self.new.course ≡ self.old.course }
        ensures noted { IsEndNoted result self.old.noted self.new.noted }
        ensures points { ArePassed G.passes (end_points self.new.course.why result) self.old.gate self.old.is_spent self.new.gate self.new.is_spent }
    {
        let word = word_of(&event.what);
        drop(event);
        self.noted.note_stop(refusal);
        self.pass_answered();
        RunEnd::Stopped(word, refusal)
    }
}
