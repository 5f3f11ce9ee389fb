ghost use Rattle.std.specs.Prelude.{◌≡◌, [], is_some};
ghost use Rattle.events.specs.Runs.{was_published};

use events::{Answer, Outcome};
use std::alloc::Global;

/// What may enter in one hold of the lock, and the answers of what has entered in it.
#[derive(Drop)]
pub struct Hold {
    /// The answers of messages that were published and had others behind them, in order.
    pub answers: Vec<Answer>,
    /// How many messages and deliveries may still enter.
    room: usize,
    /// How many messages may enter, of those for whose answers there is memory. One may enter in any case.
    most: usize,
}

impl Hold {
    ghost use Rattle.std.specs.Prelude.{◌≡◌, ◌++◌, ◌∷◌, [], Option, None, Some, ℕ};
    ghost use Rattle.shared_waits.specs.runs.Runs.{IsKept};

    /// Makes a hold in which one message may enter, with no answer.
    pub fn new(alloc: Global) -> Hold
        ensures { result.answers.items ≡ [] }
    {
        Hold {
            answers: Vec::new(alloc),
            room: 0,
            most: 1,
        }
    }

    /// Begins another hold, in which so many messages and deliveries may enter, with no answer. At most `most` messages may
    /// enter, of those for whose answers memory can be had.
    #[inline(always)]
    pub fn begin(&mut self, room: usize, most: usize)
        ensures none { self.new.answers.items ≡ [] }
        ensures most { self.new.most ≡ most }
    {
        if !self.answers.is_empty() {
            self.answers.clear();
        }
        let _ = self.answers.reserve(most.saturating_sub(1));
        self.room = room;
        self.most = most;
    }

    /// Keeps the answer of a message that was published, if another may enter behind it; else hands it back.
    #[inline(always)]
    pub fn keep(&mut self, answer: Answer) -> Option<Answer>
        ensures kept { IsKept self.old.most answer result self.old.answers.items self.new.answers.items }
        ensures most { self.new.most ≡ self.old.most }
    {
        match items_of(&answer) {
            None => Some(answer),
            Some(items) => {
                self.room = self.room.saturating_sub(items).saturating_sub(1);
                let full = self.answers.len() >= self.answers.capacity();
                if self.room == 0 || full || self.answers.len() + 1 >= self.most {
                    return Some(answer);
                }
                self.answers.push_reserved(answer);
                None
            }
        }
    }
}

/// Returns how many subscriptions a message met, if it was published.
#[inline(always)]
fn items_of(answer: &Answer) -> Option<usize>
    ensures { is_some result ≡ was_published answer.now.outcome }
{
    match &answer.get().outcome {
        Outcome::Published(_, met) => Some(met.as_slice().len()),
        _ => None,
    }
}

/// Returns whether a message was published.
#[inline(always)]
pub fn was_published(answer: &Answer) -> bool
    ensures { result ≡ was_published answer.now.outcome }
{
    items_of(answer).is_some()
}
