ghost use Rattle.std.specs.Prelude.{◌≡◌};
ghost use Rattle.events.specs.Runs.{was_published};

use crate::{Answer, Outcome, PublishRefusal};

/// What ended a run of messages that were offered one after the other.
#[derive(Drop)]
pub enum RunEnd {
    /// Each of them was published.
    Published,
    /// The last that was offered was answered so.
    Answered(Answer),
    /// The last that was offered was not entered. It has drawn this word.
    Stopped(u64, PublishRefusal),
}

/// Whether a message was published.
#[inline(always)]
pub fn was_published(answer: &Answer) -> bool
    ensures { result ≡ was_published answer.now.outcome }
{
    matches!(&answer.get().outcome, Outcome::Published(_, _))
}
