ghost use Rattle.std.specs.Prelude.{◌≡◌};
ghost use Rattle.shared_waits.specs.runs.Runs.{word_of};

use events::{Command, Event, Message};

/// Whose messages are offered, and when.
#[derive(Clone, Copy, Debug)]
pub struct Posts {
    /// The connection that publishes them.
    pub conn: u64,
    /// The moment at which they are offered, in milliseconds.
    pub now: u64,
}

impl Posts {
    ghost use Rattle.std.specs.Prelude.{◌≡◌};
    ghost use Rattle.events.specs.Runs.{post};

    /// The event of a message that has drawn a word.
    #[inline(always)]
    pub fn event(&self, message: Message, word: u64) -> Event
        ensures { result ≡ post self.entry.now.conn self.entry.now.now message word }
    {
        let what = Command::Pub {
            conn: self.conn,
            message,
            word,
        };
        Event {
            now: self.now,
            what,
        }
    }
}

/// The word that a message has drawn, 0 of what is no message.
pub fn word_of(what: &Command) -> u64
    ensures { result ≡ word_of what.now }
{
    match what {
        Command::Pub { word, .. } => *word,
        _ => 0,
    }
}
