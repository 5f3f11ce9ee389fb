//! What a subscriber is sent.
ghost use Rattle.std.specs.Prelude.{◌≡◌};
ghost use Rattle.events.specs.Sendings.{said};

use base::{Copying, NoMemory, Shared};
use messages::Message;
use std::alloc::Global;
use std::marker::Model;
use subjects::{Subject, SubjectRef};

/// The subject and the reply under which a message is sent to the subscribers of a view. All deliveries of that view
/// share them.
#[derive(Debug)]
pub struct Names {
    /// The subject that the subscriber sees.
    pub subject: Subject,
    /// The reply subject that it sees.
    pub reply: Said,
}

impl Drop for Names {
    #[inline(always)]
    fn drop(self) {
        let Self {
            subject: _,
            reply: _,
        } = self;
    }
}

/// What a view's subscribers see as the reply subject.
#[derive(Debug, Drop)]
pub enum Said {
    /// That of the published message, if it has one.
    AsPublished,
    /// None.
    Nothing,
    /// Another one.
    Other(Subject),
}

/// What a subscriber is sent: the published message, or the same message under a view's names. Its header block and its
/// payload are never copied.
#[derive(Debug)]
pub struct Sent {
    message: Message,
    names: Option<Shared<Names>>,
}

impl Drop for Sent {
    #[inline(always)]
    fn drop(self) {
        let Self {
            message: _,
            names: _,
        } = self;
    }
}

impl Model for Sent {
    ghost use Rattle.events.specs.Messages;
    ghost use Rattle.events.specs.Sendings;

    ghost Value = { Messages.Message };

    ghost view = { λ s. Sendings.under s.names s.message };
}

impl Sent {
    ghost use Rattle.std.specs.Prelude.{◌≡◌, IfOk, IfSome, None, Some};
    ghost use Rattle.events.specs.Sendings.{under};

    /// The message as it was published.
    #[inline(always)]
    pub fn own(message: Message) -> Sent
        ensures { result ≡ message }
    {
        Sent {
            message,
            names: None,
        }
    }

    /// The message under these names.
    pub fn under(message: Message, names: Shared<Names>) -> Sent
        ensures { result ≡ under (Some names) message }
    {
        Sent {
            message,
            names: Some(names),
        }
    }

    /// The message as it was published, where it is sent under no other names.
    #[inline(always)]
    pub fn published(&self) -> Option<&Message>
        ensures { IfSome result (λ message. message.now ≡ self.now) }
    {
        match &self.names {
            None => Some(&self.message),
            Some(_) => None,
        }
    }

    /// The subject that the subscriber sees.
    #[inline(always)]
    pub fn subject(&self) -> SubjectRef<'_>
        ensures { result ≡ self.now.subject }
    {
        match &self.names {
            None => self.message.subject(),
            Some(names) => names.get().subject.lend(),
        }
    }

    /// The reply subject that it sees, if there is one.
    #[inline(always)]
    pub fn reply(&self) -> Option<SubjectRef<'_>>
        ensures { result ≡ self.now.reply }
    {
        match &self.names {
            None => self.message.reply(),
            Some(names) => said_of(names.get(), &self.message),
        }
    }

    /// The header block, which is empty where it has none.
    #[inline(always)]
    pub fn head(&self) -> &[u8]
        ensures { result.now ≡ self.now.head }
    {
        self.message.head()
    }

    /// The payload.
    #[inline(always)]
    pub fn payload(&self) -> &[u8]
        ensures { result.now ≡ self.now.payload }
    {
        self.message.payload()
    }

    /// One more owner. `NoMemory` where there are too many to count.
    #[inline(always)]
    pub fn again(&self) -> Result<Sent, NoMemory>
        ensures { IfOk result (λ same. same ≡ self.now) }
    {
        let message = self.message.again()?;
        match &self.names {
            None => Ok(Sent {
                message,
                names: None,
            }),
            Some(names) => Ok(Sent {
                message,
                names: Some(names.again()?),
            }),
        }
    }
}

/// The reply subject that names say.
#[inline(never)]
fn said_of<'a>(names: &'a Names, message: &'a Message) -> Option<SubjectRef<'a>>
    ensures { result ≡ said names.now.reply message.now.reply }
{
    match &names.reply {
        Said::AsPublished => message.reply(),
        Said::Nothing => None,
        Said::Other(subject) => Some(subject.lend()),
    }
}

impl Copying for Sent {
    fn copy(&self, _alloc: Global) -> Result<Sent, NoMemory> {
        let same = self.again()?;
        Ok(same)
    }
}
