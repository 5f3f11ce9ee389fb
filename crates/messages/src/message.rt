ghost use Rattle.std.specs.Prelude.{◌≡◌, ◌↔◌, IsTrue, is_some};
ghost use Rattle.std.specs.Option.{option_copied};
ghost use Rattle.subjects.specs.Fault.{subject_if};
ghost use Rattle.subjects.specs.Subject.{tokens_of, IsSubject};
ghost use Rattle.messages.specs.Messages.{is_subject_if, has_subjects, IsSubjectIf, HasSubjects};

use base::{Copying, NoMemory, SharedText};
use std::alloc::Global;
use std::marker::Model;
use subjects::SubjectRef;
use wire_message::MessageText;

/// A client's own id of a subscription.
pub type Sid = SharedText;

/// What is published: all that those whom it is for are sent alike. A clause sees its four parts. It is one part of what
/// was read, so one more owner takes no memory.
#[derive(Debug)]
pub struct Message {
    text: MessageText,
}

impl Drop for Message {
    #[inline(always)]
    fn drop(self) {
        let Self { text: _ } = self;
    }
}

impl Model for Message {
    ghost use Rattle.messages.specs.Messages;

    ghost Value = { Messages.Message };

    ghost view = { λ m. Messages.read_as m.text };

    ghost invariant = { λ m. Messages.HasSubjects m.text };
}

/// Whether a text is a subject.
fn is_subject(text: &[u8]) -> bool
    ensures tokens { result ≡ is_some (subject_if text.now) }
    ensures grammar { IsTrue result ↔ IsSubject (tokens_of text.now) }
{
    SubjectRef::of(text).is_some()
}

/// Whether a text is a subject, if there is one.
fn is_subject_if(text: Option<&[u8]>) -> bool
    ensures tokens { result ≡ is_subject_if (option_copied text.entry) }
    ensures grammar { IsTrue result ↔ IsSubjectIf (option_copied text.entry) }
{
    match text {
        None => true,
        Some(text) => is_subject(text),
    }
}

/// Whether the subject of a message is one, and the reply subject, if it names one.
fn has_subjects(text: &MessageText) -> bool
    ensures tokens { result ≡ has_subjects text.now }
    ensures grammar { IsTrue result ↔ HasSubjects text.now }
{
    is_subject(text.subject()) && is_subject_if(text.reply())
}

impl Message {
    ghost use Rattle.std.specs.Prelude.{◌≡◌, IfOk};
    ghost use Rattle.messages.specs.Messages.{message_of};

    /// The message of these texts, if its subjects are subjects.
    pub fn of(text: MessageText) -> Option<Message>
        ensures { result ≡ message_of text }
    {
        if has_subjects(&text) {
            Some(Message { text })
        } else {
            None
        }
    }

    /// The subject that it is published on.
    pub fn subject(&self) -> SubjectRef<'_>
        ensures { result ≡ self.now.subject }
    {
        SubjectRef::from_valid(self.text.subject())
    }

    /// The reply subject, if it has one.
    #[inline(always)]
    pub fn reply(&self) -> Option<SubjectRef<'_>>
        ensures { result ≡ self.now.reply }
    {
        match self.text.reply() {
            None => None,
            Some(text) => Some(SubjectRef::from_valid(text)),
        }
    }

    /// The header block, which is empty where it has none.
    pub fn head(&self) -> &[u8]
        ensures { result.now ≡ self.now.head }
    {
        self.text.head()
    }

    /// The payload.
    pub fn payload(&self) -> &[u8]
        ensures { result.now ≡ self.now.payload }
    {
        self.text.payload()
    }

    /// One more owner. `NoMemory` where there are too many to count.
    pub fn again(&self) -> Result<Message, NoMemory>
        ensures { IfOk result (λ same. same ≡ self.now) }
    {
        Ok(Message {
            text: self.text.again()?,
        })
    }
}

impl Copying for Message {
    fn copy(&self, _alloc: Global) -> Result<Message, NoMemory> {
        let same = self.again()?;
        Ok(same)
    }
}
