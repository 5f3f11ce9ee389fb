//! The verdicts of two users' lists on one question.
ghost use Rattle.std.specs.Prelude.{◌≡◌, IfOk};
ghost use Rattle.std.specs.Option.{option_copied};
ghost use Rattle.subjects.specs.Subject.{is_pattern, is_subject, tokens_of};
ghost use Rattle.message_changes.specs.Judging.{if_so, is_allowed_if, is_refused_if, verdict_if};

use crate::MessageKind;
use base::NoMemory;
use pattern_sets::Judges;
use permissions::{Compiled, Verdict};
use std::alloc::Global;
use subjects::texts::pattern_if;
use subjects::{Pattern, Subject, SubjectRef};

/// Two users' lists, as judges of questions of a kind.
#[derive(Clone, Copy, Debug)]
pub(crate) struct TwoLists<'a> {
    pub kind: MessageKind,
    /// The lists that are to allow.
    pub one: &'a Compiled,
    /// The lists that are to refuse.
    pub other: &'a Compiled,
}

impl<'a> Judges for TwoLists<'a> {
    ghost use Rattle.message_changes.specs.Judging.{differs};

    ghost differs = { λ lists asked queue. differs lists.kind lists.one.now lists.other.now asked queue };

    fn differ(
        &self,
        alloc: Global,
        text: &[u8],
        queue: Option<&Subject>,
    ) -> Result<bool, NoMemory> {
        let one = verdict_on(alloc, self.kind, self.one, text, queue)?;
        if !is_allowed_if(one) {
            return Ok(false);
        }
        let other = verdict_on(alloc, self.kind, self.other, text, queue)?;
        Ok(is_refused_if(other))
    }
}

/// Whether it is a verdict that allows.
fn is_allowed_if(verdict: Option<Verdict>) -> bool
    ensures { result ≡ is_allowed_if verdict }
{
    match verdict {
        None => false,
        Some(verdict) => verdict.is_allowed(),
    }
}

/// Whether it is a verdict that refuses.
fn is_refused_if(verdict: Option<Verdict>) -> bool
    ensures { result ≡ is_refused_if verdict }
{
    match verdict {
        None => false,
        Some(verdict) => !verdict.is_allowed(),
    }
}

/// Returns the verdict of lists on a question with this text, if it is one of this kind: a subject of a publish or a
/// delivery, a pattern of a subscription. `NoMemory` where memory could not be had.
pub fn verdict_on(
    alloc: Global,
    kind: MessageKind,
    lists: &Compiled,
    text: &[u8],
    queue: Option<&Subject>,
) -> Result<Option<Verdict>, NoMemory>
    ensures { IfOk result (λ verdict. verdict ≡ verdict_if kind lists.now (tokens_of text.now) (option_copied queue.entry)) }
{
    match kind {
        MessageKind::Publish => match subject_of(text) {
            None => Ok(None),
            Some(subject) => Ok(Some(lists.publish(&subject))),
        },
        MessageKind::Subscribe => match pattern_of(alloc, text)? {
            None => Ok(None),
            Some(pattern) => Ok(Some(lists.subscribe(&pattern, queue))),
        },
        MessageKind::QueueSubscribe => match pattern_of(alloc, text)? {
            None => Ok(None),
            Some(pattern) => Ok(Some(lists.subscribe(&pattern, queue))),
        },
        MessageKind::Delivery => match subject_of(text) {
            None => Ok(None),
            Some(subject) => Ok(Some(lists.admits(&subject, queue))),
        },
        MessageKind::QueueDelivery => match subject_of(text) {
            None => Ok(None),
            Some(subject) => Ok(Some(lists.admits(&subject, queue))),
        },
    }
}

/// Returns the subject that a text is, if it is one.
fn subject_of(text: &[u8]) -> Option<SubjectRef<'_>>
    ensures { result ≡ if_so (is_subject (tokens_of text.now)) (tokens_of text.now) }
{
    SubjectRef::of(text)
}

/// Returns the pattern that a text is, if it is one.
fn pattern_of(alloc: Global, text: &[u8]) -> Result<Option<Pattern>, NoMemory>
    ensures { IfOk result (λ pattern. pattern ≡ if_so (is_pattern (tokens_of text.now)) (tokens_of text.now)) }
{
    let pattern = pattern_if(alloc, text)?;
    Ok(pattern)
}
