//! What a session is to note where a request enters its outbox.
ghost use Rattle.std.specs.Prelude.{◌≡◌, [], None, Some, IfOk, is_some, if◌then◌else◌};
ghost use Rattle.std.specs.Option.{option_copied};
ghost use Rattle.world_sessions.specs.deliveries.Replying.{note_of, note_for};

use crate::deliveries::Session;
use base::{Boxed, NoMemory};
use reply_grants::{Note, Replies};
use std::alloc::Global;
use std::hash::RandomState;
use subjects::{Subject, SubjectRef};

/// Returns the same subject, in memory of its own: it may stand long after what it was read of has gone.
fn own_subject(alloc: Global, subject: &SubjectRef<'_>) -> Result<Subject, NoMemory>
    ensures { IfOk result (λ own. own ≡ subject.now) }
{
    let _ = subject.tokens();
    match Subject::parse(alloc, subject.bytes()) {
        Ok(own) => Ok(own),
        Err(_) => Err(NoMemory),
    }
}

/// Returns a table for a session that has none yet.
fn table_for(alloc: Global, keys: RandomState, replies: &Replies) -> Result<Replies, NoMemory>
    ensures { IfOk result (λ table. table ≡ (if is_some replies.now then None else Some [])) }
{
    if replies.has_table() {
        Ok(Replies::none())
    } else {
        Replies::with_room(alloc, keys)
    }
}

/// Returns a note of the subject, with a table for a session that has none yet.
fn note_of(
    alloc: Global,
    keys: RandomState,
    subject: &SubjectRef<'_>,
    replies: &Replies,
) -> Result<Boxed<Note>, NoMemory>
    ensures { IfOk result (λ note. note ≡ note_of subject.now replies.now) }
{
    let subject = own_subject(alloc, subject)?;
    let table = table_for(alloc, keys, replies)?;
    let note = Boxed::new(alloc, Note { subject, table })?;
    Ok(note)
}

/// Returns what is to be noted where a message with this reply enters for a session: the reply, if the user may respond.
#[inline(always)]
pub(crate) fn note_for(
    alloc: Global,
    keys: RandomState,
    reply: &SubjectRef<'_>,
    session: Option<&Session>,
) -> Result<Option<Boxed<Note>>, NoMemory>
    ensures { IfOk result (λ noted. noted ≡ note_for (Some reply.now) (option_copied session.entry)) }
{
    match session {
        None => Ok(None),
        Some(session) => match session.user.rules.terms() {
            None => Ok(None),
            Some(_) => Ok(Some(note_of(alloc, keys, reply, &session.replies)?)),
        },
    }
}
