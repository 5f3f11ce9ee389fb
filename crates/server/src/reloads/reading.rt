//! How a policy is read and made ready: a server's first, and each later one.
ghost use Rattle.std.specs.Prelude.{◌≡◌, ◌++◌, ◌∷◌, [], IfSome, Some};
ghost use Rattle.policy_notes.specs.Notes.{AreNotes};
ghost use Rattle.policy_text.specs.reload.Fault.{fault_line};
ghost use Rattle.server.specs.Policies.{IsNext, IsOfText};

use crate::policy_source::{Next, Policies};
use policy_notes::{Notes, notes_of};
use policy_ready::CompiledPolicy;
use policy_text::reload::{ReloadFault, prepare};
use server_log::{ServerLog, What};
use std::alloc::Global;
use std::sync::{Mutex, Wait};
use std::time::Clock;

/// What the next policy is, if there is one.
#[derive(Drop)]
pub enum NextPolicy {
    /// A policy that may come into force, what is to be known of its text, and how many bytes that has.
    Ready(CompiledPolicy, Notes, usize),
    /// A policy that is refused, as this line says, and what is to be known of its text. The line ends in LF.
    Refused(Vec<u8>, Notes),
    /// None yet.
    Later,
    /// None: the input has ended.
    End,
    /// None: a frame was wrong, or could not be read.
    Bad,
    /// None: memory for it could not be had.
    NoMemory,
}

/// Reads the next policy and makes it ready. Returns `Later` where none came for a while. It takes the lock `descriptors` where it
/// opens and closes a file.
pub fn next_policy<P: Policies>(
    alloc: Global,
    policies: &mut P,
    descriptors: &Mutex<()>,
) -> NextPolicy {
    next_of(alloc, policies.next(descriptors))
}

/// Makes what came of the policies ready, where it is a text.
fn next_of(alloc: Global, next: Next) -> NextPolicy
    ensures { IsNext next result }
{
    match next {
        Next::Text(text) => ready_policy(alloc, text.as_slice()),
        Next::Later => NextPolicy::Later,
        Next::End => NextPolicy::End,
        Next::Bad => NextPolicy::Bad,
        Next::NoMemory => NextPolicy::NoMemory,
    }
}

/// Makes a policy's text ready, or returns the line that tells its first fault.
fn ready_policy(alloc: Global, text: &[u8]) -> NextPolicy
    ensures { IsOfText text.now result }
{
    match prepare(alloc, text) {
        Ok(ready) => match notes_of(alloc, text, None) {
            Ok(notes) => NextPolicy::Ready(ready, notes, text.len()),
            Err(_) => NextPolicy::NoMemory,
        },
        Err(fault) => match refusal(alloc, text, &fault) {
            Some((line, notes)) => NextPolicy::Refused(line, notes),
            None => NextPolicy::NoMemory,
        },
    }
}

/// Returns the line of a text's fault, with its LF, and what is to be known of the text. Without memory it returns `None`.
fn refusal(alloc: Global, text: &[u8], fault: &ReloadFault) -> Option<(Vec<u8>, Notes)>
    ensures { IfSome result (λ told. (told.0.items ≡ fault_line fault.now ++ 10 ∷ []) × AreNotes text.now (Some fault.now) told.1) }
{
    let mut line = fault.line(alloc).ok()?;
    line.push(b'\n').ok()?;
    let notes = notes_of(alloc, text, Some(fault)).ok()?;
    Some((line, notes))
}

/// Tells the server's operator that a policy has a fault, as this line says, where it is, and what else is to be known of the
/// text.
pub(crate) fn tell_refused<R: Wait + Clock>(
    rt: &R,
    log: &ServerLog<'_>,
    line: &[u8],
    notes: &Notes,
) {
    let text = line.strip_suffix(b"\n").unwrap_or(line);
    tell_warnings(rt, log, notes);
    match &notes.place {
        None => log.tell(rt, What::PolicyRefused { text, place: None }),
        Some(place) => {
            let place = place.as_str().as_bytes();
            let what = What::PolicyRefused {
                text,
                place: Some(place),
            };
            log.tell_or_print(rt, what, place);
        }
    }
}

/// Tells the server's operator what is to be known of a policy's text beside its fault.
pub(crate) fn tell_warnings<R: Wait + Clock>(rt: &R, log: &ServerLog<'_>, notes: &Notes) {
    for warning in notes.warnings.as_slice() {
        let text = warning.as_str().as_bytes();
        log.tell_or_print(rt, What::PolicyWarning(text), text);
    }
}
