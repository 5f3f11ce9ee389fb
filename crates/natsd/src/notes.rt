// What is told on standard error of a policy that a task has read (docs/POLICY.md, "Where a fault stands").
ghost use Rattle.std.specs.Prelude.{◌≡◌, IfOk, option_copied};
ghost use Rattle.natsd.specs.Status.{IsKept};
ghost use Rattle.natsd.specs.Telling.{question_of, IsPlaceIf};

use crate::checked::{strict_status, tell_of_check};
use crate::policy_input::PolicyInput;
use base::NoMemory;
use command_line::{Invocation, Question, Task, WordsFault, read_words};
use devices::{Sink, write_all};
use explain::places::deciding_place;
use policy_doc::Policy;
use policy_notes::{Notes, notes_of};
use policy_text::reload::read_valid_policy;
use std::alloc::{AllocError, Global};
use std::{io, str};
use tasks::{Start, StartFault};

/// What is told where memory lacks.
pub const NO_MEMORY: &[u8] = b"no memory\n";

/// What the options `log` and `keepalive` take.
const LOG_WORDS: &[u8] = b"--log takes none, denials or all\n";

const KEEPALIVE_WORDS: &[u8] = b"--keepalive takes off, or seconds, 1 to 32767\n";

/// Tells of what a task has read on standard input: why it couldn't, and what is to be known of a policy's text; or what an option
/// takes whose word isn't known.
/// Returns the status of the task, which ended with this one, and 1 at least where memory lacks to know what is
/// asked.
pub fn tell_of_input<R, E: Sink>(
    alloc: Global,
    start: &Result<Start<String>, StartFault>,
    input: &PolicyInput<R>,
    status: u8,
    errors: &mut E,
) -> u8
    ensures { IsKept status result }
{
    let Ok(start) = start else {
        return status;
    };
    if let Some(error) = input.failed() {
        tell_error(alloc, "standard input", error, errors);
        return status;
    }
    if !asks_for(start, "check") && !asks_for(start, "explain") && !asks_for(start, "serve") {
        return status;
    }
    match task_in(alloc, start) {
        Ok(Some(task)) => tell_of_task(alloc, &task, input, status, errors),
        Ok(None) => status,
        Err(_) => {
            drop(write_all(errors, NO_MEMORY));
            // (whether a warning may be told isn't known)
            status.max(1)
        }
    }
}

/// Returns whether the words ask for what this one does.
fn asks_for(start: &Start<String>, task: &str) -> bool {
    match start.words.as_slice().get(1) {
        None => false,
        Some(word) => word.as_str() == task,
    }
}

/// Returns the task on standard input that the words ask for, if they do. `NoMemory` where memory could not be had.
fn task_in(alloc: Global, start: &Start<String>) -> Result<Option<Task>, NoMemory> {
    match read_words(alloc, start.words.as_slice()) {
        Ok(Invocation::Task(task)) => Ok(Some(task)),
        Err(WordsFault::NoMemory) => Err(NoMemory),
        _ => Ok(None),
    }
}

/// Tells of the policy that a task has read what is to be known of its text. Returns the status of the task, which
/// ended with this one.
pub fn tell_of_task<R, E: Sink>(
    alloc: Global,
    task: &Task,
    input: &PolicyInput<R>,
    status: u8,
    errors: &mut E,
) -> u8
    ensures { IsKept status result }
{
    match task {
        Task::Check | Task::Strict => {
            let is_warned = tell_of_check(alloc, input, errors);
            strict_status(task, status, is_warned)
        }
        Task::Sets | Task::Explain(_) => {
            tell_of_text(alloc, question_of(task), input, errors);
            status
        }
        Task::BadLog => {
            drop(write_all(errors, LOG_WORDS));
            status
        }
        Task::BadKeepalive => {
            drop(write_all(errors, KEEPALIVE_WORDS));
            status
        }
        Task::Play | Task::BadKind | Task::Help(_) | Task::Version(_) => status,
    }
}

/// Returns the question that a task answers, if it does.
pub fn question_of(task: &Task) -> Option<&Question>
    ensures { option_copied result ≡ question_of task.now }
{
    match task {
        Task::Explain(question) => Some(question),
        _ => None,
    }
}

/// Tells of the policy that was read where its fault stands, or else the entry that decides what was asked, and which
/// keys stand twice in one object.
pub(crate) fn tell_of_text<R, E: Sink>(
    alloc: Global,
    asked: Option<&Question>,
    input: &PolicyInput<R>,
    errors: &mut E,
) {
    if input.lacks_memory() {
        drop(write_all(errors, NO_MEMORY));
    } else if let Some(text) = input.text() {
        match notes_on(alloc, asked, text) {
            Ok(notes) => write_notes(alloc, &notes, errors),
            Err(_) => drop(write_all(errors, NO_MEMORY)),
        }
    }
}

/// Returns what is told of a policy's text. `NoMemory` where memory could not be had.
fn notes_on(alloc: Global, asked: Option<&Question>, text: &[u8]) -> Result<Notes, NoMemory> {
    match read_valid_policy(alloc, text) {
        Ok(policy) => {
            let mut notes = notes_of(alloc, text, None)?;
            notes.place = place_if(alloc, asked, &policy, text)?;
            Ok(notes)
        }
        Err(fault) => {
            if fault.is_memory() {
                return Err(NoMemory);
            }
            let notes = notes_of(alloc, text, Some(&fault));
            notes
        }
    }
}

/// Returns where the entry stands that decides what was asked, if something was and an entry does.
fn place_if(
    alloc: Global,
    asked: Option<&Question>,
    policy: &Policy,
    text: &[u8],
) -> Result<Option<String>, NoMemory>
    ensures { IfOk result (IsPlaceIf text.now policy.now (option_copied asked.entry)) }
{
    match asked {
        None => Ok(None),
        Some(question) => match str::from_utf8(text) {
            Ok(text) => deciding_place(alloc, text, policy, question),
            // (what isn't text is no policy)
            Err(_) => Ok(None),
        },
    }
}

/// Writes what an operator is told, a line each.
pub(crate) fn write_notes<E: Sink>(alloc: Global, notes: &Notes, errors: &mut E) {
    for warning in notes.warnings.as_slice() {
        write_line(format!(in alloc; "warning: {warning}\n"), errors);
    }
    if let Some(place) = &notes.place {
        write_line(format!(in alloc; "{place}\n"), errors);
    }
}

/// Writes why something couldn't be read.
pub(crate) fn tell_error<E: Sink>(alloc: Global, what: &str, error: &io::Error, errors: &mut E) {
    write_line(format!(in alloc; "{what}: {error}\n"), errors);
}

/// Writes a line, or that there is no memory for it.
pub(crate) fn write_line<E: Sink>(line: Result<String, AllocError>, errors: &mut E) {
    let told = match &line {
        Ok(line) => write_all(errors, line.as_str().as_bytes()),
        Err(_) => write_all(errors, NO_MEMORY),
    };
    drop(told);
}
