// What is told on standard error of a policy that is checked (docs/POLICY.md, "Every fault" and "Warnings").
ghost use Rattle.std.specs.Prelude.{◌≡◌, true, false};
ghost use Rattle.natsd.specs.Checking.{strict_status};
ghost use Rattle.natsd.specs.Status.{IsKept};

use crate::notes::{NO_MEMORY, write_line, write_notes};
use crate::policy_input::PolicyInput;
use base::NoMemory;
use command_line::Task;
use devices::{Sink, write_all};
use fault_lines::fault_lines;
use policy_check::warnings_of;
use policy_notes::{Notes, notes_of};
use policy_text::reload::read_valid_policy;
use std::alloc::Global;
use std::str;

/// How many warnings are told of mistakes that are likely.
const MOST_WARNINGS: usize = 100;

/// What is told of a policy's text.
#[derive(Drop)]
struct CheckNotes {
    notes: Notes,
    faults: Vec<String>,
    warnings: Vec<String>,
}

/// Tells of the policy that was read where its first fault stands, then each fault, or else what is likely a mistake.
/// Returns whether a warning was told, or couldn't be found since there was no memory.
pub(crate) fn tell_of_check<R, E: Sink>(
    alloc: Global,
    input: &PolicyInput<R>,
    errors: &mut E,
) -> bool {
    if input.lacks_memory() {
        drop(write_all(errors, NO_MEMORY));
        return true;
    }
    match input.text() {
        None => false,
        Some(text) => match notes_on(alloc, text) {
            Ok(told) => {
                write_checked(alloc, &told, errors);
                has_warnings(&told)
            }
            Err(_) => {
                drop(write_all(errors, NO_MEMORY));
                true
            }
        },
    }
}

fn has_warnings(told: &CheckNotes) -> bool {
    !told.notes.warnings.is_empty() || !told.warnings.is_empty()
}

/// Returns what is told of a policy's text. `NoMemory` where memory could not be had.
fn notes_on(alloc: Global, text: &[u8]) -> Result<CheckNotes, NoMemory> {
    match read_valid_policy(alloc, text) {
        Ok(policy) => Ok(CheckNotes {
            notes: notes_of(alloc, text, None)?,
            faults: Vec::new(alloc),
            warnings: match str::from_utf8(text) {
                Ok(text) => warnings_of(alloc, text, &policy)?,
                // (what isn't text is no policy)
                Err(_) => Vec::new(alloc),
            },
        }),
        Err(fault) => {
            if fault.is_memory() {
                return Err(NoMemory);
            }
            Ok(CheckNotes {
                notes: notes_of(alloc, text, Some(&fault))?,
                faults: fault_lines(alloc, text)?,
                warnings: Vec::new(alloc),
            })
        }
    }
}

/// Writes what an operator is told, a line each.
fn write_checked<E: Sink>(alloc: Global, told: &CheckNotes, errors: &mut E) {
    write_notes(alloc, &told.notes, errors);
    for fault in told.faults.as_slice() {
        write_line(format!(in alloc; "{fault}\n"), errors);
    }
    for warning in told.warnings.as_slice().iter().take(MOST_WARNINGS) {
        write_line(format!(in alloc; "warning: {warning}\n"), errors);
    }
    if MOST_WARNINGS < told.warnings.len() {
        let more = told.warnings.len() - MOST_WARNINGS;
        write_line(format!(in alloc; "warning: and {more} more\n"), errors);
    }
}

/// Returns the status of a check that has ended with a status, by whether a warning was told.
pub fn strict_status(task: &Task, status: u8, is_warned: bool) -> u8
    ensures status { result ≡ strict_status task.now status is_warned }
    ensures kept { IsKept status result }
{
    match task {
        Task::Strict => { if is_warned { 1 } else { status } }
        _ => status,
    }
}
