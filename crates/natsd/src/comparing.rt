// `natsd compare`: what a change of policy changes (docs/POLICY.md, "Comparing two policies").
ghost use Rattle.std.specs.Prelude.{◌≤◌};

use crate::notes::{NO_MEMORY, tell_error, write_line};
use crate::on_file::open_input;
use crate::policy_input::PolicyInput;
use command_line::CompareOptions;
use compare_lines::{CompareFault, lines_between};
use devices::{ReadFault, Sink, read_within, write_all};
use policy_notes::notes_of;
use policy_text::account_config::MOST_BYTES;
use policy_text::reload::ReloadFault;
use std::alloc::{AllocGlobal, Global};
use std::fs::Files;
use std::io::Read;
use tasks::ConfigFault;

/// What is told with lines, so that nobody takes an example for all that changes.
const EXAMPLES: &[u8] = b"note: each line that gains or loses has one example; there may be more\n";

/// Compares two policies, of which one may stand on standard input, which this input is, and prints a line for each
/// change. Returns the status: 0 where there is none, 1 where lines are printed, and 2 where a policy can't be read
/// or has a fault, or a line can't be written, as a line on the error sink tells.
pub fn compare<R: Files + AllocGlobal, I: Read, W: Sink, E: Sink>(
    rt: &R,
    options: &CompareOptions,
    input: &mut PolicyInput<I>,
    sink: &mut W,
    errors: &mut E,
) -> u8
    ensures { result ≤ 2 }
{
    let (old, new) = (options.old.as_str(), options.new.as_str());
    if old == "-" && new == "-" {
        drop(write_all(
            errors,
            b"error: only one of OLD and NEW can be standard input\n",
        ));
        return 2;
    }
    let Some(old_text) = text_named(rt, old, input, errors) else {
        return 2;
    };
    let Some(new_text) = text_named(rt, new, input, errors) else {
        return 2;
    };
    let (was, now) = ((old, old_text.as_slice()), (new, new_text.as_slice()));
    compare_texts(rt.alloc(), was, now, options.json, sink, errors)
}

/// Prints the changes between two texts of policies, each with its file's name, or tells the fault of one.
fn compare_texts<W: Sink, E: Sink>(
    alloc: Global,
    old: (&str, &[u8]),
    new: (&str, &[u8]),
    json: bool,
    sink: &mut W,
    errors: &mut E,
) -> u8
    ensures { result ≤ 2 }
{
    match lines_between(alloc, old.1, new.1, json) {
        Ok(lines) => print_lines(lines.as_slice(), sink, errors),
        Err(CompareFault::Old(fault)) => tell_fault(alloc, old, &fault, errors),
        Err(CompareFault::New(fault)) => tell_fault(alloc, new, &fault, errors),
        Err(CompareFault::NoMemory) => tell_no_memory(errors),
    }
}

/// Prints lines, and tells how to read them; returns the status.
fn print_lines<W: Sink, E: Sink>(lines: &[u8], sink: &mut W, errors: &mut E) -> u8
    ensures { result ≤ 2 }
{
    if lines.is_empty() {
        return 0;
    }
    match write_all(sink, lines) {
        Ok(()) => {
            drop(write_all(errors, EXAMPLES));
            1
        }
        Err(_) => {
            drop(write_all(errors, b"write failed\n"));
            2
        }
    }
}

/// Returns the text of the policy that a word names, a file or standard input, or tells why there is none.
fn text_named<R: Files + AllocGlobal, I: Read, E: Sink>(
    rt: &R,
    name: &str,
    input: &mut PolicyInput<I>,
    errors: &mut E,
) -> Option<Vec<u8>> {
    if name == "-" {
        return text_of(rt.alloc(), name, input, errors);
    }
    let mut file = open_input(rt, name, errors)?;
    text_of(rt.alloc(), name, &mut file, errors)
}

/// Returns the text of an input, or tells why there is none.
fn text_of<I: Read, E: Sink>(
    alloc: Global,
    name: &str,
    input: &mut PolicyInput<I>,
    errors: &mut E,
) -> Option<Vec<u8>> {
    match read_within(alloc, input, MOST_BYTES, MOST_BYTES + 1) {
        Ok(Some(text)) => Some(text),
        Ok(None) => {
            let _two = tell_fault(
                alloc,
                (name, &[]),
                &ReloadFault::Config(ConfigFault::TooLarge),
                errors,
            );
            None
        }
        Err(ReadFault::NoMemory) => {
            drop(write_all(errors, NO_MEMORY));
            None
        }
        Err(ReadFault::ReadFailed) => {
            drop(write_all(errors, b"read failed\n"));
            if let Some(error) = input.failed() {
                tell_error(alloc, name, error, errors);
            }
            None
        }
    }
}

/// Tells a policy's fault behind its file's name, and where it stands; returns the status.
fn tell_fault<E: Sink>(
    alloc: Global,
    file: (&str, &[u8]),
    fault: &ReloadFault,
    errors: &mut E,
) -> u8
    ensures { result ≤ 2 }
{
    if fault.is_memory() {
        return tell_no_memory(errors);
    }
    let name = file.0;
    write_line(format!(in alloc; "{name}: {fault}\n"), errors);
    match notes_of(alloc, file.1, Some(fault)) {
        Ok(notes) => {
            if let Some(place) = &notes.place {
                write_line(format!(in alloc; "{name}: {place}\n"), errors);
            }
            2
        }
        Err(_) => tell_no_memory(errors),
    }
}

/// Tells that there is no memory, and returns the status.
fn tell_no_memory<E: Sink>(errors: &mut E) -> u8
    ensures { result ≤ 2 }
{
    drop(write_all(errors, NO_MEMORY));
    2
}
