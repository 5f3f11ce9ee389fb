// `natsd check --split`: the parts of a policy, each in a file of its own (docs/OPERATING.md, "A process for each set of
// tenants").
ghost use Rattle.std.specs.Prelude.{◌≤◌};

use crate::notes::{NO_MEMORY, tell_error, tell_of_text};
use crate::on_file::open_input;
use crate::policy_input::PolicyInput;
use base::NoMemory;
use command_line::SplitOptions;
use devices::{ReadFault, Sink, read_within, write_all};
use policy_sets::parts::{PolicyPart, parts_of};
use policy_text::account_config::MOST_BYTES;
use policy_text::reload::ReloadFault;
use std::alloc::{AllocError, AllocGlobal, Global};
use std::fs::{DirBuilder, Files, OpenOptions};
use std::io;
use std::io::{Read, Write};
use std::os::unix::fs::{DirBuilderExt, OpenOptionsExt};
use tasks::ConfigFault;

/// Why not all parts of a policy are written.
#[derive(Drop)]
enum SplitFault {
    /// The policy has a fault.
    Policy(ReloadFault),
    /// The policy can't be read; its input knows why.
    ReadFailed,
    /// A line can't be written to the sink.
    WriteFailed,
    /// The folder, or a file in it, can't be made or written.
    File { path: String, error: io::Error },
    /// Memory could not be had.
    NoMemory,
}

impl From<AllocError> for SplitFault {
    fn from(_refused: AllocError) -> SplitFault {
        SplitFault::NoMemory
    }
}

impl From<ReadFault> for SplitFault {
    fn from(fault: ReadFault) -> SplitFault {
        match fault {
            ReadFault::ReadFailed => SplitFault::ReadFailed,
            ReadFault::NoMemory => SplitFault::NoMemory,
        }
    }
}

impl From<ReloadFault> for SplitFault {
    fn from(fault: ReloadFault) -> SplitFault {
        if fault.is_memory() {
            return SplitFault::NoMemory;
        }
        SplitFault::Policy(fault)
    }
}

/// Writes the parts of a policy, which an input has, or the file that the options name. It prints a line for each, and returns
/// the status: 0, or 1 where not all are written, as a line tells.
pub fn split<R: Files + AllocGlobal, I: Read, W: Sink, E: Sink>(
    rt: &R,
    options: &SplitOptions,
    input: &mut PolicyInput<I>,
    sink: &mut W,
    errors: &mut E,
) -> u8
    ensures { result ≤ 1 }
{
    let folder = options.folder.as_str();
    match &options.policy {
        None => split_input(rt, folder, "standard input", input, sink, errors),
        Some(file) => match open_input(rt, file.as_str(), errors) {
            Some(mut input) => split_input(rt, folder, file.as_str(), &mut input, sink, errors),
            None => 1,
        },
    }
}

/// Writes the parts of the policy of an input, which has this name, and tells on the error sink what is to be known of it.
fn split_input<R: Files + AllocGlobal, I: Read, W: Sink, E: Sink>(
    rt: &R,
    folder: &str,
    name: &str,
    input: &mut PolicyInput<I>,
    sink: &mut W,
    errors: &mut E,
) -> u8
    ensures { result ≤ 1 }
{
    let alloc = rt.alloc();
    let status = match write_parts(rt, folder, input, sink) {
        Ok(()) => 0,
        Err(fault) => {
            tell_fault(alloc, &fault, sink, errors);
            1
        }
    };
    match input.failed() {
        Some(error) => tell_error(alloc, name, error, errors),
        None => tell_of_text(alloc, None, input, errors),
    }
    status
}

/// Tells a fault: that of a policy on the sink, as `natsd check` does, and another on the error sink.
fn tell_fault<W: Sink, E: Sink>(alloc: Global, fault: &SplitFault, sink: &mut W, errors: &mut E) {
    let told = match fault {
        SplitFault::Policy(fault) => {
            print_fault(alloc, fault, sink, errors);
            return;
        }
        SplitFault::ReadFailed => write_all(errors, b"read failed\n"),
        SplitFault::WriteFailed => write_all(errors, b"write failed\n"),
        SplitFault::File { path, error } => {
            tell_error(alloc, path.as_str(), error, errors);
            return;
        }
        SplitFault::NoMemory => write_all(errors, NO_MEMORY),
    };
    drop(told);
}

/// Prints the line of a policy's fault on the sink. Where it can't be made or written, `errors` is told why.
fn print_fault<W: Sink, E: Sink>(alloc: Global, fault: &ReloadFault, sink: &mut W, errors: &mut E) {
    let told = match fault_line(alloc, fault) {
        Ok(line) => match write_all(sink, line.as_slice()) {
            Ok(()) => return,
            Err(_) => write_all(errors, b"write failed\n"),
        },
        Err(_) => write_all(errors, NO_MEMORY),
    };
    drop(told);
}

/// Returns the line of a policy's fault.
fn fault_line(alloc: Global, fault: &ReloadFault) -> Result<Vec<u8>, NoMemory> {
    let mut line = fault.line(alloc)?;
    line.push(b'\n')?;
    Ok(line)
}

/// Makes the folder, and writes the parts of the policy of an input there, each with a line on the sink.
fn write_parts<R: Files + AllocGlobal, I: Read, W: Sink>(
    rt: &R,
    folder: &str,
    input: &mut PolicyInput<I>,
    sink: &mut W,
) -> Result<(), SplitFault> {
    let alloc = rt.alloc();
    let Some(text) = read_within(alloc, input, MOST_BYTES, MOST_BYTES + 1)? else {
        return Err(SplitFault::Policy(ReloadFault::Config(ConfigFault::TooLarge)));
    };
    let parts = parts_of(alloc, text.as_slice())?;
    make_folder(rt, folder)?;
    for (place, part) in parts.as_slice().iter().enumerate() {
        let name = format!(in alloc; "{}.json", place + 1)?;
        write_part(rt, folder, name.as_str(), part)?;
        tell_part(alloc, name.as_str(), part, sink)?;
    }
    Ok(())
}

/// Makes the folder, which only its owner may open, since policies have passwords in clear. There has to be none of its name.
fn make_folder<R: Files + AllocGlobal>(rt: &R, folder: &str) -> Result<(), SplitFault> {
    match DirBuilder::new().mode(0o700).create(rt, folder) {
        Ok(()) => Ok(()),
        Err(error) => Err(SplitFault::File {
            path: String::from_str(rt.alloc(), folder)?,
            error,
        }),
    }
}

/// Writes a part to a new file of the folder.
fn write_part<R: Files + AllocGlobal>(
    rt: &R,
    folder: &str,
    name: &str,
    part: &PolicyPart,
) -> Result<(), SplitFault> {
    let path = format!(in rt.alloc(); "{folder}/{name}")?;
    match write_new(rt, path.as_str(), part.text.as_slice()) {
        Ok(()) => Ok(()),
        Err(error) => Err(SplitFault::File { path, error }),
    }
}

/// Writes a text and an LF to a new file, which only its owner may read.
fn write_new<R: Files>(rt: &R, path: &str, text: &[u8]) -> io::Result<()> {
    let mut options = OpenOptions::new();
    options.write(true).create_new(true).mode(0o600);
    let mut file = options.open(rt, path)?;
    file.write_all(text)?;
    file.write_all(b"\n")
}

/// Prints a part's line.
fn tell_part<W: Sink>(
    alloc: Global,
    name: &str,
    part: &PolicyPart,
    sink: &mut W,
) -> Result<(), SplitFault> {
    let Ok(line) = part_line(alloc, name, part) else {
        return Err(SplitFault::NoMemory);
    };
    match write_all(sink, line.as_slice()) {
        Ok(()) => Ok(()),
        Err(_) => Err(SplitFault::WriteFailed),
    }
}

/// Returns a part's line: its file, and its accounts.
fn part_line(alloc: Global, name: &str, part: &PolicyPart) -> Result<Vec<u8>, NoMemory> {
    let mut line = Vec::from_slice(alloc, name.as_bytes())?;
    for account in part.accounts.as_slice() {
        line.push(b' ')?;
        line.extend_from_slice(account.as_slice())?;
    }
    line.push(b'\n')?;
    Ok(line)
}
