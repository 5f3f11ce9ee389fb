// `natsd play`: a script from its source to its end (docs/SCRIPT.md).
ghost use Rattle.std.specs.Prelude.{◌≡◌, ◌||◌, Err, IfOk, OnOk, OnErr, IfSome};
ghost use Rattle.std.specs.Io.KnownBytes.{Appends, IsAtEnd};
ghost use Rattle.devices.specs.Device.{AppendsFront};
ghost use Rattle.tasks.specs.Fault.{is_read_failed, is_write_failed, IsShort, IsTooLong};
ghost use Rattle.script.specs.Play.{output_of};

use crate::fault::TaskFault;
use devices::{Sink, Source, read_within};
use script::play_lines;
use std::alloc::Global;
use std::hash::RandomState;

/// The most bytes that a script may have.
const MOST_BYTES: usize = 16_777_216;

/// The most reads that may bring a script, the one that finds its end included.
const MOST_READS: usize = 1_000_000;

/// Plays a script: reads the source to its end, and writes what the script prints to the sink, line by line
/// (docs/SCRIPT.md). Returns the status, 0 or 1. What clients choose is hashed under the keys.
///
/// `ReadFailed` and `WriteFailed` come where the device failed in this call, which the clauses tell of a device
/// that had not failed before; `ScriptTooLong` where the script has more than 16,777,216 bytes, or 1,000,000 reads
/// have given bytes and not found its end; `NoMemory` where memory could not be had. What was written then is a
/// front of what the script prints.
pub fn play<R: Source, W: Sink>(
    alloc: Global,
    keys: RandomState,
    source: &mut R,
    sink: &mut W,
) -> Result<u8, TaskFault>
    // The source's bytes are the script, where it tells them.
    ensures meaning { IfOk result (λ status. IfSome (R.remaining source.old) (λ script.
        Appends (W.contents sink.old) (W.contents sink.new) (output_of script).text
        × (status ≡ (output_of script).status))) }
    ensures prefix { OnErr result (IfSome (R.remaining source.old) (λ script.
        AppendsFront (W.contents sink.old) (W.contents sink.new) (output_of script).text)) }
    ensures read_failed { R.failed source.new ≡ (R.failed source.old || is_read_failed result) }
    ensures write_failed { W.failed sink.new ≡ (W.failed sink.old || is_write_failed result) }
    ensures end { OnOk result (IsAtEnd (R.remaining source.new)) }
    ensures short { OnOk result (IsShort (R.remaining source.old) (R.reads source.old) (R.reads source.new)) }
    ensures too_long { result ≡ Err TaskFault.ScriptTooLong → IsTooLong (R.remaining source.old) (R.reads source.old) (R.reads source.new) }
{
    match read_within(alloc, source, MOST_BYTES, MOST_READS)? {
        Some(script) => match play_lines(alloc, keys, script.as_slice(), sink) {
            Ok(status) => Ok(status),
            Err(fault) => Err(TaskFault::from(fault)),
        },
        None => Err(TaskFault::ScriptTooLong),
    }
}
