ghost use Rattle.std.specs.Prelude.{◌≡◌, ◌||◌, IfOk, IsSome, option_map};
ghost use Rattle.std.specs.Io.KnownBytes.{IsAtEnd};
ghost use Rattle.devices.specs.Input.{is_read_failed, IsLongAsRead, IsReading};

use crate::device::Source;
use crate::fault::ReadFault;
use std::alloc::Global;

/// Reads a source to its end, and returns its bytes. It returns `None` if the source has more bytes than `bytes`, or if its
/// end isn't found within so many reads; the read that finds the end is one of them.
///
/// `ReadFailed` comes where the source failed in this call, `NoMemory` where memory could not be had.
pub fn read_within<S: Source>(
    alloc: Global,
    source: &mut S,
    bytes: usize,
    reads: usize,
) -> Result<Option<Vec<u8>>, ReadFault>
    ensures all { IfOk result (λ text. IsReading bytes reads (S.remaining source.old) (S.reads source.old) (S.reads source.new) (option_map (λ vec. vec.items) text)) }
    ensures end { IfOk result (λ text. IsSome text → IsAtEnd (S.remaining source.new)) }
    ensures long { IfOk result (λ text. IsLongAsRead bytes reads (S.remaining source.old) (option_map (λ vec. vec.items) text)) }
    ensures failed { S.failed source.new ≡ (S.failed source.old || is_read_failed result) }
{
    let mut text = Vec::new(alloc);
    let mut piece = [0; 4096];
    'reads: for _ in 0..reads {
        match source.read(&mut piece) {
            Err(_) => return Err(ReadFault::ReadFailed),
            Ok(0) => return Ok(Some(text)),
            Ok(count) => {
                if bytes - text.len() < count {
                    return Ok(None);
                }
                text.extend_from_slice(&piece[..count])?;
            }
        }
    }
    Ok(None)
}
