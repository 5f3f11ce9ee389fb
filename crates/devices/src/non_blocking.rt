// What is read and written without waiting. It differs from a `Source` and a `Sink` in an answer: not now.
ghost use Rattle.std.specs.Prelude.{◌≡◌, ◌≢◌, ◌⊎◌, ◌<◌, ◌≤◌, ℕ, List, Option, Some, None, Ok, Bool, length, take, true, false, is_err, ◌||◌};
ghost use Rattle.std.specs.declared.io.ErrorKind.TheVariants.{WouldBlock, Interrupted};
ghost use Rattle.std.specs.Io.KnownBytes.{Appends, Consumes, IsAtEnd};
ghost use Rattle.devices.specs.NonBlocking.{count_of, is_not_now};

use crate::device::DeviceFailed;
use std::io;
use std::io::{Read, Write};

/// What bytes are read from without waiting for them.
pub trait NonBlockingSource {
    /// The bytes that are left, where they are known.
    ghost remaining: { Self → Option (List ℕ) };

    /// Whether a read has failed since the source was made.
    ghost failed: { Self → Bool };

    /// Whether the last read found nothing yet.
    ghost waits: { Self → Bool };

    /// Reads bytes into the front of the buffer and returns how many: none at the end, and no number where nothing
    /// has come yet.
    fn read(&mut self, buf: &mut [u8]) -> Result<Option<usize>, DeviceFailed>
        ensures bound { count_of result ≤ length buf.new }
        ensures bytes { Consumes (remaining self.old) (remaining self.new) (take (count_of result) buf.new) }
        ensures end { result ≡ Ok (Some 0) → 0 < length buf.new → IsAtEnd (remaining self.new) }
        ensures waits { waits self.new ≡ is_not_now result }
        ensures failed { failed self.new ≡ (failed self.old || is_err result) };
}

/// What bytes are written to without waiting for room.
pub trait NonBlockingSink {
    /// The bytes that were written, where they are known.
    ghost contents: { Self → Option (List ℕ) };

    /// Whether a write has failed since the sink was made.
    ghost failed: { Self → Bool };

    /// Whether the last write found no room yet.
    ghost waits: { Self → Bool };

    /// Writes a front of the bytes and returns how many, at least one where there is one; or no number where it takes
    /// nothing yet.
    fn write(&mut self, bytes: &[u8]) -> Result<Option<usize>, DeviceFailed>
        ensures bound { count_of result ≤ length bytes.now }
        ensures some { result ≡ Ok (Some 0) → length bytes.now ≡ 0 }
        ensures bytes { Appends (contents self.old) (contents self.new) (take (count_of result) bytes.now) }
        ensures waits { waits self.new ≡ is_not_now result }
        ensures failed { failed self.new ≡ (failed self.old || is_err result) };
}

/// A source and a sink over a socket that doesn't wait, or anything like it.
#[derive(Debug, Drop)]
pub struct NonBlocking<D> {
    device: D,
    has_failed: bool,
    waits: bool,
}

impl<D> NonBlocking<D> {
    /// A source or a sink that has not failed.
    pub fn new(device: D) -> NonBlocking<D>
        ensures device { result.device ≡ device }
        ensures fresh { result.has_failed ≡ false }
    {
        NonBlocking {
            device,
            has_failed: false,
            waits: false,
        }
    }

    /// Notes what an error of the system's says: nothing yet, or that the device has failed.
    fn refused(&mut self, kind: io::ErrorKind) -> Result<Option<usize>, DeviceFailed>
        ensures device { self.new.device ≡ self.old.device }
        ensures count { count_of result ≡ 0 }
        ensures some { result ≢ Ok (Some 0) }
        ensures waits { self.new.waits ≡ is_not_now result }
        ensures failed { self.new.has_failed ≡ (self.old.has_failed || is_err result) }
        ensures not_now { kind ≡ WouldBlock → result ≡ Ok None }
        ensures again { kind ≡ Interrupted → result ≡ Ok None }
        ensures other { is_not_now result ≡ true → (kind ≡ WouldBlock) ⊎ (kind ≡ Interrupted) }
    {
        match kind {
            io::ErrorKind::WouldBlock | io::ErrorKind::Interrupted => {
                self.waits = true;
                Ok(None)
            }
            _ => {
                self.waits = false;
                self.has_failed = true;
                Err(DeviceFailed)
            }
        }
    }
}

impl<D: Read> NonBlockingSource for NonBlocking<D> {
    ghost remaining = { λ r. D.remaining r.device };

    ghost failed = { λ r. r.has_failed };

    ghost waits = { λ r. r.waits };

    fn read(&mut self, buf: &mut [u8]) -> Result<Option<usize>, DeviceFailed> {
        match self.device.read(buf) {
            Ok(count) => {
                self.waits = false;
                Ok(Some(count))
            }
            Err(error) => self.refused(error.kind()),
        }
    }
}

impl<D: Write> NonBlockingSink for NonBlocking<D> {
    ghost contents = { λ w. D.contents w.device };

    ghost failed = { λ w. w.has_failed };

    ghost waits = { λ w. w.waits };

    fn write(&mut self, bytes: &[u8]) -> Result<Option<usize>, DeviceFailed> {
        match self.device.write(bytes) {
            Ok(0) => {
                if bytes.is_empty() {
                    self.waits = false;
                    return Ok(Some(0));
                }
                self.waits = false;
                self.has_failed = true;
                Err(DeviceFailed)
            }
            Ok(count) => {
                self.waits = false;
                Ok(Some(count))
            }
            Err(error) => self.refused(error.kind()),
        }
    }
}
