// What bytes are read from and written to, with waiting.
ghost use Rattle.std.specs.Prelude.{◌≡◌, ◌<◌, ℕ, List, Option, Bool, length, IfOk, OnOk, OnErr, is_err, ◌||◌, false};
ghost use Rattle.std.specs.Io.{ReadsAtMost, WritesAtMost};
ghost use Rattle.std.specs.Io.KnownBytes.{Appends, ReadConsumes, WriteAppends};
ghost use Rattle.devices.specs.Device.{AppendsFront, counted, reads_in};

use std::error::Error;
use std::fmt;
use std::io::{Read, Write};

/// A device could not be read or written, or took nothing of what was to be written.
#[derive(Clone, Copy, Debug, PartialEq, Eq)]
pub struct DeviceFailed;

impl fmt::Display for DeviceFailed {
    ghost use Rattle.std.specs.Prelude.{Some, codes};

    ghost output = { λ _. Some (codes "the device failed") };

    fn fmt<W: fmt::Write>(&self, f: &mut fmt::Formatter<W>) -> fmt::Result {
        f.write_str("the device failed")
    }
}

impl Error for DeviceFailed {}

/// What bytes are read from. A read waits for them.
pub trait Source {
    /// The bytes that are left, where they are known.
    ghost remaining: { Self → Option (List ℕ) };

    /// How many reads have given bytes since the source was made, as far as 64 bits count.
    ghost reads: { Self → ℕ };

    /// Whether a read has failed since the source was made.
    ghost failed: { Self → Bool };

    /// Reads bytes into the front of the buffer and returns how many. It is none only where no
    /// byte is left or the buffer has no room.
    fn read(&mut self, buf: &mut [u8]) -> Result<usize, DeviceFailed>
        ensures bound { ReadsAtMost result buf.new }
        ensures bytes { ReadConsumes (remaining self.old) (remaining self.new) result buf.new }
        ensures reads { reads self.new ≡ counted (reads self.old) (reads_in result) }
        ensures failed { failed self.new ≡ (failed self.old || is_err result) };
}

/// What bytes are written to. A write waits for room.
pub trait Sink {
    /// The bytes that were written, where they are known.
    ghost contents: { Self → Option (List ℕ) };

    /// Whether a write has failed since the sink was made.
    ghost failed: { Self → Bool };

    /// Writes a front of the bytes and returns how many. To take none of them is to fail.
    fn write(&mut self, bytes: &[u8]) -> Result<usize, DeviceFailed>
        ensures bound { WritesAtMost result bytes.now }
        ensures some { IfOk result (λ count. 0 < length bytes.now → 0 < count) }
        ensures bytes { WriteAppends (contents self.old) (contents self.new) result bytes.now }
        ensures failed { failed self.new ≡ (failed self.old || is_err result) };
}

/// Writes all the bytes. Where the sink fails it holds a front of them.
pub fn write_all<S: Sink>(sink: &mut S, bytes: &[u8]) -> Result<(), DeviceFailed>
    ensures ok { OnOk result (Appends (S.contents sink.old) (S.contents sink.new) bytes.now) }
    ensures err { OnErr result (AppendsFront (S.contents sink.old) (S.contents sink.new) bytes.now) }
    ensures failed { S.failed sink.new ≡ (S.failed sink.old || is_err result) }
{
    let mut written = 0;
    while written < bytes.len() {
        written += sink.write(&bytes[written..])?;
    }
    Ok(())
}

/// A source over a reader.
#[derive(Debug, Drop)]
pub struct ReadSource<R> {
    reader: R,
    reads: u64,
    has_failed: bool,
}

impl<R> ReadSource<R> {
    /// A source of the bytes that a reader gives.
    pub fn new(reader: R) -> ReadSource<R>
        ensures reader { result.reader ≡ reader }
        ensures reads { result.reads ≡ 0 }
        ensures fresh { result.has_failed ≡ false }
    {
        ReadSource {
            reader,
            reads: 0,
            has_failed: false,
        }
    }
}

impl<R: Read> Source for ReadSource<R> {
    ghost remaining = { λ source. R.remaining source.reader };

    ghost reads = { λ source. source.reads };

    ghost failed = { λ source. source.has_failed };

    fn read(&mut self, buf: &mut [u8]) -> Result<usize, DeviceFailed> {
        match self.reader.read(buf) {
            Ok(0) => Ok(0),
            Ok(count) => {
                if self.reads < u64::MAX {
                    self.reads += 1;
                }
                Ok(count)
            }
            Err(_) => {
                self.has_failed = true;
                Err(DeviceFailed)
            }
        }
    }
}

/// A sink over a writer.
#[derive(Debug, Drop)]
pub struct WriteSink<W> {
    writer: W,
    has_failed: bool,
}

impl<W> WriteSink<W> {
    /// A sink whose bytes a writer takes.
    pub fn new(writer: W) -> WriteSink<W>
        ensures writer { result.writer ≡ writer }
        ensures fresh { result.has_failed ≡ false }
    {
        WriteSink {
            writer,
            has_failed: false,
        }
    }
}

impl<W: Write> Sink for WriteSink<W> {
    ghost contents = { λ sink. W.contents sink.writer };

    ghost failed = { λ sink. sink.has_failed };

    fn write(&mut self, bytes: &[u8]) -> Result<usize, DeviceFailed> {
        if bytes.is_empty() {
            return Ok(0);
        }
        match self.writer.write(bytes) {
            Ok(0) => {
                self.has_failed = true;
                Err(DeviceFailed)
            }
            Ok(count) => Ok(count),
            Err(_) => {
                self.has_failed = true;
                Err(DeviceFailed)
            }
        }
    }
}
