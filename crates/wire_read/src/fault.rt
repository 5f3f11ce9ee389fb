ghost use Rattle.std.specs.Prelude.{◌≡◌};
ghost use Rattle.wire_read.specs.declared.fault.FeedError.TheVariants.{NoMemory};

use std::alloc::{AllocError, AllocFailed};
use std::error::Error;
use std::fmt;

/// What is wrong with a stream. Nothing is read after it (docs/PROTOCOL.md).
#[derive(Clone, Copy, Debug, PartialEq, Eq)]
pub enum WireFault {
    /// A line has no field, or its first names no operation that is known.
    UnknownOperation,
    /// The fields after the operation aren't what it takes, a number has a byte that is no digit,
    /// a header block is to be longer than itself and its payload, a count of messages is above
    /// 2^63 - 1, or a payload is not followed by CR LF.
    ParserError,
    /// A line has more than 4,096 bytes, however it goes on.
    ControlLine,
    /// A payload, with its header block if it has one, is to have more than 1,048,576 bytes.
    Payload,
}

impl fmt::Display for WireFault {
    ghost use Rattle.std.specs.Prelude.{Some};
    ghost use Rattle.wire_read.specs.Faults.{fault_text};

    ghost output = { λ fault. Some (fault_text fault) };

    fn fmt<W: fmt::Write>(&self, f: &mut fmt::Formatter<W>) -> fmt::Result {
        match self {
            WireFault::UnknownOperation => f.write_str("the operation is unknown"),
            WireFault::ParserError => f.write_str("the protocol message is malformed"),
            WireFault::ControlLine => f.write_str("the control line is too long"),
            WireFault::Payload => f.write_str("the payload is too long"),
        }
    }
}

impl Error for WireFault {}

/// Why a reader did not take a piece.
#[derive(Clone, Copy, Debug, PartialEq, Eq)]
pub enum FeedError {
    /// A fault was given before, so nothing more is read.
    Failed,
    /// Memory could not be had. The reader is as before, and the piece can be fed again.
    NoMemory,
}

impl fmt::Display for FeedError {
    ghost use Rattle.std.specs.Prelude.{Some};
    ghost use Rattle.wire_read.specs.Faults.{feed_error_text};

    ghost output = { λ error. Some (feed_error_text error) };

    fn fmt<W: fmt::Write>(&self, f: &mut fmt::Formatter<W>) -> fmt::Result {
        match self {
            FeedError::Failed => f.write_str("the stream had a fault before"),
            FeedError::NoMemory => f.write_str("no memory"),
        }
    }
}

impl Error for FeedError {}

impl From<AllocError> for FeedError {
    ghost from_gives = { λ _ e. e ≡ NoMemory };

    fn from(_refused: AllocError) -> FeedError {
        FeedError::NoMemory
    }
}

impl<T: Drop> From<AllocFailed<T>> for FeedError {
    ghost from_gives = { λ _ e. e ≡ NoMemory };

    fn from(_refused: AllocFailed<T>) -> FeedError {
        FeedError::NoMemory
    }
}
