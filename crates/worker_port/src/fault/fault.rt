ghost use Rattle.std.specs.Prelude.{◌≡◌, Some, codes};
ghost use Rattle.worker_port.specs.fault.Faults.{fault_text, least, rank};

use std::error::Error;
use std::fmt;

/// Why the server has stopped. The earlier of two is the least.
#[derive(Clone, Copy, Debug, PartialEq, Eq)]
pub enum ServeFault {
    /// The system gave no way to wait for sockets.
    PollFailed,
    /// The policies could not be read, or a frame of them was wrong.
    BadFrame,
    /// Memory for a worker could not be had.
    NoMemory,
    /// A gate lets nothing more pass.
    GateClosed,
}

impl fmt::Display for ServeFault {
    ghost output = { λ fault. Some (fault_text fault) };

    fn fmt<W: fmt::Write>(&self, f: &mut fmt::Formatter<W>) -> fmt::Result {
        match self {
            ServeFault::PollFailed => f.write_str("poll failed"),
            ServeFault::BadFrame => f.write_str("bad frame"),
            ServeFault::NoMemory => f.write_str("no memory"),
            ServeFault::GateClosed => f.write_str("turns spent"),
        }
    }
}

impl Error for ServeFault {}

impl ServeFault {
    /// Returns its number in the order of the faults. The least comes first.
    fn rank(self) -> u8
        ensures { result ≡ rank self }
    {
        match self {
            ServeFault::PollFailed => 1,
            ServeFault::BadFrame => 2,
            ServeFault::NoMemory => 3,
            ServeFault::GateClosed => 4,
        }
    }
}

/// Returns the least of two faults, if there is one.
pub fn least(one: Option<ServeFault>, other: Option<ServeFault>) -> Option<ServeFault>
    ensures { result ≡ least one other }
{
    match one {
        None => other,
        Some(first) => match other {
            None => Some(first),
            Some(second) => {
                if second.rank() < first.rank() {
                    Some(second)
                } else {
                    Some(first)
                }
            }
        },
    }
}
