use base::NoMemory;
use std::error::Error;
use std::fmt;

/// Why the lines of a script could not be played to their end.
#[derive(Clone, Copy, Debug, PartialEq, Eq)]
pub enum LinesFault {
    /// The sink failed in the call.
    WriteFailed,
    /// Memory could not be had.
    NoMemory,
}

impl fmt::Display for LinesFault {
    ghost use Rattle.std.specs.Prelude.{Some};
    ghost use Rattle.script.specs.Fault.{fault_text};

    ghost output = { λ fault. Some (fault_text fault) };

    fn fmt<W: fmt::Write>(&self, f: &mut fmt::Formatter<W>) -> fmt::Result {
        match self {
            LinesFault::WriteFailed => f.write_str("write failed"),
            LinesFault::NoMemory => f.write_str("no memory"),
        }
    }
}

impl Error for LinesFault {}

impl From<NoMemory> for LinesFault {
    ghost use Rattle.std.specs.Prelude.{◌≡◌};
    ghost use Rattle.script.specs.declared.fault.LinesFault.TheVariants.{NoMemory};

    ghost from_gives = { λ _ e. e ≡ NoMemory };

    fn from(_refused: NoMemory) -> LinesFault {
        LinesFault::NoMemory
    }
}
