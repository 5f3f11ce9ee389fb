use base::NoMemory;
use std::error::Error;
use std::fmt;

/// Why nothing is explained. Where several hold, the first in this order is answered.
#[derive(Clone, Copy, Debug, PartialEq, Eq)]
pub enum ExplainFault {
    /// No user of the policy has the name.
    NoSuchUser,
    /// No account of the policy has the name.
    NoSuchAccount,
    /// Memory could not be had.
    NoMemory,
}

impl fmt::Display for ExplainFault {
    ghost use Rattle.std.specs.Prelude.{Some};
    ghost use Rattle.explain.specs.Fault.{fault_text};

    ghost output = { λ fault. Some (fault_text fault) };

    fn fmt<W: fmt::Write>(&self, f: &mut fmt::Formatter<W>) -> fmt::Result {
        match self {
            ExplainFault::NoSuchUser => f.write_str("no such user"),
            ExplainFault::NoSuchAccount => f.write_str("no such account"),
            ExplainFault::NoMemory => f.write_str("no memory"),
        }
    }
}

impl Error for ExplainFault {}

impl From<NoMemory> for ExplainFault {
    ghost use Rattle.std.specs.Prelude.{◌≡◌};
    ghost use Rattle.explain.specs.declared.fault.ExplainFault.TheVariants.{NoMemory};

    ghost from_gives = { λ _ e. e ≡ NoMemory };

    fn from(_refused: NoMemory) -> ExplainFault {
        ExplainFault::NoMemory
    }
}
