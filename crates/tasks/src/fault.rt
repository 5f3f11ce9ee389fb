use base::NoMemory;
use devices::ReadFault;
use script::LinesFault;
use std::error::Error;
use std::fmt;

/// Why a task could not be done to its end.
#[derive(Clone, Copy, Debug, PartialEq, Eq)]
pub enum TaskFault {
    /// The source failed in the call.
    ReadFailed,
    /// The sink failed in the call.
    WriteFailed,
    /// Memory could not be had.
    NoMemory,
    /// The script's end wasn't found within 16,777,216 bytes and 1,000,000 reads.
    ScriptTooLong,
}

impl fmt::Display for TaskFault {
    ghost use Rattle.std.specs.Prelude.{Some};
    ghost use Rattle.tasks.specs.Fault.{fault_text};

    ghost output = { λ fault. Some (fault_text fault) };

    fn fmt<W: fmt::Write>(&self, f: &mut fmt::Formatter<W>) -> fmt::Result {
        match self {
            TaskFault::ReadFailed => f.write_str("read failed"),
            TaskFault::WriteFailed => f.write_str("write failed"),
            TaskFault::NoMemory => f.write_str("no memory"),
            TaskFault::ScriptTooLong => f.write_str("script too long"),
        }
    }
}

impl Error for TaskFault {}

impl From<ReadFault> for TaskFault {
    ghost use Rattle.std.specs.Prelude.{◌≡◌};
    ghost use Rattle.tasks.specs.Fault.{of_reading};

    ghost from_gives = { λ fault e. e ≡ of_reading fault };

    fn from(fault: ReadFault) -> TaskFault {
        match fault {
            ReadFault::ReadFailed => TaskFault::ReadFailed,
            ReadFault::NoMemory => TaskFault::NoMemory,
        }
    }
}

impl From<LinesFault> for TaskFault {
    ghost use Rattle.std.specs.Prelude.{◌≡◌};
    ghost use Rattle.tasks.specs.Fault.{of_lines};

    ghost from_gives = { λ fault e. e ≡ of_lines fault };

    fn from(fault: LinesFault) -> TaskFault {
        match fault {
            LinesFault::WriteFailed => TaskFault::WriteFailed,
            LinesFault::NoMemory => TaskFault::NoMemory,
        }
    }
}

impl From<NoMemory> for TaskFault {
    ghost use Rattle.std.specs.Prelude.{◌≡◌};
    ghost use Rattle.tasks.specs.declared.fault.TaskFault.TheVariants.{NoMemory};

    ghost from_gives = { λ _ e. e ≡ NoMemory };

    fn from(_refused: NoMemory) -> TaskFault {
        TaskFault::NoMemory
    }
}
