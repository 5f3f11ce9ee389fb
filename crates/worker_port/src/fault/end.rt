ghost use Rattle.std.specs.Prelude.{◌≡◌, ◌++◌, codes};
ghost use Rattle.worker_port.specs.fault.Faults.{fault_text};
ghost use Rattle.worker_port.specs.fault.Ends.{line_of};

use crate::fault::ServeFault;
use base::NoMemory;
use std::alloc::AllocError;

/// Why clients are served no further.
#[derive(Drop)]
pub enum Fault {
    /// The file of the policy can't be read.
    ReadFailed,
    /// A frame of the policies is wrong, or can't be read.
    BadFrame,
    /// The first policy is refused, as this line says.
    Refused(Vec<u8>),
    /// The text is no address, or can't be listened at.
    ListenFailed,
    /// The system gives no way to wait for sockets.
    PollFailed,
    /// The system gives no random bytes.
    NoKeys,
    /// Memory could not be had.
    NoMemory,
    /// A gate lets nothing more pass.
    GateClosed,
}

impl Fault {
    /// Returns the line that tells it, with its LF.
    pub fn line(&self) -> &[u8]
        ensures { result.now ≡ line_of self.now }
    {
        match self {
            Fault::ReadFailed => b"read failed\n",
            Fault::BadFrame => b"bad frame\n",
            Fault::Refused(line) => line.as_slice(),
            Fault::ListenFailed => b"listen failed\n",
            Fault::PollFailed => b"poll failed\n",
            Fault::NoKeys => b"no random keys\n",
            Fault::NoMemory => b"no memory\n",
            Fault::GateClosed => b"turns spent\n",
        }
    }
}

impl From<AllocError> for Fault {
    ghost use Rattle.worker_port.specs.declared.fault.end.Fault.TheVariants.{NoMemory};

    ghost from_gives = { λ _ e. e ≡ NoMemory };

    fn from(_refused: AllocError) -> Fault {
        Fault::NoMemory
    }
}

impl From<NoMemory> for Fault {
    ghost use Rattle.worker_port.specs.declared.fault.end.Fault.TheVariants.{NoMemory};

    ghost from_gives = { λ _ e. e ≡ NoMemory };

    fn from(_refused: NoMemory) -> Fault {
        Fault::NoMemory
    }
}

impl From<ServeFault> for Fault {
    ghost from_gives = { λ fault e. line_of e ≡ fault_text fault ++ codes "\n" };

    fn from(fault: ServeFault) -> Fault {
        match fault {
            ServeFault::PollFailed => Fault::PollFailed,
            ServeFault::BadFrame => Fault::BadFrame,
            ServeFault::NoMemory => Fault::NoMemory,
            ServeFault::GateClosed => Fault::GateClosed,
        }
    }
}
