use crate::reload::AccountName;
use base::NoMemory;
use itoa::Buffer;
use policy_doc::PolicyFault;
use policy_walk::ConfigFault;
use std::alloc::Global;
use std::error::Error;
use std::{fmt, str};

/// Why a text gives no policy.
#[derive(Debug, Drop)]
pub enum ReloadFault {
    /// The text is no document, or there was no memory for reading it.
    Config(ConfigFault),
    /// The document is no policy; `account` is the name of the account whose row has the fault. Or there was no
    /// memory for more than reading the text; no account is named then.
    Policy {
        fault: PolicyFault,
        account: AccountName,
    },
}

impl ReloadFault {
    ghost use Rattle.std.specs.Prelude.{◌≡◌, IfOk};
    ghost use Rattle.policy_text.specs.reload.Fault.{fault_line, is_memory};

    /// The line that tells an operator of the fault, without the line's end. `NoMemory` where memory could not be
    /// had.
    pub fn line(&self, alloc: Global) -> Result<Vec<u8>, NoMemory>
        ensures { IfOk result (λ line. line.items ≡ fault_line self.now) }
    {
        match self {
            ReloadFault::Config(fault) => {
                let line = fault.line(alloc)?;
                Ok(line)
            }
            ReloadFault::Policy { fault, account } => {
                let line = policy_line(alloc, *fault, account.as_slice())?;
                Ok(line)
            }
        }
    }

    /// Whether it is that there was no memory, which says nothing of the text.
    pub fn is_memory(&self) -> bool
        ensures { result ≡ is_memory self.now }
    {
        match self {
            ReloadFault::Config(fault) => fault.is_memory(),
            ReloadFault::Policy { fault, .. } => fault.place().is_none(),
        }
    }
}

ghost use Rattle.std.specs.Prelude.{◌≡◌, IfOk};
ghost use Rattle.policy_text.specs.reload.Fault.{policy_line};

/// The line of a document's fault. `account` is the account of the row that has it.
fn policy_line(alloc: Global, fault: PolicyFault, account: &[u8]) -> Result<Vec<u8>, NoMemory>
    ensures { IfOk result (λ line. line.items ≡ policy_line fault account.now) }
{
    match fault.place() {
        Some(place) => {
            let mut line = Vec::from_slice(alloc, b"policy ")?;
            line.extend_from_slice(fault.name().as_bytes())?;
            line.extend_from_slice(b" ")?;
            line.extend_from_slice(account)?;
            line.extend_from_slice(b" ")?;
            line.extend_from_slice(Buffer::new().format(place.row).as_bytes())?;
            Ok(line)
        }
        None => Ok(Vec::from_slice(alloc, b"no memory")?),
    }
}

impl fmt::Display for ReloadFault {
    ghost use Rattle.std.specs.Prelude.{Some};
    ghost use Rattle.policy_text.specs.reload.Fault.{fault_text};

    ghost output = { λ fault. Some (fault_text fault) };

    fn fmt<W: fmt::Write>(&self, f: &mut fmt::Formatter<W>) -> fmt::Result {
        match self {
            ReloadFault::Config(fault) => fault.fmt(f),
            ReloadFault::Policy { fault, account } => match str::from_utf8(account.as_slice()) {
                Ok(account) => show_policy(*fault, account, f),
                Err(_) => fault.fmt(f),
            },
        }
    }
}

ghost use Rattle.std.specs.Fmt.{WritesOnOk};

/// Prints the line of a document's fault. `account` is the account of the row that has it.
fn show_policy<W: fmt::Write>(
    fault: PolicyFault,
    account: &str,
    f: &mut fmt::Formatter<W>,
) -> fmt::Result
    ensures { WritesOnOk W.write_str_gives f.old result (policy_line fault account.now) f.new }
{
    match fault.place() {
        Some(place) => write!(f, "policy {} {account} {}", fault.name(), place.row),
        None => f.write_str("no memory"),
    }
}

impl Error for ReloadFault {}
