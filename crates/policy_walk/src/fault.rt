use crate::Path;
use base::NoMemory;
use std::alloc::{AllocError, AllocFailed, Global};
use std::error::Error;
use std::fmt;

/// Why a text is no policy document, and the path of where. `read_policy` tells which fault comes first.
#[derive(Debug, Drop)]
pub enum ConfigFault {
    /// The text has more than 1,048,576 bytes.
    TooLarge,
    /// The text is no JSON, or isn't UTF-8.
    NotJson,
    /// An object has a key that it may not have; the path is the key's.
    UnknownKey(Path),
    /// A value is of another kind than the one that is wanted, or a key that must be there isn't; the path is
    /// the value's, or that key's. Or both spellings of a direction are there; the path is the shorter's.
    WrongType(Path),
    /// A text is no pattern.
    BadSubject(Path),
    /// A text is no duration.
    BadDuration(Path),
    /// A bound on answers is no whole number from 1 to 2,147,483,647, and not -1.
    BadMax(Path),
    /// A name has another length than 1 to 256 bytes, or an account's name a byte that it may not have.
    BadName(Path),
    /// A password begins as a hashed one does, with `$2`.
    HashedPassword(Path),
    /// A weight is no whole number from 1 to 100, and no text of one to three digits, of such a number, and `%`. Or the
    /// weights of a source add up to more than 100; the path is the source's.
    BadWeight(Path),
    /// A destination is no template for the subjects of its source.
    BadDestination(Path),
    /// Memory could not be had for reading, or for keeping what was read.
    NoMemory,
}

impl ConfigFault {
    ghost use Rattle.std.specs.Prelude.{◌≡◌, IfOk};
    ghost use Rattle.policy_walk.specs.Fault.{fault_line, fault_path, fault_title, is_memory};

    /// The line that tells an operator of the fault, without the line's end: the fault's name and,
    /// where it has one, its path. `NoMemory` where memory could not be had.
    pub fn line(&self, alloc: Global) -> Result<Vec<u8>, NoMemory>
        ensures { IfOk result (λ line. line.items ≡ fault_line self.now) }
    {
        let mut line = Vec::from_slice(alloc, self.title().as_bytes())?;
        line.extend_from_slice(self.path().as_bytes())?;
        Ok(line)
    }

    /// Whether it is that there was no memory for reading the text, which says nothing of the text.
    pub fn is_memory(&self) -> bool
        ensures { result ≡ is_memory self.now }
    {
        matches!(self, ConfigFault::NoMemory)
    }

    /// The fault's name, with a space where a path follows.
    fn title(&self) -> &'static str
        ensures { result.now ≡ fault_title self.now }
    {
        match self {
            ConfigFault::TooLarge => "config TooLarge",
            ConfigFault::NotJson => "config NotJson",
            ConfigFault::UnknownKey(_) => "config UnknownKey ",
            ConfigFault::WrongType(_) => "config WrongType ",
            ConfigFault::BadSubject(_) => "config BadSubject ",
            ConfigFault::BadDuration(_) => "config BadDuration ",
            ConfigFault::BadMax(_) => "config BadMax ",
            ConfigFault::BadName(_) => "config BadName ",
            ConfigFault::HashedPassword(_) => "config HashedPassword ",
            ConfigFault::BadWeight(_) => "config BadWeight ",
            ConfigFault::BadDestination(_) => "config BadDestination ",
            ConfigFault::NoMemory => "no memory",
        }
    }

    /// The path of where the fault stands, if it has one.
    fn path(&self) -> &str
        ensures { result.now ≡ fault_path self.now }
    {
        match self {
            ConfigFault::TooLarge => "",
            ConfigFault::NotJson => "",
            ConfigFault::UnknownKey(path) => path.as_str(),
            ConfigFault::WrongType(path) => path.as_str(),
            ConfigFault::BadSubject(path) => path.as_str(),
            ConfigFault::BadDuration(path) => path.as_str(),
            ConfigFault::BadMax(path) => path.as_str(),
            ConfigFault::BadName(path) => path.as_str(),
            ConfigFault::HashedPassword(path) => path.as_str(),
            ConfigFault::BadWeight(path) => path.as_str(),
            ConfigFault::BadDestination(path) => path.as_str(),
            ConfigFault::NoMemory => "",
        }
    }
}

impl fmt::Display for ConfigFault {
    ghost use Rattle.std.specs.Prelude.{Some};
    ghost use Rattle.policy_walk.specs.Fault.{fault_line};

    ghost output = { λ fault. Some (fault_line fault) };

    fn fmt<W: fmt::Write>(&self, f: &mut fmt::Formatter<W>) -> fmt::Result {
        f.write_str(self.title())?;
        f.write_str(self.path())
    }
}

impl Error for ConfigFault {}

impl From<AllocError> for ConfigFault {
    ghost use Rattle.std.specs.Prelude.{◌≡◌};
    ghost use Rattle.policy_walk.specs.declared.fault.ConfigFault.TheVariants.{NoMemory};

    ghost from_gives = { λ _ e. e ≡ NoMemory };

    fn from(_refused: AllocError) -> ConfigFault {
        ConfigFault::NoMemory
    }
}

impl<T: Drop> From<AllocFailed<T>> for ConfigFault {
    ghost use Rattle.std.specs.Prelude.{◌≡◌};
    ghost use Rattle.policy_walk.specs.declared.fault.ConfigFault.TheVariants.{NoMemory};

    ghost from_gives = { λ _ e. e ≡ NoMemory };

    fn from(_refused: AllocFailed<T>) -> ConfigFault {
        ConfigFault::NoMemory
    }
}

impl From<NoMemory> for ConfigFault {
    ghost use Rattle.std.specs.Prelude.{◌≡◌};
    ghost use Rattle.policy_walk.specs.declared.fault.ConfigFault.TheVariants.{NoMemory};

    ghost from_gives = { λ _ e. e ≡ NoMemory };

    fn from(_refused: NoMemory) -> ConfigFault {
        ConfigFault::NoMemory
    }
}
