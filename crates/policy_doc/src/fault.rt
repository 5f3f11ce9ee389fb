use std::error::Error;
use std::fmt;

/// A row of an account. Indexes count from 0, those of accounts in the order of the names' bytes.
#[derive(Clone, Copy, Debug, PartialEq, Eq)]
pub struct Place {
    /// The index of the account.
    pub account: usize,
    /// The index of the row in its list.
    pub row: usize,
}

/// Why a document is no policy. Where several hold, the first in this order is answered: of users the first by account and
/// row, then of import rows the first by account and row.
#[derive(Clone, Copy, Debug, PartialEq, Eq)]
pub enum PolicyFault {
    /// The user in this row has the name of a user before it, in the same account or an earlier one.
    DuplicateUser(Place),
    /// The import in this row names an account that isn't there.
    UnknownAccount(Place),
    /// The import in this row names its own account.
    SelfImport(Place),
    /// The import in this row has both a prefix and a template.
    PrefixAndTo(Place),
    /// The template of the import in this row isn't one for its subject, or the mapped pattern has more than 512 tokens.
    BadMapping(Place),
    /// No export of the account that the import in this row names is of its kind, open to the importer, and has all
    /// of its subjects.
    ImportNotExported(Place),
    /// Memory could not be had for a document without fault.
    NoMemory,
}

impl PolicyFault {
    ghost use Rattle.std.specs.Prelude.{◌≡◌};
    ghost use Rattle.policy_doc.specs.Faults.{fault_name, fault_place};

    /// Returns the row that has the fault. Want of memory has none.
    pub fn place(&self) -> Option<Place>
        ensures { result ≡ fault_place self.now }
    {
        match self {
            PolicyFault::DuplicateUser(place) => Some(*place),
            PolicyFault::UnknownAccount(place) => Some(*place),
            PolicyFault::SelfImport(place) => Some(*place),
            PolicyFault::PrefixAndTo(place) => Some(*place),
            PolicyFault::BadMapping(place) => Some(*place),
            PolicyFault::ImportNotExported(place) => Some(*place),
            PolicyFault::NoMemory => None,
        }
    }

    /// Returns the fault's name, as an operator is told it.
    pub fn name(&self) -> &'static str
        ensures { result.now ≡ fault_name self.now }
    {
        match self {
            PolicyFault::DuplicateUser(_) => "DuplicateUser",
            PolicyFault::UnknownAccount(_) => "UnknownAccount",
            PolicyFault::SelfImport(_) => "SelfImport",
            PolicyFault::PrefixAndTo(_) => "PrefixAndTo",
            PolicyFault::BadMapping(_) => "BadMapping",
            PolicyFault::ImportNotExported(_) => "ImportNotExported",
            PolicyFault::NoMemory => "NoMemory",
        }
    }
}

impl fmt::Display for PolicyFault {
    ghost use Rattle.std.specs.Prelude.{Some};
    ghost use Rattle.policy_doc.specs.Faults.{fault_text};

    ghost output = { λ fault. Some (fault_text fault) };

    fn fmt<W: fmt::Write>(&self, f: &mut fmt::Formatter<W>) -> fmt::Result {
        match self {
            PolicyFault::DuplicateUser(_) => f.write_str("two users have the same name"),
            PolicyFault::UnknownAccount(_) => f.write_str("an import names an unknown account"),
            PolicyFault::SelfImport(_) => f.write_str("an account imports from itself"),
            PolicyFault::PrefixAndTo(_) => f.write_str("an import has a prefix and a template"),
            PolicyFault::BadMapping(_) => f.write_str("an import can't be mapped"),
            PolicyFault::ImportNotExported(_) => f.write_str("an import isn't exported"),
            PolicyFault::NoMemory => f.write_str("no memory"),
        }
    }
}

impl Error for PolicyFault {}
