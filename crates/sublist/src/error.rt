ghost use Rattle.std.specs.Prelude.{◌≡◌};

use base::NoMemory;
use std::error::Error;
use std::fmt;

/// Why a pair is not added.
#[derive(Clone, Copy, Debug, PartialEq, Eq)]
pub enum InsertError {
    /// The pair of this pattern and this id stands already.
    Present,
    /// Memory could not be had, for a pair that doesn't stand.
    NoMemory,
}

impl fmt::Display for InsertError {
    ghost use Rattle.std.specs.Prelude.{Some};
    ghost use Rattle.sublist.specs.Texts.{insert_error_text};

    ghost output = { λ error. Some (insert_error_text error) };

    fn fmt<W: fmt::Write>(&self, f: &mut fmt::Formatter<W>) -> fmt::Result {
        match self {
            InsertError::Present => f.write_str("the subscription stands already"),
            InsertError::NoMemory => f.write_str("no memory"),
        }
    }
}

impl Error for InsertError {}

impl From<NoMemory> for InsertError {
    ghost use Rattle.sublist.specs.declared.error.InsertError.TheVariants.{NoMemory as WantsMemory};

    ghost from_gives = { λ _ e. e ≡ WantsMemory };

    fn from(_refused: NoMemory) -> InsertError {
        InsertError::NoMemory
    }
}

/// The pair that was to be removed doesn't stand.
#[derive(Clone, Copy, Debug, PartialEq, Eq)]
pub struct Absent;

impl fmt::Display for Absent {
    ghost use Rattle.std.specs.Prelude.{Some, codes};

    ghost output = { λ _. Some (codes "no such subscription") };

    fn fmt<W: fmt::Write>(&self, f: &mut fmt::Formatter<W>) -> fmt::Result {
        f.write_str("no such subscription")
    }
}

impl Error for Absent {}
