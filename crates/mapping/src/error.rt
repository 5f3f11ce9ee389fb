ghost use Rattle.std.specs.Prelude.{◌≡◌};

use base::NoMemory;
use std::error::Error;
use std::fmt;

/// Why a subject isn't mapped, though it is one of the pattern's.
#[derive(Clone, Copy, Debug, PartialEq, Eq)]
pub enum MapError {
    /// The other side of its pair has more than 512 tokens.
    TooLong,
    /// Memory could not be had for the other side, which has no more.
    NoMemory,
}

impl fmt::Display for MapError {
    ghost use Rattle.std.specs.Prelude.{Some};
    ghost use Rattle.mapping.specs.Fault.{map_error_text};

    ghost output = { λ error. Some (map_error_text error) };

    fn fmt<W: fmt::Write>(&self, f: &mut fmt::Formatter<W>) -> fmt::Result {
        match self {
            MapError::TooLong => f.write_str("the mapped subject has more than 512 tokens"),
            MapError::NoMemory => f.write_str("no memory"),
        }
    }
}

impl Error for MapError {}

impl From<NoMemory> for MapError {
    ghost use Rattle.mapping.specs.declared.error.MapError.TheVariants.{NoMemory};

    ghost from_gives = { λ _ e. e ≡ NoMemory };

    fn from(_refused: NoMemory) -> MapError {
        MapError::NoMemory
    }
}
