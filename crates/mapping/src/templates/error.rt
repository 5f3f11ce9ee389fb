ghost use Rattle.std.specs.Prelude.{◌≡◌};

use base::NoMemory;
use std::alloc::AllocError;
use std::error::Error;
use std::fmt;

/// Why there is no mapping. Where several hold, the first in the order of `BadTemplate`, `TooLong`, `TailMismatch`,
/// `WildcardTwice`, `WildcardCount`, `NoMemory` is answered.
#[derive(Clone, Copy, Debug, PartialEq, Eq)]
pub enum MappingError {
    /// The template refers to a wildcard that the pattern hasn't, or not to each that it has.
    WildcardCount,
    /// The template refers to one wildcard twice.
    WildcardTwice,
    /// One of pattern and template ends in `>`, and the other doesn't.
    TailMismatch,
    /// The text is no template.
    BadTemplate,
    /// The local pattern would have more than 512 tokens.
    TooLong,
    /// Memory could not be had for a mapping without fault.
    NoMemory,
}

impl fmt::Display for MappingError {
    ghost use Rattle.std.specs.Prelude.{Some};
    ghost use Rattle.mapping.specs.templates.Fault.{error_text};

    ghost output = { λ error. Some (error_text error) };

    fn fmt<W: fmt::Write>(&self, f: &mut fmt::Formatter<W>) -> fmt::Result {
        match self {
            MappingError::WildcardCount => f.write_str(
                "the template doesn't refer to exactly the wildcards of the subject",
            ),
            MappingError::WildcardTwice => f.write_str("the template refers to a wildcard twice"),
            MappingError::TailMismatch => f.write_str(
                "only one of the template and the subject ends in `>`",
            ),
            MappingError::BadTemplate => f.write_str("the text is no template"),
            MappingError::TooLong => f.write_str("the mapped subject has more than 512 tokens"),
            MappingError::NoMemory => f.write_str("no memory"),
        }
    }
}

impl Error for MappingError {}

impl From<AllocError> for MappingError {
    ghost use Rattle.mapping.specs.declared.templates.error.MappingError.TheVariants.{NoMemory};

    ghost from_gives = { λ _ e. e ≡ NoMemory };

    fn from(_refused: AllocError) -> MappingError {
        MappingError::NoMemory
    }
}

impl From<NoMemory> for MappingError {
    ghost use Rattle.mapping.specs.declared.templates.error.MappingError.TheVariants.{NoMemory};

    ghost from_gives = { λ _ e. e ≡ NoMemory };

    fn from(_refused: NoMemory) -> MappingError {
        MappingError::NoMemory
    }
}
