ghost use Rattle.std.specs.Prelude.{◌≡◌};

use std::alloc::AllocError;
use std::error::Error;
use std::fmt;

/// Why a text is no pattern, or no subject. Where several hold, the first in the order of
/// `Empty`, `BadByte`, `EmptyToken`, `WildcardNotLast`, `TooManyTokens`, `Wildcard`, `NoMemory` is answered.
#[derive(Clone, Copy, Debug, PartialEq, Eq)]
pub enum SubjectError {
    /// The text has no byte.
    Empty,
    /// Two dots are side by side, or one is at an end.
    EmptyToken,
    /// A byte is NUL, TAB, LF, CR or space.
    BadByte,
    /// A token `>` is before the last place.
    WildcardNotLast,
    /// There are more than 512 tokens.
    TooManyTokens,
    /// There was no memory for the text.
    NoMemory,
    /// A token of a subject is `*` or `>`.
    Wildcard,
}

impl SubjectError {
    ghost use Rattle.subjects.specs.Fault.{is_no_memory};

    /// Whether memory could not be had, for a text that has no fault.
    pub fn is_no_memory(self) -> bool
        ensures { result ≡ is_no_memory self }
    {
        matches!(self, SubjectError::NoMemory)
    }
}

impl fmt::Display for SubjectError {
    ghost use Rattle.std.specs.Prelude.{Some};
    ghost use Rattle.subjects.specs.Fault.{error_text};

    ghost output = { λ error. Some (error_text error) };

    fn fmt<W: fmt::Write>(&self, f: &mut fmt::Formatter<W>) -> fmt::Result {
        match self {
            SubjectError::Empty => f.write_str("the subject is empty"),
            SubjectError::EmptyToken => f.write_str("the subject has an empty token"),
            SubjectError::BadByte => f.write_str("the subject has a byte that no token may have"),
            SubjectError::WildcardNotLast => f.write_str(
                "the subject has `>` before its last token",
            ),
            SubjectError::TooManyTokens => f.write_str("the subject has more than 512 tokens"),
            SubjectError::NoMemory => f.write_str("no memory"),
            SubjectError::Wildcard => f.write_str("the subject has a wildcard"),
        }
    }
}

impl Error for SubjectError {}

impl From<AllocError> for SubjectError {
    ghost use Rattle.subjects.specs.declared.error.SubjectError.TheVariants.{NoMemory};

    ghost from_gives = { λ _ e. e ≡ NoMemory };

    fn from(_refused: AllocError) -> SubjectError {
        SubjectError::NoMemory
    }
}
