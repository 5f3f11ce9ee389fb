use base::NoMemory;
use std::error::Error;
use std::fmt;

/// Why the text of a CONNECT can't be read.
#[derive(Clone, Copy, Debug, PartialEq, Eq)]
pub enum ConnectError {
    /// The text is no JSON, or isn't UTF-8.
    NotJson,
    /// The text is JSON, but no object.
    NotObject,
    /// A field that the server knows has a value of another kind.
    FieldType,
    /// Memory could not be had for reading, or for keeping what was read.
    NoMemory,
}

impl fmt::Display for ConnectError {
    ghost use Rattle.std.specs.Prelude.{Some};
    ghost use Rattle.wire_write.specs.connect_opts.Read.{error_text};

    ghost output = { λ error. Some (error_text error) };

    fn fmt<W: fmt::Write>(&self, f: &mut fmt::Formatter<W>) -> fmt::Result {
        match self {
            ConnectError::NotJson => f.write_str("the CONNECT is no JSON"),
            ConnectError::NotObject => f.write_str("the CONNECT is no JSON object"),
            ConnectError::FieldType => f.write_str("a field of the CONNECT has a wrong type"),
            ConnectError::NoMemory => f.write_str("no memory"),
        }
    }
}

impl Error for ConnectError {}

impl From<NoMemory> for ConnectError {
    ghost use Rattle.std.specs.Prelude.{◌≡◌};
    ghost use Rattle.wire_write.specs.declared.connect_opts.error.ConnectError.TheVariants.{NoMemory};

    ghost from_gives = { λ _ e. e ≡ NoMemory };

    fn from(_refused: NoMemory) -> ConnectError {
        ConnectError::NoMemory
    }
}
