ghost use Rattle.std.specs.Prelude.{◌≡◌, MatchResult, option_copied};
ghost use Rattle.serde_json.specs.View.{view};
ghost use Rattle.wire_write.specs.declared.connect_opts.error.ConnectError.TheVariants as fault;
ghost use Rattle.wire_write.specs.connect_opts.Read.{Gives};
ghost use Rattle.wire_write.specs.connect_opts.Opts.{json_at, object_at};

use crate::connect_opts::ConnectError;
use crate::connect_opts::field::{text_field, truth_field};
use base::SharedText;
use json_text::JsonError;
use serde_json::Value;
use std::alloc::Global;

/// Who a client says it is, and how the server is to answer.
#[derive(Debug, Drop)]
pub struct ConnectOpts {
    /// The user's name, if the client gave one.
    pub user: Option<SharedText>,
    /// The user's password, empty if the client gave none.
    pub password: SharedText,
    /// Whether each accepted message is answered by `+OK`, as it is if the client doesn't say.
    pub verbose: bool,
    /// Whether the client's own messages come to its own subscriptions, as they do if the client doesn't say.
    pub echo: bool,
    /// Whether the client takes and sends headers, as it doesn't if it doesn't say.
    pub headers: bool,
}

impl ConnectOpts {
    ghost use Rattle.wire_write.specs.connect_opts.Read.{Gives};
    ghost use Rattle.wire_write.specs.connect_opts.Opts.{opts_of};

    /// Reads the text of a CONNECT: one JSON object, of which the server knows the fields `user`, `pass`,
    /// `verbose`, `echo` and `headers`. Of equal keys the last counts. A field that is null counts as absent,
    /// and other fields are ignored.
    ///
    /// `NotJson` where the text is no JSON or isn't UTF-8, else `NotObject` where it is no object, else
    /// `FieldType` where a field above has a value of another kind. `NoMemory` wherever memory could not be had.
    #[tactic(auto, unfolding(crate::specs::connect_opts::Opts::opts_of))]
    pub fn read(alloc: Global, text: &[u8]) -> Result<ConnectOpts, ConnectError>
        ensures { Gives (λ opts. opts) result (opts_of text.now) }
    {
        let value = read_object(alloc, text)?;
        let user = text_field(&value, "user")?;
        let password = text_field(&value, "pass")?;
        let verbose = truth_field(&value, "verbose")?;
        let echo = truth_field(&value, "echo")?;
        let headers = truth_field(&value, "headers")?;
        Ok(ConnectOpts {
            user: keep_option(alloc, user)?,
            password: keep(alloc, password.unwrap_or(""))?,
            verbose: verbose.unwrap_or(true),
            echo: echo.unwrap_or(true),
            headers: headers.unwrap_or(false),
        })
    }
}

/// The JSON object that a text is.
fn read_object(alloc: Global, text: &[u8]) -> Result<Value, ConnectError>
    ensures { Gives (λ value. view value) result (object_at text.now) }
{
    let value = read_json(alloc, text)?;
    if value.is_object() {
        Ok(value)
    } else {
        Err(ConnectError::NotObject)
    }
}

/// The JSON value that a text is.
fn read_json(alloc: Global, text: &[u8]) -> Result<Value, ConnectError>
    ensures { Gives (λ value. view value) result (json_at text.now) }
{
    match json_text::read_json(alloc, text) {
        Ok(value) => Ok(value),
        Err(JsonError::NotJson) => Err(ConnectError::NotJson),
        Err(JsonError::NoMemory) => Err(ConnectError::NoMemory),
    }
}

/// The same text with an owner of its own.
fn keep(alloc: Global, text: &str) -> Result<SharedText, ConnectError>
    ensures { MatchResult result (λ kept. kept ≡ text.now) (λ error. error ≡ fault.NoMemory) }
{
    Ok(SharedText::of(alloc, text.as_bytes())?)
}

/// The same text, if there is one, with an owner of its own.
fn keep_option(alloc: Global, text: Option<&str>) -> Result<Option<SharedText>, ConnectError>
    ensures { MatchResult result (λ kept. kept ≡ option_copied text.entry) (λ error. error ≡ fault.NoMemory) }
{
    match text {
        None => Ok(None),
        Some(text) => Ok(Some(keep(alloc, text)?)),
    }
}
