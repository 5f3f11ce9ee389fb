// The JSON value that a text is.
ghost use Rattle.std.specs.Prelude.{◌≡◌, Some, None, Err, IfOk};
ghost use Rattle.serde_json.specs.View.{view};
ghost use Rattle.json_text.specs.Json.{json_of};

use serde_json::Value;
use std::alloc::Global;

/// Why no JSON value was read.
#[derive(Clone, Copy, Debug, PartialEq, Eq)]
pub enum JsonError {
    /// The text isn't the text of one JSON value.
    NotJson,
    /// Memory could not be had.
    NoMemory,
}

/// The JSON value that a text is (RFC 8259), as `serde_json` reads it: of equal keys the last stays.
///
/// `NotJson` comes exactly where the text isn't UTF-8 or isn't one JSON value; `NoMemory` as soon as memory can't be
/// had.
pub fn read_json(alloc: Global, text: &[u8]) -> Result<Value, JsonError>
    ensures value { IfOk result (λ value. json_of text.now ≡ Some (view value)) }
    ensures none { result ≡ Err JsonError.NotJson → json_of text.now ≡ None }
{
    match Value::from_slice(alloc, text) {
        Ok(value) => Ok(value),
        Err(error) => {
            if error.is_memory() {
                Err(JsonError::NoMemory)
            } else {
                Err(JsonError::NotJson)
            }
        }
    }
}
