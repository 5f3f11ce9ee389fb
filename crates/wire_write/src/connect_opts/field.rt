//! One field of a CONNECT. A field that is null counts as absent.
ghost use Rattle.std.specs.Prelude.{option_copied};
ghost use Rattle.serde_json.specs.View.{view};
ghost use Rattle.wire_write.specs.connect_opts.Read.{Gives};
ghost use Rattle.wire_write.specs.connect_opts.Opts.{text_field, truth_field};

use crate::connect_opts::ConnectError;
use serde_json::Value;

/// The text that a field has, if the field is there. `FieldType` where it has anything else.
pub(crate) fn text_field<'v>(value: &'v Value, key: &str) -> Result<Option<&'v str>, ConnectError>
    ensures { Gives option_copied result (text_field key.now (view value.now)) }
{
    match value.get(key) {
        None => Ok(None),
        Some(found) => match found.as_str() {
            Some(text) => Ok(Some(text)),
            None => {
                if found.is_null() {
                    Ok(None)
                } else {
                    Err(ConnectError::FieldType)
                }
            }
        },
    }
}

/// The truth value that a field has, if the field is there. `FieldType` where it has anything else.
pub(crate) fn truth_field(value: &Value, key: &str) -> Result<Option<bool>, ConnectError>
    ensures { Gives (λ x. x) result (truth_field key.now (view value.now)) }
{
    match value.get(key) {
        None => Ok(None),
        Some(found) => match found.as_bool() {
            Some(truth) => Ok(Some(truth)),
            None => {
                if found.is_null() {
                    Ok(None)
                } else {
                    Err(ConnectError::FieldType)
                }
            }
        },
    }
}
