// What the CONNECT of a client says of its program.
ghost use Rattle.std.specs.Prelude.{◌≡◌, IfOk, None, option_copied, option_map, take};
ghost use Rattle.serde_json.specs.View.{view};
ghost use Rattle.log_lines.specs.Programs.{member_of, IsProgram};

use crate::notice::Program;
use base::NoMemory;
use json_text::{JsonError, read_json};
use serde_json::Value;
use std::alloc::Global;

/// How many bytes of each text are kept, at most.
const MOST: usize = 128;

/// What the CONNECT of a client says of its program: its name, language and version, of each at most 128 bytes.
#[derive(Debug, Drop)]
pub struct ProgramTexts {
    name: Option<Vec<u8>>,
    lang: Option<Vec<u8>>,
    version: Option<Vec<u8>>,
}

impl ProgramTexts {
    /// Returns what isn't known.
    pub fn unknown() -> ProgramTexts
        ensures { result ≡ record { name = None; lang = None; version = None } }
    {
        ProgramTexts {
            name: None,
            lang: None,
            version: None,
        }
    }

    /// Reads the texts of `name`, `lang` and `version` in the text of a CONNECT. A member that is missing, or is no
    /// text, gives none, and so does a text that is no JSON. `NoMemory` comes where memory could not be had.
    pub fn read(alloc: Global, text: &[u8]) -> Result<ProgramTexts, NoMemory>
        ensures { IfOk result (IsProgram text.now) }
    {
        match read_json(alloc, text) {
            Ok(value) => Ok(ProgramTexts {
                name: text_in(alloc, &value, "name")?,
                lang: text_in(alloc, &value, "lang")?,
                version: text_in(alloc, &value, "version")?,
            }),
            Err(JsonError::NotJson) => Ok(ProgramTexts::unknown()),
            Err(JsonError::NoMemory) => Err(NoMemory),
        }
    }

    /// Returns the texts.
    pub fn texts(&self) -> Program<'_>
        ensures name { option_copied result.name ≡ option_map (λ t. t.items) self.now.name }
        ensures lang { option_copied result.lang ≡ option_map (λ t. t.items) self.now.lang }
        ensures version { option_copied result.version ≡ option_map (λ t. t.items) self.now.version }
    {
        Program {
            name: bytes_of(&self.name),
            lang: bytes_of(&self.lang),
            version: bytes_of(&self.version),
        }
    }
}

/// Returns the beginning of the text that a member is, if it is one.
fn text_in(alloc: Global, value: &Value, key: &str) -> Result<Option<Vec<u8>>, NoMemory>
    ensures { IfOk result (λ text. option_map (λ t. t.items) text ≡ member_of key.now (view value.now)) }
{
    match value.get(key) {
        None => Ok(None),
        Some(found) => match found.as_str() {
            None => Ok(None),
            Some(text) => Ok(Some(front_of(alloc, text.as_bytes())?)),
        },
    }
}

/// Returns the first 128 bytes of a text, or all where it has fewer.
fn front_of(alloc: Global, text: &[u8]) -> Result<Vec<u8>, NoMemory>
    ensures { IfOk result (λ front. front.items ≡ take 128 text.now) }
{
    let most = MOST.min(text.len());
    let front = Vec::from_slice(alloc, &text[..most])?;
    Ok(front)
}

/// Returns the bytes of a text, if there is one.
fn bytes_of(text: &Option<Vec<u8>>) -> Option<&[u8]>
    ensures { option_copied result ≡ option_map (λ t. t.items) text.now }
{
    match text {
        None => None,
        Some(text) => Some(text.as_slice()),
    }
}
